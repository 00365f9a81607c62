//! Properties in the order in which they were made: a key that is there keeps its place, a new one goes last, and a removal closes up.
//! A list is fast while it is short, and a table by hashes of its keys at any size.
#![tactic(auto)]

mod field;
mod indexed;
mod list;
mod props;
mod run;
mod table;

pub use field::{Copied, Field};
pub use indexed::IndexedProps;
pub use list::ListProps;
pub use props::{Keys, Props};
pub use run::{PropCall, PropReply, props_run};
pub use table::TableProps;

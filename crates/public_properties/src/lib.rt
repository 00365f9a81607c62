//! The public properties of values: what a module may read of each kind of value, and which keys it has. The guards rest on them.
#![tactic(auto)]

mod functions;
mod having;
mod keys;
mod methods;
mod reading;

pub use functions::function_kind;
pub use having::public_has;
pub use keys::{is_bad, object_key};
pub use reading::public_read;

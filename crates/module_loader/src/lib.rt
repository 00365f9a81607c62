//! Opens the store of a page, makes what its modules may import, and looks up the keys that its events call.
#![tactic(auto)]

mod built_ins;
mod events;
mod imports;
mod opening;

pub use events::{KeyCall, key_call};
pub use imports::add_imports_of;
pub use opening::{Opened, open_page};

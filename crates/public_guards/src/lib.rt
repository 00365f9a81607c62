//! The guards that are rows of the tables, among the objects of a page. What an object is touched at is told by the natives that a
//! guard is among.
#![tactic(auto)]

pub mod as_simple_func;
pub mod call_with;
pub mod construct_with;
pub mod delete_pub;
pub mod in_pub;
pub mod instance_of;
pub mod key;
pub mod keys_pub;
pub mod read_pub;
pub mod set_pub;

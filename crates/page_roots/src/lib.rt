//! The roots that a page grants to its modules, and their numbers.
//!
//! The definition is in specs/Roots.antt. Roots are kept in their order, and found by a table of their ids.
#![tactic(auto)]

mod granted;
mod roots;

pub use granted::granted_roots;
pub use roots::Roots;

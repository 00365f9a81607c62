//! The names of a program of Cajita: which of them mean something of their own, what each body declares, and what a name is at a part
//! (ES3 7.6, 10.1.3, 10.1.4).
#![tactic(auto)]

pub mod declarations;
pub mod once;
pub mod scope;
pub mod tabled;
pub mod words;

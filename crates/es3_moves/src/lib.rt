//! What the machine that runs ES3 texts is made of (ECMA-262 third edition, 10): the trees that it runs, the frames that wait, the moves that it makes,
//! what texts make, and the trait of the functions that are no texts.
//!
//! There is little code: what each type stands for is said in specs/, as plans of `es3_language`.
#![tactic(auto)]

pub mod code;
pub mod frame;
pub mod natives;
pub mod texts;

pub use es3_language::Touch;

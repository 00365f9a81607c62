//! What guarded programs are made of: names of their own, calls of the runtime, temporaries, members that are held in them, the loop over
//! the keys of an object, and the variables at the head of a body.
#![tactic(auto)]

pub mod heads;
pub mod held;
pub mod keys;
pub mod names;
pub mod temporaries;

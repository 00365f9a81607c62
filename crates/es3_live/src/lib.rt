//! Objects that are named are there: what it means that a store, a running text and natives name live objects alone.
//!
//! The definitions stand in specs/; there is no code. The functions here have no body: each one's contract is a law.
#![tactic(auto)]

ghost use Rattle.es3_heap.specs.Making.{new_objects};
ghost use Rattle.es3_live.specs.Live.{AreClosed};

/// A store as it begins names live objects alone.
pub fn a_new_store_is_closed()
    ensures { AreClosed new_objects }
{}

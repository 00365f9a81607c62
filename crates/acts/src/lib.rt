//! What the forms of a language do, over values that no form can look into.
//!
//! The definitions stand in specs/: a form is an act (specs/Acts.antt), which hands values to its parts and asks the world about them by their places
//! alone; what is asked of the world's answers, so that something holds of every run of every form, is specs/Laws.antt. There is no code. Two theorems for
//! every language of forms stand in proofs/: `run_kept` (what each answer keeps, every run keeps, wherever it was cut) and `run_same` (what each answer gives
//! alike in two stores that are alike, every run gives alike). They go over records of properties, so that their instances are the contracts.
#![tactic(auto)]

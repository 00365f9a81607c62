//! What a page is to do, one deed after another, and how the log tells of it: the words that both meanings of a page share.
//!
//! The definitions stand in specs/: deeds (specs/Deeds.antt), and what the log shows of a value and of the end of a turn (specs/Shown.antt). There is no code.
#![tactic(auto)]

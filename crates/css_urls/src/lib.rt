//! What a table of URLs answers for sheets of CSS: definitions alone (specs/Answers.antt).
#![tactic(auto)]

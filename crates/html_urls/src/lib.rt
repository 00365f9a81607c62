//! What a table of URLs answers for documents of HTML: definitions alone (specs/Answers.antt).
#![tactic(auto)]

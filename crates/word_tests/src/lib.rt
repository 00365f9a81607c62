//! Worked rows of words, and the command that they are.
#![tactic(auto)]

#[cfg(test)]
mod word_rows;

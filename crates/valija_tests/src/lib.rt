//! Worked rows of Valija: sources with the first rule that each breaks, and sources with the text of what they are lowered to. They stand in a crate of their
//! own, so that no crate below is proved a second time for its rows.
#![tactic(auto)]

#[cfg(test)]
mod lowered_rows;
#[cfg(test)]
mod lowered_tables;
#[cfg(test)]
mod reading;
#[cfg(test)]
mod refusal_rows;
#[cfg(test)]
mod refusal_tables;

//! Worked rows of the commands: sources, with what is written for them and the status.
#![tactic(auto)]

#[cfg(test)]
mod cajole_rows;
#[cfg(test)]
mod format_rows;
#[cfg(test)]
mod input_rows;
#[cfg(test)]
mod source_rows;

//! Worked rows of texts that run as they stand: each form of ECMAScript 3, with the log or the line that it gives.
#![tactic(auto)]

#[cfg(test)]
mod example_rows;
#[cfg(test)]
mod program_end_tables;
#[cfg(test)]
mod program_rows;
#[cfg(test)]
mod program_statement_tables;
#[cfg(test)]
mod program_tables;
#[cfg(test)]
mod run_rows;

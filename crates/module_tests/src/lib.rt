//! Worked rows of modules with functions, calls and loops over keys: what their load gives, their log, their cajoled text, and their refusals.
#![tactic(auto)]

#[cfg(test)]
mod builtin_rows;
#[cfg(test)]
mod cajoled_rows;
#[cfg(test)]
mod call_rows;
#[cfg(test)]
mod ending_rows;
#[cfg(test)]
mod function_rows;
#[cfg(test)]
mod log_rows;
#[cfg(test)]
mod loop_rows;
#[cfg(test)]
mod refusal_rows;
#[cfg(test)]
mod specified_rows;

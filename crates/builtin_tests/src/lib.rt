//! Worked rows of the built-in functions in texts that run as they stand, with the log or the line that each text gives.
#![tactic(auto)]

#[cfg(test)]
mod array_rows;
#[cfg(test)]
mod error_rows;
#[cfg(test)]
mod function_rows;
#[cfg(test)]
mod kept_rows;
#[cfg(test)]
mod number_rows;
#[cfg(test)]
mod object_rows;
#[cfg(test)]
mod runtime_rows;
#[cfg(test)]
mod specified_rows;
#[cfg(test)]
mod text_rows;

//! Modules of Valija, each with its log, and pages of modules in both dialects, each with what it writes.
#![tactic(auto)]

#[cfg(test)]
mod call_rows;
#[cfg(test)]
mod error_rows;
#[cfg(test)]
mod key_rows;
#[cfg(test)]
mod object_rows;
#[cfg(test)]
mod page_rows;

//! Hostile modules: each tries to get what it wasn't given, beside a victim in one page, and its exact log shows that it got nothing.
#![tactic(auto)]

#[cfg(test)]
mod call_rows;
#[cfg(test)]
mod key_rows;
#[cfg(test)]
mod source_rows;
#[cfg(test)]
mod write_rows;

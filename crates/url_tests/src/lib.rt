//! Rules for URLs: what a table answers, and what stands in the place of a text that names a URL.
#![tactic(auto)]

#[cfg(test)]
mod embedders;
#[cfg(test)]
mod large_rows;
#[cfg(test)]
mod reading_rows;
#[cfg(test)]
mod reading_tables;
#[cfg(test)]
mod rules;
#[cfg(test)]
mod verdict_rows;
#[cfg(test)]
mod verdict_tables;

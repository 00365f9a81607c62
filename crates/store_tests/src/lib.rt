//! Worked rows of the store: properties as a list and as a table, and the properties of objects and arrays.
#![tactic(auto)]

#[cfg(test)]
mod form_rows;
#[cfg(test)]
mod object_rows;

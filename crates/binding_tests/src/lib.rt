//! Pages and their documents: the first fault in what is granted and asked for, and the order of the roots.
#![tactic(auto)]

#[cfg(test)]
mod bound_rows;
#[cfg(test)]
mod rows;

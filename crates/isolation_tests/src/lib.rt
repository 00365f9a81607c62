//! Strangers can't hear each other: pairs of pages that agree on a group of modules and differ in all else, pairs that nearly agree, and modules that reach for more than they have.
#![tactic(auto)]

#[cfg(test)]
mod agreeing_rows;
#[cfg(test)]
mod mixed_rows;
#[cfg(test)]
mod near_rows;
#[cfg(test)]
mod solo_rows;

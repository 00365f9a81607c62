//! A service of an embedder: its rows, and what picks from them without a look at them.
#![tactic(auto)]

#[cfg(test)]
mod rates;

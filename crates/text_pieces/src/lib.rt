//! A long text in pieces, which texts share: what is put before or behind it is copied, but the text is not.
#![tactic(auto)]

mod pieces;

pub use pieces::Pieces;

//! What is read of a text of CSS so far, and how a token ends.
//!
//! The places, states and tokens are those of css_grammar: each function here says what it makes of them.
#![tactic(auto)]

mod classes;
mod words;
mod work;

pub use classes::{Class, append, classify, lower};
pub use words::{
    close, join, keep_number, push_declaration, push_rule, push_selector, push_value, put, restart,
    restart_two,
};
pub use work::{Mode, Opener, Spot, Tail, Use, Where, Work};

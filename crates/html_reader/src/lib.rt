//! A text of HTML as a list of trees (HTML 4.01).
#![tactic(auto)]

mod reading;

pub use html_tree::{Attr, Html, HtmlError};
pub use reading::read_html;

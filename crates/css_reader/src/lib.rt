//! A text of CSS as a sheet (CSS 2.1).
#![tactic(auto)]

mod decode;
mod reading;

pub use css_tree::{Css, CssError, CssRule};
pub use reading::read_css;

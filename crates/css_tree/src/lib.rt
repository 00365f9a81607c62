//! Sheets of CSS, and why a text of CSS is refused.
#![tactic(auto)]

ghost use Rattle.std.specs.Prelude.{◌≡◌};
ghost use Rattle.css_grammar.specs.Sheets as sheets;
ghost use Rattle.css_tree.specs.Views.{sheet_of, rules_of};

use caja_units::{Memory, Units};
use thiserror::Error;

/// A rule (CSS 2.1, 4.1.7): its selectors as they are printed, and its declarations in order, each the name of a property and its values as they are printed.
#[derive(Debug, Drop)]
pub struct CssRule {
    pub selectors: Vec<Units>,
    pub decls: Vec<(Units, Vec<Units>)>,
}

/// A sheet: its rules in order.
#[derive(Debug, Drop)]
pub struct Css {
    pub rules: Vec<CssRule>,
}

/// Why a text of CSS is refused. Each place is a byte of the text, from 0.
#[derive(Debug, Drop, Error)]
pub enum CssError {
    /// The bytes are not UTF-8 from here on; or the first character with which no sheet goes on; or the end of the text, where something is wanting.
    #[error("no sheet goes on with what stands at byte {0}")]
    Syntax(u32),
    /// That character is a backslash: no escapes are read.
    #[error("an escape begins at byte {0}")]
    Escape(u32),
    /// That character is an `@`: no at-rules are read.
    #[error("an at-rule begins at byte {0}")]
    AtRule(u32),
    /// Memory is wanting.
    #[error("out of memory")]
    Memory,
}

impl From<Memory> for CssError {
    ghost use Rattle.std.specs.Prelude.{◌≡◌};
    ghost use Rattle.css_tree.specs.declared.CssError.TheVariants.{Memory};

    ghost from_gives = { λ _ e. e ≡ Memory };

    fn from(_error: Memory) -> CssError {
        CssError::Memory
    }
}

/// The sheet of these rules.
pub fn make_sheet(rules: Vec<CssRule>) -> Css
    ensures { sheet_of result ≡ rules_of rules.items }
{
    Css { rules }
}

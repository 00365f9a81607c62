//! The sheets of a page: each is read, what may stand in a page is kept of it behind a scope, and that is written; or what refuses it.
//!
//! The definitions stand in specs/Sheets.antt. The functions without a body are laws.
#![tactic(auto)]

ghost use Rattle.std.specs.Prelude.{◌≡◌, ℕ, List, IfOk, option_copied, map};
ghost use Rattle.css_kept.specs.Table.{Answers as UrlAnswers};
ghost use Rattle.css_reader.specs.Answers.{RefusedSo};
ghost use Rattle.css_urls.specs.Answers.{for_sheets};
ghost use Rattle.url_rule.specs.Table.{rows_of};
ghost use Rattle.page_manifest.specs.Page as spec;
ghost use Rattle.page_manifest.specs.View.{style as style_told};
ghost use Rattle.page_styles.specs.Sheets.{scope_of, style_of, styles_of, IsStyle};
ghost use Rattle.page_styles.specs.Answered.{Refuses, Answers};

use caja_units::{Memory, Units};
use css_cajoler::{clean_css, print_css};
use css_reader::{CssError, read_css};
use page_manifest::Style;
use std::alloc::{AllocFailed, Global};
use thiserror::Error;
use url::Url;
use url_rule::{Asks, UriRule};

/// Why a sheet is refused.
#[derive(Debug, Drop, Error)]
pub enum StyleError {
    /// The number of the refusal among those of `CssError`, from 1, and the byte.
    #[error("refusal {0} of the CSS at byte {1}")]
    Css(u8, u32),
    /// Memory is wanting.
    #[error("out of memory")]
    Memory,
}

impl From<Memory> for StyleError {
    ghost use Rattle.std.specs.Prelude.{◌≡◌};
    ghost use Rattle.page_styles.specs.declared.StyleError.TheVariants.{Memory};

    ghost from_gives = { λ _ e. e ≡ Memory };

    fn from(_error: Memory) -> StyleError {
        StyleError::Memory
    }
}

impl<T: Drop> From<AllocFailed<T>> for StyleError {
    ghost use Rattle.std.specs.Prelude.{◌≡◌};
    ghost use Rattle.page_styles.specs.declared.StyleError.TheVariants.{Memory};

    ghost from_gives = { λ _ e. e ≡ Memory };

    fn from(_error: AllocFailed<T>) -> StyleError {
        StyleError::Memory
    }
}

/// What is told of a refused text of CSS.
fn no_sheet(error: CssError) -> StyleError
    ensures { (bytes : List ℕ) → RefusedSo error bytes → Refuses result bytes }
{
    match error {
        CssError::Syntax(at) => StyleError::Css(1, at),
        CssError::Escape(at) => StyleError::Css(2, at),
        CssError::AtRule(at) => StyleError::Css(3, at),
        CssError::Memory => StyleError::Memory,
    }
}

/// `#` and the id of the element that a sheet is for.
fn scope(alloc: Global, style: &Style) -> Result<Units, Memory>
    ensures { IfOk result (λ scope. scope ≡ scope_of (style_told style.now)) }
{
    Units::from_ascii(alloc, b"#")?.join(alloc, &style.root)
}

/// What is kept of a sheet, as it is written. There is no memory for one of 2^32 bytes.
fn style_text<F: Asks>(
    alloc: Global,
    rule: &UriRule<F>,
    base: Option<&Url>,
    style: &Style,
) -> Result<Vec<u8>, StyleError>
    ensures { Answers (λ text. text.items) result (style_of (for_sheets (rows_of rule.now.table.items) (option_copied base.entry)) (style_told style.now)) }
{
    if style.css.len() > u32::MAX as usize {
        return Err(StyleError::Memory);
    }
    match read_css(alloc, &style.css) {
        Err(error) => Err(no_sheet(error)),
        Ok(sheet) => {
            let scope = scope(alloc, style)?;
            let kept = clean_css(alloc, &sheet, rule, base, &scope)?;
            Ok(print_css(alloc, &kept)?)
        }
    }
}

/// What is kept of each sheet of a page, as it is written, behind `#` and the id of its element. In the place of each URL stands what the rule answers for it, joined to the base where there is one.
///
/// # Errors
///
/// `Css` for the first sheet that is refused, and `Memory` only where memory is wanting.
pub fn style_texts<F: Asks>(
    alloc: Global,
    rule: &UriRule<F>,
    base: Option<&Url>,
    styles: &[Style],
) -> Result<Vec<Vec<u8>>, StyleError>
    ensures { Answers (λ texts. map (λ text. text.items) texts.items) result (styles_of (for_sheets (rows_of rule.now.table.items) (option_copied base.entry)) (map style_told styles.now)) }
{
    let mut texts = Vec::new(alloc);
    for style in styles {
        texts.push(style_text(alloc, rule, base, style)?)?;
    }
    Ok(texts)
}

/// Something is written for a sheet just where it is what is kept of the rules that its bytes spell, and it is refused just where the grammar refuses it.
#[tactic(auto, using(crate::proofs::Exact::is_style))]
pub fn a_sheet_is_written_or_refused()
    ensures { (a : UrlAnswers) (s : spec.Style) → IsStyle a s }
{}

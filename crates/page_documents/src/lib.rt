//! The document of a page: its HTML is read and cleaned, and so are its sheets, the ids that the page speaks of are found in what is kept, and the document is made of that.
//!
//! The definitions stand in specs/: what a text of HTML is cleaned to (specs/Html.antt), which document a page has, or why it has none (specs/Documents.antt), and what holds of each such document
//! (specs/Ready.antt). The functions without a body are laws.
#![tactic(auto)]

ghost use Rattle.std.specs.Prelude.{◌≡◌, ◌<◌, ◌^◌, ℕ, List, Ok, length, map, option_copied};
ghost use Rattle.html_kept.specs.Table.{Answers as UrlAnswers};
ghost use Rattle.html_tree.specs.Views.{trees};
ghost use Rattle.html_tree.specs.declared.HtmlError.{HtmlError as HtmlRefusal};
ghost use Rattle.html_reader.specs.Answers.{RefusedSo};
ghost use Rattle.html_urls.specs.Answers.{for_documents};
ghost use Rattle.url_rule.specs.Table.{rows_of};
ghost use Rattle.page_manifest.specs.Page as spec;
ghost use Rattle.page_manifest.specs.View.{page as page_of};
ghost use Rattle.page_documents.specs.Html.{clean_of, IsHtml};
ghost use Rattle.page_documents.specs.Documents.{page_urls, styles_outcome, IsOutcome};
ghost use Rattle.page_documents.specs.Ready.{DocumentsAreReady};
ghost use Rattle.page_documents.specs.Answered.{Refuses, Answers, CleanOr};

use caja_units::Memory;
use doc_tree::Document;
use html_cajoler::{Clean, clean_html};
use html_reader::read_html;
use html_tree::HtmlError;
use page_binding::bind_page;
use page_manifest::{Page, PageError};
use page_roots::Roots;
use page_styles::{StyleError, style_texts};
use std::alloc::Global;
use thiserror::Error;
use url::Url;
use url_rule::{Asks, UriRule};

/// Why a page has no document.
#[derive(Debug, Drop, Error)]
pub enum DocumentError {
    /// Its HTML is refused: the number of the refusal among those of `HtmlError`, from 1, and the byte.
    #[error("refusal {0} of the HTML at byte {1}")]
    Html(u8, u32),
    /// One of its sheets is: the number of the refusal among those of `CssError`, from 1, and the byte.
    #[error("refusal {0} of the CSS at byte {1}")]
    Css(u8, u32),
    /// An id that the page speaks of is: the number of the fault of a manifest, and its place.
    #[error("fault {0} of the ids at {1}")]
    Ids(u8, u32),
    /// Memory is wanting.
    #[error("out of memory")]
    Memory,
}

impl From<Memory> for DocumentError {
    ghost use Rattle.std.specs.Prelude.{◌≡◌};
    ghost use Rattle.page_documents.specs.declared.DocumentError.TheVariants.{Memory};

    ghost from_gives = { λ _ e. e ≡ Memory };

    fn from(_error: Memory) -> DocumentError {
        DocumentError::Memory
    }
}

/// The document with which a page begins, the roots that the page grants, and what is written for its sheets, in UTF-8.
#[derive(Debug, Drop)]
pub struct PageDocument {
    pub roots: Roots,
    pub document: Document,
    pub styles: Vec<Vec<u8>>,
}

/// What is told of a refused text of HTML.
fn no_html(error: HtmlError) -> DocumentError
    ensures { (bytes : List ℕ) → RefusedSo error bytes → Refuses result bytes }
{
    match error {
        HtmlError::NotUtf8(at) => DocumentError::Html(1, at),
        HtmlError::OpenTag(at) => DocumentError::Html(2, at),
        HtmlError::Mismatch(at) => DocumentError::Html(3, at),
        HtmlError::BadReference(at) => DocumentError::Html(4, at),
        HtmlError::BadAttr(at) => DocumentError::Html(5, at),
        HtmlError::TooDeep(at) => DocumentError::Html(6, at),
        HtmlError::Memory => DocumentError::Memory,
    }
}

/// What is kept of a text of HTML. There is no memory for one of 2^32 bytes.
fn cleaned<F: Asks>(
    alloc: Global,
    rule: &UriRule<F>,
    base: Option<&Url>,
    html: &[u8],
) -> Result<Clean, DocumentError>
    ensures { CleanOr (for_documents (rows_of rule.now.table.items) (option_copied base.entry)) result html.now }
{
    if html.len() > u32::MAX as usize {
        return Err(DocumentError::Memory);
    }
    match read_html(alloc, html) {
        Err(error) => Err(no_html(error)),
        Ok(list) => Ok(clean_html(alloc, &list, rule, base)?),
    }
}

/// The document of a page whose HTML and whose sheets are cleaned.
#[tactic(auto, using(crate::proofs::Answered::ids_refused, crate::proofs::Answered::is_made))]
fn bound(
    alloc: Global,
    page: &Page,
    clean: &Clean,
    styles: Vec<Vec<u8>>,
) -> Result<PageDocument, DocumentError>
    requires sheets { length (page_of page.now).styles < 2 ^ 32 }
    requires modules { length (page_of page.now).modules < 2 ^ 32 }
    requires events { length (page_of page.now).events < 2 ^ 32 }
    requires clean { clean_of (page_urls (page_of page.now)) (page_of page.now).html ≡ Ok (trees clean.now) }
    requires styled { styles_outcome (page_of page.now) ≡ Ok (map (λ s. s.items) styles.items) }
    ensures { Answers (page_of page.now) result }
{
    match bind_page(alloc, page, clean) {
        Err(PageError::Fault(number, place)) => Err(DocumentError::Ids(number, place)),
        Err(PageError::Memory) => Err(DocumentError::Memory),
        Ok(roots) => {
            let ids = roots.ids(alloc)?;
            let document = Document::from_clean(alloc, clean, &ids)?;
            Ok(PageDocument {
                roots,
                document,
                styles,
            })
        }
    }
}

/// The document of a page whose HTML is cleaned.
#[tactic(auto, using(crate::proofs::Answered::style_refused))]
fn styled<F: Asks>(
    alloc: Global,
    rule: &UriRule<F>,
    page: &Page,
    clean: &Clean,
) -> Result<PageDocument, DocumentError>
    requires rule { rows_of rule.now.table.items ≡ (page_of page.now).rule }
    requires sheets { length (page_of page.now).styles < 2 ^ 32 }
    requires modules { length (page_of page.now).modules < 2 ^ 32 }
    requires events { length (page_of page.now).events < 2 ^ 32 }
    requires clean { clean_of (page_urls (page_of page.now)) (page_of page.now).html ≡ Ok (trees clean.now) }
    ensures { Answers (page_of page.now) result }
{
    match style_texts(alloc, rule, page.base.as_ref(), &page.styles) {
        Err(StyleError::Css(number, at)) => Err(DocumentError::Css(number, at)),
        Err(StyleError::Memory) => Err(DocumentError::Memory),
        Ok(styles) => bound(alloc, page, clean, styles),
    }
}

/// The document with which a page begins, and what is written for its sheets: its HTML and its sheets are read and cleaned, in which the page's rule is asked for each URL, and each id that the page
/// speaks of is found in what is kept of the HTML.
///
/// # Errors
///
/// `Html` where its HTML is refused, `Css` for the first of its sheets that is, `Ids` with the first fault of its ids, and `Memory` only where memory is wanting.
#[tactic(auto, using(crate::proofs::Answered::html_refused))]
pub fn document_of<F: Asks>(
    alloc: Global,
    rule: &UriRule<F>,
    page: &Page,
) -> Result<PageDocument, DocumentError>
    requires rule { rows_of rule.now.table.items ≡ (page_of page.now).rule }
    requires sheets { length (page_of page.now).styles < 2 ^ 32 }
    requires modules { length (page_of page.now).modules < 2 ^ 32 }
    requires events { length (page_of page.now).events < 2 ^ 32 }
    ensures { Answers (page_of page.now) result }
{
    match cleaned(alloc, rule, page.base.as_ref(), &page.html) {
        Err(error) => Err(error),
        Ok(clean) => styled(alloc, rule, page, &clean),
    }
}

/// A text of HTML is cleaned just where it spells trees, to what is kept of them, and refused just where the grammar refuses it.
#[tactic(auto, using(crate::proofs::Html::is_html))]
pub fn a_text_is_cleaned_or_refused()
    ensures { (a : UrlAnswers) (bytes : List ℕ) → IsHtml a bytes }
{}

/// A page has the document that its HTML is cleaned to, where no sheet is refused and its ids are found in that, and is refused otherwise.
#[tactic(auto, using(crate::proofs::Outcome::is_outcome))]
pub fn a_page_has_a_document_or_none()
    ensures { (p : spec.Page) → IsOutcome p }
{}

/// The document with which a page begins is one that is reached, has as many roots as the page grants, and a node for each.
pub fn documents_are_ready()
    ensures { DocumentsAreReady }
{}

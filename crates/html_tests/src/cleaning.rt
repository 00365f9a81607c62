//! What is kept of texts, as it is written.

use html_cajoler::{clean_html, print_html};
use html_reader::read_html;
use std::alloc::Global;
use std::test::Fail;
use url::Url;
use url_rule::{UriRow, UriRule};

/// What is kept of a text, as it is written, or why the text is refused.
fn kept(
    alloc: Global,
    text: &[u8],
    urls: &UriRule<Vec<UriRow>>,
    base: Option<&Url>,
) -> Result<Vec<u8>, Fail> {
    u32::try_from(text.len())?;
    match read_html(alloc, text) {
        Ok(document) => {
            let clean = clean_html(alloc, &document, urls, base)?;
            Ok(print_html(alloc, &clean)?)
        }
        Err(refusal) => {
            let shown = format!(in alloc; "{refusal:?}")?;
            Ok(shown.into_bytes())
        }
    }
}

fn read_is_refused(alloc: Global, text: &[u8]) -> Result<bool, Fail> {
    u32::try_from(text.len())?;
    Ok(read_html(alloc, text).is_err())
}

/// Whether this is kept of a text, and is kept whole when it is read again.
pub fn is_kept(
    alloc: Global,
    text: &[u8],
    wanted: &[u8],
    urls: &UriRule<Vec<UriRow>>,
    base: Option<&Url>,
) -> Result<bool, Fail> {
    let first = kept(alloc, text, urls, base)?;
    if first.as_slice() != wanted {
        return Ok(false);
    }
    if read_is_refused(alloc, text)? {
        return Ok(true);
    }
    Ok(kept(alloc, &first, urls, base)?.as_slice() == wanted)
}

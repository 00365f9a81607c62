//! A rule: a table, and what answers as the table does.

ghost use Rattle.std.specs.Prelude.{◌≡◌, ℕ, List, IfOk, option_copied};
ghost use Rattle.url.specs.Parser.{Gives, parse_url};
ghost use Rattle.url_rule.specs.declared.ask.UriKind.{UriKind};
ghost use Rattle.url_rule.specs.Table.{rows_of, verdict};
ghost use Rattle.url_rule.specs.Reading.{may_be_named, of_url, read};

use crate::ask::{UriAsk, UriKind, UriRow, UriVerdict};
use crate::asks::Asks;
use crate::table::copy_rows;
use crate::texts::{all_may_stand, is_web, stays, utf8};
use caja_units::{Memory, Units};
use std::alloc::Global;
use url::{ParseError, ParseResult, Url};

/// A table of rows, and what the embedder answers asks by. It keeps that this may be asked about every ask and answers what the table answers.
#[derive(Drop)]
pub struct UriRule<F: Asks> {
    pub table: Vec<UriRow>,
    pub by: F,
    ghost answers: { (k : UriKind) (scheme host : List ℕ) → F.says by k scheme host ≡ verdict (rows_of table.items) k scheme host },
}

/// The URL that a text names, joined to the base where there is one.
fn parse(alloc: Global, text: &str, base: Option<&Url>) -> ParseResult<Url>
    ensures { Gives result (parse_url (option_copied base.entry) text.now) }
{
    match base {
        Some(base) => base.join(text),
        None => Url::parse(alloc, text),
    }
}

impl<F: Asks> UriRule<F> {
    /// The rule of a table that `by` answers as.
    pub fn new(table: Vec<UriRow>, by: F) -> UriRule<F>
        requires { (k : UriKind) (scheme host : List ℕ) → F.says by k scheme host ≡ verdict (rows_of table.items) k scheme host }
        ensures table { result.table.items ≡ table.items }
        ensures by { result.by ≡ by }
    {
        UriRule { table, by }
    }

    /// Allow exactly where a row of the table matches.
    pub fn verdict(&self, a: &UriAsk) -> UriVerdict
        ensures { result ≡ verdict (rows_of self.now.table.items) a.now.kind a.now.scheme.now a.now.host.now }
    {
        self.by.ask(a)
    }

    /// The rows of the table once more.
    ///
    /// # Errors
    ///
    /// `Memory` where memory is wanting.
    pub fn rows(&self, alloc: Global) -> Result<Vec<UriRow>, Memory>
        ensures { IfOk result (λ rows. rows_of rows.items ≡ rows_of self.now.table.items) }
    {
        copy_rows(alloc, &self.table)
    }

    /// Whether a URL may be named.
    fn allows(&self, kind: UriKind, url: &Url) -> bool
        ensures { result ≡ may_be_named (rows_of self.now.table.items) kind url.now }
    {
        let scheme = url.scheme();
        if !is_web(scheme) {
            return false;
        }
        let Some(host) = url.host_str() else {
            return false;
        };
        self.verdict(&UriAsk { kind, scheme, host }) == UriVerdict::Allow
    }

    /// What is answered for a URL.
    fn answer(&self, alloc: Global, kind: UriKind, url: &Url) -> Result<Option<Units>, Memory>
        ensures { IfOk result (λ o. o ≡ of_url (rows_of self.now.table.items) kind url.now) }
    {
        let text = url.as_str();
        if self.allows(kind, url) && all_may_stand(kind, text) {
            return Ok(Some(Units::from_ascii(alloc, text.as_bytes())?));
        }
        Ok(None)
    }

    /// What stands in the place of a text that names a URL, or None where it is dropped. For a link, `#` and letters, digits, `-` and `_` behind it stays as it is.
    /// Else it is the text of the URL that is read, joined to the base where there is one, and None exactly where there is no such URL, where its scheme is neither
    /// `http` nor `https`, where it has no host, where no row of the table matches, or, for a sheet, where its text has a backslash. A URL past 4 GB is want of
    /// memory.
    ///
    /// # Errors
    ///
    /// `Memory` where memory is wanting, or a URL is longer than 4 GB.
    pub fn read(
        &self,
        alloc: Global,
        kind: UriKind,
        text: &Units,
        base: Option<&Url>,
    ) -> Result<Option<Units>, Memory>
        ensures { IfOk result (λ o. o ≡ read (rows_of self.now.table.items) kind (option_copied base.entry) text.now) }
    {
        if stays(kind, text) {
            return Ok(Some(text.copy(alloc)?));
        }
        let text = utf8(alloc, text)?;
        match parse(alloc, text.as_str(), base) {
            Ok(url) => self.answer(alloc, kind, &url),
            Err(ParseError::Overflow) => Err(Memory),
            Err(ParseError::OutOfMemory) => Err(Memory),
            Err(_) => Ok(None),
        }
    }
}

impl UriRule<Vec<UriRow>> {
    /// The rule of a table that is asked itself.
    ///
    /// # Errors
    ///
    /// `Memory` where memory is wanting.
    pub fn of_table(alloc: Global, table: Vec<UriRow>) -> Result<UriRule<Vec<UriRow>>, Memory>
        ensures { IfOk result (λ rule. rule.table.items ≡ table.items) }
    {
        let by = copy_rows(alloc, &table)?;
        Ok(UriRule::new(table, by))
    }
}

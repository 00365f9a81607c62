//! Tables of pages: a row is a title behind `# `, the words, the manifest, a line `⇒`, and what is written.

use crate::manifests::manifest_in;
use crate::runs::run;
use caja_cli::Status;
use caja_units::Memory;
use std::alloc::Global;
use std::str;
use std::test::Fail;

/// The most modules that a page has.
pub const MOST_MODULES: u32 = 64;

/// A row of a table; what is written stands without its last line end.
#[derive(Clone, Copy)]
struct PageRow<'a> {
    title: &'a str,
    words: &'a str,
    manifest: &'a str,
    wanted: &'a str,
}

/// The parts of a row.
fn page_row(row: &str) -> Option<PageRow<'_>> {
    let (title, rest) = row.split_once("\n")?;
    let (words, rest) = rest.split_once("\n")?;
    let (manifest, wanted) = rest.split_once("\n⇒\n")?;
    Some(PageRow {
        title,
        words,
        manifest,
        wanted: wanted.strip_suffix("\n").unwrap_or(wanted),
    })
}

/// The status that goes with the last line of an output.
fn status_of(written: &str) -> Option<Status> {
    let last = match written.rsplit_once("\n") {
        Some((_before, last)) => last,
        None => written,
    };
    match last {
        "end done" => Some(Status::Done),
        "end number" => Some(Status::Number),
        "end depth" => Some(Status::Depth),
        "end convert" => Some(Status::Convert),
        "end steps" => Some(Status::Steps),
        _other if last.starts_with("refused ") => Some(Status::Refused),
        _other => None,
    }
}

/// What stands behind the text of a module, which begins with its name and its length.
pub fn behind_text(module: &str) -> Option<&str> {
    let (head, rest) = module.split_once("\n")?;
    let (_name, length) = head.split_once(" ")?;
    let length: usize = length.parse().ok()?;
    rest.get(length..)?.strip_prefix("\n")
}

/// What stands behind the texts of all modules, if each has the length that is told.
pub fn behind_texts(output: &str) -> Option<&str> {
    let mut rest = output;
    for _module in 0..MOST_MODULES {
        match rest.strip_prefix("module ") {
            Some(module) => rest = behind_text(module)?,
            None => return Some(rest),
        }
    }
    Some(rest)
}

/// The log of a page of one module, `main`, without a document, if it ends done.
fn log_of_main(output: &str) -> Option<&str> {
    let log = behind_texts(output)?.strip_prefix("group main\n")?;
    log.strip_suffix("\nhtml 0\n\nend done\n")
}

/// Whether the page of a module in this language ends done with the log that its row tells, with a bar between its lines.
fn is_logged(alloc: Global, language: &str, row: &str) -> Result<bool, Memory> {
    let (source, wanted) = row.split_once(" ⇒ ").unwrap_or((row, ""));
    let manifest = manifest_in(alloc, language, source)?;
    let (status, output) = run(alloc, "page", manifest.as_bytes())?;
    let log = match str::from_utf8(&output) {
        Ok(output) => log_of_main(output),
        Err(_) => None,
    };
    let is_wanted = match log {
        Some(log) => log.lines().eq(wanted.split('¦')),
        None => false,
    };
    Ok(status == Status::Done && is_wanted)
}

/// The first row of a table of modules in this language, each with its log, that gives another log is the failure.
pub fn check_modules(alloc: Global, language: &str, table: &'static str) -> Result<(), Fail> {
    for row in table.lines() {
        if !row.is_empty() && !is_logged(alloc, language, row)? {
            return Err(row.into());
        }
    }
    Ok(())
}

/// Whether what is written is as a row wants it, with the texts of the modules or behind them.
fn is_written(alloc: Global, row: &PageRow, with_texts: bool) -> Result<bool, Memory> {
    let (status, output) = run(alloc, row.words, row.manifest.as_bytes())?;
    let Ok(output) = str::from_utf8(&output) else {
        return Ok(false);
    };
    let shown = if with_texts {
        Some(output)
    } else {
        behind_texts(output)
    };
    let shown = shown.and_then(|shown| shown.strip_suffix("\n"));
    Ok(shown == Some(row.wanted) && Some(status) == status_of(row.wanted))
}

/// The first row that gives something else is the failure.
fn check_rows(alloc: Global, table: &'static str, with_texts: bool) -> Result<(), Fail> {
    for text in table.split("\n# ") {
        if text.is_empty() {
            continue;
        }
        let Some(row) = page_row(text) else {
            return Err(text.into());
        };
        if !is_written(alloc, &row, with_texts)? {
            return Err(row.title.into());
        }
    }
    Ok(())
}

/// The first page of the table that writes something else, or ends with another status, is the failure.
pub fn check_outputs(alloc: Global, table: &'static str) -> Result<(), Fail> {
    check_rows(alloc, table, true)
}

/// The first page of the table that writes something else behind the texts of its modules, or ends with another status, is the failure.
pub fn check_pages(alloc: Global, table: &'static str) -> Result<(), Fail> {
    check_rows(alloc, table, false)
}

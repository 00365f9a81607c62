//! Tables of pairs of pages: a row is a title behind `# `, the words, the modules of a group, the manifests of the two pages with a line `↔` between them, a line `⇒`, and the group's lines.

use crate::group_lines::{is_group, lines_of, texts_of};
use caja_cli::Status;
use caja_units::Memory;
use command_runs::runs::run;
use std::alloc::Global;
use std::str;
use std::test::Fail;

/// A row of a table; the group's lines stand without their last line end.
#[derive(Clone, Copy)]
struct PairRow<'a> {
    title: &'a str,
    words: &'a str,
    group: &'a str,
    one: &'a str,
    other: &'a str,
    wanted: &'a str,
}

/// The parts of a row.
fn pair_row(row: &str) -> Option<PairRow<'_>> {
    let (title, rest) = row.split_once("\n")?;
    let (words, rest) = rest.split_once("\n")?;
    let (group, rest) = rest.split_once("\n")?;
    let (pages, wanted) = rest.split_once("\n⇒\n")?;
    let (one, other) = pages.split_once("\n↔\n")?;
    Some(PairRow {
        title,
        words,
        group,
        one,
        other,
        wanted: wanted.strip_suffix("\n").unwrap_or(wanted),
    })
}

/// What a page writes of a group.
#[derive(Drop)]
struct GroupPart {
    is_whole: bool,
    lines: String,
    texts: String,
}

impl GroupPart {
    /// Whether these are the group's lines.
    fn has_lines(&self, wanted: &str) -> bool {
        self.lines.as_str().strip_suffix("\n") == Some(wanted)
    }
}

/// What a page writes of the row's group; it is whole if the page ends with its last event and the group is one of its groups.
fn part_of(alloc: Global, row: &PairRow, manifest: &str) -> Result<GroupPart, Memory> {
    let (status, output) = run(alloc, row.words, manifest.as_bytes())?;
    let output = match str::from_utf8(&output) {
        Ok(output) => output,
        Err(_) => "",
    };
    Ok(GroupPart {
        is_whole: status == Status::Done && is_group(output, row.group),
        lines: lines_of(alloc, output, row.group)?,
        texts: texts_of(alloc, output, row.group)?,
    })
}

/// Whether both pages give the group the row's lines, and both the same texts.
fn is_same(row: &PairRow, one: &GroupPart, other: &GroupPart) -> bool {
    one.is_whole
        && other.is_whole
        && one.has_lines(row.wanted)
        && other.has_lines(row.wanted)
        && !one.texts.is_empty()
        && one.texts.as_str() == other.texts.as_str()
}

/// Whether each page gives the group its own lines, which a line `↔` parts and which aren't the same.
fn is_other(row: &PairRow, one: &GroupPart, other: &GroupPart) -> bool {
    match row.wanted.split_once("\n↔\n") {
        Some((first, second)) => {
            first != second && one.has_lines(first) && other.has_lines(second)
        }
        None => false,
    }
}

/// The first row whose pages write something else of the group is the failure.
fn check_pairs(alloc: Global, table: &'static str, with_same: bool) -> Result<(), Fail> {
    for text in table.split("\n# ") {
        if text.is_empty() {
            continue;
        }
        let Some(row) = pair_row(text) else {
            return Err(text.into());
        };
        let one = part_of(alloc, &row, row.one)?;
        let other = part_of(alloc, &row, row.other)?;
        let is_right = if with_same {
            is_same(&row, &one, &other)
        } else {
            is_other(&row, &one, &other)
        };
        if !is_right {
            return Err(row.title.into());
        }
    }
    Ok(())
}

/// The first pair of the table that doesn't give its group the same texts and the lines of the row on both pages is the failure.
pub fn check_agreeing(alloc: Global, table: &'static str) -> Result<(), Fail> {
    check_pairs(alloc, table, true)
}

/// The first pair of the table that doesn't give its group on each page the lines that the row has for it is the failure.
pub fn check_differing(alloc: Global, table: &'static str) -> Result<(), Fail> {
    check_pairs(alloc, table, false)
}

//! Tables of texts: a row is the words, a text, and what the text gives.

use crate::manifests::manifest_of;
use crate::runs::{is_line, run};
use caja_cli::Status;
use caja_units::Memory;
use std::alloc::Global;
use std::test::Fail;

/// The words, the text and the last part of a row.
fn parts(row: &str) -> (&str, &str, &str) {
    let (words, rest) = row.split_once(" ⇒ ").unwrap_or((row, ""));
    let (text, wanted) = rest.split_once(" ⇒ ").unwrap_or((rest, ""));
    (words, text, wanted)
}

/// Whether the words are those of a page of texts.
fn is_of_texts(words: &str) -> bool {
    words.split_whitespace().next() == Some("run")
}

/// Whether the text ends as the only module of a page, and the log says that its load gave this.
pub fn gives(alloc: Global, row: &str) -> Result<bool, Memory> {
    let (words, text, wanted) = parts(row);
    let (status, output) = run(alloc, words, manifest_of(alloc, text)?.as_bytes())?;
    let given = match output.strip_prefix(b"group main\nload main ") {
        Some(line) => line.strip_suffix(b"\nhtml 0\n\nend done\n"),
        None => None,
    };
    Ok(status == Status::Done && given == Some(wanted.as_bytes()))
}

/// What a page of one text that logs nothing writes before its last line; the line that refuses it stands alone.
fn before_last(line: &str) -> &'static str {
    if line.starts_with("end ") {
        "group main\nhtml 0\n\n"
    } else {
        ""
    }
}

/// Whether the words and the text give this status and this one line, behind what a page writes before it.
fn page_ends(alloc: Global, row: &str, ended: &Status) -> Result<bool, Memory> {
    let (words, text, wanted) = parts(row);
    let (status, output) = run(alloc, words, manifest_of(alloc, text)?.as_bytes())?;
    Ok(match behind(&output, before_last(wanted)) {
        Some(line) => status == *ended && is_line(line, wanted),
        None => false,
    })
}

/// Whether the words and the text, which is the only module of a page for `run`, give this status and this one line.
fn ends(alloc: Global, row: &str, ended: &Status) -> Result<bool, Memory> {
    let (words, text, wanted) = parts(row);
    if is_of_texts(words) {
        return page_ends(alloc, row, ended);
    }
    let (status, output) = run(alloc, words, text.as_bytes())?;
    Ok(status == *ended && is_line(&output, wanted))
}

/// What stands behind a text that an output begins with.
fn behind<'a>(output: &'a [u8], text: &str) -> Option<&'a [u8]> {
    output.strip_prefix(text.as_bytes())
}

/// What stands behind the first line.
fn behind_line(output: &[u8]) -> Option<&[u8]> {
    for (end, byte) in output.iter().enumerate() {
        if *byte == b'\n' {
            return output.get(end + 1..);
        }
    }
    None
}

/// What stands behind the cajoled text of a module, whose own part is what its function does between the name of its result and the return of it.
fn behind_module<'a>(output: &'a [u8], part: &str) -> Option<&'a [u8]> {
    let head = "___.loadModule(function(___,IMPORTS___){var moduleResult___";
    let text = behind(behind(behind_line(output)?, head)?, part)?;
    behind(text, "return moduleResult___;});\n")
}

/// Whether the words and the source give this cajoled text, this log and this status; a log that ends otherwise than by its load is told whole.
fn is_cajoled(alloc: Global, row: &str, ended: &Status) -> Result<bool, Memory> {
    let (source, part, wanted) = parts(row);
    let (status, output) = run(alloc, "solo", source.as_bytes())?;
    let shown = match behind_module(&output, part) {
        Some(log) => match behind(log, "load main ") {
            Some(line) => line.strip_suffix(b"\nend done\n"),
            None => log.strip_suffix(b"\n"),
        },
        None => None,
    };
    Ok(status == *ended && shown == Some(wanted.as_bytes()))
}

/// The first row of a table of sources, each with its cajoled part and what it gives, that gives something else is the failure.
pub fn check_cajoled(alloc: Global, table: &'static str, ended: Status) -> Result<(), Fail> {
    for row in table.lines() {
        if !row.is_empty() && !is_cajoled(alloc, row, &ended)? {
            return Err(row.into());
        }
    }
    Ok(())
}

/// The first row of the table whose log says something else is the failure.
pub fn check_gives(alloc: Global, table: &'static str) -> Result<(), Fail> {
    for row in table.lines() {
        if !row.is_empty() && !gives(alloc, row)? {
            return Err(row.into());
        }
    }
    Ok(())
}

/// The first row of the table that ends in another way is the failure.
pub fn check_ends(alloc: Global, table: &'static str, ended: Status) -> Result<(), Fail> {
    for row in table.lines() {
        if !row.is_empty() && !ends(alloc, row, &ended)? {
            return Err(row.into());
        }
    }
    Ok(())
}

/// Whether the source of a module ends, and its log says that its load gave this.
fn loads(alloc: Global, row: &str) -> Result<bool, Memory> {
    let (source, wanted) = row.split_once(" ⇒ ").unwrap_or((row, ""));
    let (status, output) = run(alloc, "solo", source.as_bytes())?;
    let log = match behind_line(&output) {
        Some(text) => behind_line(text),
        None => None,
    };
    let given = match log {
        Some(log) => match behind(log, "load main ") {
            Some(line) => line.strip_suffix(b"\nend done\n"),
            None => None,
        },
        None => None,
    };
    Ok(status == Status::Done && given == Some(wanted.as_bytes()))
}

/// The first row of a table of sources, each with what its load gives, that gives something else is the failure.
pub fn check_loads(alloc: Global, table: &'static str) -> Result<(), Fail> {
    for row in table.lines() {
        if !row.is_empty() && !loads(alloc, row)? {
            return Err(row.into());
        }
    }
    Ok(())
}

/// What stands behind these lines of an output, which the row tells with a bar between them.
fn behind_lines<'a>(output: &'a [u8], lines: &str) -> Option<&'a [u8]> {
    let mut rest = output;
    for line in lines.split('¦') {
        rest = behind(behind(rest, line)?, "\n")?;
    }
    Some(rest)
}

/// Whether the words and the source of a module give this log behind the cajoled text, and this status.
fn is_logged(alloc: Global, row: &str, ended: &Status) -> Result<bool, Memory> {
    let (words, source, wanted) = parts(row);
    let (status, output) = run(alloc, words, source.as_bytes())?;
    let log = match behind_line(&output) {
        Some(text) => behind_line(text),
        None => None,
    };
    let rest = match log {
        Some(log) => behind_lines(log, wanted),
        None => None,
    };
    let is_all = match rest {
        Some(rest) => rest.is_empty(),
        None => false,
    };
    Ok(status == *ended && is_all)
}

/// The first row of a table of words, sources and logs that gives something else, or another status, is the failure.
pub fn check_logs(alloc: Global, table: &'static str, ended: Status) -> Result<(), Fail> {
    for row in table.lines() {
        if !row.is_empty() && !is_logged(alloc, row, &ended)? {
            return Err(row.into());
        }
    }
    Ok(())
}

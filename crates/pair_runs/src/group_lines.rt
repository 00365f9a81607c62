//! What a page writes of a group of modules, whose names stand in one text with spaces between them.

use caja_units::Memory;
use command_runs::page_tables::{MOST_MODULES, behind_text, behind_texts};
use std::alloc::Global;

/// Whether a module is of the group.
fn is_of(name: &str, group: &str) -> bool {
    for member in group.split_whitespace() {
        if member == name {
            return true;
        }
    }
    false
}

/// The first word of a text.
fn first_word(text: &str) -> Option<&str> {
    text.split_whitespace().next()
}

/// What stands behind the first space of a text.
fn behind_word(text: &str) -> Option<&str> {
    let (_word, rest) = text.split_once(" ")?;
    Some(rest)
}

/// The module that a line of the log names first: who loads, says or touches something, or whom an event calls. Other lines have none.
fn module_of(line: &str) -> Option<&str> {
    let (kind, rest) = line.split_once(" ")?;
    match kind {
        "load" | "say" | "touch" => first_word(rest),
        "event" => first_word(behind_word(behind_word(rest)?)?),
        _other => None,
    }
}

/// Whether a line of the log is one of the group's.
fn is_line_of(line: &str, group: &str) -> bool {
    match module_of(line) {
        Some(name) => is_of(name, group),
        None => false,
    }
}

/// The lines of the log that are the group's, each with its line end.
pub fn lines_of(alloc: Global, output: &str, group: &str) -> Result<String, Memory> {
    let mut found = String::new(alloc);
    for line in behind_texts(output).unwrap_or("").lines() {
        if is_line_of(line, group) {
            found.push_str(line)?;
            found.push_str("\n")?;
        }
    }
    Ok(found)
}

/// The first module of an output, from its name to the end of its text, and what stands behind it.
fn first_module(output: &str) -> Option<(&str, &str)> {
    let module = output.strip_prefix("module ")?;
    let rest = behind_text(module)?;
    Some((module.strip_suffix(rest)?, rest))
}

/// The texts of the group's modules, each behind its name and its length.
pub fn texts_of(alloc: Global, output: &str, group: &str) -> Result<String, Memory> {
    let mut found = String::new(alloc);
    let mut rest = output;
    for _module in 0..MOST_MODULES {
        let Some((module, behind)) = first_module(rest) else {
            return Ok(found);
        };
        if is_of(first_word(module).unwrap_or(""), group) {
            found.push_str(module)?;
        }
        rest = behind;
    }
    Ok(found)
}

/// Whether the output has a `group` line of just these modules.
pub fn is_group(output: &str, group: &str) -> bool {
    for line in behind_texts(output).unwrap_or("").lines() {
        if line.strip_prefix("group ") == Some(group) {
            return true;
        }
    }
    false
}

//! Sources that are read as programs, or refused.

use crate::statement_tables::{BROKEN_OFF, FAULTS, PROGRAMS};
use caja_units::Memory;
use es3_lexer::{Tokens, tokens};
use es3_stmt::read_program;
use std::alloc::Global;
use std::test::Fail;

/// How many bytes the sources may have, and how deep their programs may nest.
const LONGEST: usize = 1 << 20;

const DEEPEST: u32 = 128;

/// What becomes of tokens.
fn read(alloc: Global, list: &Tokens) -> Result<String, Memory> {
    match read_program(alloc, list, DEEPEST) {
        Ok(_) => Ok(String::from_str(alloc, "a program")?),
        Err(refusal) => Ok(format!(in alloc; "{refusal:?}")?),
    }
}

/// What becomes of a source.
fn outcome(alloc: Global, source: &str) -> Result<String, Fail> {
    u32::try_from(source.len())?;
    match tokens(alloc, source.as_bytes(), LONGEST) {
        Ok(list) => Ok(read(alloc, &list)?),
        Err(refusal) => Ok(format!(in alloc; "{refusal:?}")?),
    }
}

fn is_program(alloc: Global, source: &str) -> Result<bool, Fail> {
    Ok(outcome(alloc, source)?.as_str() == "a program")
}

/// Whether a source is refused at this byte.
fn breaks_at(alloc: Global, source: &str, at: usize) -> Result<bool, Fail> {
    let found = outcome(alloc, source)?;
    let wanted = format!(in alloc; "Syntax({at})")?;
    Ok(found == wanted)
}

/// A part of a source so many times, between two others.
fn repeated(
    alloc: Global,
    front: &str,
    part: &str,
    times: u32,
    back: &str,
) -> Result<String, Memory> {
    let mut source = String::new(alloc);
    source.push_str(front)?;
    for _ in 0..times {
        source.push_str(part)?;
    }
    source.push_str(back)?;
    Ok(source)
}

#[test]
fn programs_are_read(rt: HostRuntime) -> Result<(), Fail> {
    for source in PROGRAMS.lines() {
        assert!(rt; is_program(rt.alloc(), source)?, "{source}");
    }
    Ok(())
}

fn is_fault(alloc: Global, row: &str) -> Result<bool, Fail> {
    match row.split_once(" ⇒ ") {
        Some((source, at)) => breaks_at(alloc, source, at.parse::<usize>()?),
        None => Ok(row.is_empty()),
    }
}

#[test]
fn the_first_token_with_which_no_program_goes_on_is_refused(rt: HostRuntime) -> Result<(), Fail> {
    for row in FAULTS.lines() {
        assert!(rt; is_fault(rt.alloc(), row)?, "{row}");
    }
    Ok(())
}

#[test]
fn what_breaks_off_is_refused_at_its_end(rt: HostRuntime) -> Result<(), Fail> {
    for source in BROKEN_OFF.iter() {
        assert!(rt; breaks_at(rt.alloc(), source, source.len())?, "{source}");
    }
    Ok(())
}

/// What stands before a part of a source, the part, how often it stands there, what stands behind it, and what becomes of the
/// source.
type LimitRow = (&'static str, &'static str, u32, &'static str, &'static str);

static LIMITS: [LimitRow; 13] = [
    ("", "{", 128, "", "Syntax(128)"),
    ("", "{", 129, "", "TooDeep(0)"),
    ("", "(", 256, "", "Syntax(256)"),
    ("", "(", 257, "", "TooDeep(0)"),
    ("a", " + b", 126, ";", "a program"),
    ("a", " + b", 127, ";", "TooDeep(0)"),
    ("", "(", 256, ")", "Syntax(256)"),
    ("", "(", 256, "[", "TooDeep(0)"),
    ("", "~", 126, "a;", "a program"),
    ("", "~", 127, "", "TooDeep(0)"),
    ("", "~", 125, "++a;", "a program"),
    ("", "~", 125, "++1", "TooDeep(0)"),
    ("", "a: ", 127, "if", "TooDeep(0)"),
];

fn is_limit(alloc: Global, row: &LimitRow) -> Result<bool, Fail> {
    let (front, part, times, back, wanted) = *row;
    let source = repeated(alloc, front, part, times, back)?;
    Ok(outcome(alloc, &source)?.as_str() == wanted)
}

#[test]
fn the_limit_is_exact(rt: HostRuntime) -> Result<(), Fail> {
    for row in LIMITS.iter() {
        assert!(rt;
            is_limit(rt.alloc(), row)?,
            "{}{}{}{}",
            row.0,
            row.1,
            row.2,
            row.3
        );
    }
    Ok(())
}

/// Whether a long source is a program.
fn is_long_program(alloc: Global, front: &str, part: &str, back: &str) -> Result<bool, Fail> {
    let source = repeated(alloc, front, part, 100_000, back)?;
    is_program(alloc, &source)
}

#[test]
fn long_lists_need_no_deep_stack(rt: HostRuntime) -> Result<(), Fail> {
    assert!(rt; is_long_program(rt.alloc(), "", "a; ", "")?);
    assert!(rt; is_long_program(rt.alloc(), "[", "a, ", "];")?);
    Ok(())
}

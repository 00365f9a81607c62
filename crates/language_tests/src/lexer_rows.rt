//! Sources that are cut into tokens, or refused.

use crate::lexer_tables::{BROKEN, GAPS_AND_COMMENTS, LINE_FEEDS, REFUSED, TOKENS, VALUES};
use caja_units::Units;
use es3_lexer::{Kind, Tokens, tokens};
use std::alloc::Global;
use std::str;
use std::test::Fail;

/// How many bytes the sources of the tables may have.
const LIMIT: usize = 1000;

fn write_name(out: &mut String, units: &Units) -> Result<(), Fail> {
    let mut bytes = Vec::new(*out.allocator());
    units.push_utf8(&mut bytes)?;
    let name = str::from_utf8(&bytes)?;
    write!(out, "`{name}`")?;
    Ok(())
}

fn write_text(out: &mut String, units: &Units) -> Result<(), Fail> {
    let bytes = units.to_ascii_literal(*out.allocator())?;
    out.push_str(str::from_utf8(&bytes)?)?;
    Ok(())
}

fn write_kind(out: &mut String, kind: &Kind) -> Result<(), Fail> {
    match kind {
        Kind::Name(name) => write_name(out, name)?,
        Kind::Word(word) => write!(out, "{word:?}")?,
        Kind::Punct(punct) => write!(out, "{punct:?}")?,
        Kind::Num(number) => write!(out, "{}", number.get())?,
        Kind::Text(text) => write_text(out, text)?,
    }
    Ok(())
}

fn written(alloc: Global, cut: &Tokens) -> Result<String, Fail> {
    let mut out = String::new(alloc);
    for token in &cut.list {
        if token.line {
            out.push('!')?;
        }
        write_kind(&mut out, &token.kind)?;
        write!(out, "@{}-{} ", token.start, token.end)?;
    }
    write!(out, "{}", cut.end)?;
    Ok(out)
}

/// What the source is cut into, or why it isn't.
fn shown(alloc: Global, source: &[u8], limit: usize) -> Result<String, Fail> {
    u32::try_from(source.len())?;
    match tokens(alloc, source, limit) {
        Ok(cut) => written(alloc, &cut),
        Err(refusal) => Ok(format!(in alloc; "{refusal:?}")?),
    }
}

/// Whether a source is cut into these tokens, or refused so.
fn is_cut(alloc: Global, source: &[u8], limit: usize, wanted: &str) -> Result<bool, Fail> {
    Ok(shown(alloc, source, limit)?.as_str() == wanted)
}

/// The first row that isn't cut or refused as it says is the failure.
fn check_rows(alloc: Global, table: &'static str) -> Result<(), Fail> {
    for row in table.lines() {
        let (source, wanted) = row.split_once(" ⇒ ").unwrap_or((row, "0"));
        if !is_cut(alloc, source.as_bytes(), LIMIT, wanted)? {
            return Err(row.into());
        }
    }
    Ok(())
}

fn check_pairs(alloc: Global, rows: &[(&'static str, &str)]) -> Result<(), Fail> {
    for (source, wanted) in rows {
        if !is_cut(alloc, source.as_bytes(), LIMIT, wanted)? {
            return Err((*source).into());
        }
    }
    Ok(())
}

#[test]
fn sources_are_cut_or_refused(rt: HostRuntime) -> Result<(), Fail> {
    check_pairs(rt.alloc(), &GAPS_AND_COMMENTS)?;
    check_pairs(rt.alloc(), &LINE_FEEDS)?;
    check_rows(rt.alloc(), TOKENS)?;
    check_rows(rt.alloc(), VALUES)?;
    check_rows(rt.alloc(), REFUSED)
}

#[test]
fn other_bytes_are_refused_by_their_place(rt: HostRuntime) -> Result<(), Fail> {
    for (source, wanted) in BROKEN.iter() {
        assert!(rt; is_cut(rt.alloc(), source, LIMIT, wanted)?, "{wanted}");
    }
    Ok(())
}

static LIMITS: [(&str, usize, &str); 4] = [
    ("ab", 2, "`ab`@0-2 2"),
    ("ab", 1, "TooLong(0)"),
    ("", 0, "0"),
    ("'", 0, "TooLong(0)"),
];

#[test]
fn limit_comes_first(rt: HostRuntime) -> Result<(), Fail> {
    for (source, limit, wanted) in LIMITS.iter() {
        assert!(rt;
            is_cut(rt.alloc(), source.as_bytes(), *limit, wanted)?,
            "{source}"
        );
    }
    assert!(rt; is_cut(rt.alloc(), &[b'#', 0xFF], 1, "TooLong(0)")?);
    Ok(())
}

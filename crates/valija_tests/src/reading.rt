//! Programs and names, from texts.

use caja_units::{Memory, Units};
use es3_lexer::tokens;
use es3_stmt::read_program;
use es3_tree::Program;
use std::alloc::Global;
use std::test::Fail;

/// How many bytes the sources may have, and how deep their programs may nest.
const LONGEST: usize = 1 << 20;

const DEEPEST: u32 = 128;

/// The program that a source spells.
pub fn read(alloc: Global, source: &str) -> Result<Program, Fail> {
    u32::try_from(source.len())?;
    let Ok(list) = tokens(alloc, source.as_bytes(), LONGEST) else {
        return Err("no tokens".into());
    };
    match read_program(alloc, &list, DEEPEST) {
        Ok(program) => Ok(program),
        Err(_) => Err("no program".into()),
    }
}

/// Names, from a text with spaces between them.
pub fn names(alloc: Global, text: &str) -> Result<Vec<Units>, Memory> {
    let mut list = Vec::new(alloc);
    for word in text.split_whitespace() {
        list.push(Units::from_ascii(alloc, word.as_bytes())?)?;
    }
    Ok(list)
}

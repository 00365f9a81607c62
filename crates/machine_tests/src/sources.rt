//! Programs, from their sources.

use es3_lexer::tokens;
use es3_stmt::read_program;
use es3_tree::Program;
use std::alloc::Global;
use std::test::Fail;

/// How many bytes the sources may have, and how deep their programs may nest.
const LONGEST: usize = 1000;

const DEEPEST: u32 = 128;

pub fn program(alloc: Global, source: &str) -> Result<Program, Fail> {
    u32::try_from(source.len())?;
    let list = tokens(alloc, source.as_bytes(), LONGEST)?;
    Ok(read_program(alloc, &list, DEEPEST)?)
}

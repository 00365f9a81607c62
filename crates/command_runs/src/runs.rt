//! What Caja answers and writes.

use caja_cli::{Status, caja};
use caja_io::{MemSink, MemSource};
use caja_units::Memory;
use host_services::{Row, Services};
use std::alloc::Global;
use std::test::Fail;
use url_rule::{UriRow, UriRule};

/// The room for what a row writes, in bytes.
pub const ROOM: usize = 16_384;

/// The words of a command, which spaces part.
pub fn words(alloc: Global, command: &str) -> Result<Vec<String>, Memory> {
    let mut words = Vec::new(alloc);
    for word in command.split_whitespace() {
        words.push(String::from_str(alloc, word)?)?;
    }
    Ok(words)
}

/// A source of which no read fails.
pub fn source(alloc: Global, input: &[u8]) -> Result<MemSource, Memory> {
    Ok(MemSource::new(input.to_vec(alloc)?, 4096, Vec::new(alloc)))
}

/// A sink of so much room, of which no write fails.
pub fn sink(alloc: Global, room: usize) -> Result<MemSink, Memory> {
    let room = vec![in alloc; 0; room]?;
    Ok(MemSink::new(4096, room, Vec::new(alloc)))
}

/// The rule of the program: any URL by `https` may be named.
pub fn secure(alloc: Global) -> Result<UriRule<Vec<UriRow>>, Memory> {
    let row = UriRow {
        kind: None,
        scheme: String::from_str(alloc, "https")?,
        host: None,
        sub: false,
    };
    UriRule::of_table(alloc, vec![in alloc; row]?)
}

/// No services.
pub fn no_services(alloc: Global) -> Services<Vec<Row>> {
    Services::none(alloc)
}

/// What a command answers and writes, from this source to this sink, by the rule of the program.
pub fn outcome(
    alloc: Global,
    command: &str,
    mut source: MemSource,
    mut sink: MemSink,
) -> Result<(Status, Vec<u8>), Memory> {
    let words = words(alloc, command)?;
    let status = caja(
        &words,
        &mut source,
        &mut sink,
        &secure(alloc)?,
        &no_services(alloc),
        alloc,
    );
    Ok((status, sink.written().to_vec(alloc)?))
}

/// What a command answers and writes for an input, where no read and no write fails.
pub fn run(alloc: Global, command: &str, input: &[u8]) -> Result<(Status, Vec<u8>), Memory> {
    let source = source(alloc, input)?;
    outcome(alloc, command, source, sink(alloc, ROOM)?)
}

/// Whether the output is a text and a line end.
pub fn is_line(output: &[u8], text: &str) -> bool {
    output.strip_suffix(b"\n") == Some(text.as_bytes())
}

/// Whether a command refuses an input with this line.
pub fn refuses(alloc: Global, command: &str, input: &[u8], line: &str) -> Result<bool, Memory> {
    let (status, output) = run(alloc, command, input)?;
    Ok(status == Status::Refused && is_line(&output, line))
}

/// The first row of the table, a source and the line that refuses it, for which that isn't so is the failure.
pub fn check_refusals(alloc: Global, command: &str, table: &'static str) -> Result<(), Fail> {
    for row in table.lines() {
        let (source, line) = row.split_once(" ⇒ ").unwrap_or((row, ""));
        if !row.is_empty() && !refuses(alloc, command, source.as_bytes(), line)? {
            return Err(row.into());
        }
    }
    Ok(())
}

// The command `format`: one source of ECMAScript 3 as its printed text.

ghost use Rattle.std.specs.Prelude.{◌≡◌, ◌++◌, IfOk};
ghost use Rattle.page_cajole.specs.Formatted.{formatted};
ghost use Rattle.page_log.specs.Log.{line_end};
ghost use Rattle.caja_cli.specs.Output.{format_output};

use crate::page_commands::MAIN;
use crate::refusal::refused;
use crate::status::Status;
use caja_units::Memory;
use page_cajole::{FormatAnswer, format};
use std::alloc::Global;

/// What is written for an input, and the status.
pub fn format_source(alloc: Global, input: &[u8]) -> Result<(Vec<u8>, Status), Memory>
    ensures text { IfOk result (λ r. r.0.items ≡ (format_output (formatted input.now)).0) }
    ensures status { IfOk result (λ r. r.1 ≡ (format_output (formatted input.now)).1) }
{
    match format(alloc, input)? {
        FormatAnswer::Uncut(number, place) => refused(alloc, MAIN, "lex", number, place),
        FormatAnswer::Unread(number, place) => refused(alloc, MAIN, "read", number, place),
        FormatAnswer::Text(text) => line_of(text),
    }
}

/// The text and a line end.
pub fn line_of(text: Vec<u8>) -> Result<(Vec<u8>, Status), Memory>
    ensures text { IfOk result (λ r. r.0.items ≡ text.items ++ line_end) }
    ensures status { IfOk result (λ r. r.1 ≡ Status.Done) }
{
    let mut line = text;
    line.push(b'\n')?;
    Ok((line, Status::Done))
}

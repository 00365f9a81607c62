//! A source as its printed text.

ghost use Rattle.std.specs.Prelude.{◌≡◌, IfOk};
ghost use Rattle.page_cajole.specs.Formatted.{formatted, told};

use crate::source::{SOURCE_LIMITS, SourceRead, read_source};
use caja_units::Memory;
use es3_printer::print_program;
use std::alloc::Global;

/// What a source is formatted to.
#[derive(Drop)]
pub enum FormatAnswer {
    /// The printed text of the program that it spells, in bytes of ASCII.
    Text(Vec<u8>),
    /// It isn't cut into tokens: the number of the refusal, and the byte of the source where it is, from 0.
    Uncut(u8, u32),
    /// Its tokens spell no program: 1 where none goes on with a token, and the byte of that token; 2 where all that go on nest too deep,
    /// and the byte 0.
    Unread(u8, u32),
}

/// The printed text of the program that a source spells, or what refuses it: cutting it into tokens, or reading these, in this order.
///
/// # Errors
///
/// `Memory` where memory is wanting.
#[tactic(auto, using(es3_grammar::proofs::Unplaced::program_plain))]
pub fn format(alloc: Global, source: &[u8]) -> Result<FormatAnswer, Memory>
    ensures { IfOk result (λ f. told f ≡ formatted source.now) }
{
    match read_source(alloc, source, SOURCE_LIMITS)? {
        SourceRead::Spelled(program) => Ok(FormatAnswer::Text(print_program(alloc, &program)?)),
        SourceRead::Uncut(number, at) => Ok(FormatAnswer::Uncut(number, at)),
        SourceRead::Unread(number, at) => Ok(FormatAnswer::Unread(number, at)),
    }
}

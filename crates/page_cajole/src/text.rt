//! A text of ECMAScript 3 that runs as it stands.

ghost use Rattle.std.specs.Prelude.{◌≡◌, IfOk};
ghost use Rattle.es3_tree.specs.PlacedView.{program as placed_program};
ghost use Rattle.page_cajole.specs.Answers.{read_as};
ghost use Rattle.page_cajole.specs.Text.{text_outcome, text_of, judged, told};

use crate::source::{SourceRead, TEXT_LIMITS, read_source};
use caja_units::Memory;
use es3_labels::labels;
use es3_tree::Program;
use std::alloc::Global;

/// What becomes of a text that is to run as it stands.
#[derive(Drop)]
pub enum TextAnswer {
    /// The program that it spells, whose jumps have their targets.
    Program(Program),
    /// It isn't cut into tokens: the number of the refusal, and the byte of the text where it is, from 0.
    Uncut(u8, u32),
    /// Its tokens spell no program: 1 where none goes on with a token, and the byte of that token; 2 where all that go on nest too deep,
    /// and the byte 0.
    Unread(u8, u32),
    /// A jump of its program has no target, or a label stands inside a statement of the same label: the byte where the first of them begins.
    Misplaced(u32),
}

/// The answer for a program that was read.
#[tactic(auto, using(es3_grammar::proofs::Unplaced::program_plain))]
fn judge(program: Program) -> TextAnswer
    ensures { told result ≡ judged (placed_program program) }
{
    match labels(&program) {
        Some(at) => TextAnswer::Misplaced(at),
        None => TextAnswer::Program(program),
    }
}

/// The answer for what was read of a text.
fn answer_of(read: SourceRead) -> TextAnswer
    ensures { told result ≡ text_of (read_as read) }
{
    match read {
        SourceRead::Spelled(program) => judge(program),
        SourceRead::Uncut(number, at) => TextAnswer::Uncut(number, at),
        SourceRead::Unread(number, at) => TextAnswer::Unread(number, at),
    }
}

/// The program that a text spells, or what refuses it: cutting it into tokens, reading these, or a jump or a label (ES3 12.7 to 12.9, 12.12), in
/// this order.
///
/// # Errors
///
/// `Memory` where memory is wanting.
pub fn read_text(alloc: Global, text: &[u8]) -> Result<TextAnswer, Memory>
    ensures { IfOk result (λ a. told a ≡ text_outcome text.now) }
{
    Ok(answer_of(read_source(alloc, text, TEXT_LIMITS)?))
}

//! From a source to the program that it spells.

ghost use Rattle.std.specs.Prelude.{◌≡◌, ◌↔◌, ℕ, ◌-◌, ◌<◌, ◌^◌, Err, IfOk, IsErr, map};
ghost use Rattle.es3_grammar.specs.Answers as tokens_answers;
ghost use Rattle.es3_grammar.specs.Answers.{answer};
ghost use Rattle.es3_lexer.specs.Answers.{Refuses, refusal_of};
ghost use Rattle.es3_lexer.specs.Views.{placed_of};
ghost use Rattle.es3_stmt.specs.Reads.{Reads};
ghost use Rattle.es3_tokens.specs.Cut as cut;
ghost use Rattle.page_cajole.specs.Source.{source_of, of_cut, of_tokens};
ghost use Rattle.page_cajole.specs.Answers.{read_as};

use caja_units::Memory;
use es3_lexer::{LexError, Tokens, tokens};
use es3_stmt::{ReadError, read_program};
use es3_tree::Program;
use std::alloc::Global;

/// How long a source may be, in bytes, and how deep its program may nest.
#[derive(Clone, Copy)]
pub struct Limits {
    pub longest: usize,
    pub deepest: u32,
}

/// The limits of a source that is cajoled or printed: 512 KiB, and 128.
pub const SOURCE_LIMITS: Limits = Limits {
    longest: 512 * 1024,
    deepest: 128,
};

/// The limits of a text that runs as it stands: 16 MiB, and 1,024.
pub const TEXT_LIMITS: Limits = Limits {
    longest: 16 * 1024 * 1024,
    deepest: 1024,
};

/// What a source spells, or the number of what refuses it in its stage, and the byte of the source where that is, from 0.
#[derive(Drop)]
pub enum SourceRead {
    Spelled(Program),
    /// It isn't cut into tokens.
    Uncut(u8, u32),
    /// Its tokens spell no program.
    Unread(u8, u32),
}

/// What refuses a source that isn't cut, and `Memory` only where that is wanting.
fn lex_refusal(refusal: LexError) -> Result<SourceRead, Memory>
    ensures memory { IsErr result ↔ (refusal ≡ LexError.Memory) }
    ensures refused { IfOk result (λ r. (a : cut.Answer) → Refuses (refusal_of refusal) a → (deepest end : ℕ) → read_as r ≡ of_cut deepest end a) }
{
    Ok(match refusal {
        LexError::NotUtf8(at) => SourceRead::Uncut(1, at),
        LexError::BadChar(at) => SourceRead::Uncut(2, at),
        LexError::OpenString(at) => SourceRead::Uncut(3, at),
        LexError::OpenComment(at) => SourceRead::Uncut(4, at),
        LexError::BadEscape(at) => SourceRead::Uncut(5, at),
        LexError::NumberForm(at) => SourceRead::Uncut(6, at),
        LexError::NumberTooLarge(at) => SourceRead::Uncut(7, at),
        LexError::EscapeInName(at) => SourceRead::Uncut(8, at),
        LexError::RegExp(at) => SourceRead::Uncut(9, at),
        LexError::TooLong(at) => SourceRead::Uncut(10, at),
        LexError::Memory => return Err(Memory),
    })
}

/// What refuses tokens that aren't read, and `Memory` only where that is wanting.
fn read_refusal(refusal: ReadError) -> Result<SourceRead, Memory>
    ensures memory { IsErr result ↔ (refusal ≡ ReadError.Memory) }
    ensures refused { IfOk result (λ r. (a : tokens_answers.Answer) → Reads (Err refusal) a → read_as r ≡ of_tokens a) }
{
    match refusal {
        ReadError::Syntax(at) => Ok(SourceRead::Unread(1, at)),
        ReadError::TooDeep(at) => Ok(SourceRead::Unread(2, at)),
        ReadError::Memory => Err(Memory),
    }
}

fn read_tokens(alloc: Global, list: &Tokens, deepest: u32) -> Result<SourceRead, Memory>
    requires { deepest < 2 ^ 32 - 1 }
    ensures { IfOk result (λ r. read_as r ≡ of_tokens (answer deepest list.now.end (map placed_of list.now.list.items))) }
{
    match read_program(alloc, list, deepest) {
        Ok(program) => Ok(SourceRead::Spelled(program)),
        Err(refusal) => read_refusal(refusal),
    }
}

/// The program that a source spells within its limits, or what refuses it.
pub fn read_source(alloc: Global, source: &[u8], limits: Limits) -> Result<SourceRead, Memory>
    requires longest { limits.longest < 2 ^ 32 }
    requires deepest { limits.deepest < 2 ^ 32 - 1 }
    ensures { IfOk result (λ r. read_as r ≡ source_of limits source.now) }
{
    if source.len() > limits.longest {
        return Ok(SourceRead::Uncut(10, 0));
    }
    match tokens(alloc, source, limits.longest) {
        Ok(list) => read_tokens(alloc, &list, limits.deepest),
        Err(refusal) => lex_refusal(refusal),
    }
}

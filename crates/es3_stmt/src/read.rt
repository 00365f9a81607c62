//! A program from its tokens.

ghost use Rattle.std.specs.Prelude.{◌≡◌, ◌-◌, ◌<◌, ◌^◌, map};
ghost use Rattle.es3_grammar.specs.Answers.{answer};
ghost use Rattle.es3_grammar.specs.Spots.{spots};
ghost use Rattle.es3_lexer.specs.Views.{placed_of};
ghost use Rattle.es3_stmt.specs.Reads.{Reads};
ghost use Rattle.es3_stmt.specs.Told.{IsTold};

use crate::ending::ending;
use crate::step::step;
use caja_units::Memory;
use es3_frames::brackets::turn;
use es3_frames::frames::{Body, Frame, State};
use es3_frames::limit::is_within;
use es3_frames::parts::Stmts;
use es3_frames::stack::Stack;
use es3_lexer::Tokens;
use es3_tree::Program;
use std::alloc::Global;
use thiserror::Error;

/// Why tokens aren't read.
#[derive(Debug, Drop, Error)]
pub enum ReadError {
    /// The byte, from 0, where the first token begins with which no program goes on; where the tokens break off, the source's length.
    #[error("no program goes on at byte {0}")]
    Syntax(u32),
    /// From some token on only programs go on that nest too deep; the place is 0.
    #[error("the program nests too deep")]
    TooDeep(u32),
    /// Memory is wanting.
    #[error("out of memory")]
    Memory,
}

impl From<Memory> for ReadError {
    ghost use Rattle.std.specs.Prelude.{◌≡◌};
    ghost use Rattle.es3_stmt.specs.declared.read.ReadError.TheVariants.{Memory};

    ghost from_gives = { λ _ e. e ≡ Memory };

    fn from(_error: Memory) -> ReadError {
        ReadError::Memory
    }
}

/// The program that the tokens spell (ES3 14), of which no path into the tree passes more than `nest` expressions, statements and
/// functions, and at none of whose tokens more than twice as many brackets are open. Each token takes constant time, apart from the
/// parts that it closes, and no stack of calls grows with the nesting. An error is that of the first token from which no such program
/// goes on.
///
/// # Errors
///
/// `ReadError::Syntax` with the byte where no program goes on, `ReadError::TooDeep` where only programs go on that nest too deep, and `ReadError::Memory` where memory is wanting.
pub fn read_program(alloc: Global, tokens: &Tokens, nest: u32) -> Result<Program, ReadError>
    requires { nest < 2 ^ 32 - 1 }
    ensures answer { Reads result (answer nest tokens.now.end (map placed_of tokens.now.list.items)) }
    ensures told { IsTold nest tokens.now.end (spots (map placed_of tokens.now.list.items)) result }
{
    let mut stack = Stack::new(alloc);
    stack.push(Frame::List(Body::Program, Stmts::new(alloc)))?;
    let mut state = State::Start;
    let mut brackets = 0;
    for token in &tokens.list {
        brackets = turn(token, brackets);
        match step(alloc, &mut stack, state, token)? {
            Some(next) => state = next,
            None => return Err(ReadError::Syntax(token.start)),
        }
        if !is_within(&state, &stack, brackets, nest) {
            state.let_go();
            return Err(ReadError::TooDeep(0));
        }
    }
    match ending(alloc, stack, state)? {
        Some(program) => Ok(program),
        None => Err(ReadError::Syntax(tokens.end)),
    }
}

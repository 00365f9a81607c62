//! An operand begins (ES3 11.1, 11.2, 11.4).

ghost use Rattle.std.specs.Prelude.{◌≡◌, ◌∷◌, IfOk, Some, nat_le};
ghost use Rattle.es3_grammar.specs.Frames.{asked, want};
ghost use Rattle.es3_grammar.specs.Machine.{when, opened as opened_spec, operand as operand_spec};
ghost use Rattle.es3_expr.specs.Views.{opening_of};
ghost use Rattle.es3_frames.specs.Views.{next_of, spot_of, stack_of, waiting_of};

use caja_units::Memory;
use es3_expr::{Opening, as_opening};
use es3_frames::frames::{Bracket, Frame, Opened, State, Waiting};
use es3_frames::parts::{Exprs, Fields, Part};
use es3_frames::stack::Stack;
use es3_frames::tokens::named;
use es3_lexer::{Kind, Token};
use es3_tree::Expr;
use std::alloc::Global;

/// A prefix operator begins where the place asks for no more than what it makes.
fn prefix(stack: &mut Stack, waiting: Waiting) -> Result<Option<State>, Memory>
    ensures { IfOk result (λ s.
        next_of s (stack_of stack.new)
        ≡ when (nat_le (asked (stack_of stack.old)) 13) (want (waiting_of waiting ∷ stack_of stack.old))) }
{
    if stack.asked() > 13 {
        return Ok(None);
    }
    stack.push(Frame::Waiting(waiting))?;
    Ok(Some(State::Want))
}

fn opened(
    alloc: Global,
    stack: &mut Stack,
    opening: Opening,
    at: u32,
) -> Result<Option<State>, Memory>
    ensures { IfOk result (λ s.
        next_of s (stack_of stack.new) ≡ opened_spec (stack_of stack.old) at (Some (opening_of opening))) }
{
    Ok(Some(match opening {
        Opening::This => State::Have(Part::leaf(alloc, Expr::This(at))?),
        Opening::Null => State::Have(Part::leaf(alloc, Expr::Null)?),
        Opening::Bool(value) => State::Have(Part::leaf(alloc, Expr::Bool(value))?),
        Opening::Paren => {
            stack.push(Frame::Bracket(Bracket::Paren))?;
            State::Want
        }
        Opening::Array => State::Listed(Opened::Array, Exprs::new(alloc)),
        Opening::Object => State::Key(Fields::new(alloc)),
        Opening::Function => State::Func(false, at),
        Opening::New => {
            stack.push(Frame::Waiting(Waiting::New))?;
            State::Want
        }
        Opening::Prefix(op) => return prefix(stack, Waiting::Prefix(op, at)),
        Opening::Step(up) => return prefix(stack, Waiting::Step(up)),
    }))
}

/// An operand begins with the token, or none does.
///
/// # Errors
///
/// `Memory` where memory is wanting.
pub fn operand(alloc: Global, stack: &mut Stack, token: &Token) -> Result<Option<State>, Memory>
    ensures { IfOk result (λ s.
        next_of s (stack_of stack.new) ≡ operand_spec (stack_of stack.old) (spot_of token.now)) }
{
    match &token.kind {
        Kind::Name(text) => {
            let name = named(alloc, text, token.start)?;
            Ok(Some(State::Have(Part::leaf(alloc, Expr::Name(name))?)))
        }
        Kind::Num(number) => Ok(Some(State::Have(Part::leaf(alloc, Expr::Num(*number))?))),
        Kind::Text(text) => {
            let text = text.copy(alloc)?;
            Ok(Some(State::Have(Part::leaf(alloc, Expr::Text(text))?)))
        }
        Kind::Word(_) | Kind::Punct(_) => match as_opening(&token.kind) {
            Some(opening) => opened(alloc, stack, opening, token.start),
            None => Ok(None),
        },
    }
}

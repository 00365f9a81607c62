//! Operators on two numbers (ES3 11.5 to 11.7, 11.10).

ghost use Rattle.std.specs.Prelude.{◌≡◌, IfOk};
ghost use Rattle.caja_num.specs.Numbers.{or_fault};
ghost use Rattle.es3_language.specs.Operators as o;
ghost use Rattle.es3_operators.specs.Given.{plain_given, plain_result};
ghost use Rattle.es3_operators.specs.Arithmetic.{outcome, both_numbers};

use crate::conversions::number_of;
use crate::given::Given;
use caja_num::{NumberFault, Whole};
use caja_units::Memory;
use es3_heap::{Heap, Value};
use es3_moves::frame::Fault;
use std::alloc::Global;

/// An operator on two numbers.
#[derive(Clone, Copy)]
pub enum Arithmetic {
    Product,
    Quotient,
    Remainder,
    Difference,
    ShiftLeft,
    ShiftRight,
    ShiftRightUnsigned,
    BitAnd,
    BitXor,
    BitOr,
}

/// What an operator makes of two numbers; a fault where that is no number in range.
fn outcome(op: Arithmetic, a: Whole, b: Whole) -> Result<Whole, NumberFault>
    ensures { result ≡ or_fault (outcome op a b) }
{
    match op {
        Arithmetic::Product => a.mul(b),
        Arithmetic::Quotient => a.div(b),
        Arithmetic::Remainder => a.rem(b),
        Arithmetic::Difference => a.sub(b),
        Arithmetic::ShiftLeft => Ok(a.shl(b)),
        Arithmetic::ShiftRight => Ok(a.shr(b)),
        Arithmetic::ShiftRightUnsigned => Ok(a.ushr(b)),
        Arithmetic::BitAnd => Ok(a.bit_and(b)),
        Arithmetic::BitXor => Ok(a.bit_xor(b)),
        Arithmetic::BitOr => Ok(a.bit_or(b)),
    }
}

/// The numbers of two values, that of the left one first, or the fault that stops the run.
fn both_numbers(
    alloc: Global,
    a: &Value,
    b: &Value,
    h: &Heap,
) -> Result<Result<(Whole, Whole), Fault>, Memory>
    ensures { IfOk result (λ r. plain_result r ≡ both_numbers h.now a.now b.now) }
{
    let left = match number_of(alloc, a, h)? {
        Ok(left) => left,
        Err(fault) => return Ok(Err(fault)),
    };
    match number_of(alloc, b, h)? {
        Ok(right) => Ok(Ok((left, right))),
        Err(fault) => Ok(Err(fault)),
    }
}

/// The value of an operator on the numbers of two values (ES3 11.5 to 11.7, 11.10).
pub fn on_numbers(
    alloc: Global,
    op: Arithmetic,
    a: &Value,
    b: &Value,
    h: &Heap,
) -> Result<Given, Memory>
    ensures { IfOk result (λ g. plain_given g ≡ o.on_numbers h.now a.now b.now (outcome op)) }
{
    match both_numbers(alloc, a, b, h)? {
        Ok((left, right)) => match outcome(op, left, right) {
            Ok(n) => Ok(Given::Value(Value::Num(n))),
            Err(_fault) => Ok(Given::Fault(Fault::Number)),
        },
        Err(fault) => Ok(Given::Fault(fault)),
    }
}

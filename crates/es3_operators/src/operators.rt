//! Operators on two values (ES3 11.5 to 11.10).

ghost use Rattle.std.specs.Prelude.{◌≡◌, IfOk};
ghost use Rattle.es3_language.specs.Operators as o;
ghost use Rattle.es3_operators.specs.Given.{plain_given};

use crate::arithmetic::{Arithmetic, on_numbers};
use crate::conversions::{is_equal, is_less, sum_of};
use crate::given::{Given, given_not, given_truth, given_value, truth};
use crate::relations::{in_object, instance_of};
use caja_units::Memory;
use es3_convert::strict_equal;
use es3_heap::{Heap, Value};
use es3_tree::BinOp;
use std::alloc::Global;

/// What `a op b` gives (ES3 11.5 to 11.10).
///
/// # Errors
///
/// `Memory` where memory is wanting.
pub fn operate(alloc: Global, op: BinOp, a: &Value, b: &Value, h: &Heap) -> Result<Given, Memory>
    ensures { IfOk result (λ g. plain_given g ≡ o.operate op h.now a.now b.now) }
{
    match op {
        BinOp::Mul => on_numbers(alloc, Arithmetic::Product, a, b, h),
        BinOp::Div => on_numbers(alloc, Arithmetic::Quotient, a, b, h),
        BinOp::Rem => on_numbers(alloc, Arithmetic::Remainder, a, b, h),
        BinOp::Add => Ok(given_value(sum_of(alloc, a, b, h)?)),
        BinOp::Sub => on_numbers(alloc, Arithmetic::Difference, a, b, h),
        BinOp::Shl => on_numbers(alloc, Arithmetic::ShiftLeft, a, b, h),
        BinOp::Shr => on_numbers(alloc, Arithmetic::ShiftRight, a, b, h),
        BinOp::Ushr => on_numbers(alloc, Arithmetic::ShiftRightUnsigned, a, b, h),
        BinOp::Less => Ok(given_truth(is_less(alloc, a, b, h)?)),
        BinOp::Greater => Ok(given_truth(is_less(alloc, b, a, h)?)),
        BinOp::LessEq => Ok(given_not(is_less(alloc, b, a, h)?)),
        BinOp::GreaterEq => Ok(given_not(is_less(alloc, a, b, h)?)),
        BinOp::InstanceOf => instance_of(alloc, a, b, h),
        BinOp::InObject => in_object(alloc, a, b, h),
        BinOp::Equal => Ok(given_truth(is_equal(alloc, a, b, h)?)),
        BinOp::NotEqual => Ok(given_not(is_equal(alloc, a, b, h)?)),
        BinOp::Same => Ok(truth(strict_equal(a, b))),
        BinOp::NotSame => Ok(truth(!strict_equal(a, b))),
        BinOp::BitAnd => on_numbers(alloc, Arithmetic::BitAnd, a, b, h),
        BinOp::BitXor => on_numbers(alloc, Arithmetic::BitXor, a, b, h),
        BinOp::BitOr => on_numbers(alloc, Arithmetic::BitOr, a, b, h),
    }
}

//! Operators on one value (ES3 11.3, 11.4).

ghost use Rattle.std.specs.Prelude.{◌≡◌, IfOk};
ghost use Rattle.es3_language.specs.Operators as o;
ghost use Rattle.es3_moves.specs.Code.{plain_prefix};
ghost use Rattle.es3_operators.specs.Given.{plain_given};
ghost use Rattle.es3_operators.specs.Arithmetic.{signed};

use crate::conversions::number_of;
use crate::given::{Given, truth};
use caja_num::Whole;
use caja_units::{Memory, Units};
use es3_convert::to_bool;
use es3_heap::{Heap, Value};
use es3_moves::code::Prefix;
use std::alloc::Global;

/// An operator on one number.
#[derive(Clone, Copy)]
enum Sign {
    Plus,
    Minus,
    BitNot,
}

/// What an operator makes of a number (ES3 11.4.6 to 11.4.8).
fn signed(sign: Sign, n: Whole) -> Whole
    ensures { result ≡ signed sign n }
{
    match sign {
        Sign::Plus => n,
        Sign::Minus => n.neg(),
        Sign::BitNot => n.bit_not(),
    }
}

/// The value of an operator on the number of a value.
fn on_number(alloc: Global, sign: Sign, v: &Value, h: &Heap) -> Result<Given, Memory>
    ensures { IfOk result (λ g. plain_given g ≡ o.on_number h.now v.now (signed sign)) }
{
    match number_of(alloc, v, h)? {
        Ok(n) => Ok(Given::Value(Value::Num(signed(sign, n)))),
        Err(fault) => Ok(Given::Fault(fault)),
    }
}

/// What `op v` gives for a value (ES3 11.4.2, 11.4.6 to 11.4.9).
///
/// # Errors
///
/// `Memory` where memory is wanting.
pub fn convert(alloc: Global, op: Prefix, v: &Value, h: &Heap) -> Result<Given, Memory>
    ensures { IfOk result (λ g. plain_given g ≡ o.convert (plain_prefix op) h.now v.now) }
{
    match op {
        Prefix::Void => Ok(Given::Value(Value::Undefined)),
        Prefix::Plus => on_number(alloc, Sign::Plus, v, h),
        Prefix::Minus => on_number(alloc, Sign::Minus, v, h),
        Prefix::BitNot => on_number(alloc, Sign::BitNot, v, h),
        Prefix::Not => Ok(truth(!to_bool(v))),
    }
}

/// The name of the type of a value (ES3 11.4.3).
///
/// # Errors
///
/// `Memory` where memory is wanting.
pub fn type_name(alloc: Global, v: &Value, h: &Heap) -> Result<Units, Memory>
    ensures { IfOk result (λ x. x ≡ o.type_name h.now v.now) }
{
    match v {
        Value::Undefined => Units::from_ascii(alloc, b"undefined"),
        Value::Null => Units::from_ascii(alloc, b"object"),
        Value::Bool(_) => Units::from_ascii(alloc, b"boolean"),
        Value::Num(_) => Units::from_ascii(alloc, b"number"),
        Value::Text(_) => Units::from_ascii(alloc, b"string"),
        Value::Obj(o) if h.kind(*o).is_some() => Units::from_ascii(alloc, b"function"),
        Value::Obj(_) => Units::from_ascii(alloc, b"object"),
    }
}

/// One more, or one less (ES3 11.3, 11.4.4, 11.4.5); none where that is out of range.
pub fn stepped(up: bool, n: Whole) -> Option<Whole>
    ensures { result ≡ o.stepped up n }
{
    let one = Whole::new(1).unwrap();
    let next = if up { n.add(one) } else { n.sub(one) };
    next.ok()
}

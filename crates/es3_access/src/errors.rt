//! Errors that the interpreter throws (ES3 15.11.6.5).

ghost use Rattle.std.specs.Prelude.{◌≡◌, ◌≤◌, IfOk, length};
ghost use Rattle.es3_language.specs.Meaning as m;
ghost use Rattle.es3_moves.specs.Texts.{store_of};
ghost use Rattle.es3_moves.specs.Moves.{move_plan};
ghost use Rattle.es3_access.specs.Sizes.{size};

use caja_units::{Memory, Units};
use es3_heap::{Heap, Proto, Value};
use es3_moves::frame::{Flow, Move};
use es3_moves::texts::Texts;
use std::alloc::Global;

/// Throws an error of the interpreter, a TypeError without a name in the log.
///
/// # Errors
///
/// `Memory` where memory is wanting.
pub fn throw_error(
    alloc: Global,
    message: &[u8],
    h: &mut Heap,
    texts: &Texts,
) -> Result<Move, Memory>
    ensures plan { IfOk result (λ x. move_plan x (store_of h.new texts.now) ≡ m.throw_error message.now (store_of h.old texts.now)) }
    ensures small { IfOk result (λ x. size x ≤ 8) }
    ensures live { length h.old.list ≤ length h.new.list }
{
    let name = Units::from_ascii(alloc, b"TypeError")?;
    let message = Units::from_ascii(alloc, message)?;
    let error = h.make_error(Proto::TypeError, name, message)?;
    Ok(Move::End(Flow::Threw(Value::Obj(error))))
}

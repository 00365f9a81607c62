//! What follows a list of statements (ES3 12, 13.2.1, 13.2.2).

ghost use Rattle.std.specs.Prelude.{◌≡◌, ◌+◌, ◌<◌, IfOk};
ghost use Rattle.es3_heap.specs.Objects.{Objects};
ghost use Rattle.es3_moves.specs.Where.{plain_flow};
ghost use Rattle.es3_moves.specs.Texts.{store_of};
ghost use Rattle.es3_moves.specs.Moves.{end_plan, move_plan};
ghost use Rattle.es3_access.specs.Sizes.{end_size, size};

use crate::switch::after_clause;
use caja_units::Memory;
use es3_endings::ends::{after_try, begin_finally, body_end, new_end, restored};
use es3_moves::frame::{End, Flow, Move};
use es3_moves::texts::Texts;
use std::alloc::Global;

/// What follows a list of statements, by how they ended.
///
/// # Errors
///
/// `Memory` where memory is wanting.
pub fn close(alloc: Global, end: End, flow: Flow, texts: &mut Texts) -> Result<Move, Memory>
    ensures plan { IfOk result (λ x. (h : Objects) → move_plan x (store_of h texts.new) ≡ end_plan end (plain_flow flow) (store_of h texts.old)) }
    ensures small { IfOk result (λ x. size x < 18 + end_size end) }
{
    match end {
        End::Program => Ok(Move::End(flow)),
        End::Block => Ok(Move::End(flow)),
        End::Body => Ok(Move::End(body_end(flow))),
        End::New(object) => Ok(Move::End(new_end(object, flow))),
        End::Try(handlers) => after_try(alloc, Box::into_inner(handlers), flow, texts),
        End::Catch(last, env) => begin_finally(alloc, last, env, flow),
        End::Finally(before) => Ok(Move::End(restored(Box::into_inner(before), flow))),
        End::Cases(cs, at, labels, env) => after_clause(cs, at, labels, env, flow),
    }
}

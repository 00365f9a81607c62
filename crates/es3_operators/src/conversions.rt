//! Conversions of operands (ES3 9), and the comparisons and the sum that rest on them (11.6.1, 11.8.5, 11.9.3).

ghost use Rattle.std.specs.Prelude.{◌≡◌, IfErr, IfOk};
ghost use Rattle.es3_convert.specs.Conversions.{text_of, sum_of};
ghost use Rattle.es3_convert.specs.Numbers.{number_of};
ghost use Rattle.es3_convert.specs.Comparisons.{loosely_equal, less_of};
ghost use Rattle.es3_operators.specs.Given.{plain_result};
ghost use Rattle.es3_operators.specs.Stopping.{as_stop, TakesNoSteps};

use caja_num::Whole;
use caja_units::{Memory, Units};
use es3_convert::{add, less, loose_equal, to_number, to_text};
use es3_heap::{Heap, Stop, Value};
use es3_moves::frame::Fault;
use std::alloc::Global;

/// What a conversion comes to; want of memory is kept apart from what stops the run.
fn settled<T: Drop>(r: Result<T, Stop>) -> Result<Result<T, Fault>, Memory>
    requires { TakesNoSteps r }
    ensures value { IfOk result (λ x. as_stop x ≡ r) }
    ensures memory { IfErr result (λ e. r ≡ Err Stop.Memory) }
{
    match r {
        Ok(x) => Ok(Ok(x)),
        Err(Stop::Number) => Ok(Err(Fault::Number)),
        Err(Stop::Depth) => Ok(Err(Fault::Depth)),
        Err(Stop::Convert) => Ok(Err(Fault::Convert)),
        Err(Stop::Steps) => unreachable!(),
        Err(Stop::Memory) => Err(Memory),
    }
}

/// The number of a value, or the fault that stops the run (ES3 9.3).
///
/// # Errors
///
/// `Memory` where memory is wanting.
#[tactic(auto, using(crate::proofs::Stopping::takes_no_steps, crate::proofs::Stopping::settles))]
pub fn number_of(alloc: Global, v: &Value, h: &Heap) -> Result<Result<Whole, Fault>, Memory>
    ensures { IfOk result (λ r. plain_result r ≡ number_of h.now v.now) }
{
    settled(to_number(alloc, h, v))
}

/// The key that a value names, or the fault that stops the run (ES3 9.8).
///
/// # Errors
///
/// `Memory` where memory is wanting.
#[tactic(auto, using(crate::proofs::Stopping::takes_no_steps, crate::proofs::Stopping::settles))]
pub fn key_of(alloc: Global, v: &Value, h: &Heap) -> Result<Result<Units, Fault>, Memory>
    ensures { IfOk result (λ r. plain_result r ≡ text_of h.now v.now) }
{
    settled(to_text(alloc, h, v))
}

/// The sum of two values, or the fault that stops the run (ES3 11.6.1).
#[tactic(auto, using(crate::proofs::Stopping::takes_no_steps, crate::proofs::Stopping::settles))]
pub fn sum_of(alloc: Global, a: &Value, b: &Value, h: &Heap) -> Result<Result<Value, Fault>, Memory>
    ensures { IfOk result (λ r. plain_result r ≡ sum_of h.now a.now b.now) }
{
    settled(add(alloc, h, a, b))
}

/// Whether `a < b`, or the fault that stops the run (ES3 11.8.5).
#[tactic(auto, using(crate::proofs::Stopping::takes_no_steps, crate::proofs::Stopping::settles))]
pub fn is_less(alloc: Global, a: &Value, b: &Value, h: &Heap) -> Result<Result<bool, Fault>, Memory>
    ensures { IfOk result (λ r. plain_result r ≡ less_of h.now a.now b.now) }
{
    settled(less(alloc, h, a, b))
}

/// Whether `a == b`, or the fault that stops the run (ES3 11.9.3).
#[tactic(auto, using(crate::proofs::Stopping::takes_no_steps, crate::proofs::Stopping::settles))]
pub fn is_equal(
    alloc: Global,
    a: &Value,
    b: &Value,
    h: &Heap,
) -> Result<Result<bool, Fault>, Memory>
    ensures { IfOk result (λ r. plain_result r ≡ loosely_equal h.now a.now b.now) }
{
    settled(loose_equal(alloc, h, a, b))
}

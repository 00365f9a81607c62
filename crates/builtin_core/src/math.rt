//! The functions of `Math` (ES3 15.8.2).

ghost use Rattle.std.specs.Prelude.{◌≡◌, if◌then◌else◌};
ghost use Rattle.rows.specs.Rows as r;
ghost use Rattle.es3_convert.specs.Answers.{Answers};
ghost use Rattle.row_outcomes.specs.Comes.{Comes, row_done};
ghost use Rattle.builtin_core.specs.Numbers.{abs, its_number, better, best_from, best_of};

use caja_num::Whole;
use es3_convert::to_number;
use es3_heap::{Heap, Stop, Value};
use row_outcomes::{Outcome, outcome_of, value_or};
use std::alloc::Global;

/// Which one of some numbers is wanted.
#[derive(Clone, Copy, Debug)]
enum Best {
    Greatest,
    Least,
}

/// The number of the first argument, without its sign.
fn abs_of(alloc: Global, h: &Heap, args: &[Value]) -> Result<Value, Stop>
    ensures { Answers result (abs args.now h.now) }
{
    let number = to_number(alloc, h, value_or(args, 0, &Value::Undefined))?;
    let size = Whole::new(number.get().abs()).unwrap();
    Ok(Value::Num(size))
}

/// The number of the first argument.
fn its_number(alloc: Global, h: &Heap, args: &[Value]) -> Result<Value, Stop>
    ensures { Answers result (its_number args.now h.now) }
{
    let number = to_number(alloc, h, value_or(args, 0, &Value::Undefined))?;
    Ok(Value::Num(number))
}

/// The better one of two numbers.
fn better_of(wanted: Best, n: Whole, m: Whole) -> Whole
    ensures { result ≡ if better wanted m n then m else n }
{
    let is_better = match wanted {
        Best::Greatest => n.get() < m.get(),
        Best::Least => m.get() < n.get(),
    };
    if is_better { m } else { n }
}

/// The best of a number and the numbers of some values.
fn best_from(
    alloc: Global,
    h: &Heap,
    wanted: Best,
    first: Whole,
    values: &[Value],
) -> Result<Value, Stop>
    ensures { Answers result (best_from (better wanted) first values.now h.now) }
{
    let mut best = first;
    for value in values {
        let number = to_number(alloc, h, value)?;
        best = better_of(wanted, best, number);
    }
    Ok(Value::Num(best))
}

/// The best of the numbers of some values.
fn best_of(alloc: Global, h: &Heap, wanted: Best, values: &[Value]) -> Result<Value, Stop>
    ensures { Answers result (best_of (better wanted) values.now h.now) }
{
    match values {
        [] => Err(Stop::Number),
        [first, rest @ ..] => {
            let first = to_number(alloc, h, first)?;
            best_from(alloc, h, wanted, first, rest)
        }
    }
}

/// `Math.abs(x)` (ES3 15.8.2.1). The run stops where the argument has no number.
///
/// # Errors
///
/// `Stop::Number`, `Stop::Depth` or `Stop::Convert` where the argument has no number, and `Stop::Memory` where memory is wanting.
pub fn abs(alloc: Global, h: &Heap, by: u32, this: &Value, args: &[Value]) -> Result<Outcome, Stop>
    ensures { Comes (row_done r.abs by this.now args.now h.now) result h.now }
{
    outcome_of(abs_of(alloc, h, args))
}

/// `Math.floor(x)` (ES3 15.8.2.9), which is the number itself: every number is whole. The run stops where the argument has
/// no number.
///
/// # Errors
///
/// `Stop::Number`, `Stop::Depth` or `Stop::Convert` where the argument has no number, and `Stop::Memory` where memory is wanting.
pub fn floor(
    alloc: Global,
    h: &Heap,
    by: u32,
    this: &Value,
    args: &[Value],
) -> Result<Outcome, Stop>
    ensures { Comes (row_done r.floor by this.now args.now h.now) result h.now }
{
    outcome_of(its_number(alloc, h, args))
}

/// `Math.ceil(x)` (ES3 15.8.2.6), which is the number itself. The run stops where the argument has no number.
///
/// # Errors
///
/// `Stop::Number`, `Stop::Depth` or `Stop::Convert` where the argument has no number, and `Stop::Memory` where memory is wanting.
pub fn ceil(alloc: Global, h: &Heap, by: u32, this: &Value, args: &[Value]) -> Result<Outcome, Stop>
    ensures { Comes (row_done r.ceil by this.now args.now h.now) result h.now }
{
    outcome_of(its_number(alloc, h, args))
}

/// `Math.round(x)` (ES3 15.8.2.15), which is the number itself. The run stops where the argument has no number.
///
/// # Errors
///
/// `Stop::Number`, `Stop::Depth` or `Stop::Convert` where the argument has no number, and `Stop::Memory` where memory is wanting.
pub fn round(
    alloc: Global,
    h: &Heap,
    by: u32,
    this: &Value,
    args: &[Value],
) -> Result<Outcome, Stop>
    ensures { Comes (row_done r.round by this.now args.now h.now) result h.now }
{
    outcome_of(its_number(alloc, h, args))
}

/// `Math.max(..)` (ES3 15.8.2.11): the greatest of the arguments' numbers. The run stops where one has no number, and where
/// there is none at all.
///
/// # Errors
///
/// `Stop::Number` where there is no argument, `Stop::Number`, `Stop::Depth` or `Stop::Convert` where one has no number, and `Stop::Memory` where memory is wanting.
pub fn max(alloc: Global, h: &Heap, by: u32, this: &Value, args: &[Value]) -> Result<Outcome, Stop>
    ensures { Comes (row_done r.max by this.now args.now h.now) result h.now }
{
    outcome_of(best_of(alloc, h, Best::Greatest, args))
}

/// `Math.min(..)` (ES3 15.8.2.12): the least of the arguments' numbers. The run stops where one has no number, and where
/// there is none at all.
///
/// # Errors
///
/// `Stop::Number` where there is no argument, `Stop::Number`, `Stop::Depth` or `Stop::Convert` where one has no number, and `Stop::Memory` where memory is wanting.
pub fn min(alloc: Global, h: &Heap, by: u32, this: &Value, args: &[Value]) -> Result<Outcome, Stop>
    ensures { Comes (row_done r.min by this.now args.now h.now) result h.now }
{
    outcome_of(best_of(alloc, h, Best::Least, args))
}

//! The operators that wait for what comes behind a list, the innermost last, each with its left part or with how deep that nests.

ghost use Rattle.std.specs.Prelude.{◌≡◌, ◌+◌, ◌^◌, ◌<◌, ◌≤◌, IfOk, OnOk, map, max, reverse, vec_capacity, vec_len};
ghost use Rattle.es3_tree.specs.PlacedView.{expr};
ghost use Rattle.es3_ops.specs.Taking.{Taken};
ghost use Rattle.es3_grammar.specs.Levels.{own};
ghost use Rattle.es3_ops.specs.Views.{depth_of, infix_join, left_of};
ghost use Rattle.es3_ops.specs.Waiting as all;

use crate::grouping::Infix;
use caja_units::Memory;
use es3_tree::{Expr, boxed};
use std::alloc::Global;

/// The innermost, taken off, if its operator is of this level or above.
fn taken<T>(waiting: &mut Vec<(T, Infix)>, level: u32) -> Option<(T, Infix)>
    ensures taken { Taken level waiting.old.items waiting.new.items result }
    ensures room { vec_capacity waiting.new ≡ vec_capacity waiting.old }
{
    match waiting.last() {
        Some((_, op)) if level <= op.level() => waiting.pop(),
        _ => None,
    }
}

/// How deep a part nests within the operators of this level or above, which are taken off; the part itself nests so deep.
fn close_depths(waiting: &mut Vec<(u32, Infix)>, level: u32, depth: u32) -> u32
    requires { all.whole_depth (reverse (map depth_of waiting.old.items)) depth < 2 ^ 32 }
    ensures depth { result ≡ all.closed_depth level (reverse (map depth_of waiting.old.items)) depth }
    ensures rest { reverse (map depth_of waiting.new.items)
        ≡ all.outside_depths level (reverse (map depth_of waiting.old.items)) }
    ensures room { vec_len waiting.new ≤ vec_len waiting.old }
    ensures capacity { vec_capacity waiting.new ≡ vec_capacity waiting.old }
{
    let mut depth = depth;
    while let Some((left, _)) = taken(waiting, level) {
        depth = 1 + depth.max(left);
    }
    depth
}

/// How deep a whole nests where a single node, which has the depth 1, stands behind all that waits.
fn whole_depth(waiting: &[(u32, Infix)]) -> u32
    requires { all.whole_depth (reverse (map depth_of waiting.now)) 1 < 2 ^ 32 }
    ensures { result ≡ all.whole_depth (reverse (map depth_of waiting.now)) 1 }
{
    let mut depth = 1;
    for &(left, _) in waiting.iter().rev() {
        depth = 1 + left.max(depth);
    }
    depth
}

/// One operator more, behind an operand that nests so deep. What comes back is how deep the whole nests with a single node behind it.
pub fn wait_behind(waiting: &mut Vec<(u32, Infix)>, depth: u32, op: Infix) -> u32
    requires room { vec_len waiting.old < vec_capacity waiting.old }
    requires fits { all.whole_depth (all.behind_depths (reverse (map depth_of waiting.old.items)) depth (own (infix_join op))) 1 < 2 ^ 32 }
    ensures waits { reverse (map depth_of waiting.new.items)
        ≡ all.behind_depths (reverse (map depth_of waiting.old.items)) depth (own (infix_join op)) }
    ensures depth { result
        ≡ all.whole_depth (all.behind_depths (reverse (map depth_of waiting.old.items)) depth (own (infix_join op))) 1 }
{
    let left = close_depths(waiting, op.level(), depth);
    waiting.push((left, op)).unwrap();
    whole_depth(waiting)
}

/// The part within the operators of this level or above, which are taken off.
pub fn close(
    alloc: Global,
    waiting: &mut Vec<(Expr, Infix)>,
    level: u32,
    part: Expr,
) -> Result<Expr, Memory>
    ensures part { IfOk result (λ x. expr x ≡ all.closed level (reverse (map left_of waiting.old.items)) (expr part)) }
    ensures rest { OnOk result (
        reverse (map left_of waiting.new.items)
        ≡ all.outside level (reverse (map left_of waiting.old.items))) }
{
    let mut part = part;
    while let Some((left, op)) = taken(waiting, level) {
        let (left, right) = (boxed(alloc, left)?, boxed(alloc, part)?);
        part = op.join().make(left, right);
    }
    Ok(part)
}

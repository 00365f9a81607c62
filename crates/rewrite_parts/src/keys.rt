//! The loop over the keys of an object (ES3 12.6.4): the object stands in the first of three temporaries, the list of its keys in the
//! second, and the place in the list in the third. Each function fails with `Memory` where memory is wanting.

ghost use Rattle.std.specs.Prelude.{◌≡◌, ◌+◌, ◌<◌, ◌^◌, IfOk, pos, codes};
ghost use Rattle.es3_tree.specs.Tree as tree;
ghost use Rattle.es3_tree.specs.declared.BinOp.TheVariants.{Less};
ghost use Rattle.es3_tree.specs.View.{expr, stmt, first as first_view, of_stmts};
ghost use Rattle.rewrite_parts.specs.Parts.{runtime_call as call_of_runtime, pair, temp, key_of, keys_first, keys_loop};

use crate::names::{own_name, runtime_call};
use crate::temporaries::{set_temporary, temporary, then};
use caja_num::Whole;
use caja_units::Memory;
use es3_tree::{
    BinOp, Expr, First, Stmt, boxed, make_binary, make_block, make_dot, make_for, make_if,
    make_index, make_step,
};
use std::alloc::Global;

/// How many temporaries the loop takes.
pub const LOOP_TEMPORARIES: u32 = 3;

/// The key of this turn.
///
/// # Errors
///
/// `Memory` where memory is wanting.
pub fn current_key(alloc: Global, first: u32) -> Result<Expr, Memory>
    requires { first + 3 < 2 ^ 32 }
    ensures { IfOk result (λ x. expr x ≡ key_of first) }
{
    let list = boxed(alloc, temporary(alloc, first + 1)?)?;
    let place = boxed(alloc, temporary(alloc, first + 2)?)?;
    Ok(make_index(list, place))
}

// What the loop begins with.
fn start(alloc: Global, first: u32, object: Expr) -> Result<First, Memory>
    requires { first + 3 < 2 ^ 32 }
    ensures { IfOk result (λ x. first_view x ≡ keys_first first (expr object)) }
{
    let keys = runtime_call(alloc, "keysPub", [temporary(alloc, first)?])?;
    let object = set_temporary(alloc, first, object)?;
    let keys = set_temporary(alloc, first + 1, keys)?;
    let held = then(alloc, object, keys)?;
    let zero = Expr::Num(Whole::new(0).unwrap());
    let place = set_temporary(alloc, first + 2, zero)?;
    Ok(First::Expr(then(alloc, held, place)?))
}

// Whether there is a turn more.
fn test(alloc: Global, first: u32) -> Result<Expr, Memory>
    requires { first + 3 < 2 ^ 32 }
    ensures { IfOk result (λ x. expr x ≡ tree.binary Less (temp (first + 2)) (tree.dot (temp (first + 1)) (codes "length"))) }
{
    let place = boxed(alloc, temporary(alloc, first + 2)?)?;
    let list = boxed(alloc, temporary(alloc, first + 1)?)?;
    let count = boxed(alloc, make_dot(list, own_name(alloc, "length")?))?;
    Ok(make_binary(BinOp::Less, place, count))
}

// A block of these statements (ES3 12.1).
fn block<const N: usize>(alloc: Global, list: [Stmt; N]) -> Result<Stmt, Memory>
    ensures { IfOk result (λ s. stmt s ≡ tree.block (of_stmts list.entry)) }
{
    Ok(make_block(Vec::from_array(alloc, list)?))
}

// What a turn does, where the object still has the key.
fn turn(alloc: Global, first: u32, written: Stmt, body: Stmt) -> Result<Stmt, Memory>
    requires { first + 3 < 2 ^ 32 }
    ensures { IfOk result (λ s. stmt s ≡ tree.block (tree.more_stmts
        (tree.branch (call_of_runtime (codes "inPub") (pair (key_of first) (temp first)))
        (tree.block (tree.more_stmts (stmt written) (tree.more_stmts (stmt body) tree.no_stmts))) tree.no_stmt)
        tree.no_stmts)) }
{
    let key = current_key(alloc, first)?;
    let has = runtime_call(alloc, "inPub", [key, temporary(alloc, first)?])?;
    let done = boxed(alloc, block(alloc, [written, body])?)?;
    block(alloc, [make_if(has, done, None)])
}

/// The loop over the keys of the object, whose temporaries begin with that number: each turn does what writes the key, and then the body.
///
/// # Errors
///
/// `Memory` where memory is wanting.
pub fn loop_over_keys(
    alloc: Global,
    first: u32,
    object: Expr,
    written: Stmt,
    body: Stmt,
) -> Result<Stmt, Memory>
    requires { first + 3 < 2 ^ 32 }
    ensures { IfOk result (λ s. stmt s ≡ keys_loop first (expr object) (stmt written) (stmt body)) }
{
    let start = start(alloc, first, object)?;
    let test = test(alloc, first)?;
    let place = boxed(alloc, temporary(alloc, first + 2)?)?;
    let update = make_step(true, false, place);
    let body = boxed(alloc, turn(alloc, first, written, body)?)?;
    Ok(make_for(start, Some(test), Some(update), body))
}

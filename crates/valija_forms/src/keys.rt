//! The loop over the keys of an object (ES3 12.6.4).

ghost use Rattle.std.specs.Prelude.{◌≡◌, ◌+◌, ◌<◌, ◌^◌, codes, true, false, IfOk};
ghost use Rattle.es3_tree.specs.declared.BinOp.TheVariants.{Less};
ghost use Rattle.es3_tree.specs.Placed as placed;
ghost use Rattle.es3_tree.specs.PlacedView as source;
ghost use Rattle.valija_forms.specs.Forms as forms;

use crate::asks::{ask_one, ask_two};
use crate::temporaries::{keeps, kept, number, then};
use crate::words::own_word;
use caja_units::Memory;
use es3_tree::{
    BinOp, Expr, First, Stmt, boxed, make_binary, make_block, make_dot, make_for, make_if,
    make_index, make_step,
};
use std::alloc::Global;

/// The key at which the loop is: the object, its keys and the place among these are held in three temporaries from `first` on.
///
/// # Errors
///
/// `Memory` where memory is wanting.
pub fn key_now(alloc: Global, first: u32) -> Result<Box<Expr>, Memory>
    requires { first + 3 < 2 ^ 32 }
    ensures { IfOk result (λ x. source.expr x.value ≡ forms.key_now first) }
{
    let keys = kept(alloc, first + 1)?;
    boxed(alloc, make_index(keys, kept(alloc, first + 2)?))
}

// `a = e, b = $v.ks(a), c = 0`
fn start(alloc: Global, first: u32, object: Box<Expr>) -> Result<First, Memory>
    requires { first + 3 < 2 ^ 32 }
    ensures { IfOk result (λ x. source.first x ≡ placed.first_expr (placed.comma (placed.comma (forms.keeps first (source.expr object.value))
        (forms.keeps (first + 1) (forms.ask (codes "ks") (forms.list1 (forms.kept first))))) (forms.keeps (first + 2) (forms.number 0)))) }
{
    let held = keeps(alloc, first, object)?;
    let keys = ask_one(alloc, "ks", kept(alloc, first)?)?;
    let keys = keeps(alloc, first + 1, keys)?;
    let place = keeps(alloc, first + 2, number(alloc, 0)?)?;
    let both = then(alloc, held, keys)?;
    Ok(First::Expr(Box::into_inner(then(alloc, both, place)?)))
}

// `c < b.length`
fn test(alloc: Global, first: u32) -> Result<Box<Expr>, Memory>
    requires { first + 3 < 2 ^ 32 }
    ensures { IfOk result (λ x. source.expr x.value ≡ placed.binary Less (forms.kept (first + 2)) (placed.dot (forms.kept (first + 1)) (forms.word (codes "length")))) }
{
    let length = make_dot(kept(alloc, first + 1)?, own_word(alloc, "length")?);
    let place = kept(alloc, first + 2)?;
    boxed(
        alloc,
        make_binary(BinOp::Less, place, boxed(alloc, length)?),
    )
}

// `{ if ($v.h(b[c], a)) { w; S } }`
fn turn(alloc: Global, first: u32, written: Box<Expr>, body: Box<Stmt>) -> Result<Stmt, Memory>
    requires { first + 3 < 2 ^ 32 }
    ensures { IfOk result (λ x. source.stmt x ≡ placed.block (placed.more_stmts (placed.branch
        (forms.ask (codes "h") (forms.list2 (placed.index (forms.kept (first + 1)) (forms.kept (first + 2))) (forms.kept first)))
        (placed.block (placed.more_stmts (placed.expression (source.expr written.value)) (placed.more_stmts (source.stmt body.value) placed.no_stmts)))
        placed.no_stmt) placed.no_stmts)) }
{
    let is_there = ask_two(alloc, "h", key_now(alloc, first)?, kept(alloc, first)?)?;
    let written = Stmt::Expr(Box::into_inner(written));
    let inner = make_block(Vec::from_array(alloc, [written, Box::into_inner(body)])?);
    let inner = boxed(alloc, inner)?;
    let test = make_if(Box::into_inner(is_there), inner, None);
    Ok(make_block(Vec::from_array(alloc, [test])?))
}

/// The loop: the object, its keys and the place among these are held in three temporaries from `first` on, and before each turn the key is `written`.
///
/// # Errors
///
/// `Memory` where memory is wanting.
pub fn over_keys(
    alloc: Global,
    first: u32,
    written: Box<Expr>,
    object: Box<Expr>,
    body: Box<Stmt>,
) -> Result<Box<Stmt>, Memory>
    requires { first + 3 < 2 ^ 32 }
    ensures { IfOk result (λ x. source.stmt x.value
        ≡ forms.over_keys first (first + 1) (first + 2) (source.expr written.value) (source.expr object.value) (source.stmt body.value)) }
{
    let start = start(alloc, first, object)?;
    let test = test(alloc, first)?;
    let step = make_step(true, false, kept(alloc, first + 2)?);
    let turn = boxed(alloc, turn(alloc, first, written, body)?)?;
    let turns = make_for(start, Some(Box::into_inner(test)), Some(step), turn);
    boxed(alloc, turns)
}

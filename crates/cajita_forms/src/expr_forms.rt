//! Resolved expressions of parts that may have no resolved form: an expression is there exactly where its parts are.
//! Each fails with `Memory` where memory is wanting, and where it was wanting in one of its parts.

ghost use Rattle.std.specs.Prelude.{◌≡◌, IfOk, Option, Some};
ghost use Rattle.es3_tree.specs.PlacedView as source;
ghost use Rattle.cajita_tree.specs.Tree as tree;
ghost use Rattle.cajita_tree.specs.View as view;
ghost use Rattle.cajita_tree.specs.Parts.{called, target_of, deleted as deleted_tree};
ghost use Rattle.cajita_forms.specs.Boxed as held;
ghost use Rattle.cajita_forms.specs.Gives.{Gives};
ghost use Rattle.cajita_forms.specs.Options.{one, both, three, from as from_part};
ghost use Rattle.cajita_forms.specs.Forms.{text_of, texts_of, name_or_arguments, unary_of};

use crate::together::joined;
use caja_units::{Memory, Units};
use cajita_names::words::is_arguments;
use cajita_tree::{CExpr, CFunc, Key, Target, make_array, make_function, make_new, make_record};
use es3_tree::{BinOp, Name, UnOp, boxed};
use std::alloc::Global;

/// An expression that has no parts.
///
/// # Errors
///
/// `Memory` where memory is wanting.
pub fn leaf(alloc: Global, tree: CExpr) -> Result<Option<Box<CExpr>>, Memory>
    ensures { Gives result held.expr (Some (view.expr tree)) }
{
    Ok(Some(boxed(alloc, tree)?))
}

/// The text as an expression.
///
/// # Errors
///
/// `Memory` where memory is wanting.
pub fn text_literal(alloc: Global, text: &Units) -> Result<Option<Box<CExpr>>, Memory>
    ensures { Gives result held.expr (Some (tree.text text.now)) }
{
    leaf(alloc, CExpr::Text(text.copy(alloc)?))
}

/// The name as an expression: `arguments` is no name like others.
///
/// # Errors
///
/// `Memory` where memory is wanting.
pub fn name(alloc: Global, name: &Name) -> Result<Option<Box<CExpr>>, Memory>
    ensures { Gives result held.expr (Some (name_or_arguments name.now.text)) }
{
    if is_arguments(&name.text) {
        return leaf(alloc, CExpr::Args);
    }
    leaf(alloc, CExpr::Name(name.text.copy(alloc)?))
}

/// The text of the name or the label, if there is one.
///
/// # Errors
///
/// `Memory` where memory is wanting.
pub fn text(alloc: Global, name: &Option<Name>) -> Result<Option<Units>, Memory>
    ensures { IfOk result (λ u. u ≡ text_of (source.word_of name.now)) }
{
    match name {
        Some(name) => Ok(Some(name.text.copy(alloc)?)),
        None => Ok(None),
    }
}

/// The texts of the names.
///
/// # Errors
///
/// `Memory` where memory is wanting.
pub fn texts(alloc: Global, names: &[Name]) -> Result<Vec<Units>, Memory>
    ensures { IfOk result (λ v. v.items ≡ texts_of (source.words names.now)) }
{
    let mut texts = Vec::new(alloc);
    for name in names {
        texts.push(name.text.copy(alloc)?)?;
    }
    Ok(texts)
}

/// An array literal of these elements (ES3 11.1.4).
///
/// # Errors
///
/// `Memory` where memory is wanting, or was for one of its parts.
#[tactic(auto, using(crate::proofs::Formed::formed_one))]
pub fn array(
    alloc: Global,
    elements: Result<Option<Vec<CExpr>>, Memory>,
) -> Result<Option<Box<CExpr>>, Memory>
    ensures { (x : Option (tree.Tree tree.exprs))
        → Gives elements (λ v. view.of_exprs v.items) x
        → Gives result held.expr (one tree.array x) }
{
    let Some(elements) = elements? else {
        return Ok(None);
    };
    Ok(Some(boxed(alloc, make_array(elements))?))
}

/// An object literal of these properties (ES3 11.1.5).
///
/// # Errors
///
/// `Memory` where memory is wanting, or was for one of its parts.
#[tactic(auto, using(crate::proofs::Formed::formed_one))]
pub fn record_literal(
    alloc: Global,
    fields: Result<Option<Vec<(Units, CExpr)>>, Memory>,
) -> Result<Option<Box<CExpr>>, Memory>
    ensures { (x : Option (tree.Tree tree.fields))
        → Gives fields (λ v. view.of_fields v.items) x
        → Gives result held.expr (one tree.record_of x) }
{
    let Some(fields) = fields? else {
        return Ok(None);
    };
    Ok(Some(boxed(alloc, make_record(fields))?))
}

/// A function as an expression (ES3 13).
///
/// # Errors
///
/// `Memory` where memory is wanting, or was for one of its parts.
#[tactic(auto, using(crate::proofs::Formed::formed_one))]
pub fn function(
    alloc: Global,
    function: Result<Option<CFunc>, Memory>,
) -> Result<Option<Box<CExpr>>, Memory>
    ensures { (x : Option (tree.Tree tree.func))
        → Gives function view.func x
        → Gives result held.expr (one tree.function x) }
{
    let Some(function) = function? else {
        return Ok(None);
    };
    let function = make_function(boxed(alloc, function)?);
    Ok(Some(boxed(alloc, function)?))
}

/// The member behind a point (ES3 11.2.1).
///
/// # Errors
///
/// `Memory` where memory is wanting, or was for one of its parts.
#[tactic(auto, using(crate::proofs::Formed::formed_one))]
pub fn dot(
    alloc: Global,
    key: &Name,
    object: Result<Option<Box<CExpr>>, Memory>,
) -> Result<Option<Box<CExpr>>, Memory>
    ensures { (x : Option (tree.Tree tree.expr))
        → Gives object held.expr x
        → Gives result held.expr (one (λ o. tree.read o (tree.fixed key.now.text)) x) }
{
    let Some(object) = object? else {
        return Ok(None);
    };
    let key = Key::Fixed(key.text.copy(alloc)?);
    Ok(Some(boxed(alloc, CExpr::Read(object, key))?))
}

/// The member in brackets (ES3 11.2.1).
///
/// # Errors
///
/// `Memory` where memory is wanting, or was for one of its parts.
#[tactic(auto, using(crate::proofs::Formed::formed_both))]
pub fn index(
    alloc: Global,
    object: Result<Option<Box<CExpr>>, Memory>,
    key: Result<Option<Box<CExpr>>, Memory>,
) -> Result<Option<Box<CExpr>>, Memory>
    ensures { (x : Option (tree.Tree tree.expr)) (y : Option (tree.Tree tree.expr))
        → Gives object held.expr x → Gives key held.expr y
        → Gives result held.expr (both (λ o k. tree.read o (tree.computed k)) x y) }
{
    let Some((object, key)) = joined(object, key)? else {
        return Ok(None);
    };
    let read = CExpr::Read(object, Key::Computed(key));
    Ok(Some(boxed(alloc, read)?))
}

/// A call with these arguments (ES3 11.2.3).
///
/// # Errors
///
/// `Memory` where memory is wanting, or was for one of its parts.
#[tactic(auto, using(crate::proofs::Formed::formed_both))]
pub fn call(
    alloc: Global,
    callee: Result<Option<Box<CExpr>>, Memory>,
    arguments: Result<Option<Vec<CExpr>>, Memory>,
) -> Result<Option<Box<CExpr>>, Memory>
    ensures { (x : Option (tree.Tree tree.expr)) (y : Option (tree.Tree tree.exprs))
        → Gives callee held.expr x → Gives arguments (λ v. view.of_exprs v.items) y
        → Gives result held.expr (both called x y) }
{
    let Some((callee, arguments)) = joined(callee, arguments)? else {
        return Ok(None);
    };
    let call = Box::into_inner(callee).called(alloc, arguments)?;
    Ok(Some(boxed(alloc, call)?))
}

/// A `new` with these arguments (ES3 11.2.2).
///
/// # Errors
///
/// `Memory` where memory is wanting, or was for one of its parts.
#[tactic(auto, using(crate::proofs::Formed::formed_both))]
pub fn new(
    alloc: Global,
    constructor: Result<Option<Box<CExpr>>, Memory>,
    arguments: Result<Option<Vec<CExpr>>, Memory>,
) -> Result<Option<Box<CExpr>>, Memory>
    ensures { (x : Option (tree.Tree tree.expr)) (y : Option (tree.Tree tree.exprs))
        → Gives constructor held.expr x → Gives arguments (λ v. view.of_exprs v.items) y
        → Gives result held.expr (both tree.new x y) }
{
    let Some((constructor, arguments)) = joined(constructor, arguments)? else {
        return Ok(None);
    };
    Ok(Some(boxed(alloc, make_new(constructor, arguments))?))
}

// The member, deleted, and None exactly where it is no member.
fn deleted(alloc: Global, operand: Box<CExpr>) -> Result<Option<Box<CExpr>>, Memory>
    ensures { Gives result held.expr (deleted_tree (held.expr operand)) }
{
    match Box::into_inner(operand).deleted() {
        Some(deleted) => Ok(Some(boxed(alloc, deleted)?)),
        None => Ok(None),
    }
}

/// An operator before its operand; a `delete` is there where its operand is a member (ES3 11.4).
///
/// # Errors
///
/// `Memory` where memory is wanting, or was for one of its parts.
#[tactic(auto, using(crate::proofs::Formed::formed_from))]
pub fn unary(
    alloc: Global,
    op: UnOp,
    operand: Result<Option<Box<CExpr>>, Memory>,
) -> Result<Option<Box<CExpr>>, Memory>
    ensures { (x : Option (tree.Tree tree.expr))
        → Gives operand held.expr x
        → Gives result held.expr (from_part (unary_of op) x) }
{
    let Some(operand) = operand? else {
        return Ok(None);
    };
    match op {
        UnOp::Delete => deleted(alloc, operand),
        op => Ok(Some(boxed(alloc, CExpr::Unary(op, operand))?)),
    }
}

/// The expression as what is written to.
///
/// # Errors
///
/// `Memory` where memory is wanting, or was for one of its parts.
#[tactic(auto, using(crate::proofs::Formed::formed_from))]
pub fn target(written: Result<Option<Box<CExpr>>, Memory>) -> Result<Option<Target>, Memory>
    ensures { (x : Option (tree.Tree tree.expr))
        → Gives written held.expr x
        → Gives result view.target (from_part target_of x) }
{
    let Some(written) = written? else {
        return Ok(None);
    };
    Ok(Box::into_inner(written).into_target())
}

/// One more or one less, before or behind its operand (ES3 11.3, 11.4.4, 11.4.5).
///
/// # Errors
///
/// `Memory` where memory is wanting, or was for one of its parts.
#[tactic(auto, using(crate::proofs::Formed::formed_one))]
pub fn step(
    alloc: Global,
    up: bool,
    before: bool,
    operand: Result<Option<Target>, Memory>,
) -> Result<Option<Box<CExpr>>, Memory>
    ensures { (x : Option (tree.Tree tree.target))
        → Gives operand view.target x
        → Gives result held.expr (one (tree.step up before) x) }
{
    let Some(operand) = operand? else {
        return Ok(None);
    };
    Ok(Some(boxed(alloc, CExpr::Step(up, before, operand))?))
}

/// An assignment, with an operator or without (ES3 11.13).
///
/// # Errors
///
/// `Memory` where memory is wanting, or was for one of its parts.
#[tactic(auto, using(crate::proofs::Formed::formed_both))]
pub fn assign(
    alloc: Global,
    op: Option<BinOp>,
    written: Result<Option<Target>, Memory>,
    value: Result<Option<Box<CExpr>>, Memory>,
) -> Result<Option<Box<CExpr>>, Memory>
    ensures { (x : Option (tree.Tree tree.target)) (y : Option (tree.Tree tree.expr))
        → Gives written view.target x → Gives value held.expr y
        → Gives result held.expr (both (tree.assign op) x y) }
{
    let Some((written, value)) = joined(written, value)? else {
        return Ok(None);
    };
    Ok(Some(boxed(alloc, CExpr::Assign(op, written, value))?))
}

/// An operator between its operands (ES3 11.5 to 11.10).
///
/// # Errors
///
/// `Memory` where memory is wanting, or was for one of its parts.
#[tactic(auto, using(crate::proofs::Formed::formed_both))]
pub fn binary(
    alloc: Global,
    op: BinOp,
    left: Result<Option<Box<CExpr>>, Memory>,
    right: Result<Option<Box<CExpr>>, Memory>,
) -> Result<Option<Box<CExpr>>, Memory>
    ensures { (x : Option (tree.Tree tree.expr)) (y : Option (tree.Tree tree.expr))
        → Gives left held.expr x → Gives right held.expr y
        → Gives result held.expr (both (tree.binary op) x y) }
{
    let Some((left, right)) = joined(left, right)? else {
        return Ok(None);
    };
    Ok(Some(boxed(alloc, CExpr::Binary(op, left, right))?))
}

/// The operator `&&` (ES3 11.11).
///
/// # Errors
///
/// `Memory` where memory is wanting, or was for one of its parts.
#[tactic(auto, using(crate::proofs::Formed::formed_both))]
pub fn and(
    alloc: Global,
    left: Result<Option<Box<CExpr>>, Memory>,
    right: Result<Option<Box<CExpr>>, Memory>,
) -> Result<Option<Box<CExpr>>, Memory>
    ensures { (x : Option (tree.Tree tree.expr)) (y : Option (tree.Tree tree.expr))
        → Gives left held.expr x → Gives right held.expr y
        → Gives result held.expr (both tree.and x y) }
{
    let Some((left, right)) = joined(left, right)? else {
        return Ok(None);
    };
    Ok(Some(boxed(alloc, CExpr::And(left, right))?))
}

/// The operator `||` (ES3 11.11).
///
/// # Errors
///
/// `Memory` where memory is wanting, or was for one of its parts.
#[tactic(auto, using(crate::proofs::Formed::formed_both))]
pub fn or(
    alloc: Global,
    left: Result<Option<Box<CExpr>>, Memory>,
    right: Result<Option<Box<CExpr>>, Memory>,
) -> Result<Option<Box<CExpr>>, Memory>
    ensures { (x : Option (tree.Tree tree.expr)) (y : Option (tree.Tree tree.expr))
        → Gives left held.expr x → Gives right held.expr y
        → Gives result held.expr (both tree.or x y) }
{
    let Some((left, right)) = joined(left, right)? else {
        return Ok(None);
    };
    Ok(Some(boxed(alloc, CExpr::Or(left, right))?))
}

/// The operator `,` (ES3 11.14).
///
/// # Errors
///
/// `Memory` where memory is wanting, or was for one of its parts.
#[tactic(auto, using(crate::proofs::Formed::formed_both))]
pub fn comma(
    alloc: Global,
    left: Result<Option<Box<CExpr>>, Memory>,
    right: Result<Option<Box<CExpr>>, Memory>,
) -> Result<Option<Box<CExpr>>, Memory>
    ensures { (x : Option (tree.Tree tree.expr)) (y : Option (tree.Tree tree.expr))
        → Gives left held.expr x → Gives right held.expr y
        → Gives result held.expr (both tree.comma x y) }
{
    let Some((left, right)) = joined(left, right)? else {
        return Ok(None);
    };
    Ok(Some(boxed(alloc, CExpr::Comma(left, right))?))
}

/// The operator `?:` (ES3 11.12).
///
/// # Errors
///
/// `Memory` where memory is wanting, or was for one of its parts.
#[tactic(auto, using(crate::proofs::Formed::formed_three))]
pub fn conditional(
    alloc: Global,
    test: Result<Option<Box<CExpr>>, Memory>,
    yes: Result<Option<Box<CExpr>>, Memory>,
    no: Result<Option<Box<CExpr>>, Memory>,
) -> Result<Option<Box<CExpr>>, Memory>
    ensures { (x : Option (tree.Tree tree.expr)) (y : Option (tree.Tree tree.expr)) (z : Option (tree.Tree tree.expr))
        → Gives test held.expr x → Gives yes held.expr y → Gives no held.expr z
        → Gives result held.expr (three tree.choice x y z) }
{
    let Some(((test, yes), no)) = joined(joined(test, yes), no)? else {
        return Ok(None);
    };
    Ok(Some(boxed(alloc, CExpr::Cond(test, yes, no))?))
}

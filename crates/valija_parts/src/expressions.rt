//! Expressions of lowered parts (ES3 11).

ghost use Rattle.std.specs.Prelude.{◌≡◌, ℕ, ◌+◌, ◌<◌, ◌^◌, IfOk};
ghost use Rattle.es3_tree.specs.Tree as tree;
ghost use Rattle.es3_tree.specs.Placed as placed;
ghost use Rattle.es3_tree.specs.Placed.{Placed};
ghost use Rattle.es3_tree.specs.PlacedView as source;
ghost use Rattle.cajita_names.specs.Views.{scope_of};
ghost use Rattle.valija_forms.specs.Numbered.{Numbered, Takes, one, both, three};
ghost use Rattle.valija_forms.specs.Forms as forms;
ghost use Rattle.valija_parts.specs.Gives.{Gives};
ghost use Rattle.valija_parts.specs.Held as held;
ghost use Rattle.valija_parts.specs.Lower.{lowered_binary};
ghost use Rattle.valija_parts.specs.Names as names_of;
ghost use Rattle.valija_parts.specs.Places as wanted;
ghost use Rattle.valija_parts.specs.Places.{Place as PlaceForm};
ghost use Rattle.valija_parts.specs.Views.{place_of};

use crate::names::{read_name, receiver};
use crate::places::Place;
use crate::together::joined;
use caja_units::{Memory, Units};
use cajita_names::scope::Scope;
use es3_tree::{
    BinOp, Expr, Name, UnOp, boxed, make_and, make_array, make_binary, make_cond, make_object,
    make_or,
};
use std::alloc::Global;
use valija_forms::asks::{ask_two, construct, get};
use valija_forms::temporaries::then;
use valija_forms::words::{as_text, copied};

/// An expression that has no parts.
///
/// # Errors
///
/// `Memory` where memory is wanting.
pub fn leaf(alloc: Global, e: Expr) -> Result<Box<Expr>, Memory>
    ensures { (n : ℕ) → Gives result n held.expr (source.expr e, n) }
{
    Ok(boxed(alloc, e)?)
}

/// A text (ES3 7.8.4).
///
/// # Errors
///
/// `Memory` where memory is wanting.
pub fn text(alloc: Global, text: &Units) -> Result<Box<Expr>, Memory>
    ensures { (n : ℕ) → Gives result n held.expr (placed.text text.now, n) }
{
    let text = text.copy(alloc)?;
    Ok(boxed(alloc, Expr::Text(text))?)
}

/// `this` (ES3 11.1.1).
///
/// # Errors
///
/// `Memory` where memory is wanting.
pub fn this(alloc: Global, scope: &Scope<'_>) -> Result<Box<Expr>, Memory>
    ensures { (n : ℕ) → Gives result n held.expr (names_of.receiver (scope_of scope.now), n) }
{
    Ok(receiver(alloc, scope)?)
}

/// A name (ES3 11.1.2).
///
/// # Errors
///
/// `Memory` where memory is wanting.
pub fn name(alloc: Global, scope: &Scope<'_>, name: &Name) -> Result<Box<Expr>, Memory>
    ensures { (n : ℕ) → Gives result n held.expr (names_of.read_name (scope_of scope.now) (source.word name.now), n) }
{
    Ok(read_name(alloc, scope, name)?)
}

/// A function expression: it takes no temporaries of what is around it (ES3 13).
///
/// # Errors
///
/// `Memory` where memory was wanting for the function.
pub fn function(function: Result<Box<Expr>, Memory>) -> Result<Box<Expr>, Memory>
    ensures { (x : Placed tree.expr) (n : ℕ) → IfOk function (λ e. source.expr e.value ≡ x) → Gives result n held.expr (x, n) }
{
    function
}

/// An array literal of these elements (ES3 11.1.4).
///
/// # Errors
///
/// `Memory` where memory is wanting, or was for one of its parts.
pub fn array(alloc: Global, elements: Result<Vec<Expr>, Memory>) -> Result<Box<Expr>, Memory>
    ensures { (x : Numbered (Placed tree.exprs)) (n m : ℕ) → Gives elements m held.exprs (x n) → Gives result m held.expr (one placed.array x n) }
{
    let elements = elements?;
    Ok(boxed(alloc, make_array(elements))?)
}

/// An object literal of these properties (ES3 11.1.5).
///
/// # Errors
///
/// `Memory` where memory is wanting, or was for one of its parts.
pub fn object(alloc: Global, fields: Result<Vec<(Name, Expr)>, Memory>) -> Result<Box<Expr>, Memory>
    ensures { (x : Numbered (Placed tree.fields)) (n m : ℕ) → Gives fields m held.fields (x n) → Gives result m held.expr (one placed.object x n) }
{
    let fields = fields?;
    Ok(boxed(alloc, make_object(fields))?)
}

/// The member of an object behind a point (ES3 11.2.1).
///
/// # Errors
///
/// `Memory` where memory is wanting, or was for one of its parts.
pub fn dot(
    alloc: Global,
    object: Result<Box<Expr>, Memory>,
    key: &Name,
) -> Result<Box<Expr>, Memory>
    ensures { (x : Numbered (Placed tree.expr)) (n m : ℕ) → Gives object m held.expr (x n) → Gives result m held.expr (one (λ o. forms.get o (forms.text_of (source.word key.now))) x n) }
{
    let object = object?;
    let key = as_text(alloc, key)?;
    Ok(get(alloc, object, key)?)
}

/// The member of an object in brackets (ES3 11.2.1).
///
/// # Errors
///
/// `Memory` where memory is wanting, or was for one of its parts.
pub fn index(
    alloc: Global,
    object: Result<Box<Expr>, Memory>,
    key: Result<Box<Expr>, Memory>,
) -> Result<Box<Expr>, Memory>
    ensures { (x : Numbered (Placed tree.expr)) (y : Numbered (Placed tree.expr)) (n m k : ℕ)
        → Gives object m held.expr (x n) → Gives key k held.expr (y m)
        → Gives result k held.expr (both forms.get x y n) }
{
    let (object, key) = joined(object, key)?;
    Ok(get(alloc, object, key)?)
}

/// A call with these arguments (ES3 11.2.3).
///
/// # Errors
///
/// `Memory` where memory is wanting, or was for one of its parts.
pub fn call(
    alloc: Global,
    scope: &Scope<'_>,
    callee: Result<Place, Memory>,
    arguments: Result<Vec<Expr>, Memory>,
) -> Result<Box<Expr>, Memory>
    ensures { (x : Numbered PlaceForm) (y : Numbered (Placed tree.exprs)) (n m k : ℕ)
        → Gives callee m place_of (x n) → Gives arguments k held.exprs (y m)
        → Gives result k held.expr (both (wanted.called (scope_of scope.now)) x y n) }
{
    let (callee, arguments) = joined(callee, arguments)?;
    Ok(callee.called(alloc, scope, arguments)?)
}

/// A `new` with these arguments (ES3 11.2.2).
///
/// # Errors
///
/// `Memory` where memory is wanting, or was for one of its parts.
pub fn new(
    alloc: Global,
    constructor: Result<Box<Expr>, Memory>,
    arguments: Result<Vec<Expr>, Memory>,
) -> Result<Box<Expr>, Memory>
    ensures { (x : Numbered (Placed tree.expr)) (y : Numbered (Placed tree.exprs)) (n m k : ℕ)
        → Gives constructor m held.expr (x n) → Gives arguments k held.exprs (y m)
        → Gives result k held.expr (both forms.construct x y n) }
{
    let (constructor, arguments) = joined(constructor, arguments)?;
    Ok(construct(alloc, constructor, arguments)?)
}

/// A prefix operator with its operand (ES3 11.4).
///
/// # Errors
///
/// `Memory` where memory is wanting, or was for one of its parts.
pub fn unary(
    alloc: Global,
    scope: &Scope<'_>,
    op: UnOp,
    operand: Result<Place, Memory>,
) -> Result<Box<Expr>, Memory>
    ensures { (x : Numbered PlaceForm) (n m : ℕ) → Gives operand m place_of (x n) → Gives result m held.expr (one (wanted.prefixed (scope_of scope.now) op) x n) }
{
    let operand = operand?;
    Ok(operand.prefixed(alloc, scope, op)?)
}

/// `++` where `up`, else `--`, before its operand or behind it, with temporaries from the number `first` on (ES3 11.3, 11.4.4, 11.4.5).
///
/// # Errors
///
/// `Memory` where memory is wanting, or was for one of its parts.
pub fn step(
    alloc: Global,
    scope: &Scope<'_>,
    up: bool,
    before: bool,
    first: Result<u32, Memory>,
    operand: Result<Place, Memory>,
) -> Result<Box<Expr>, Memory>
    requires { IfOk first (λ i. i + 3 < 2 ^ 32) }
    ensures { (x : Numbered PlaceForm) (n c m k : ℕ) → Takes first n c m → Gives operand k place_of (x m)
        → Gives result k held.expr (one (wanted.stepped (scope_of scope.now) up before n) x (n + c)) }
{
    let (first, operand) = joined(first, operand)?;
    Ok(operand.stepped(alloc, scope, up, before, first)?)
}

/// An assignment: with the operator of `+=` and its kin, or with none for `=`, with temporaries from the number `first` on (ES3 11.13).
///
/// # Errors
///
/// `Memory` where memory is wanting, or was for one of its parts.
pub fn assign(
    alloc: Global,
    scope: &Scope<'_>,
    op: Option<BinOp>,
    first: Result<u32, Memory>,
    target: Result<Place, Memory>,
    value: Result<Box<Expr>, Memory>,
) -> Result<Box<Expr>, Memory>
    requires { IfOk first (λ i. i + 3 < 2 ^ 32) }
    ensures { (x : Numbered PlaceForm) (y : Numbered (Placed tree.expr)) (n c m k l : ℕ) → Takes first n c m
        → Gives target k place_of (x m) → Gives value l held.expr (y k)
        → Gives result l held.expr (both (wanted.assigned (scope_of scope.now) op n) x y (n + c)) }
{
    let (first, (target, value)) = joined(first, joined(target, value))?;
    Ok(target.assigned(alloc, scope, op, first, value)?)
}

// The operator between its operands: `in` and `instanceof` are asked of the prelude (ES3 11.8.6, 11.8.7).
fn operator(
    alloc: Global,
    op: BinOp,
    left: Box<Expr>,
    right: Box<Expr>,
) -> Result<Box<Expr>, Memory>
    ensures { IfOk result (λ x. source.expr x.value ≡ lowered_binary op (source.expr left.value) (source.expr right.value)) }
{
    match op {
        BinOp::InObject => ask_two(alloc, "h", left, right),
        BinOp::InstanceOf => ask_two(alloc, "io", left, right),
        _ => boxed(alloc, make_binary(op, left, right)),
    }
}

/// A binary operator with its operands (ES3 11.5 to 11.10).
///
/// # Errors
///
/// `Memory` where memory is wanting, or was for one of its parts.
pub fn binary(
    alloc: Global,
    op: BinOp,
    left: Result<Box<Expr>, Memory>,
    right: Result<Box<Expr>, Memory>,
) -> Result<Box<Expr>, Memory>
    ensures { (x : Numbered (Placed tree.expr)) (y : Numbered (Placed tree.expr)) (n m k : ℕ)
        → Gives left m held.expr (x n) → Gives right k held.expr (y m)
        → Gives result k held.expr (both (lowered_binary op) x y n) }
{
    let (left, right) = joined(left, right)?;
    Ok(operator(alloc, op, left, right)?)
}

/// `left && right` (ES3 11.11).
///
/// # Errors
///
/// `Memory` where memory is wanting, or was for one of its parts.
pub fn and(
    alloc: Global,
    left: Result<Box<Expr>, Memory>,
    right: Result<Box<Expr>, Memory>,
) -> Result<Box<Expr>, Memory>
    ensures { (x : Numbered (Placed tree.expr)) (y : Numbered (Placed tree.expr)) (n m k : ℕ)
        → Gives left m held.expr (x n) → Gives right k held.expr (y m)
        → Gives result k held.expr (both placed.and x y n) }
{
    let (left, right) = joined(left, right)?;
    Ok(boxed(alloc, make_and(left, right))?)
}

/// `left || right` (ES3 11.11).
///
/// # Errors
///
/// `Memory` where memory is wanting, or was for one of its parts.
pub fn or(
    alloc: Global,
    left: Result<Box<Expr>, Memory>,
    right: Result<Box<Expr>, Memory>,
) -> Result<Box<Expr>, Memory>
    ensures { (x : Numbered (Placed tree.expr)) (y : Numbered (Placed tree.expr)) (n m k : ℕ)
        → Gives left m held.expr (x n) → Gives right k held.expr (y m)
        → Gives result k held.expr (both placed.or x y n) }
{
    let (left, right) = joined(left, right)?;
    Ok(boxed(alloc, make_or(left, right))?)
}

/// `test ? yes : no` (ES3 11.12).
///
/// # Errors
///
/// `Memory` where memory is wanting, or was for one of its parts.
pub fn choice(
    alloc: Global,
    test: Result<Box<Expr>, Memory>,
    yes: Result<Box<Expr>, Memory>,
    no: Result<Box<Expr>, Memory>,
) -> Result<Box<Expr>, Memory>
    ensures { (x : Numbered (Placed tree.expr)) (y : Numbered (Placed tree.expr)) (z : Numbered (Placed tree.expr)) (n m k l : ℕ)
        → Gives test m held.expr (x n) → Gives yes k held.expr (y m) → Gives no l held.expr (z k)
        → Gives result l held.expr (three placed.choice x y z n) }
{
    let ((test, yes), no) = joined(joined(test, yes), no)?;
    Ok(boxed(alloc, make_cond(test, yes, no))?)
}

/// `left, right` (ES3 11.14).
///
/// # Errors
///
/// `Memory` where memory is wanting, or was for one of its parts.
pub fn comma(
    alloc: Global,
    left: Result<Box<Expr>, Memory>,
    right: Result<Box<Expr>, Memory>,
) -> Result<Box<Expr>, Memory>
    ensures { (x : Numbered (Placed tree.expr)) (y : Numbered (Placed tree.expr)) (n m k : ℕ)
        → Gives left m held.expr (x n) → Gives right k held.expr (y m)
        → Gives result k held.expr (both placed.comma x y n) }
{
    let (left, right) = joined(left, right)?;
    Ok(then(alloc, left, right)?)
}

/// A name that is called, written, stepped or asked for its type.
///
/// # Errors
///
/// `Memory` where memory is wanting.
pub fn name_place(alloc: Global, name: &Name) -> Result<Place, Memory>
    ensures { (n : ℕ) → Gives result n place_of (wanted.at_name (forms.word name.now.text), n) }
{
    Ok(Place::Name(copied(alloc, name)?))
}

/// The member of an object behind a point, as what is called, written, stepped or deleted.
///
/// # Errors
///
/// `Memory` where memory is wanting, or was for one of its parts.
pub fn dot_place(
    alloc: Global,
    object: Result<Box<Expr>, Memory>,
    key: &Name,
) -> Result<Place, Memory>
    ensures { (x : Numbered (Placed tree.expr)) (n m : ℕ) → Gives object m held.expr (x n) → Gives result m place_of (one (λ o. wanted.at_dot o (forms.word key.now.text)) x n) }
{
    let object = object?;
    Ok(Place::Dot(object, copied(alloc, key)?))
}

/// The member of an object in brackets, as what is called, written, stepped or deleted.
///
/// # Errors
///
/// `Memory` where memory is wanting, or was for one of its parts.
pub fn index_place(
    object: Result<Box<Expr>, Memory>,
    key: Result<Box<Expr>, Memory>,
) -> Result<Place, Memory>
    ensures { (x : Numbered (Placed tree.expr)) (y : Numbered (Placed tree.expr)) (n m k : ℕ)
        → Gives object m held.expr (x n) → Gives key k held.expr (y m)
        → Gives result k place_of (both wanted.at_index x y n) }
{
    let (object, key) = joined(object, key)?;
    Ok(Place::Index(object, key))
}

/// What is no name and no member.
///
/// # Errors
///
/// `Memory` where memory is wanting, or was for one of its parts.
pub fn other_place(e: Result<Box<Expr>, Memory>) -> Result<Place, Memory>
    ensures { (x : Numbered (Placed tree.expr)) (n m : ℕ) → Gives e m held.expr (x n) → Gives result m place_of (one wanted.elsewhere x n) }
{
    let e = e?;
    Ok(Place::Other(e))
}

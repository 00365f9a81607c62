//! What may be called, written, stepped, deleted or asked for its type (ES3 8.7), by its lowered parts.

ghost use Rattle.std.specs.Prelude.{◌≡◌, ◌+◌, ◌<◌, ◌^◌, IfOk, if◌then◌else◌};
ghost use Rattle.es3_tree.specs.declared.UnOp.TheVariants.{Delete, Typeof};
ghost use Rattle.es3_tree.specs.Placed as placed;
ghost use Rattle.es3_tree.specs.PlacedView as source;
ghost use Rattle.cajita_names.specs.Views.{scope_of};
ghost use Rattle.valija_forms.specs.Forms as forms;
ghost use Rattle.valija_forms.specs.Members.{key_form};
ghost use Rattle.valija_parts.specs.Places as wanted;
ghost use Rattle.valija_parts.specs.Views.{place_of};

use crate::names::{name_takes, op_of_name, read_name, step_name, type_of_name, write_name};
use caja_units::Memory;
use cajita_names::scope::Scope;
use es3_tree::{BinOp, Expr, Name, UnOp, boxed, make_assign, make_step, make_unary};
use std::alloc::Global;
use valija_forms::asks::{ask_two, call_member, call_value, get, set};
use valija_forms::members::{Held, hold, hold_key};
use valija_forms::words::{NOWHERE, as_text};

/// What may be called, written, stepped, deleted or asked for its type.
#[derive(Drop)]
pub enum Place {
    Name(Name),
    /// A member behind a point: its object, and its key (ES3 11.2.1).
    Dot(Box<Expr>, Name),
    /// A member in brackets: its object, and its key.
    Index(Box<Expr>, Box<Expr>),
    Other(Box<Expr>),
}

// `++` or `--` at a member that is held; where it stands behind, the old value is kept in the temporary of the number `last`.
fn step_held(
    alloc: Global,
    held: Held,
    up: bool,
    before: bool,
    last: u32,
) -> Result<Box<Expr>, Memory>
    ensures { IfOk result (λ x. source.expr x.value ≡ (if before
        then forms.stepped_before up (source.expr held.holding.value) (forms.kept held.object) (key_form held.key)
        else forms.stepped_behind up last (source.expr held.holding.value) (forms.kept held.object) (key_form held.key))) }
{
    if before {
        held.step_before(alloc, up)
    } else {
        held.step_behind(alloc, up, last)
    }
}

/// How many temporaries `++` or `--` takes, before its operand or behind it.
#[tactic(auto, using(es3_tree::proofs::PlacedRows::placed_views))]
pub fn steps_taken(scope: &Scope<'_>, before: bool, operand: &Expr) -> u32
    ensures { result ≡ wanted.steps_taken (scope_of scope.now) before (source.expr operand.now) }
{
    match operand {
        Expr::Name(name) => name_takes(scope, before, name),
        Expr::Dot(_, _) => { if before { 1 } else { 2 } }
        Expr::Index(_, _) => { if before { 2 } else { 3 } }
        _ => 0,
    }
}

/// How many temporaries an assignment takes: those of `+=` and its kin hold a member.
#[tactic(auto, using(es3_tree::proofs::PlacedRows::placed_views))]
pub fn held_by(op: Option<BinOp>, target: &Expr) -> u32
    ensures { result ≡ wanted.held_by op (source.expr target.now) }
{
    match op {
        None => 0,
        Some(_) => match target {
            Expr::Dot(_, _) => 1,
            Expr::Index(_, _) => 2,
            _ => 0,
        },
    }
}

// A prefix operator with its operand (ES3 11.4).
fn prefix(alloc: Global, op: UnOp, operand: Box<Expr>) -> Result<Box<Expr>, Memory>
    ensures { IfOk result (λ x. source.expr x.value ≡ placed.unary op (source.expr operand.value) 0) }
{
    boxed(alloc, make_unary(op, operand, NOWHERE))
}

impl Place {
    /// Its value.
    ///
    /// # Errors
    ///
    /// `Memory` where memory is wanting.
    pub fn value(self, alloc: Global, scope: &Scope<'_>) -> Result<Box<Expr>, Memory>
        ensures { IfOk result (λ x. source.expr x.value ≡ wanted.value_of (scope_of scope.now) (place_of self)) }
    {
        match self {
            Place::Name(name) => read_name(alloc, scope, &name),
            Place::Dot(object, key) => get(alloc, object, as_text(alloc, &key)?),
            Place::Index(object, key) => get(alloc, object, key),
            Place::Other(e) => Ok(e),
        }
    }

    /// A call: of a member, whose object is the receiver, or of a value (ES3 11.2.3).
    ///
    /// # Errors
    ///
    /// `Memory` where memory is wanting.
    pub fn called(
        self,
        alloc: Global,
        scope: &Scope<'_>,
        arguments: Vec<Expr>,
    ) -> Result<Box<Expr>, Memory>
        ensures { IfOk result (λ x. source.expr x.value ≡ wanted.called (scope_of scope.now) (place_of self) (source.of_exprs arguments.items)) }
    {
        match self {
            Place::Name(name) => call_value(alloc, read_name(alloc, scope, &name)?, arguments),
            Place::Dot(object, key) => {
                call_member(alloc, object, as_text(alloc, &key)?, arguments)
            }
            Place::Index(object, key) => call_member(alloc, object, key, arguments),
            Place::Other(callee) => call_value(alloc, callee, arguments),
        }
    }

    fn deleted(self, alloc: Global, scope: &Scope<'_>) -> Result<Box<Expr>, Memory>
        ensures { IfOk result (λ x. source.expr x.value ≡ wanted.prefixed (scope_of scope.now) Delete (place_of self)) }
    {
        match self {
            Place::Name(name) => prefix(alloc, UnOp::Delete, read_name(alloc, scope, &name)?),
            Place::Dot(object, key) => ask_two(alloc, "d", object, as_text(alloc, &key)?),
            Place::Index(object, key) => ask_two(alloc, "d", object, key),
            Place::Other(operand) => prefix(alloc, UnOp::Delete, operand),
        }
    }

    fn type_of(self, alloc: Global, scope: &Scope<'_>) -> Result<Box<Expr>, Memory>
        ensures { IfOk result (λ x. source.expr x.value ≡ wanted.prefixed (scope_of scope.now) Typeof (place_of self)) }
    {
        match self {
            Place::Name(name) => type_of_name(alloc, scope, &name),
            Place::Dot(object, key) => {
                let operand = get(alloc, object, as_text(alloc, &key)?)?;
                prefix(alloc, UnOp::Typeof, operand)
            }
            Place::Index(object, key) => prefix(alloc, UnOp::Typeof, get(alloc, object, key)?),
            Place::Other(operand) => prefix(alloc, UnOp::Typeof, operand),
        }
    }

    /// `delete` of a member, `typeof` of a name, or another prefix operator with its operand (ES3 11.4).
    ///
    /// # Errors
    ///
    /// `Memory` where memory is wanting.
    pub fn prefixed(self, alloc: Global, scope: &Scope<'_>, op: UnOp) -> Result<Box<Expr>, Memory>
        ensures { IfOk result (λ x. source.expr x.value ≡ wanted.prefixed (scope_of scope.now) op (place_of self)) }
    {
        match op {
            UnOp::Delete => self.deleted(alloc, scope),
            UnOp::Typeof => self.type_of(alloc, scope),
            _ => prefix(alloc, op, self.value(alloc, scope)?),
        }
    }

    /// `++` where `up`, else `--`, before the place or behind it, with temporaries from the number `first` on (ES3 11.3, 11.4.4, 11.4.5).
    ///
    /// # Errors
    ///
    /// `Memory` where memory is wanting.
    pub fn stepped(
        self,
        alloc: Global,
        scope: &Scope<'_>,
        up: bool,
        before: bool,
        first: u32,
    ) -> Result<Box<Expr>, Memory>
        requires { first + 3 < 2 ^ 32 }
        ensures { IfOk result (λ x. source.expr x.value ≡ wanted.stepped (scope_of scope.now) up before first (place_of self)) }
    {
        match self {
            Place::Name(name) => step_name(alloc, scope, up, before, first, &name),
            Place::Dot(object, key) => {
                let held = hold(alloc, first, object, key)?;
                step_held(alloc, held, up, before, first + 1)
            }
            Place::Index(object, key) => {
                let held = hold_key(alloc, first, first + 1, object, key)?;
                step_held(alloc, held, up, before, first + 2)
            }
            Place::Other(operand) => boxed(alloc, make_step(up, before, operand)),
        }
    }

    /// The value of the right side put into the place (ES3 11.13.1).
    fn set(self, alloc: Global, scope: &Scope<'_>, value: Box<Expr>) -> Result<Box<Expr>, Memory>
        ensures { IfOk result (λ x. source.expr x.value ≡ wanted.set_to (scope_of scope.now) (place_of self) (source.expr value.value)) }
    {
        match self {
            Place::Name(name) => write_name(alloc, scope, &name, value),
            Place::Dot(object, key) => set(alloc, object, as_text(alloc, &key)?, value),
            Place::Index(object, key) => set(alloc, object, key, value),
            Place::Other(target) => boxed(alloc, make_assign(None, target, value)),
        }
    }

    // The operator of `+=` and its kin with its right operand, with temporaries from the number `first` on (ES3 11.13.2).
    fn compound(
        self,
        alloc: Global,
        scope: &Scope<'_>,
        op: BinOp,
        first: u32,
        operand: Box<Expr>,
    ) -> Result<Box<Expr>, Memory>
        requires { first + 3 < 2 ^ 32 }
        ensures { IfOk result (λ x. source.expr x.value ≡ wanted.operated (scope_of scope.now) op first (place_of self) (source.expr operand.value)) }
    {
        match self {
            Place::Name(name) => op_of_name(alloc, scope, op, &name, operand),
            Place::Dot(object, key) => hold(alloc, first, object, key)?.compound(
                alloc, op, operand,
            ),
            Place::Index(object, key) => {
                let held = hold_key(alloc, first, first + 1, object, key)?;
                held.compound(alloc, op, operand)
            }
            Place::Other(target) => boxed(alloc, make_assign(Some(op), target, operand)),
        }
    }

    /// An assignment to the place: with the operator of `+=` and its kin, or with none for `=`, with temporaries from the number `first` on (ES3 11.13).
    ///
    /// # Errors
    ///
    /// `Memory` where memory is wanting.
    pub fn assigned(
        self,
        alloc: Global,
        scope: &Scope<'_>,
        op: Option<BinOp>,
        first: u32,
        value: Box<Expr>,
    ) -> Result<Box<Expr>, Memory>
        requires { first + 3 < 2 ^ 32 }
        ensures { IfOk result (λ x.
            source.expr x.value ≡ wanted.assigned (scope_of scope.now) op first (place_of self) (source.expr value.value)) }
    {
        match op {
            None => self.set(alloc, scope, value),
            Some(op) => self.compound(alloc, scope, op, first, value),
        }
    }

    /// The value put into the place, where it is what the head of a `for` .. `in` names (ES3 12.6.4).
    ///
    /// # Errors
    ///
    /// `Memory` where memory is wanting.
    pub fn written(
        self,
        alloc: Global,
        scope: &Scope<'_>,
        value: Box<Expr>,
    ) -> Result<Box<Expr>, Memory>
        ensures { IfOk result (λ x. source.expr x.value ≡ wanted.put (scope_of scope.now) (source.expr value.value) (place_of self)) }
    {
        match self {
            Place::Name(name) => write_name(alloc, scope, &name, value),
            Place::Dot(object, key) => set(alloc, object, as_text(alloc, &key)?, value),
            Place::Index(object, key) => set(alloc, object, key, value),
            Place::Other(target) => Ok(target),
        }
    }
}

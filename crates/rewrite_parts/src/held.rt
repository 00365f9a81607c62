//! What is written to: a variable, or a member (ES3 11.3, 11.4.4, 11.4.5, 11.13). Each function fails with `Memory` where memory is wanting.

ghost use Rattle.std.specs.Prelude.{◌≡◌, IfOk};
ghost use Rattle.es3_tree.specs.Tree as tree;
ghost use Rattle.es3_tree.specs.declared.UnOp.TheVariants.{Plus};
ghost use Rattle.es3_tree.specs.View.{expr};
ghost use Rattle.rewrite_parts.specs.Parts.{temp, set_temp, by_one as one_more};
ghost use Rattle.rewrite_parts.specs.Held.{place_form, assigned, held_key, held_form, held_read, held_write, stepped, compounded};

use crate::names::{NOWHERE, runtime_call};
use crate::temporaries::{set_temporary, temporary, then};
use caja_num::Whole;
use caja_units::{Memory, Units};
use es3_tree::{BinOp, Expr, Name, UnOp, boxed, make_assign, make_binary, make_step, make_unary};
use std::alloc::Global;

/// What a plain assignment writes to: a variable, or the member of this object with this key.
#[derive(Drop)]
pub enum Place {
    Variable(Name),
    Member(Expr, Expr),
}

impl Place {
    /// The value assigned to it (ES3 11.13.1).
    ///
    /// # Errors
    ///
    /// `Memory` where memory is wanting.
    pub fn assign(self, alloc: Global, value: Expr) -> Result<Expr, Memory>
        ensures { IfOk result (λ x. expr x ≡ assigned (place_form self) (expr value)) }
    {
        match self {
            Place::Variable(name) => {
                let name = boxed(alloc, Expr::Name(name))?;
                Ok(make_assign(None, name, boxed(alloc, value)?))
            }
            Place::Member(object, key) => runtime_call(alloc, "setPub", [object, key, value]),
        }
    }
}

/// The key of a member: settled, or the value of the temporary of that number.
#[derive(Drop)]
pub enum HeldKey {
    Fixed(Units),
    Temporary(u32),
}

/// A member of the object in a temporary: the assignments that hold the object, and the key where it is computed; the number of the object's
/// temporary; the key; and the number of the first temporary behind these.
#[derive(Drop)]
pub struct Held {
    pub holding: Expr,
    pub object: u32,
    pub key: HeldKey,
    pub next: u32,
}

/// What is read and written to: a variable, or a member that is held.
#[derive(Drop)]
pub enum HeldPlace {
    Variable(Name),
    Member(Held),
}

impl HeldPlace {
    /// `++` where `up`, else `--`, before it where `before`, else behind it (ES3 11.3, 11.4.4, 11.4.5). Behind a member, its old value is held
    /// in the first temporary behind those of the member.
    ///
    /// # Errors
    ///
    /// `Memory` where memory is wanting.
    pub fn step(self, alloc: Global, up: bool, before: bool) -> Result<Expr, Memory>
        ensures { IfOk result (λ x. expr x ≡ stepped up before (held_form self)) }
    {
        match self {
            HeldPlace::Variable(name) => {
                let name = boxed(alloc, Expr::Name(name))?;
                Ok(make_step(up, before, name))
            }
            HeldPlace::Member(member) => {
                if before {
                    step_before(alloc, up, member)
                } else {
                    step_after(alloc, up, member)
                }
            }
        }
    }

    /// An assignment with that operator (ES3 11.13.2).
    ///
    /// # Errors
    ///
    /// `Memory` where memory is wanting.
    pub fn compound(self, alloc: Global, op: BinOp, operand: Expr) -> Result<Expr, Memory>
        ensures { IfOk result (λ x. expr x ≡ compounded op (held_form self) (expr operand)) }
    {
        let operand = boxed(alloc, operand)?;
        match self {
            HeldPlace::Variable(name) => {
                let name = boxed(alloc, Expr::Name(name))?;
                Ok(make_assign(Some(op), name, operand))
            }
            HeldPlace::Member(member) => {
                let Held {
                    holding,
                    object,
                    key,
                    next: _,
                } = member;
                let value = boxed(alloc, read(alloc, object, &key)?)?;
                let value = make_binary(op, value, operand);
                then(alloc, holding, write(alloc, object, &key, value)?)
            }
        }
    }
}

// It answers the new value.
fn step_before(alloc: Global, up: bool, member: Held) -> Result<Expr, Memory>
    ensures { IfOk result (λ x. expr x ≡ tree.comma (expr member.holding)
        (held_write member.object (held_key member.key) (one_more up (tree.unary Plus (held_read member.object (held_key member.key)))))) }
{
    let Held {
        holding,
        object,
        key,
        next: _,
    } = member;
    let value = by_one(alloc, up, number(alloc, object, &key)?)?;
    then(alloc, holding, write(alloc, object, &key, value)?)
}

// It answers the old value.
fn step_after(alloc: Global, up: bool, member: Held) -> Result<Expr, Memory>
    ensures { IfOk result (λ x. expr x ≡ tree.comma (tree.comma (tree.comma (expr member.holding)
        (set_temp member.next (tree.unary Plus (held_read member.object (held_key member.key)))))
        (held_write member.object (held_key member.key) (one_more up (temp member.next))))
        (temp member.next)) }
{
    let Held {
        holding,
        object,
        key,
        next,
    } = member;
    let old = set_temporary(alloc, next, number(alloc, object, &key)?)?;
    let holding = then(alloc, holding, old)?;
    let value = by_one(alloc, up, temporary(alloc, next)?)?;
    let written = then(alloc, holding, write(alloc, object, &key, value)?)?;
    then(alloc, written, temporary(alloc, next)?)
}

fn key_value(alloc: Global, key: &HeldKey) -> Result<Expr, Memory>
    ensures { IfOk result (λ x. expr x ≡ held_key key.now) }
{
    match key {
        HeldKey::Fixed(key) => Ok(Expr::Text(key.copy(alloc)?)),
        HeldKey::Temporary(number) => temporary(alloc, *number),
    }
}

// What the member is.
fn read(alloc: Global, object: u32, key: &HeldKey) -> Result<Expr, Memory>
    ensures { IfOk result (λ x. expr x ≡ held_read object (held_key key.now)) }
{
    let object = temporary(alloc, object)?;
    runtime_call(alloc, "readPub", [object, key_value(alloc, key)?])
}

// What the member is, as a number (ES3 11.4.6).
fn number(alloc: Global, object: u32, key: &HeldKey) -> Result<Expr, Memory>
    ensures { IfOk result (λ x. expr x ≡ tree.unary Plus (held_read object (held_key key.now))) }
{
    let value = boxed(alloc, read(alloc, object, key)?)?;
    Ok(make_unary(UnOp::Plus, value, NOWHERE))
}

// The value written to the member.
fn write(alloc: Global, object: u32, key: &HeldKey, value: Expr) -> Result<Expr, Memory>
    ensures { IfOk result (λ x. expr x ≡ held_write object (held_key key.now) (expr value)) }
{
    let object = temporary(alloc, object)?;
    runtime_call(alloc, "setPub", [object, key_value(alloc, key)?, value])
}

// The number with one added where `up`, else taken away (ES3 11.6.1, 11.6.2).
fn by_one(alloc: Global, up: bool, number: Expr) -> Result<Expr, Memory>
    ensures { IfOk result (λ x. expr x ≡ one_more up (expr number)) }
{
    let op = if up { BinOp::Add } else { BinOp::Sub };
    let one = Expr::Num(Whole::new(1).unwrap());
    let number = boxed(alloc, number)?;
    Ok(make_binary(op, number, boxed(alloc, one)?))
}

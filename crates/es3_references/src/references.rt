//! Reading, writing and deleting what a reference stands for (ES3 8.7.1, 8.7.2, 11.4.1).

ghost use Rattle.std.specs.Prelude.{◌≡◌, ◌≤◌, IfOk, IsOk, OnOk, length, slice_get};
ghost use Rattle.es3_language.specs.Store.{name_value, scope_at};
ghost use Rattle.es3_language.specs.References as r;
ghost use Rattle.es3_moves.specs.Where.{plain_ref};
ghost use Rattle.es3_moves.specs.Texts.{store_of, plain_scopes};
ghost use Rattle.es3_references.specs.AtOnce.{IsNotWritten, IsDeletedAtOnce};

use crate::arguments::{delete_member, put_member, write_slot};
use crate::members::get_member;
use caja_units::{Memory, Units};
use es3_heap::{Heap, Value};
use es3_moves::frame::Ref;
use es3_moves::texts::Texts;
use std::alloc::Global;

/// A copy of the value of a reference, and none exactly for a name that no scope has and for an arguments object that isn't
/// made yet.
///
/// # Errors
///
/// `Memory` where memory is wanting.
pub fn read(
    alloc: Global,
    reference: &Ref,
    h: &Heap,
    texts: &Texts,
) -> Result<Option<Value>, Memory>
    ensures { IfOk result (λ v. v ≡ r.read (plain_ref reference.now) (store_of h.now texts.now)) }
{
    match reference {
        Ref::Unresolved(_) => Ok(None),
        Ref::Slot(c, name) => read_slot(alloc, *c, name, texts),
        Ref::OwnArguments(_) => Ok(None),
        Ref::InObject(o, name) => Ok(Some(h.get(*o, name).copy(alloc)?)),
        Ref::Named(o, name) => Ok(Some(h.get(*o, name).copy(alloc)?)),
        Ref::Member(base, key) => Ok(Some(get_member(alloc, base, key, h)?)),
        Ref::Just(v) => Ok(Some(v.copy(alloc)?)),
    }
}

/// A copy of the value of a name of a scope.
fn read_slot(alloc: Global, c: u32, name: &Units, texts: &Texts) -> Result<Option<Value>, Memory>
    ensures { IfOk result (λ v. v ≡ name_value name.now (scope_at (slice_get (plain_scopes texts.now) c))) }
{
    match texts.get(c, name) {
        Some(v) => Ok(Some(v.copy(alloc)?)),
        None => Ok(None),
    }
}

/// The receiver of a call of a reference (ES3 11.2.3).
///
/// # Errors
///
/// `Memory` where memory is wanting.
pub fn base_of(alloc: Global, reference: &Ref) -> Result<Value, Memory>
    ensures { IfOk result (λ v. v ≡ r.base_of (plain_ref reference.now)) }
{
    match reference {
        Ref::InObject(o, _) => Ok(Value::Obj(*o)),
        Ref::Member(base, _) => base.copy(alloc),
        Ref::Unresolved(_) => Ok(Value::Undefined),
        Ref::Slot(_, _) => Ok(Value::Undefined),
        Ref::OwnArguments(_) => Ok(Value::Undefined),
        Ref::Named(_, _) => Ok(Value::Undefined),
        Ref::Just(_) => Ok(Value::Undefined),
    }
}

/// Writes a value (ES3 8.7.2). A name that no scope has becomes one of the global object; what is no object keeps no member.
///
/// # Errors
///
/// `Memory` where memory is wanting.
pub fn write(
    alloc: Global,
    reference: &Ref,
    v: Value,
    h: &mut Heap,
    texts: &mut Texts,
) -> Result<(), Memory>
    ensures store { OnOk result (store_of h.new texts.new ≡ r.write (plain_ref reference.now) v (store_of h.old texts.old)) }
    ensures sure { IsNotWritten (plain_ref reference.now) → IsOk result }
    ensures live { length h.old.list ≤ length h.new.list }
{
    match reference {
        Ref::Unresolved(name) => {
            h.put(texts.globals, name, v)?;
            Ok(())
        }
        Ref::Slot(c, name) => write_slot(alloc, *c, name, v, h, texts),
        Ref::OwnArguments(c) => {
            let name = texts.arguments.clone()?;
            texts.put(*c, &name, v)
        }
        Ref::InObject(o, name) => put_member(alloc, *o, name, v, h, texts),
        Ref::Named(o, name) => {
            h.put(*o, name, v)?;
            Ok(())
        }
        Ref::Member(base, key) => write_member(alloc, base, key, v, h, texts),
        Ref::Just(_) => Ok(()),
    }
}

/// Writes a value to a member of a value.
fn write_member(
    alloc: Global,
    base: &Value,
    key: &Units,
    v: Value,
    h: &mut Heap,
    texts: &mut Texts,
) -> Result<(), Memory>
    ensures store { OnOk result (store_of h.new texts.new ≡ r.write (r.member base.now key.now) v (store_of h.old texts.old)) }
    ensures sure { IsNotWritten (r.member base.now key.now) → IsOk result }
    ensures live { length h.old.list ≤ length h.new.list }
{
    match base {
        Value::Obj(o) => put_member(alloc, *o, key, v, h, texts),
        Value::Undefined => Ok(()),
        Value::Null => Ok(()),
        Value::Bool(_) => Ok(()),
        Value::Num(_) => Ok(()),
        Value::Text(_) => Ok(()),
    }
}

/// Deletes what a reference stands for, and says whether it may go (ES3 11.4.1).
///
/// # Errors
///
/// `Memory` where memory is wanting.
pub fn delete(
    alloc: Global,
    reference: &Ref,
    h: &mut Heap,
    texts: &mut Texts,
) -> Result<bool, Memory>
    ensures answer { IfOk result (λ b. b ≡ r.may_go (plain_ref reference.now) (store_of h.old texts.old)) }
    ensures store { OnOk result (store_of h.new texts.new ≡ r.deleted (plain_ref reference.now) (store_of h.old texts.old)) }
    ensures sure { IsDeletedAtOnce (plain_ref reference.now) → IsOk result }
    ensures live { length h.old.list ≤ length h.new.list }
{
    match reference {
        Ref::Slot(_, _) => Ok(false),
        Ref::OwnArguments(_) => Ok(false),
        Ref::InObject(o, name) => Ok(delete_member(*o, name, h, texts)),
        Ref::Named(o, name) => Ok(delete_member(*o, name, h, texts)),
        Ref::Member(base, key) => delete_of(alloc, base, key, h, texts),
        Ref::Unresolved(_) => Ok(true),
        Ref::Just(_) => Ok(true),
    }
}

/// Deletes a member of a value: of what is no object nothing goes, and the length of a text may not (ES3 15.5.5.1).
fn delete_of(
    alloc: Global,
    base: &Value,
    key: &Units,
    h: &mut Heap,
    texts: &mut Texts,
) -> Result<bool, Memory>
    ensures answer { IfOk result (λ b. b ≡ r.may_go (r.member base.now key.now) (store_of h.old texts.old)) }
    ensures store { OnOk result (store_of h.new texts.new ≡ r.deleted (r.member base.now key.now) (store_of h.old texts.old)) }
    ensures sure { IsDeletedAtOnce (r.member base.now key.now) → IsOk result }
    ensures live { length h.old.list ≤ length h.new.list }
{
    match base {
        Value::Obj(o) => Ok(delete_member(*o, key, h, texts)),
        Value::Text(_) => {
            let length = Units::from_ascii(alloc, b"length")?;
            Ok(!key.same(&length))
        }
        Value::Undefined => Ok(true),
        Value::Null => Ok(true),
        Value::Bool(_) => Ok(true),
        Value::Num(_) => Ok(true),
    }
}

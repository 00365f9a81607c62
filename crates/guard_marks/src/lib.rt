//! The marks of objects: what a module was let do with a key. Each is a property that is true and that `for in` passes over (ES3
//! 12.6.4); its key is the marked key with an end of its own, so that no module can name it.
//!
//! The keys of marks are all made before an object changes, so that want of memory leaves the objects as they were.
#![tactic(auto)]

ghost use Rattle.std.specs.Prelude.{◌≡◌, ◌++◌, IfOk, OnOk, OnErr, length};
ghost use Rattle.heap_rows.specs.Marks.{can_read, can_set, can_call, marked, grant_read, grant_set, drop_marks};
ghost use Rattle.guard_marks.specs.Functions.{is_for_modules};

mod closures;

use caja_units::{Memory, Units};
pub use closures::is_closure;
use es3_heap::{Attrs, FuncKind, Heap, ObjId, Value};
use std::alloc::Global;

/// The mark of a function of a text that modules may use.
pub const SIMPLE_MARK: &[u8] = b"SIMPLEFUNC___";

/// The mark of a frozen object.
pub const FROZEN_MARK: &[u8] = b"FROZEN___";

/// How the key of a mark for reading ends.
const READ_END: &[u8] = b"_canRead___";

/// How the key of a mark for writing ends.
const SET_END: &[u8] = b"_canSet___";

/// How the key of a mark for calling ends.
const CALL_END: &[u8] = b"_canCall___";

/// The key of a mark for another key.
fn key_of_mark(alloc: Global, k: &Units, end: &[u8]) -> Result<Units, Memory>
    ensures { IfOk result (λ mark. mark ≡ k.now ++ end.now) }
{
    let end = Units::from_ascii(alloc, end)?;
    k.join(alloc, &end)
}

/// Whether an object itself has the mark for reading a key.
///
/// # Errors
///
/// Where memory is wanting.
pub fn can_read(alloc: Global, h: &Heap, o: ObjId, k: &Units) -> Result<bool, Memory>
    ensures { IfOk result (λ b. b ≡ can_read h.now o k.now) }
{
    let read = key_of_mark(alloc, k, READ_END)?;
    Ok(h.own(o, &read).is_some())
}

/// Whether an object itself has the mark for writing a key.
///
/// # Errors
///
/// Where memory is wanting.
pub fn can_set(alloc: Global, h: &Heap, o: ObjId, k: &Units) -> Result<bool, Memory>
    ensures { IfOk result (λ b. b ≡ can_set h.now o k.now) }
{
    let set = key_of_mark(alloc, k, SET_END)?;
    Ok(h.own(o, &set).is_some())
}

/// Whether an object or a prototype above it has the mark for calling a key (ES3 8.6.2.4).
///
/// # Errors
///
/// Where memory is wanting.
pub fn can_call(alloc: Global, h: &Heap, o: ObjId, k: &Units) -> Result<bool, Memory>
    ensures { IfOk result (λ b. b ≡ can_call h.now o k.now) }
{
    let call = key_of_mark(alloc, k, CALL_END)?;
    Ok(h.has(o, &call))
}

/// Whether an object is a function that modules may use: any but one of a text without its mark.
///
/// # Errors
///
/// Where memory is wanting.
pub fn is_for_modules(alloc: Global, h: &Heap, o: ObjId) -> Result<bool, Memory>
    ensures { IfOk result (λ b. b ≡ is_for_modules h.now o) }
{
    match h.kind(o) {
        None => Ok(false),
        Some(FuncKind::Code(_)) => {
            let simple = Units::from_ascii(alloc, SIMPLE_MARK)?;
            Ok(h.own(o, &simple).is_some())
        }
        Some(_) => Ok(true),
    }
}

/// Marks an object by the key of a mark.
///
/// # Errors
///
/// Where memory is wanting; then nothing has changed.
pub fn set_mark(h: &mut Heap, o: ObjId, mark: &Units) -> Result<(), Memory>
    ensures store { OnOk result (h.new ≡ marked h.old o mark.now) }
    ensures kept { OnErr result (h.new ≡ h.old) }
    ensures live { length h.new.list ≡ length h.old.list }
{
    h.define(o, mark, Value::Bool(true), Attrs::HIDDEN)
}

/// Marks that a key of an object may be read.
///
/// # Errors
///
/// Where memory is wanting; then nothing has changed.
pub fn grant_read(alloc: Global, h: &mut Heap, o: ObjId, k: &Units) -> Result<(), Memory>
    ensures store { OnOk result (h.new ≡ grant_read h.old o k.now) }
    ensures kept { OnErr result (h.new ≡ h.old) }
    ensures live { length h.new.list ≡ length h.old.list }
{
    let mark = key_of_mark(alloc, k, READ_END)?;
    set_mark(h, o, &mark)
}

/// Marks that a key of an object may be written.
///
/// # Errors
///
/// Where memory is wanting; then nothing has changed.
pub fn grant_set(alloc: Global, h: &mut Heap, o: ObjId, k: &Units) -> Result<(), Memory>
    ensures store { OnOk result (h.new ≡ grant_set h.old o k.now) }
    ensures kept { OnErr result (h.new ≡ h.old) }
    ensures live { length h.new.list ≡ length h.old.list }
{
    let mark = key_of_mark(alloc, k, SET_END)?;
    set_mark(h, o, &mark)
}

/// Takes the marks for reading and for writing a key from an object (ES3 8.6.2.5).
///
/// # Errors
///
/// Where memory is wanting; then nothing has changed.
pub fn drop_marks(alloc: Global, h: &mut Heap, o: ObjId, k: &Units) -> Result<(), Memory>
    ensures store { OnOk result (h.new ≡ drop_marks h.old o k.now) }
    ensures kept { OnErr result (h.new ≡ h.old) }
    ensures live { length h.new.list ≡ length h.old.list }
{
    let read = key_of_mark(alloc, k, READ_END)?;
    let set = key_of_mark(alloc, k, SET_END)?;
    h.delete(o, &read);
    h.delete(o, &set);
    Ok(())
}

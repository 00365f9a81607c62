//! The call of a key of a value, by an event.

ghost use Rattle.std.specs.Prelude.{◌≡◌, ◌≤◌, ◌∷◌, IfOk, OnOk, length};
ghost use Rattle.row_outcomes.specs.Comes.{throws};
ghost use Rattle.page_natives.specs.Natives.{Kept};
ghost use Rattle.module_loader.specs.Turns.{key_done};
ghost use Rattle.module_loader.specs.KeyCalls.{reply_of, called, is_nothing, answer};

use caja_units::{Memory, Units};
use es3_heap::{Heap, Proto, Value};
use public_properties::{function_kind, public_read};
use row_outcomes::named_error;
use std::alloc::Global;

/// What an event does that calls a key of a value.
#[derive(Debug, Drop)]
pub enum KeyCall {
    /// It calls a function: the function, the receiver, the arguments.
    Call(Value, Value, Vec<Value>),
    /// It throws a value, and calls nothing.
    Throw(Value),
}

/// A new TypeError with this message is thrown, made by a module, which then has that module's next name.
fn thrown(alloc: Global, h: &mut Heap, by: u32, message: &[u8]) -> Result<KeyCall, Memory>
    ensures reply { IfOk result (λ c. reply_of c ≡ (throws message.now by h.old).reply) }
    ensures store { OnOk result (h.new ≡ (throws message.now by h.old).heap) }
    ensures live { length h.old.list ≤ length h.new.list }
{
    let message = Units::from_ascii(alloc, message)?;
    let error = named_error(alloc, h, by, Proto::TypeError, b"TypeError", message)?;
    Ok(KeyCall::Throw(Value::Obj(error)))
}

/// The call of a method, where it is a function that modules may use.
fn call_method(
    alloc: Global,
    h: &mut Heap,
    by: u32,
    on: &Value,
    method: Value,
    args: Vec<Value>,
) -> Result<KeyCall, Memory>
    ensures reply { IfOk result (λ c. reply_of c ≡ (called method on.now args.items by h.old).reply) }
    ensures store { OnOk result (h.new ≡ (called method on.now args.items by h.old).heap) }
    ensures live { length h.old.list ≤ length h.new.list }
{
    match function_kind(alloc, h, &method)? {
        Some(_) => Ok(KeyCall::Call(method, on.copy(alloc)?, args)),
        None => thrown(alloc, h, by, b"not a function"),
    }
}

/// Whether there is no object to look in.
fn is_nothing(value: &Value) -> bool
    ensures { result ≡ is_nothing value.now }
{
    matches!(value, Value::Undefined | Value::Null)
}

/// Reads a key of a value, and calls it.
fn look_up(
    alloc: Global,
    h: &mut Heap,
    by: u32,
    on: &Value,
    key: &Units,
    args: Vec<Value>,
) -> Result<KeyCall, Memory>
    ensures reply { IfOk result (λ c. reply_of c ≡ (answer on.now key.now args.items by h.old).reply) }
    ensures store { OnOk result (h.new ≡ (answer on.now key.now args.items by h.old).heap) }
    ensures live { length h.old.list ≤ length h.new.list }
{
    if is_nothing(on) {
        return thrown(alloc, h, by, b"no object");
    }
    let method = public_read(alloc, h, on, key)?;
    call_method(alloc, h, by, on, method, args)
}

/// What an event does that calls a key of a value, with arguments, for a module (ES3 11.2.3): the key is read from outside, so
/// that nothing is touched and no mark is left. It throws a TypeError: `no object` where the value is undefined or null, then
/// `not a function` where the property is none that modules may use.
///
/// # Errors
///
/// `Memory` where memory is wanting.
pub fn key_call(
    alloc: Global,
    h: &mut Heap,
    by: u32,
    on: &Value,
    key: &Units,
    args: Vec<Value>,
) -> Result<KeyCall, Memory>
    ensures reply { IfOk result (λ c. (z : Kept) → reply_of c ≡ (key_done by key.now (on.now ∷ args.items) h.old z).reply) }
    ensures store { OnOk result ((z : Kept) → h.new ≡ (key_done by key.now (on.now ∷ args.items) h.old z).heap) }
    ensures live { length h.old.list ≤ length h.new.list }
{
    look_up(alloc, h, by, on, key, args)
}

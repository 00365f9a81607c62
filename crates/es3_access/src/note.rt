//! What is recorded of touches of objects with names.

ghost use Rattle.std.specs.Prelude.{◌≡◌, ◌≤◌, ◌+◌, IfOk, option_map, None};
ghost use Rattle.es3_language.specs.Store.{Store};
ghost use Rattle.es3_language.specs.References as r;
ghost use Rattle.es3_language.specs.Expressions as e;
ghost use Rattle.es3_language.specs.Tasks.{Env, Plan};
ghost use Rattle.es3_language.specs.Expressions.{callee_tag};
ghost use Rattle.es3_moves.specs.Code.{maybe_units};
ghost use Rattle.es3_moves.specs.Where.{plain_ref};
ghost use Rattle.es3_moves.specs.Moves.{plain_note, move_plan, after_plan};
ghost use Rattle.es3_access.specs.Notes.{named_touch, member_touch, call_touch, telling};
ghost use Rattle.es3_access.specs.Sizes.{size, after_size};

use caja_units::{Memory, Units};
use es3_heap::{Heap, Tag, Value};
use es3_language::Touch;
use es3_moves::frame::{After, Move, Note, Ref};
use std::rc::Rc;

/// A touch of an object, where it has a name.
fn touch(by: u32, what: Touch, on: Tag, key: Option<Rc<Units>>) -> Option<Note>
    ensures { option_map plain_note result ≡ named_touch by what on (maybe_units key) }
{
    match on {
        Tag::None => None,
        _ => Some(Note { by, what, on, key }),
    }
}

/// What is recorded where a reference is read or written: a member of an object with a name, at a key that isn't hidden.
///
/// # Errors
///
/// `Memory` where memory is wanting.
#[tactic(auto, using(crate::proofs::Told::telling_found))]
pub fn of_member(what: Touch, reference: &Ref, by: u32, h: &Heap) -> Result<Option<Note>, Memory>
    ensures note { IfOk result (λ n. option_map plain_note n ≡ member_touch what (plain_ref reference.now) by h.now) }
    ensures told { IfOk result (λ n. (env : Env) (s : Store) (p : Plan) → env.by ≡ by → s.heap ≡ h.now → telling (option_map plain_note n) p ≡ e.note_member what (plain_ref reference.now) env s p) }
{
    let note = of_reference(what, reference, by, h)?;
    Ok(note)
}

fn of_reference(what: Touch, reference: &Ref, by: u32, h: &Heap) -> Result<Option<Note>, Memory>
    ensures { IfOk result (λ n. option_map plain_note n ≡ member_touch what (plain_ref reference.now) by h.now) }
{
    match reference {
        Ref::Member(base, key) => of_key(what, base, key, by, h),
        Ref::Unresolved(_) => Ok(None),
        Ref::Slot(_, _) => Ok(None),
        Ref::OwnArguments(_) => Ok(None),
        Ref::InObject(_, _) => Ok(None),
        Ref::Named(_, _) => Ok(None),
        Ref::Just(_) => Ok(None),
    }
}

fn of_key(
    what: Touch,
    base: &Value,
    key: &Rc<Units>,
    by: u32,
    h: &Heap,
) -> Result<Option<Note>, Memory>
    ensures { IfOk result (λ n. option_map plain_note n ≡ member_touch what (r.member base.now key.now.value) by h.now) }
{
    match base {
        Value::Obj(o) => {
            if key.ends_hidden() {
                return Ok(None);
            }
            let key = key.clone()?;
            Ok(touch(by, what, h.tag(*o), Some(key)))
        }
        Value::Undefined => Ok(None),
        Value::Null => Ok(None),
        Value::Bool(_) => Ok(None),
        Value::Num(_) => Ok(None),
        Value::Text(_) => Ok(None),
    }
}

/// What is recorded where a value is called, or makes an object by `new`: a function with a name.
#[tactic(auto, using(crate::proofs::Told::telling_callee))]
pub fn of_call(what: Touch, callee: &Value, by: u32, h: &Heap) -> Option<Note>
    ensures note { option_map plain_note result ≡ call_touch what callee.now by h.now }
    ensures told { (env : Env) (s : Store) (p : Plan) → env.by ≡ by → s.heap ≡ h.now → telling (option_map plain_note result) p ≡ e.note_call what callee.now env s p }
{
    touch(by, what, called_tag(callee, h), None)
}

fn called_tag(callee: &Value, h: &Heap) -> Tag
    ensures { result ≡ callee_tag h.now callee.now }
{
    match callee {
        Value::Obj(o) => match h.kind(*o) {
            Some(_) => h.tag(*o),
            None => Tag::None,
        },
        Value::Undefined => Tag::None,
        Value::Null => Tag::None,
        Value::Bool(_) => Tag::None,
        Value::Num(_) => Tag::None,
        Value::Text(_) => Tag::None,
    }
}

/// Records a touch, if there is one, and goes on.
pub fn tell(note: Option<Note>, after: After) -> Move
    ensures plan { (s : Store) → move_plan result s ≡ telling (option_map plain_note note) (after_plan after s) }
    ensures small { size result ≤ after_size after + 1 }
{
    match note {
        Some(note) => Move::Tell(note, after),
        None => Move::Follow(after),
    }
}

//! Lists of parts, one after another: items, properties, arguments (ES3 11.1.4, 11.1.5, 11.2.4).

ghost use Rattle.std.specs.Prelude.{◌≡◌, ◌≤◌, ◌<◌, [], IfOk, length};
ghost use Rattle.es3_language.specs.Store.{Store};
ghost use Rattle.es3_language.specs.Expressions as e;
ghost use Rattle.es3_moves.specs.Code.{exprs_at, fields_at};
ghost use Rattle.es3_moves.specs.Where.{plain_env, plain_callee};
ghost use Rattle.es3_moves.specs.Texts.{store_of};
ghost use Rattle.es3_moves.specs.Moves.{move_plan};
ghost use Rattle.es3_access.specs.Sizes.{size};

use crate::enter::{give, value_part};
use crate::writes::copy_ref;
use caja_units::Memory;
use es3_access::note;
use es3_access::reads::with_read;
use es3_heap::{Heap, ObjId, Value};
use es3_language::Touch;
use es3_moves::code::{ExprCode, FieldCode};
use es3_moves::frame::{After, Callee, Calling, Env, Move, Then, Use};
use es3_moves::texts::Texts;
use std::alloc::Global;
use std::rc::Rc;

/// The next item of an array, or the array (ES3 11.1.4).
///
/// # Errors
///
/// `Memory` where memory is wanting.
#[tactic(auto, using(crate::proofs::Parts::exprs_more, crate::proofs::Parts::exprs_end))]
pub fn next_item(
    vs: Vec<Value>,
    es: Rc<Vec<Rc<ExprCode>>>,
    at: usize,
    env: Env,
    h: &mut Heap,
    texts: &Texts,
) -> Result<Move, Memory>
    ensures plan { IfOk result (λ x. move_plan x (store_of h.new texts.now) ≡ e.items vs.items (exprs_at es.value.items at) (plain_env env) (store_of h.old texts.now)) }
    ensures small { IfOk result (λ x. size x < 18) }
    ensures live { length h.old.list ≤ length h.new.list }
{
    if at >= es.len() {
        let array = h.make_array(vs)?;
        return Ok(give(Value::Obj(array)));
    }
    let item = es[at].clone()?;
    let inner = env.copy()?;
    Ok(value_part(item, inner, Use::Item(vs, es, at + 1, env)))
}

/// The next property of an object literal, or the object (ES3 11.1.5).
///
/// # Errors
///
/// `Memory` where memory is wanting.
#[tactic(auto, using(crate::proofs::Parts::fields_more, crate::proofs::Parts::fields_end))]
pub fn next_field(
    object: ObjId,
    fields: Rc<Vec<FieldCode>>,
    at: usize,
    env: Env,
    h: &Heap,
    texts: &Texts,
) -> Result<Move, Memory>
    ensures plan { IfOk result (λ x. move_plan x (store_of h.now texts.now) ≡ e.fields object (fields_at fields.value.items at) (plain_env env) (store_of h.now texts.now)) }
    ensures small { IfOk result (λ x. size x < 18) }
{
    if at >= fields.len() {
        return Ok(give(Value::Obj(object)));
    }
    let field = &fields[at];
    let key = field.key.clone()?;
    let value = field.value.clone()?;
    let inner = env.copy()?;
    Ok(value_part(value, inner, Use::Field(object, key, fields, at + 1, env)))
}

/// The arguments of a call, of which none is there yet (ES3 11.2.4).
///
/// # Errors
///
/// `Memory` where memory is wanting.
pub fn begin_arguments(
    alloc: Global,
    callee: Callee,
    list: Rc<Vec<Rc<ExprCode>>>,
    env: Env,
) -> Result<Move, Memory>
    ensures plan { IfOk result (λ x. (s : Store) → move_plan x s ≡ e.arguments (plain_callee callee) [] (exprs_at list.value.items 0) (plain_env env) s) }
    ensures small { IfOk result (λ x. size x < 24) }
{
    let calling = Calling {
        callee,
        values: Vec::new(alloc),
        list,
        at: 0,
        env,
    };
    Ok(Move::Arguments(Box::new(alloc, calling)?))
}

/// The next argument of a call, or the call (ES3 11.2.4).
///
/// # Errors
///
/// `Memory` where memory is wanting.
#[tactic(auto, using(crate::proofs::Parts::exprs_more, crate::proofs::Parts::exprs_end))]
pub fn next_argument(
    alloc: Global,
    mut calling: Box<Calling>,
    h: &mut Heap,
    texts: &mut Texts,
) -> Result<Move, Memory>
    ensures plan { IfOk result (λ x. move_plan x (store_of h.new texts.new) ≡ e.arguments (plain_callee calling.value.callee) calling.value.values.items (exprs_at calling.value.list.value.items calling.value.at) (plain_env calling.value.env) (store_of h.old texts.old)) }
    ensures small { IfOk result (λ x. size x < 23) }
    ensures live { length h.old.list ≤ length h.new.list }
{
    let at = calling.at;
    if at >= calling.list.len() {
        let Calling {
            callee,
            values,
            env,
            ..
        } = Box::into_inner(calling);
        return do_call(alloc, callee, values, env, h, texts);
    }
    let argument = calling.list[at].clone()?;
    let inner = calling.env.copy()?;
    calling.at = at + 1;
    Ok(value_part(argument, inner, Use::Argument(calling)))
}

/// The call, or what `new` makes, once the arguments are there: what is called is looked up only now (ES3 11.2.2, 11.2.3).
#[tactic(auto, using(es3_access::proofs::Told::telling_callee))]
fn do_call(
    alloc: Global,
    callee: Callee,
    args: Vec<Value>,
    env: Env,
    h: &mut Heap,
    texts: &mut Texts,
) -> Result<Move, Memory>
    ensures plan { IfOk result (λ x. move_plan x (store_of h.new texts.new) ≡ e.do_call (plain_callee callee) args.items (plain_env env) (store_of h.old texts.old)) }
    ensures small { IfOk result (λ x. size x < 23) }
    ensures live { length h.old.list ≤ length h.new.list }
{
    match callee {
        Callee::Called(reference) => {
            let copy = copy_ref(alloc, &reference)?;
            let then_env = env.copy()?;
            with_read(
                alloc,
                &reference,
                Then::Call(copy, args, then_env),
                &env,
                h,
                texts,
            )
        }
        Callee::Maker(f) => {
            let noted = note::of_call(Touch::New, &f, env.by(), h);
            Ok(note::tell(noted, After::Construct(f, args, env)))
        }
    }
}

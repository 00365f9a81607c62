//! Functions that texts make (ES3 13, 13.2).

ghost use Rattle.std.specs.Prelude.{◌≡◌, ◌≤◌, IfOk, OnOk, length};
ghost use Rattle.es3_language.specs.Store.{new_function, with_code};
ghost use Rattle.es3_language.specs.Hoisting as hoisting;
ghost use Rattle.es3_language.specs.Arguments.{arguments_name};
ghost use Rattle.es3_language.specs.Expressions as e;
ghost use Rattle.es3_moves.specs.Code.{plain_func};
ghost use Rattle.es3_moves.specs.Where.{plain_chain, plain_env};
ghost use Rattle.es3_moves.specs.Texts.{store_of, plain_code};
ghost use Rattle.es3_moves.specs.Moves.{move_plan};
ghost use Rattle.es3_calls.specs.Calls.{named_function};

use crate::activation::innermost;
use caja_units::{Memory, Units};
use es3_heap::{Attrs, Class, FuncKind, Heap, ObjId, Proto, Value};
use es3_hoisting::{functions_of, own_vars};
use es3_moves::code::FuncCode;
use es3_moves::frame::{Chain, Env, Flow, Move};
use es3_moves::texts::{Closure, Names, Owner, Scope, Texts};
use es3_references::members::whole;
use std::alloc::Global;
use std::rc::Rc;

/// A function object for the code of a text, and its prototype (ES3 13.2).
fn new_function(
    alloc: Global,
    code: u32,
    params: usize,
    maker: u32,
    h: &mut Heap,
) -> Result<ObjId, Memory>
    ensures id { IfOk result (λ o. o ≡ length h.old.list) }
    ensures heap { OnOk result (h.new ≡ new_function code params maker h.old) }
    ensures live { length h.old.list ≤ length h.new.list }
{
    if params >= 4_294_967_296 {
        return Err(Memory);
    }
    let count = Value::Num(whole(params));
    let length = Units::from_ascii(alloc, b"length")?;
    let constructor = Units::from_ascii(alloc, b"constructor")?;
    let prototype = Units::from_ascii(alloc, b"prototype")?;
    let f = h.make_func(FuncKind::Code(code), maker)?;
    h.define(f, &length, count, Attrs::FIXED)?;
    let above = h.proto(Proto::Object);
    let p = h.make(Class::Object, Some(above))?;
    h.define(p, &constructor, Value::Obj(f), Attrs::HIDDEN)?;
    h.define(f, &prototype, Value::Obj(p), Attrs::KEPT)?;
    Ok(f)
}

/// What a function is made of, with these scopes around it (ES3 13.2).
fn closure(
    alloc: Global,
    function: &FuncCode,
    chain: Rc<Chain>,
    arguments: &Units,
) -> Result<Closure, Memory>
    requires { arguments.now ≡ arguments_name }
    ensures { IfOk result (λ c. plain_code c ≡ hoisting.code_of (plain_func function.now) (plain_chain chain.value)) }
{
    let vars = own_vars(alloc, &function.body, arguments)?;
    let functions = functions_of(alloc, &function.body)?;
    let params = function.params.clone()?;
    let body = function.body.clone()?;
    Ok(Closure {
        params,
        vars,
        functions,
        body,
        chain,
    })
}

/// Makes a function with these scopes around it; its object is the next one (ES3 13.2).
///
/// # Errors
///
/// `Memory` where memory is wanting.
pub fn make_function(
    alloc: Global,
    function: &FuncCode,
    chain: Rc<Chain>,
    maker: u32,
    h: &mut Heap,
    texts: &mut Texts,
) -> Result<ObjId, Memory>
    ensures id { IfOk result (λ o. o ≡ length h.old.list) }
    ensures store { OnOk result (store_of h.new texts.new ≡ with_code (hoisting.code_of (plain_func function.now) (plain_chain chain.value)) maker (store_of h.old texts.old)) }
    ensures live { length h.old.list ≤ length h.new.list }
{
    let code = closure(alloc, function, chain, &texts.arguments)?;
    let number = texts.make_code(code)?;
    new_function(alloc, number, function.params.len(), maker, h)
}

/// What a function expression does (ES3 13): one with a name of its own has a scope with that name around it.
///
/// # Errors
///
/// `Memory` where memory is wanting.
pub fn enter_function(
    alloc: Global,
    function: &FuncCode,
    env: Env,
    h: &mut Heap,
    texts: &mut Texts,
) -> Result<Move, Memory>
    ensures plan { IfOk result (λ x. move_plan x (store_of h.new texts.new) ≡ e.function_plan (plain_func function.now) (plain_env env) (store_of h.old texts.old)) }
    ensures live { length h.old.list ≤ length h.new.list }
{
    let chain = env.chain().clone()?;
    let maker = env.by();
    let object = match &function.name {
        None => make_function(alloc, function, chain, maker, h, texts)?,
        Some(name) => make_named(alloc, function, name, chain, maker, h, texts)?,
    };
    Ok(Move::End(Flow::Gave(Value::Obj(object))))
}

/// Makes a function with a name of its own.
fn make_named(
    alloc: Global,
    function: &FuncCode,
    name: &Rc<Units>,
    outer: Rc<Chain>,
    maker: u32,
    h: &mut Heap,
    texts: &mut Texts,
) -> Result<ObjId, Memory>
    ensures id { IfOk result (λ o. o ≡ length h.old.list) }
    ensures store { OnOk result (store_of h.new texts.new ≡ named_function (plain_func function.now) name.now.value (plain_chain outer.value) maker (store_of h.old texts.old)) }
    ensures live { length h.old.list ≤ length h.new.list }
{
    let scope = Scope {
        owner: Owner::OwnName,
        names: Names::new(alloc),
    };
    let chain = texts.open_scope(alloc, scope, outer)?;
    let c = innermost(&chain);
    let object = make_function(alloc, function, chain, maker, h, texts)?;
    texts.put(c, name, Value::Obj(object))?;
    Ok(object)
}

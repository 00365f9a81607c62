//! What control finds when it enters the code of a function (ES3 10.1.3, 10.1.6, 10.2.3).

ghost use Rattle.std.specs.Prelude.{◌≡◌, ◌≤◌, ◌∷◌, IfOk, OnOk, length, slice_get};
ghost use Rattle.es3_language.specs.Store.{with_code, with_params, with_vars, with_scope, with_slot};
ghost use Rattle.es3_language.specs.Hoisting as hoisting;
ghost use Rattle.es3_language.specs.Expressions as e;
ghost use Rattle.es3_moves.specs.Code.{names_of, plain_func};
ghost use Rattle.es3_moves.specs.Where.{plain_chain};
ghost use Rattle.es3_moves.specs.Texts.{store_of, plain_code, plain_owner, plain_scope, plain_scopes, funcs_of};
ghost use Rattle.es3_calls.specs.Calls.{value_at, first_scope, innermost};

use crate::function::make_function;
use caja_units::{Memory, Units};
use es3_heap::{Heap, ObjId, Value};
use es3_hoisting::declared_name;
use es3_moves::code::FuncCode;
use es3_moves::frame::Chain;
use es3_moves::texts::{Closure, Names, Owner, Scope, Texts};
use std::alloc::Global;
use std::rc::Rc;

/// The scope that a call begins with: the parameters with the arguments, and the variables that the body declares.
pub fn first_scope(
    alloc: Global,
    code: &Closure,
    callee: ObjId,
    args: Vec<Value>,
) -> Result<Scope, Memory>
    ensures { IfOk result (λ x. plain_scope x ≡ first_scope (plain_code code.now) (Value.Obj callee) args.items) }
{
    let mut names = Names::new(alloc);
    bind(alloc, &code.params, &args, &mut names)?;
    declare(&code.vars, &mut names)?;
    let params = code.params.clone()?;
    Ok(Scope {
        owner: Owner::Activation(Value::Obj(callee), params, args),
        names,
    })
}

/// Binds the parameters to the arguments.
fn bind(
    alloc: Global,
    params: &[Rc<Units>],
    args: &[Value],
    names: &mut Names,
) -> Result<(), Memory>
    ensures { OnOk result (names.new ≡ with_params (names_of params.now) args.now names.old) }
{
    for (i, name) in params.iter().enumerate() {
        let value = argument(alloc, args, i)?;
        names.put(name, value)?;
    }
    Ok(())
}

/// The argument at a place, or undefined.
fn argument(alloc: Global, args: &[Value], i: usize) -> Result<Value, Memory>
    ensures { IfOk result (λ v. v ≡ value_at (slice_get args.now i)) }
{
    match args.get(i) {
        Some(v) => v.copy(alloc),
        None => Ok(Value::Undefined),
    }
}

/// Binds the declared names that aren't bound yet.
#[tactic(auto, using(crate::proofs::Bound::vars_more))]
fn declare(vars: &[Rc<Units>], names: &mut Names) -> Result<(), Memory>
    ensures { OnOk result (names.new ≡ with_vars (names_of vars.now) names.old) }
{
    for name in vars {
        names.declare(name)?;
    }
    Ok(())
}

/// The innermost scope of a chain, and 0 where there is none.
pub fn innermost(chain: &Chain) -> u32
    ensures { result ≡ innermost (plain_chain chain.now) }
{
    match chain {
        Chain::End => 0,
        Chain::In(c, _) => *c,
    }
}

/// Opens the scope of a call and makes the functions that the body declares. The answer is the chain with that scope.
pub fn open_call(
    alloc: Global,
    scope: Scope,
    outer: Rc<Chain>,
    functions: &[Rc<FuncCode>],
    by: u32,
    h: &mut Heap,
    texts: &mut Texts,
) -> Result<Rc<Chain>, Memory>
    ensures chain { IfOk result (λ c. plain_chain c.value ≡ length (plain_scopes texts.old) ∷ plain_chain outer.value) }
    ensures store { OnOk result (store_of h.new texts.new ≡ e.with_functions (funcs_of functions.now) (length (plain_scopes texts.old)) (length (plain_scopes texts.old) ∷ plain_chain outer.value) by (with_scope (plain_owner scope.owner) scope.names (store_of h.old texts.old))) }
    ensures live { length h.old.list ≤ length h.new.list }
{
    let chain = texts.open_scope(alloc, scope, outer)?;
    let c = innermost(&chain);
    declare_functions(alloc, functions, c, &chain, by, h, texts)?;
    Ok(chain)
}

/// Makes the functions that a body declares, and binds each to its name (ES3 10.1.3).
fn declare_functions(
    alloc: Global,
    functions: &[Rc<FuncCode>],
    c: u32,
    chain: &Rc<Chain>,
    by: u32,
    h: &mut Heap,
    texts: &mut Texts,
) -> Result<(), Memory>
    ensures store { OnOk result (store_of h.new texts.new ≡ e.with_functions (funcs_of functions.now) c (plain_chain chain.now.value) by (store_of h.old texts.old)) }
    ensures live { length h.old.list ≤ length h.new.list }
{
    for function in functions {
        declare_function(alloc, function, c, chain, by, h, texts)?;
    }
    Ok(())
}

/// Makes a function that a body declares, and binds it to its name.
fn declare_function(
    alloc: Global,
    function: &FuncCode,
    c: u32,
    chain: &Rc<Chain>,
    by: u32,
    h: &mut Heap,
    texts: &mut Texts,
) -> Result<(), Memory>
    ensures store { OnOk result (store_of h.new texts.new ≡ with_slot c (hoisting.declared_name (plain_func function.now)) (Value.Obj (length h.old.list)) (with_code (hoisting.code_of (plain_func function.now) (plain_chain chain.now.value)) by (store_of h.old texts.old))) }
    ensures live { length h.old.list ≤ length h.new.list }
{
    let around = chain.clone()?;
    let object = make_function(alloc, function, around, by, h, texts)?;
    let name = declared_name(alloc, function)?;
    texts.put(c, &name, Value::Obj(object))
}

/// The functions that a body declares, once more.
pub fn copies(alloc: Global, functions: &[Rc<FuncCode>]) -> Result<Vec<Rc<FuncCode>>, Memory>
    ensures { IfOk result (λ fs. funcs_of fs.items ≡ funcs_of functions.now) }
{
    let mut copies = Vec::new(alloc);
    for function in functions {
        copies.push(function.clone()?)?;
    }
    Ok(copies)
}

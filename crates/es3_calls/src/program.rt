//! What a program declares (ES3 10.1.3, 10.2.1, 14).

ghost use Rattle.std.specs.Prelude.{◌≡◌, ◌≤◌, ◌∷◌, [], OnOk, length};
ghost use Rattle.es3_language.specs.Hoisting as hoisting;
ghost use Rattle.es3_language.specs.Meaning as m;
ghost use Rattle.es3_moves.specs.Code.{names_of, plain_func, plain_stmts};
ghost use Rattle.es3_moves.specs.Texts.{store_of, funcs_of};

use crate::function::make_function;
use caja_units::{Memory, Units};
use es3_heap::{Attrs, Heap, Value};
use es3_hoisting::{declared_name, functions_of, vars_of};
use es3_moves::code::{FuncCode, StmtCode};
use es3_moves::frame::Chain;
use es3_moves::texts::Texts;
use std::alloc::Global;
use std::rc::Rc;

/// What a program declares, before its first statement (ES3 10.1.3, 10.2.1).
///
/// # Errors
///
/// `Memory` where memory is wanting.
pub fn declare_program(
    alloc: Global,
    body: &[Rc<StmtCode>],
    by: u32,
    h: &mut Heap,
    texts: &mut Texts,
) -> Result<(), Memory>
    ensures store { OnOk result (store_of h.new texts.new ≡ m.with_global_vars (hoisting.vars_of (plain_stmts body.now)) (m.with_global_functions (hoisting.functions_of (plain_stmts body.now)) by (store_of h.old texts.old))) }
    ensures live { length h.old.list ≤ length h.new.list }
{
    let functions = functions_of(alloc, body)?;
    let vars = vars_of(alloc, body)?;
    declare_functions(alloc, &functions, by, h, texts)?;
    declare_vars(&vars, h, texts)
}

/// Makes the functions that a program declares: each becomes a name of the global object.
fn declare_functions(
    alloc: Global,
    functions: &[Rc<FuncCode>],
    by: u32,
    h: &mut Heap,
    texts: &mut Texts,
) -> Result<(), Memory>
    ensures store { OnOk result (store_of h.new texts.new ≡ m.with_global_functions (funcs_of functions.now) by (store_of h.old texts.old)) }
    ensures live { length h.old.list ≤ length h.new.list }
{
    for function in functions {
        declare_function(alloc, function, by, h, texts)?;
    }
    Ok(())
}

/// Makes a function that a program declares.
fn declare_function(
    alloc: Global,
    function: &FuncCode,
    by: u32,
    h: &mut Heap,
    texts: &mut Texts,
) -> Result<(), Memory>
    ensures store { OnOk result (store_of h.new texts.new ≡ m.with_global_functions (plain_func function.now ∷ []) by (store_of h.old texts.old)) }
    ensures live { length h.old.list ≤ length h.new.list }
{
    let outermost = Rc::new(alloc, Chain::End)?;
    let object = make_function(alloc, function, outermost, by, h, texts)?;
    let name = declared_name(alloc, function)?;
    h.define(texts.globals, &name, Value::Obj(object), Attrs::KEPT)
}

/// Makes the variables that a program declares names of the global object, where they are none yet.
fn declare_vars(vars: &[Rc<Units>], h: &mut Heap, texts: &Texts) -> Result<(), Memory>
    ensures store { OnOk result (store_of h.new texts.now ≡ m.with_global_vars (names_of vars.now) (store_of h.old texts.now)) }
    ensures live { length h.old.list ≤ length h.new.list }
{
    for name in vars {
        declare_var(name, h, texts)?;
    }
    Ok(())
}

/// Makes a variable a name of the global object, where it is none yet.
fn declare_var(name: &Units, h: &mut Heap, texts: &Texts) -> Result<(), Memory>
    ensures store { OnOk result (store_of h.new texts.now ≡ m.with_global_vars (name.now ∷ []) (store_of h.old texts.now)) }
    ensures live { length h.old.list ≤ length h.new.list }
{
    if h.own(texts.globals, name).is_some() {
        return Ok(());
    }
    h.define(texts.globals, name, Value::Undefined, Attrs::KEPT)
}

//! The values that modules are granted and that events pass.

ghost use Rattle.std.specs.Prelude.{◌≡◌, ◌≤◌, ◌∷◌, [], All, IfOk, map};
ghost use Rattle.module_loader.specs.Turns.{plain_value, granted_value, granted_pairs};
ghost use Rattle.host_rules.specs.Plain.{plain as plain_of};
ghost use Rattle.page_runner.specs.Deeds.{grant_of, grants_of, GrantFits};
ghost use Rattle.page_runner.specs.Runner.{results_of};

use crate::deeds::Grant;
use caja_units::{Memory, Units};
use es3_heap::{ObjId, Value};
use host_rules::Plain;
use std::alloc::Global;
use tamed_dom::Dom;

/// Where the functions of the first module stand: two for each module, and behind them three objects for each cell.
const FIRST_SAY: u32 = 82;

/// The value of a plain value.
fn plain_value(plain: Plain) -> Value
    ensures { result ≡ plain_value (plain_of plain) }
{
    match plain {
        Plain::Null => Value::Null,
        Plain::Bool(b) => Value::Bool(b),
        Plain::Num(n) => Value::Num(n),
        Plain::Text(text) => Value::Text(text),
    }
}

/// The values of plain values, in their order.
pub fn plain_values(alloc: Global, plains: Vec<Plain>) -> Result<Vec<Value>, Memory>
    ensures { IfOk result (λ values. values.items ≡ map plain_value (map plain_of plains.items)) }
{
    let mut values = Vec::new(alloc);
    for plain in plains {
        values.push(plain_value(plain))?;
    }
    Ok(values)
}

/// A list of one value.
pub(crate) fn alone(alloc: Global, value: &Value) -> Result<Vec<Value>, Memory>
    ensures { IfOk result (λ values. values.items ≡ value.now ∷ []) }
{
    let mut values = Vec::new(alloc);
    values.push(value.copy(alloc)?)?;
    Ok(values)
}

/// The result of a module, undefined where there is none.
fn result_of(alloc: Global, results: &[Value], owner: u32) -> Result<Value, Memory>
    ensures { IfOk result (λ value. value ≡ results_of results.now owner) }
{
    match results.get(owner as usize) {
        Some(value) => value.copy(alloc),
        None => Ok(Value::Undefined),
    }
}

/// What a grant is, among so many modules, with the results of those that were loaded and the document.
fn granted_value(
    alloc: Global,
    modules: u32,
    results: &[Value],
    dom: &Dom,
    grant: Grant,
) -> Result<Value, Memory>
    requires few { modules ≤ 64 }
    requires fits { GrantFits grant }
    ensures { IfOk result (λ value. value ≡ granted_value modules (results_of results.now) dom.now (grant_of grant)) }
{
    match grant {
        Grant::Cell(cell) => {
            let record = FIRST_SAY + 2 * modules + (3 * cell + 2);
            Ok(Value::Obj(ObjId::new(record)))
        }
        Grant::Module(owner) => result_of(alloc, results, owner),
        Grant::Value(plain) => Ok(plain_value(plain)),
        Grant::Root(root) => Ok(dom.object_of(root, 0)),
    }
}

/// What a module is granted, under its names.
pub fn granted_values(
    alloc: Global,
    modules: u32,
    results: &[Value],
    dom: &Dom,
    grants: Vec<(Units, Grant)>,
) -> Result<Vec<(Units, Value)>, Memory>
    requires few { modules ≤ 64 }
    requires fit { All (λ g. GrantFits g.1) grants.items }
    ensures { IfOk result (λ values. values.items ≡ granted_pairs modules (results_of results.now) dom.now (grants_of grants.items)) }
{
    let mut values = Vec::new(alloc);
    for (name, grant) in grants {
        let value = granted_value(alloc, modules, results, dom, grant)?;
        values.push((name, value))?;
    }
    Ok(values)
}

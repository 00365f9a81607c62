//! Names, each once.

ghost use Rattle.std.specs.Prelude.{◌≡◌, ◌∷◌, [], map, IfOk, OnErr, OnOk};
ghost use Rattle.std.specs.Map.{keys_of};
ghost use Rattle.cajita_names.specs.Once.{once_after, names_of, is_variable, is_loop_variable};
ghost use Rattle.cajita_names.specs.Views.{declaration_of};

use crate::declarations::{Declaration, Role};
use crate::tabled::Declared;
use crate::words::is_among;
use caja_units::{Memory, Units};
use property_tables::TableProps;
use std::alloc::Global;

/// Puts the name behind the names, unless it is among them.
///
/// # Errors
///
/// `Memory` where memory is wanting.
pub fn add_name(alloc: Global, names: &mut Vec<Units>, name: &Units) -> Result<(), Memory>
    ensures added { OnOk result (names.new.items ≡ once_after names.old.items (name.now ∷ [])) }
    ensures stays { OnErr result (names.new.items ≡ names.old.items) }
{
    if !is_among(names, name) {
        names.push(name.copy(alloc)?)?;
    }
    Ok(())
}

// Puts the name behind the keys of the table, unless it is among them.
#[tactic(auto, using(crate::proofs::Tables::keys_inserted))]
fn add_key(names: &mut TableProps<bool>, name: &Units) -> Result<(), Memory>
    ensures { OnOk result (keys_of names.new ≡ once_after (keys_of names.old) (name.now ∷ [])) }
{
    names.insert(name, true)
}

// Those that `var` statements and heads without `in` declare.
fn add_variables(names: &mut TableProps<bool>, declarations: &[Declaration]) -> Result<(), Memory>
    ensures { OnOk result (keys_of names.new
        ≡ once_after (keys_of names.old) (names_of is_variable (map declaration_of declarations.now))) }
{
    for declaration in declarations {
        if matches!(declaration.role, Role::Variable) {
            add_key(names, &declaration.name.text)?;
        }
    }
    Ok(())
}

// Those that heads with `in` alone declare.
fn add_loop_variables(
    names: &mut TableProps<bool>,
    declarations: &[Declaration],
) -> Result<(), Memory>
    ensures { OnOk result (keys_of names.new
        ≡ once_after (keys_of names.old) (names_of is_loop_variable (map declaration_of declarations.now))) }
{
    for declaration in declarations {
        if matches!(declaration.role, Role::LoopVariable) {
            add_key(names, &declaration.name.text)?;
        }
    }
    Ok(())
}

/// The names that a body declares by `var`, each once: those of `var` statements and of heads without `in`, then those that heads
/// with `in` alone declare.
///
/// # Errors
///
/// `Memory` where memory is wanting.
pub fn vars_of(alloc: Global, declared: &Declared) -> Result<Vec<Units>, Memory>
    ensures { IfOk result (λ names. names.items
        ≡ once_after (once_after [] (names_of is_variable declared.now)) (names_of is_loop_variable declared.now)) }
{
    let mut names = TableProps::new(alloc)?;
    add_variables(&mut names, declared.list())?;
    add_loop_variables(&mut names, declared.list())?;
    names.keys()
}

/// The names that heads with `in` alone declare, each once.
///
/// # Errors
///
/// `Memory` where memory is wanting.
pub fn loop_names_of(alloc: Global, declared: &Declared) -> Result<Vec<Units>, Memory>
    ensures { IfOk result (λ names. names.items ≡ once_after [] (names_of is_loop_variable declared.now)) }
{
    let mut names = TableProps::new(alloc)?;
    add_loop_variables(&mut names, declared.list())?;
    names.keys()
}

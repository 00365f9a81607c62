//! The faults of names, labels and keys: the first of those that a rule says of a word.

ghost use Rattle.std.specs.Prelude.{◌++◌};
ghost use Rattle.es3_tree.specs.PlacedView as source;
ghost use Rattle.cajita_rules.specs.Faults as cajita;
ghost use Rattle.valija_rules.specs.Faults as wanted;
ghost use Rattle.cajita_rules.specs.Found.{IsFirst};
ghost use Rattle.cajita_names.specs.Views.{scope_of};

use crate::found::{picked, word_fault};
use crate::words::is_taken;
use caja_units::Memory;
use cajita_names::scope::Scope;
use cajita_names::words::{is_arguments, is_eval, is_reserved_key};
use cajita_rules::{Found, earlier};
use es3_tree::{Func, Name};
use std::alloc::Global;

/// Rule 1: a name, a label or a key ends in two underscores.
pub(crate) fn hidden(alloc: Global, word: &Name) -> Result<Option<Found>, Memory>
    ensures { IsFirst result (cajita.hidden (source.word word.now)) }
{
    word_fault(alloc, 1, word, word.text.ends_hidden())
}

// Rule 3: a name is `eval`.
fn an_eval(alloc: Global, name: &Name) -> Result<Option<Found>, Memory>
    ensures { IsFirst result (cajita.an_eval (source.word name.now)) }
{
    word_fault(alloc, 3, name, is_eval(&name.text))
}

// Rule 5: a name is one that lowered programs have of their own.
fn taken(alloc: Global, name: &Name) -> Result<Option<Found>, Memory>
    ensures { IsFirst result (wanted.taken (source.word name.now)) }
{
    word_fault(alloc, 5, name, is_taken(&name.text))
}

// Rule 11: `arguments` is declared or written to.
fn changed_arguments(alloc: Global, name: &Name) -> Result<Option<Found>, Memory>
    ensures { IsFirst result (wanted.changed_arguments (source.word name.now)) }
{
    word_fault(alloc, 11, name, is_arguments(&name.text))
}

// Rule 11: `arguments` stands outside functions.
fn outside(alloc: Global, scope: &Scope<'_>, name: &Name) -> Result<Option<Found>, Memory>
    ensures { IsFirst result (wanted.outside (scope_of scope.now) (source.word name.now)) }
{
    let is_outside = is_arguments(&name.text) && !scope.is_within();
    word_fault(alloc, 11, name, is_outside)
}

// Rule 12: an import is written to.
fn import_target(alloc: Global, scope: &Scope<'_>, name: &Name) -> Result<Option<Found>, Memory>
    ensures { IsFirst result (wanted.import_target (scope_of scope.now) (source.word name.now)) }
{
    word_fault(alloc, 12, name, scope.imports(&name.text))
}

// A name, as it is spelled.
fn named(alloc: Global, name: &Name) -> Result<Option<Found>, Memory>
    ensures { IsFirst result (wanted.named (source.word name.now)) }
{
    let spelled = earlier(hidden(alloc, name), an_eval(alloc, name));
    earlier(spelled, taken(alloc, name))
}

/// A name that is used.
pub(crate) fn used(alloc: Global, scope: &Scope<'_>, name: &Name) -> Result<Option<Found>, Memory>
    ensures { IsFirst result (wanted.used (scope_of scope.now) (source.word name.now)) }
{
    earlier(named(alloc, name), outside(alloc, scope, name))
}

/// What a name that is written to breaks besides.
pub(crate) fn written(
    alloc: Global,
    scope: &Scope<'_>,
    name: &Name,
) -> Result<Option<Found>, Memory>
    ensures { IsFirst result (wanted.written (scope_of scope.now) (source.word name.now)) }
{
    earlier(
        import_target(alloc, scope, name),
        changed_arguments(alloc, name),
    )
}

/// A name that is declared.
pub(crate) fn declared(alloc: Global, name: &Name) -> Result<Option<Found>, Memory>
    ensures { IsFirst result (wanted.declared (source.word name.now)) }
{
    earlier(named(alloc, name), changed_arguments(alloc, name))
}

/// Names that are declared.
pub(crate) fn all_declared(alloc: Global, names: &[Name]) -> Result<Option<Found>, Memory>
    ensures { IsFirst result (wanted.all_declared (source.words names.now)) }
{
    let mut found = None;
    for name in names {
        found = picked(found, declared(alloc, name)?);
    }
    Ok(found)
}

/// The name of a function, if it has one.
pub(crate) fn name_faults(alloc: Global, function: &Func) -> Result<Option<Found>, Memory>
    ensures { IsFirst result (wanted.name_faults (source.func function.now)) }
{
    match &function.name {
        Some(name) => declared(alloc, name),
        None => Ok(None),
    }
}

/// The label of a jump, if it has one.
pub(crate) fn jump_label(alloc: Global, label: &Option<Name>) -> Result<Option<Found>, Memory>
    ensures { IsFirst result (cajita.jump_label (source.word_of label.now)) }
{
    match label {
        Some(label) => hidden(alloc, label),
        None => Ok(None),
    }
}

// Rule 8: a key is `toString` or `valueOf`.
fn reserved(alloc: Global, key: &Name) -> Result<Option<Found>, Memory>
    ensures { IsFirst result (cajita.reserved (source.word key.now)) }
{
    word_fault(alloc, 8, key, is_reserved_key(&key.text))
}

/// The key of a member, behind its point.
pub(crate) fn member_key(alloc: Global, key: &Name) -> Result<Option<Found>, Memory>
    ensures { IsFirst result (cajita.hidden (source.word key.now)) }
{
    hidden(alloc, key)
}

/// The key of a property of an object literal.
pub(crate) fn property_key(alloc: Global, key: &Name) -> Result<Option<Found>, Memory>
    ensures { IsFirst result (cajita.hidden (source.word key.now) ++ cajita.reserved (source.word key.now)) }
{
    earlier(hidden(alloc, key), reserved(alloc, key))
}

/// Rule 7: the body around a `catch` declares its name, or a `catch` around it in that body has it.
pub(crate) fn masking(
    alloc: Global,
    scope: &Scope<'_>,
    name: &Name,
) -> Result<Option<Found>, Memory>
    ensures { IsFirst result (wanted.masking (scope_of scope.now) (source.word name.now)) }
{
    word_fault(alloc, 7, name, scope.has_own(&name.text))
}

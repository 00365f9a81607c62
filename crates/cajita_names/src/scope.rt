//! What is declared around a part of a program, and what a name is there (ES3 10.1.4).

ghost use Rattle.std.specs.Prelude.{◌≡◌, ◌++◌, not};
ghost use Rattle.cajita_names.specs.Rules.{fixed_names, is_among as is_among_them};
ghost use Rattle.cajita_names.specs.Scope as wanted;
ghost use Rattle.cajita_names.specs.Views.{binding_of, scope_of};

use crate::tabled::Declared;
use crate::words::{is_among, is_arguments, is_fixed_name};
use caja_units::Units;

/// What a name is at a part of a program.
#[derive(Clone, Copy)]
pub(crate) enum Binding {
    /// It may be written to.
    Changing,
    /// A declared function, or the own name of a function expression.
    Settled,
    Imported,
    /// Nothing around declares it.
    Unbound,
}

/// What is declared around a part, the innermost first.
#[cycle(scope)]
#[derive(Clone, Copy)]
pub enum Scope<'a> {
    /// The body of a module: its declarations, and the names that are granted to it. It has the fixed names besides.
    Module(&'a Declared, &'a [Units]),
    /// The body of a function: its declarations, the parameters before.
    Function(&'a Declared, &'a Scope<'a>),
    /// The block of a `catch` with its name (ES3 12.14).
    Catch(&'a Units, &'a Scope<'a>),
    /// A function expression with its own name (ES3 13).
    Named(&'a Units, &'a Scope<'a>),
}

// What a name is that a body declares: a function, if it is one of these too.
fn own(declared: &Declared, name: &Units) -> Binding
    ensures { binding_of result ≡ wanted.own declared.now name.now }
{
    if declared.has_function(name) {
        Binding::Settled
    } else {
        Binding::Changing
    }
}

// Whether a module may import the name.
#[tactic(auto, using(crate::proofs::Declared::is_among_append))]
fn is_given(grants: &[Units], name: &Units) -> bool
    ensures { result ≡ is_among_them (grants.now ++ fixed_names) name.now }
{
    is_among(grants, name) || is_fixed_name(name)
}

impl Scope<'_> {
    /// What a name is.
    pub(crate) fn bound(&self, name: &Units) -> Binding
        ensures { binding_of result ≡ wanted.bound (scope_of self.now) name.now }
    {
        match self {
            Scope::Module(declared, grants) => {
                if declared.has(name) {
                    own(declared, name)
                } else if is_given(grants, name) {
                    Binding::Imported
                } else {
                    Binding::Unbound
                }
            }
            Scope::Function(declared, around) => {
                if declared.has(name) {
                    own(declared, name)
                } else {
                    around.bound(name)
                }
            }
            Scope::Catch(caught, around) => {
                if name.same(caught) {
                    Binding::Changing
                } else {
                    around.bound(name)
                }
            }
            Scope::Named(function, around) => {
                if name.same(function) {
                    Binding::Settled
                } else {
                    around.bound(name)
                }
            }
        }
    }

    /// Whether something declares the name, or the module imports it.
    pub fn knows(&self, name: &Units) -> bool
        ensures { result ≡ not (wanted.is_unbound (wanted.bound (scope_of self.now) name.now)) }
    {
        !matches!(self.bound(name), Binding::Unbound)
    }

    /// Whether a function stands around.
    pub fn is_within(&self) -> bool
        ensures { result ≡ wanted.is_within (scope_of self.now) }
    {
        match self {
            Scope::Module(_, _) => false,
            Scope::Function(_, _) => true,
            Scope::Catch(_, around) | Scope::Named(_, around) => around.is_within(),
        }
    }

    /// Whether the body around declares the name, or a `catch` in that body has it.
    pub fn has_own(&self, name: &Units) -> bool
        ensures { result ≡ wanted.has_own (scope_of self.now) name.now }
    {
        match self {
            Scope::Module(declared, _) | Scope::Function(declared, _) => declared.has(name),
            Scope::Catch(caught, around) => name.same(caught) || around.has_own(name),
            Scope::Named(_, around) => around.has_own(name),
        }
    }

    /// Whether nothing declares the name; `arguments` is declared by functions (ES3 10.1.8).
    pub fn lacks(&self, name: &Units) -> bool
        ensures { result ≡ wanted.lacks (scope_of self.now) name.now }
    {
        if is_arguments(name) {
            !self.is_within()
        } else {
            matches!(self.bound(name), Binding::Unbound)
        }
    }

    /// Whether the name may not be written to: an import, a declared function, the own name of a function expression.
    pub fn keeps(&self, name: &Units) -> bool
        ensures { result ≡ wanted.keeps (scope_of self.now) name.now }
    {
        !is_arguments(name) && matches!(self.bound(name), Binding::Settled | Binding::Imported)
    }

    /// Whether the module imports the name.
    pub fn imports(&self, name: &Units) -> bool
        ensures { result ≡ wanted.imports (scope_of self.now) name.now }
    {
        !is_arguments(name) && matches!(self.bound(name), Binding::Imported)
    }
}

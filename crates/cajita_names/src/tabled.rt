//! What a body declares, where each name is found by its hash.

ghost use Rattle.std.specs.Prelude.{◌≡◌, ◌||◌, ◌∷◌, ◌++◌, [], map, is_some, IfOk, OnOk, OnErr};
ghost use Rattle.es3_tree.specs.PlacedView.{word};
ghost use Rattle.cajita_names.specs.Declarations.{declared_as};
ghost use Rattle.cajita_names.specs.Found.{function_in, parameter_in};
ghost use Rattle.cajita_names.specs.Scope as wanted;
ghost use Rattle.cajita_names.specs.Scope.{is_function, is_parameter};
ghost use Rattle.cajita_names.specs.DeclarationViews.{role_of, declaration_of};

use crate::declarations::{Declaration, Role};
use caja_units::{Memory, Units};
use es3_tree::Name;
use property_tables::TableProps;
use std::alloc::Global;
use std::marker::Model;

/// How a name is declared: as a function, as a parameter, or neither; a name may be declared more than once.
#[derive(Debug, Clone, Copy, PartialEq, Eq)]
pub(crate) struct Kinds {
    function: bool,
    parameter: bool,
}

/// The declarations of a body, in source order. Whether one is of a name is told without a walk over the others.
#[derive(Drop)]
pub struct Declared {
    alloc: Global,
    list: Vec<Declaration>,
    kinds: TableProps<Kinds>,
}

impl Model for Declared {
    ghost use Rattle.std.specs.Prelude.{List, map};
    ghost use Rattle.cajita_names.specs.Declarations.{Declaration};
    ghost use Rattle.cajita_names.specs.Found.{Finds};
    ghost use Rattle.cajita_names.specs.DeclarationViews.{declaration_of};

    ghost Value = { List Declaration };

    ghost view = { λ d. map declaration_of d.list.items };

    ghost invariant = { λ d. Finds d.kinds (map declaration_of d.list.items) };
}

impl Declared {
    /// No declaration.
    ///
    /// # Errors
    ///
    /// None: a list and a table without items take no memory.
    pub fn new(alloc: Global) -> Result<Declared, Memory>
        ensures { IfOk result (λ ds. ds ≡ []) }
    {
        Ok(Declared {
            alloc,
            list: Vec::new(alloc),
            kinds: TableProps::new(alloc)?,
        })
    }

    /// The declarations, in order.
    pub fn list(&self) -> &[Declaration]
        ensures { map declaration_of result.now ≡ self.now }
    {
        &self.list
    }

    // How a name is declared, and None exactly where it isn't.
    fn kinds_of(&self, name: &Units) -> Option<Kinds>
        ensures named { is_some result ≡ wanted.declares self.now name.now }
        ensures functions { function_in result ≡ wanted.declares_function self.now name.now }
        ensures parameters { parameter_in result ≡ wanted.declares_parameter self.now name.now }
    {
        self.kinds.get(name).copied()
    }

    /// Whether one of them is of the name.
    pub fn has(&self, name: &Units) -> bool
        ensures { result ≡ wanted.declares self.now name.now }
    {
        self.kinds_of(name).is_some()
    }

    /// Whether one of them declares the name as a function.
    pub fn has_function(&self, name: &Units) -> bool
        ensures { result ≡ wanted.declares_function self.now name.now }
    {
        match self.kinds_of(name) {
            Some(kinds) => kinds.function,
            None => false,
        }
    }

    /// Whether one of them declares the name as a parameter.
    pub fn has_parameter(&self, name: &Units) -> bool
        ensures { result ≡ wanted.declares_parameter self.now name.now }
    {
        match self.kinds_of(name) {
            Some(kinds) => kinds.parameter,
            None => false,
        }
    }

    // How a name is declared by them and by one that stands behind them.
    fn kinds_with(&self, name: &Units, role: Role) -> Kinds
        ensures function { result.function ≡ (wanted.declares_function self.now name.now || is_function (role_of role)) }
        ensures parameter { result.parameter ≡ (wanted.declares_parameter self.now name.now || is_parameter (role_of role)) }
    {
        Kinds {
            function: self.has_function(name) || role.is_function(),
            parameter: self.has_parameter(name) || role.is_parameter(),
        }
    }

    /// Puts a declaration of a name behind them.
    ///
    /// # Errors
    ///
    /// `Memory` where memory is wanting; then nothing has changed.
    pub fn push(&mut self, name: &Name, role: Role) -> Result<(), Memory>
        ensures ok { OnOk result (self.new ≡ self.old ++ declared_as (role_of role) (word name.now) ∷ []) }
        ensures err { OnErr result (self.new ≡ self.old) }
    {
        let kinds = self.kinds_with(&name.text, role);
        let text = name.text.copy(self.alloc)?;
        let copied = Name { text, at: name.at };
        self.list.push(Declaration { name: copied, role })?;
        match self.kinds.insert(&name.text, kinds) {
            Ok(()) => Ok(()),
            Err(failure) => {
                self.list.pop();
                Err(failure)
            }
        }
    }
}

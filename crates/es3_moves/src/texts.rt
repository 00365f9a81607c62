//! What the running texts made: scopes, functions and arguments objects (ES3 10).

ghost use Rattle.std.specs.Prelude.{◌≡◌, ◌++◌, ◌∷◌, [], IfOk, OnOk, Option, length, position, slice_get, slice_set};
ghost use Rattle.std.specs.Option.{option_copied};
ghost use Rattle.caja_units.specs.Units.{same_units};
ghost use Rattle.es3_language.specs.Store.{name_value, with_name, with_vars, scope_at, renamed};
ghost use Rattle.es3_language.specs.Arguments.{arguments_name, is_fixed};

use crate::code::{FuncCode, StmtCode};
use crate::frame::Chain;
use caja_units::{Memory, Units};
use es3_heap::{ObjId, Value};
use std::alloc::Global;
use std::marker::Model;
use std::rc::Rc;

/// The most scopes of a run, and the most functions: 2^32 - 2 each.
const MOST: usize = 4_294_967_294;

/// A name of an activation and its value (ES3 10.1.6).
#[derive(Drop)]
pub struct Binding {
    name: Rc<Units>,
    value: Value,
}

impl Model for Binding {
    ghost use Rattle.std.specs.Prelude.{ℕ, List};
    ghost use Rattle.es3_objects.specs.declared.value.Value.{Value as PlainValue};

    ghost Value = { List ℕ × PlainValue };

    ghost view = { λ b. (b.name.value, b.value) };
}

/// The names of a scope with their values, in the order in which they were bound.
#[derive(Drop)]
pub struct Names {
    list: Vec<Binding>,
}

impl Model for Names {
    ghost use Rattle.std.specs.Prelude.{ℕ, List};
    ghost use Rattle.es3_objects.specs.declared.value.Value.{Value as PlainValue};

    ghost Value = { List (List ℕ × PlainValue) };

    ghost view = { λ s. s.list.items };
}

impl Names {
    /// No names.
    pub fn new(alloc: Global) -> Names
        ensures { result ≡ [] }
    {
        Names {
            list: Vec::new(alloc),
        }
    }

    /// The value of a name, and None exactly where it isn't there.
    pub fn get(&self, name: &Units) -> Option<&Value>
        ensures { option_copied result ≡ name_value name.now self.now }
    {
        find(&self.list, name)
    }

    /// A value for a name, in the place of the one that it had, or bound last.
    ///
    /// # Errors
    ///
    /// `Memory` where memory is wanting.
    pub fn put(&mut self, name: &Rc<Units>, value: Value) -> Result<(), Memory>
        ensures { OnOk result (self.new ≡ with_name name.now.value value self.old) }
    {
        put(&mut self.list, name, value)
    }

    /// Binds a declared name that isn't bound yet, as undefined (ES3 10.1.3).
    ///
    /// # Errors
    ///
    /// `Memory` where memory is wanting.
    pub fn declare(&mut self, name: &Rc<Units>) -> Result<(), Memory>
        ensures { OnOk result (self.new ≡ with_vars (name.now.value ∷ []) self.old) }
    {
        if self.get(name).is_some() {
            return Ok(());
        }
        push(&mut self.list, name, Value::Undefined)
    }
}

/// The value of a name.
fn find<'a>(names: &'a [Binding], name: &Units) -> Option<&'a Value>
    ensures { option_copied result ≡ name_value name.now names.now }
{
    for binding in names {
        if name.same(&binding.name) {
            return Some(&binding.value);
        }
    }
    None
}

/// The place of a name, from 0.
fn place(names: &[Binding], name: &Units) -> Option<usize>
    ensures { result ≡ position (λ b. same_units name.now b.0) names.now }
{
    names.iter().position(|binding| name.same(&binding.name))
}

/// Binds a name, the last.
fn push(names: &mut Vec<Binding>, name: &Rc<Units>, value: Value) -> Result<(), Memory>
    ensures { OnOk result (names.new.items ≡ names.old.items ++ (name.now.value, value) ∷ []) }
{
    let name = name.clone()?;
    names.push(Binding { name, value })?;
    Ok(())
}

/// A value for a name.
fn put(names: &mut Vec<Binding>, name: &Rc<Units>, value: Value) -> Result<(), Memory>
    ensures { OnOk result (names.new.items ≡ with_name name.now.value value names.old.items) }
{
    match place(names, name) {
        Some(at) => {
            let binding = &mut names[at];
            binding.value = value;
            Ok(())
        }
        None => push(names, name, value),
    }
}

/// What a scope belongs to (ES3 10.1.4).
#[derive(Drop)]
pub enum Owner {
    /// A call: the function that is called, its parameters, and the arguments (ES3 10.1.6).
    Activation(Value, Rc<Vec<Rc<Units>>>, Vec<Value>),
    /// A function expression, whose own name is never written (ES3 13).
    OwnName,
    /// A `catch` (ES3 12.14).
    Caught,
    /// A `with`, whose object has the names (ES3 12.10).
    WithObject(ObjId),
}

/// A scope: what it belongs to, and its names.
#[derive(Drop)]
pub struct Scope {
    pub owner: Owner,
    pub names: Names,
}

/// An item of an arguments object, and the parameter whose value it has (ES3 10.1.8).
#[derive(Drop)]
pub struct SharedItem {
    pub key: Units,
    pub name: Rc<Units>,
}

/// An arguments object, the activation that it belongs to, and the items that have the values of parameters.
#[derive(Drop)]
pub struct Shared {
    pub object: ObjId,
    pub scope: u32,
    pub items: Vec<SharedItem>,
}

/// A function that a text made (ES3 13.2): its parameters, the names that its body declares by `var`, the functions that it
/// declares, its body, and the scopes around it.
#[derive(Drop)]
pub struct Closure {
    pub params: Rc<Vec<Rc<Units>>>,
    pub vars: Vec<Rc<Units>>,
    pub functions: Vec<Rc<FuncCode>>,
    pub body: Rc<Vec<Rc<StmtCode>>>,
    pub chain: Rc<Chain>,
}

/// The scopes and the functions, each by its number, the global object (ES3 10.1.5), the arguments objects, and the name
/// `arguments`.
#[derive(Drop)]
pub struct Texts {
    pub scopes: Vec<Scope>,
    pub codes: Vec<Closure>,
    pub globals: ObjId,
    pub shared: Vec<Shared>,
    pub arguments: Rc<Units>,
    ghost named: { arguments.value ≡ arguments_name },
}

impl Texts {
    ghost use Rattle.es3_moves.specs.Texts.{plain_scope, plain_scopes, plain_codes, plain_code, plain_shared};
    ghost use Rattle.es3_moves.specs.Where.{plain_chain};

    /// Nothing yet but a global object.
    ///
    /// # Errors
    ///
    /// `Memory` where memory is wanting.
    pub fn new(alloc: Global, globals: ObjId) -> Result<Texts, Memory>
        ensures globals { IfOk result (λ t. t.globals ≡ globals) }
        ensures scopes { IfOk result (λ t. plain_scopes t ≡ []) }
        ensures functions { IfOk result (λ t. plain_codes t ≡ []) }
        ensures shared { IfOk result (λ t. plain_shared t ≡ []) }
    {
        let name = Units::from_ascii(alloc, b"arguments")?;
        let arguments = Rc::new(alloc, name)?;
        Ok(Texts {
            scopes: Vec::new(alloc),
            codes: Vec::new(alloc),
            globals,
            shared: Vec::new(alloc),
            arguments,
        })
    }

    /// The value of a name in the scope of a number.
    pub fn get(&self, c: u32, name: &Units) -> Option<&Value>
        ensures { option_copied result ≡ name_value name.now (scope_at (slice_get (plain_scopes self.now) c)) }
    {
        let at = c as usize;
        if at >= self.scopes.len() {
            return None;
        }
        let scope = &self.scopes[at];
        scope.names.get(name)
    }

    /// Whether the names of the scope of a number are never written.
    pub fn is_fixed(&self, c: u32) -> bool
        ensures { result ≡ is_fixed (slice_get (plain_scopes self.now) c) }
    {
        let at = c as usize;
        if at >= self.scopes.len() {
            return false;
        }
        let scope = &self.scopes[at];
        match &scope.owner {
            Owner::OwnName => true,
            Owner::Activation(_, _, _) => false,
            Owner::Caught => false,
            Owner::WithObject(_) => false,
        }
    }

    /// A value for a name in the scope of a number.
    ///
    /// # Errors
    ///
    /// `Memory` where memory is wanting.
    pub fn put(&mut self, c: u32, name: &Rc<Units>, value: Value) -> Result<(), Memory>
        ensures scopes { OnOk result (plain_scopes self.new ≡ slice_set (plain_scopes self.old) c (renamed (slice_get (plain_scopes self.old) c) (with_name name.now.value value (scope_at (slice_get (plain_scopes self.old) c))))) }
        ensures functions { self.new.codes ≡ self.old.codes }
        ensures globals { self.new.globals ≡ self.old.globals }
        ensures shared { self.new.shared ≡ self.old.shared }
    {
        let at = c as usize;
        if at >= self.scopes.len() {
            return Ok(());
        }
        let scope = &mut self.scopes[at];
        scope.names.put(name, value)
    }

    /// Keeps a function, and gives its number.
    ///
    /// # Errors
    ///
    /// `Memory` where memory is wanting, or there would be more than 2^32 - 2 functions.
    pub fn make_code(&mut self, code: Closure) -> Result<u32, Memory>
        ensures number { IfOk result (λ n. n ≡ length (plain_codes self.old)) }
        ensures functions { OnOk result (plain_codes self.new ≡ plain_codes self.old ++ plain_code code ∷ []) }
        ensures scopes { plain_scopes self.new ≡ plain_scopes self.old }
        ensures globals { self.new.globals ≡ self.old.globals }
        ensures shared { self.new.shared ≡ self.old.shared }
    {
        let number = self.codes.len();
        if number >= MOST {
            return Err(Memory);
        }
        self.codes.push(code)?;
        Ok(number as u32)
    }

    /// Keeps a new scope, the innermost of a chain.
    ///
    /// # Errors
    ///
    /// `Memory` where memory is wanting, or there would be more than 2^32 - 2 scopes.
    pub fn open_scope(
        &mut self,
        alloc: Global,
        scope: Scope,
        outer: Rc<Chain>,
    ) -> Result<Rc<Chain>, Memory>
        ensures chain { IfOk result (λ c. plain_chain c.value ≡ length (plain_scopes self.old) ∷ plain_chain outer.value) }
        ensures scopes { OnOk result (plain_scopes self.new ≡ plain_scopes self.old ++ plain_scope scope ∷ []) }
        ensures functions { plain_codes self.new ≡ plain_codes self.old }
        ensures globals { self.new.globals ≡ self.old.globals }
        ensures shared { self.new.shared ≡ self.old.shared }
    {
        let number = self.scopes.len();
        if number >= MOST {
            return Err(Memory);
        }
        self.scopes.push(scope)?;
        Ok(Rc::new(alloc, Chain::In(number as u32, outer))?)
    }
}

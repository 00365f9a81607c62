//! The names that a body declares itself (ES3 10.1.3, 12.2, 12.6, 13).

ghost use Rattle.std.specs.Prelude.{◌≡◌, ◌++◌, map, IfOk, OnOk};
ghost use Rattle.es3_tree.specs.Tree as tree;
ghost use Rattle.es3_tree.specs.PlacedView as source;
ghost use Rattle.cajita_names.specs.Declarations.{declarations, body_declarations, declared_as, parameter};
ghost use Rattle.cajita_names.specs.Scope.{is_function, is_parameter};
ghost use Rattle.cajita_names.specs.Views.{role_of};

use crate::tabled::Declared;
use caja_units::Memory;
use es3_tree::{Case, First, Func, Loop, Name, Stmt, VarItem};
use std::alloc::Global;

/// How a body declares a name.
#[derive(Debug, Clone, Copy, PartialEq, Eq)]
pub enum Role {
    /// As a parameter of its function.
    Parameter,
    /// By `var`.
    Variable,
    /// By the head of a `for` .. `in` alone.
    LoopVariable,
    /// As a function, by its own statement (ES3 13).
    Function,
}

impl Role {
    /// Whether it is a function.
    pub fn is_function(self) -> bool
        ensures { result ≡ is_function (role_of self) }
    {
        matches!(self, Role::Function)
    }

    /// Whether it is a parameter.
    pub fn is_parameter(self) -> bool
        ensures { result ≡ is_parameter (role_of self) }
    {
        matches!(self, Role::Parameter)
    }
}

/// A name that a body declares itself.
#[derive(Drop)]
pub struct Declaration {
    /// The name, where it is declared.
    pub name: Name,
    /// How it is declared.
    pub role: Role,
}

// The statements, each behind the ones before.
#[cycle(declared)]
#[tactic(auto, unfolding(crate::specs::Declarations::declarations))]
fn add_stmts(out: &mut Declared, list: &[Stmt]) -> Result<(), Memory>
    ensures { OnOk result (out.new
        ≡ out.old ++ declarations tree.stmts (source.of_stmts list.now)) }
{
    for statement in list {
        add_stmt(out, statement)?;
    }
    Ok(())
}

#[cycle(declared)]
#[tactic(auto, unfolding(crate::specs::Declarations::declarations), using(es3_tree::proofs::PlacedRows::placed_views))]
fn add_stmt(out: &mut Declared, statement: &Stmt) -> Result<(), Memory>
    ensures { OnOk result (out.new
        ≡ out.old ++ declarations tree.stmt (source.stmt statement.now)) }
{
    match statement {
        Stmt::Block(list) => add_stmts(out, list),
        Stmt::Var(items) => add_items(out, items),
        Stmt::If(_, then, otherwise) => {
            add_stmt(out, then)?;
            add_maybe_stmt(out, otherwise)
        }
        Stmt::While(_, body) | Stmt::Do(body, _) | Stmt::With(_, body, _) | Stmt::Label(_, body) =>
            add_stmt(out, body),
        Stmt::For(start, _, _, body) => {
            add_first(out, start)?;
            add_stmt(out, body)
        }
        Stmt::ForIn(target, _, body) => {
            add_loop_target(out, target)?;
            add_stmt(out, body)
        }
        Stmt::Switch(_, cases) => add_cases(out, cases),
        Stmt::Try(body, handler, last) => {
            add_stmts(out, body)?;
            if let Some((_, caught)) = handler {
                add_stmts(out, caught)?;
            }
            if let Some(last) = last {
                add_stmts(out, last)?;
            }
            Ok(())
        }
        Stmt::Func(function) => add_function(out, function),
        Stmt::Empty
        | Stmt::Expr(_)
        | Stmt::Continue(_, _)
        | Stmt::Break(_, _)
        | Stmt::Return(_, _)
        | Stmt::Throw(_) => Ok(()),
    }
}

#[cycle(declared)]
#[tactic(auto, unfolding(crate::specs::Declarations::declarations))]
fn add_maybe_stmt(out: &mut Declared, statement: &Option<Box<Stmt>>) -> Result<(), Memory>
    ensures { OnOk result (out.new
        ≡ out.old ++ declarations tree.maybe_stmt (source.of_maybe_stmt statement.now)) }
{
    match statement {
        Some(statement) => add_stmt(out, statement),
        None => Ok(()),
    }
}

#[cycle(declared)]
#[tactic(auto, unfolding(crate::specs::Declarations::declarations))]
fn add_cases(out: &mut Declared, cases: &[Case]) -> Result<(), Memory>
    ensures { OnOk result (out.new
        ≡ out.old ++ declarations tree.cases (source.of_cases cases.now)) }
{
    for case in cases {
        add_stmts(out, &case.body)?;
    }
    Ok(())
}

#[tactic(auto, unfolding(crate::specs::Declarations::declarations))]
fn add_items(out: &mut Declared, items: &[VarItem]) -> Result<(), Memory>
    ensures { OnOk result (out.new
        ≡ out.old ++ declarations tree.items (source.of_items items.now)) }
{
    for item in items {
        out.push(&item.name, Role::Variable)?;
    }
    Ok(())
}

#[tactic(auto, unfolding(crate::specs::Declarations::declarations), using(es3_tree::proofs::PlacedRows::placed_views))]
fn add_first(out: &mut Declared, start: &First) -> Result<(), Memory>
    ensures { OnOk result (out.new
        ≡ out.old ++ declarations tree.first (source.first start.now)) }
{
    match start {
        First::Var(items) => add_items(out, items),
        First::None | First::Expr(_) => Ok(()),
    }
}

#[tactic(auto, unfolding(crate::specs::Declarations::declarations), using(es3_tree::proofs::PlacedRows::placed_views))]
fn add_loop_target(out: &mut Declared, target: &Loop) -> Result<(), Memory>
    ensures { OnOk result (out.new
        ≡ out.old ++ declarations tree.loop_target (source.loop_target target.now)) }
{
    if let Loop::Var(name) = target {
        out.push(name, Role::LoopVariable)?;
    }
    Ok(())
}

// A declared function declares its name alone.
#[tactic(auto, unfolding(crate::specs::Declarations::declarations))]
fn add_function(out: &mut Declared, function: &Func) -> Result<(), Memory>
    ensures { OnOk result (out.new
        ≡ out.old ++ declarations tree.func (source.func function.now)) }
{
    if let Some(name) = &function.name {
        out.push(name, Role::Function)?;
    }
    Ok(())
}

fn add_parameters(out: &mut Declared, names: &[Name]) -> Result<(), Memory>
    ensures { OnOk result (out.new
        ≡ out.old ++ map (declared_as parameter) (source.words names.now)) }
{
    for name in names {
        out.push(name, Role::Parameter)?;
    }
    Ok(())
}

/// The declarations of a module's body, in source order.
///
/// # Errors
///
/// `Memory` where memory is wanting.
pub fn module_declarations(alloc: Global, body: &[Stmt]) -> Result<Declared, Memory>
    ensures { IfOk result (λ ds. ds ≡ declarations tree.stmts (source.of_stmts body.now)) }
{
    let mut out = Declared::new(alloc)?;
    add_stmts(&mut out, body)?;
    Ok(out)
}

/// The declarations of a function's body, its parameters before.
///
/// # Errors
///
/// `Memory` where memory is wanting.
pub fn function_declarations(alloc: Global, function: &Func) -> Result<Declared, Memory>
    ensures { IfOk result (λ ds. ds ≡ body_declarations (source.words function.now.params.items) (source.of_stmts function.now.body.items)) }
{
    let mut out = Declared::new(alloc)?;
    add_parameters(&mut out, &function.params)?;
    add_stmts(&mut out, &function.body)?;
    Ok(out)
}

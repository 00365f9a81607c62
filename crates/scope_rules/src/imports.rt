//! The names that a module imports, each once, in order of first use: `from_..` puts those of a part behind the names so far.

ghost use Rattle.std.specs.Prelude.{◌≡◌, ◌++◌, [], IfOk};
ghost use Rattle.es3_tree.specs.Tree as tree;
ghost use Rattle.es3_tree.specs.PlacedView as source;
ghost use Rattle.cajita_names.specs.Rules.{fixed_names};
ghost use Rattle.cajita_names.specs.Scope.{in_module};
ghost use Rattle.cajita_rules.specs.Faults.{within_its_name};
ghost use Rattle.scope_rules.specs.Free.{free, import_at};
ghost use Rattle.cajita_names.specs.Once.{once_after};
ghost use Rattle.cajita_names.specs.Views.{scope_of};

use caja_units::{Memory, Units};
use cajita_names::declarations::function_declarations;
use cajita_names::once::add_name;
use cajita_names::scope::Scope;
use cajita_names::tabled::Declared;
use es3_tree::{Case, Expr, First, Func, Loop, Name, Stmt, VarItem};
use std::alloc::Global;

// A name that is used.
fn from_name(
    alloc: Global,
    scope: &Scope<'_>,
    names: Vec<Units>,
    name: &Name,
) -> Result<Vec<Units>, Memory>
    ensures { IfOk result (λ r. r.items
        ≡ once_after names.items (import_at (scope_of scope.now) (source.word name.now))) }
{
    let mut names = names;
    if scope.imports(&name.text) {
        add_name(alloc, &mut names, &name.text)?;
    }
    Ok(names)
}

#[cycle(imports)]
#[tactic(auto, unfolding(crate::specs::Free::free), using(es3_tree::proofs::PlacedRows::placed_views, crate::proofs::OnceParts::once_parts))]
fn from_expr(
    alloc: Global,
    scope: &Scope<'_>,
    names: Vec<Units>,
    expression: &Expr,
) -> Result<Vec<Units>, Memory>
    ensures { IfOk result (λ r. r.items
        ≡ once_after names.items (free (scope_of scope.now) tree.expr (source.expr expression.now))) }
{
    match expression {
        Expr::This(_) | Expr::Null | Expr::Bool(_) | Expr::Num(_) | Expr::Text(_) => Ok(names),
        Expr::Name(name) => from_name(alloc, scope, names, name),
        Expr::Array(elements) => from_exprs(alloc, scope, names, elements),
        Expr::Object(fields) => from_fields(alloc, scope, names, fields),
        Expr::Func(function) => from_function_expression(alloc, scope, names, function),
        Expr::Dot(operand, _) | Expr::Unary(_, operand, _) | Expr::Step(_, _, operand) => {
            from_expr(alloc, scope, names, operand)
        }
        Expr::Call(callee, arguments) | Expr::New(callee, arguments) => {
            let names = from_expr(alloc, scope, names, callee)?;
            from_exprs(alloc, scope, names, arguments)
        }
        Expr::Index(left, right)
        | Expr::Binary(_, left, right)
        | Expr::And(left, right)
        | Expr::Or(left, right)
        | Expr::Assign(_, left, right)
        | Expr::Comma(left, right) => {
            let names = from_expr(alloc, scope, names, left)?;
            from_expr(alloc, scope, names, right)
        }
        Expr::Cond(test, then, otherwise) => {
            let names = from_expr(alloc, scope, names, test)?;
            let names = from_expr(alloc, scope, names, then)?;
            from_expr(alloc, scope, names, otherwise)
        }
    }
}

#[cycle(imports)]
#[tactic(auto, unfolding(crate::specs::Free::free), using(crate::proofs::OnceParts::once_parts))]
fn from_exprs(
    alloc: Global,
    scope: &Scope<'_>,
    names: Vec<Units>,
    list: &[Expr],
) -> Result<Vec<Units>, Memory>
    ensures { IfOk result (λ r. r.items
        ≡ once_after names.items (free (scope_of scope.now) tree.exprs (source.of_exprs list.now))) }
{
    let mut names = names;
    for expression in list {
        names = from_expr(alloc, scope, names, expression)?;
    }
    Ok(names)
}

#[cycle(imports)]
#[tactic(auto, unfolding(crate::specs::Free::free), using(crate::proofs::OnceParts::once_parts))]
fn from_fields(
    alloc: Global,
    scope: &Scope<'_>,
    names: Vec<Units>,
    fields: &[(Name, Expr)],
) -> Result<Vec<Units>, Memory>
    ensures { IfOk result (λ r. r.items
        ≡ once_after names.items (free (scope_of scope.now) tree.fields (source.of_fields fields.now))) }
{
    let mut names = names;
    for (_, value) in fields {
        names = from_expr(alloc, scope, names, value)?;
    }
    Ok(names)
}

#[cycle(imports)]
#[tactic(auto, unfolding(crate::specs::Free::free))]
fn from_maybe_expr(
    alloc: Global,
    scope: &Scope<'_>,
    names: Vec<Units>,
    expression: &Option<Expr>,
) -> Result<Vec<Units>, Memory>
    ensures { IfOk result (λ r. r.items
        ≡ once_after names.items (free (scope_of scope.now) tree.maybe_expr (source.of_maybe_expr expression.now))) }
{
    match expression {
        Some(expression) => from_expr(alloc, scope, names, expression),
        None => Ok(names),
    }
}

// The body of a function.
#[cycle(imports)]
#[tactic(auto, unfolding(crate::specs::Free::free))]
fn from_function(
    alloc: Global,
    scope: &Scope<'_>,
    names: Vec<Units>,
    function: &Func,
) -> Result<Vec<Units>, Memory>
    ensures { IfOk result (λ r. r.items
        ≡ once_after names.items (free (scope_of scope.now) tree.func (source.func function.now))) }
{
    let declarations = function_declarations(alloc, function)?;
    let inner = Scope::Function(&declarations, &*scope);
    from_stmts(alloc, &inner, names, &function.body)
}

// A function expression, whose name is declared within it alone.
#[cycle(imports)]
fn from_function_expression(
    alloc: Global,
    scope: &Scope<'_>,
    names: Vec<Units>,
    function: &Func,
) -> Result<Vec<Units>, Memory>
    ensures { IfOk result (λ r. r.items
        ≡ once_after names.items
        (free (within_its_name (source.func function.now) (scope_of scope.now)) tree.func (source.func function.now))) }
{
    match &function.name {
        Some(name) => {
            let inner = Scope::Named(&name.text, &*scope);
            from_function(alloc, &inner, names, function)
        }
        None => from_function(alloc, scope, names, function),
    }
}

#[cycle(imports)]
#[tactic(auto, unfolding(crate::specs::Free::free), using(es3_tree::proofs::PlacedRows::placed_views, crate::proofs::OnceParts::once_parts))]
fn from_stmt(
    alloc: Global,
    scope: &Scope<'_>,
    names: Vec<Units>,
    statement: &Stmt,
) -> Result<Vec<Units>, Memory>
    ensures { IfOk result (λ r. r.items
        ≡ once_after names.items (free (scope_of scope.now) tree.stmt (source.stmt statement.now))) }
{
    match statement {
        Stmt::Block(list) => from_stmts(alloc, scope, names, list),
        Stmt::Var(items) => from_items(alloc, scope, names, items),
        Stmt::Empty | Stmt::Continue(_, _) | Stmt::Break(_, _) => Ok(names),
        Stmt::Expr(value) | Stmt::Throw(value) => from_expr(alloc, scope, names, value),
        Stmt::If(test, then, otherwise) => {
            let names = from_expr(alloc, scope, names, test)?;
            let names = from_stmt(alloc, scope, names, then)?;
            from_maybe_stmt(alloc, scope, names, otherwise)
        }
        Stmt::While(test, body) | Stmt::With(test, body, _) => {
            let names = from_expr(alloc, scope, names, test)?;
            from_stmt(alloc, scope, names, body)
        }
        Stmt::Do(body, test) => {
            let names = from_stmt(alloc, scope, names, body)?;
            from_expr(alloc, scope, names, test)
        }
        Stmt::For(start, test, update, body) => {
            let names = from_first(alloc, scope, names, start)?;
            let names = from_maybe_expr(alloc, scope, names, test)?;
            let names = from_maybe_expr(alloc, scope, names, update)?;
            from_stmt(alloc, scope, names, body)
        }
        Stmt::ForIn(target, object, body) => {
            let names = from_loop_target(alloc, scope, names, target)?;
            let names = from_expr(alloc, scope, names, object)?;
            from_stmt(alloc, scope, names, body)
        }
        Stmt::Return(value, _) => from_maybe_expr(alloc, scope, names, value),
        Stmt::Switch(value, cases) => {
            let names = from_expr(alloc, scope, names, value)?;
            from_cases(alloc, scope, names, cases)
        }
        Stmt::Label(_, body) => from_stmt(alloc, scope, names, body),
        Stmt::Try(body, handler, last) => {
            let names = from_stmts(alloc, scope, names, body)?;
            let names = match handler {
                Some((name, list)) => {
                    from_stmts(alloc, &Scope::Catch(&name.text, &*scope), names, list)?
                }
                None => names,
            };
            match last {
                Some(list) => from_stmts(alloc, scope, names, list),
                None => Ok(names),
            }
        }
        Stmt::Func(function) => from_function(alloc, scope, names, function),
    }
}

#[cycle(imports)]
#[tactic(auto, unfolding(crate::specs::Free::free))]
fn from_maybe_stmt(
    alloc: Global,
    scope: &Scope<'_>,
    names: Vec<Units>,
    statement: &Option<Box<Stmt>>,
) -> Result<Vec<Units>, Memory>
    ensures { IfOk result (λ r. r.items
        ≡ once_after names.items (free (scope_of scope.now) tree.maybe_stmt (source.of_maybe_stmt statement.now))) }
{
    match statement {
        Some(statement) => from_stmt(alloc, scope, names, statement),
        None => Ok(names),
    }
}

#[cycle(imports)]
#[tactic(auto, unfolding(crate::specs::Free::free), using(crate::proofs::OnceParts::once_parts))]
fn from_stmts(
    alloc: Global,
    scope: &Scope<'_>,
    names: Vec<Units>,
    list: &[Stmt],
) -> Result<Vec<Units>, Memory>
    ensures { IfOk result (λ r. r.items
        ≡ once_after names.items (free (scope_of scope.now) tree.stmts (source.of_stmts list.now))) }
{
    let mut names = names;
    for statement in list {
        names = from_stmt(alloc, scope, names, statement)?;
    }
    Ok(names)
}

#[cycle(imports)]
#[tactic(auto, unfolding(crate::specs::Free::free), using(crate::proofs::OnceParts::once_parts))]
fn from_items(
    alloc: Global,
    scope: &Scope<'_>,
    names: Vec<Units>,
    items: &[VarItem],
) -> Result<Vec<Units>, Memory>
    ensures { IfOk result (λ r. r.items
        ≡ once_after names.items (free (scope_of scope.now) tree.items (source.of_items items.now))) }
{
    let mut names = names;
    for item in items {
        names = from_maybe_expr(alloc, scope, names, &item.value)?;
    }
    Ok(names)
}

#[cycle(imports)]
#[tactic(auto, unfolding(crate::specs::Free::free), using(crate::proofs::OnceParts::once_parts))]
fn from_cases(
    alloc: Global,
    scope: &Scope<'_>,
    names: Vec<Units>,
    cases: &[Case],
) -> Result<Vec<Units>, Memory>
    ensures { IfOk result (λ r. r.items
        ≡ once_after names.items (free (scope_of scope.now) tree.cases (source.of_cases cases.now))) }
{
    let mut names = names;
    for case in cases {
        names = from_maybe_expr(alloc, scope, names, &case.test)?;
        names = from_stmts(alloc, scope, names, &case.body)?;
    }
    Ok(names)
}

#[cycle(imports)]
#[tactic(auto, unfolding(crate::specs::Free::free), using(es3_tree::proofs::PlacedRows::placed_views))]
fn from_first(
    alloc: Global,
    scope: &Scope<'_>,
    names: Vec<Units>,
    start: &First,
) -> Result<Vec<Units>, Memory>
    ensures { IfOk result (λ r. r.items
        ≡ once_after names.items (free (scope_of scope.now) tree.first (source.first start.now))) }
{
    match start {
        First::None => Ok(names),
        First::Var(items) => from_items(alloc, scope, names, items),
        First::Expr(value) => from_expr(alloc, scope, names, value),
    }
}

#[cycle(imports)]
#[tactic(auto, unfolding(crate::specs::Free::free), using(es3_tree::proofs::PlacedRows::placed_views))]
fn from_loop_target(
    alloc: Global,
    scope: &Scope<'_>,
    names: Vec<Units>,
    target: &Loop,
) -> Result<Vec<Units>, Memory>
    ensures { IfOk result (λ r. r.items
        ≡ once_after names.items (free (scope_of scope.now) tree.loop_target (source.loop_target target.now))) }
{
    match target {
        Loop::Var(_) => Ok(names),
        Loop::Target(expression) => from_expr(alloc, scope, names, expression),
    }
}

/// The names that the body of a module imports, where these names are granted and these are its declarations.
///
/// # Errors
///
/// `Memory` where memory is wanting.
pub(crate) fn imports(
    alloc: Global,
    grants: &[Units],
    declarations: &Declared,
    body: &[Stmt],
) -> Result<Vec<Units>, Memory>
    ensures { IfOk result (λ names. names.items ≡ once_after []
        (free (in_module declarations.now (grants.now ++ fixed_names)) tree.stmts (source.of_stmts body.now))) }
{
    let scope = Scope::Module(declarations, grants);
    from_stmts(alloc, &scope, Vec::new(alloc), body)
}

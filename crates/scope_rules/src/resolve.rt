//! The resolved form of a part: the part without its places, where each form in it has a resolved form.

ghost use Rattle.std.specs.Prelude.{◌≡◌};
ghost use Rattle.es3_tree.specs.Tree as tree;
ghost use Rattle.es3_tree.specs.PlacedView as source;
ghost use Rattle.cajita_tree.specs.View as view;
ghost use Rattle.cajita_forms.specs.Boxed as held;
ghost use Rattle.scope_rules.specs.Declaring.{is_declaration as declares_function};
ghost use Rattle.cajita_forms.specs.Gives.{Gives};
ghost use Rattle.scope_rules.specs.Resolve.{resolved, declared_functions, body_of};

use caja_units::{Memory, Units};
use cajita_forms::arguments::are_named;
use cajita_forms::boxes::unboxed;
use cajita_forms::{expr_forms, stmt_forms};
use cajita_names::declarations::module_declarations;
use cajita_names::once::vars_of;
use cajita_tree::{
    CBody, CCase, CExpr, CFirst, CFunc, CStmt, CVarItem, Target, make_body, make_func,
};
use es3_tree::{Case, Expr, First, Func, Loop, Name, Stmt, VarItem};
use std::alloc::Global;

#[cycle(resolve)]
#[tactic(auto, unfolding(crate::specs::Resolve::resolved), using(es3_tree::proofs::PlacedRows::placed_views))]
fn resolve_expr(alloc: Global, expression: &Expr) -> Result<Option<Box<CExpr>>, Memory>
    ensures { Gives result held.expr (resolved tree.expr (source.expr expression.now)) }
{
    match expression {
        Expr::This(_) => Ok(None),
        Expr::Null => expr_forms::leaf(alloc, CExpr::Null),
        Expr::Bool(value) => expr_forms::leaf(alloc, CExpr::Bool(*value)),
        Expr::Num(number) => expr_forms::leaf(alloc, CExpr::Num(*number)),
        Expr::Text(text) => expr_forms::text_literal(alloc, text),
        Expr::Name(name) => expr_forms::name(alloc, name),
        Expr::Array(elements) => expr_forms::array(alloc, resolve_exprs(alloc, elements)),
        Expr::Object(fields) => expr_forms::record_literal(alloc, resolve_fields(alloc, fields)),
        Expr::Func(function) => expr_forms::function(alloc, resolve_func(alloc, function)),
        Expr::Dot(object, key) => expr_forms::dot(alloc, key, resolve_expr(alloc, object)),
        Expr::Index(object, key) => {
            let object = resolve_expr(alloc, object);
            expr_forms::index(alloc, object, resolve_expr(alloc, key))
        }
        Expr::Call(callee, arguments) => {
            let callee = resolve_expr(alloc, callee);
            expr_forms::call(alloc, callee, resolve_exprs(alloc, arguments))
        }
        Expr::New(constructor, arguments) => {
            let constructor = resolve_expr(alloc, constructor);
            expr_forms::new(alloc, constructor, resolve_exprs(alloc, arguments))
        }
        Expr::Unary(op, operand, _) => expr_forms::unary(alloc, *op, resolve_expr(alloc, operand)),
        Expr::Step(up, before, operand) => {
            let operand = expr_forms::target(resolve_expr(alloc, operand));
            expr_forms::step(alloc, *up, *before, operand)
        }
        Expr::Binary(op, left, right) => {
            let left = resolve_expr(alloc, left);
            expr_forms::binary(alloc, *op, left, resolve_expr(alloc, right))
        }
        Expr::And(left, right) => {
            let left = resolve_expr(alloc, left);
            expr_forms::and(alloc, left, resolve_expr(alloc, right))
        }
        Expr::Or(left, right) => {
            let left = resolve_expr(alloc, left);
            expr_forms::or(alloc, left, resolve_expr(alloc, right))
        }
        Expr::Cond(test, yes, no) => {
            let test = resolve_expr(alloc, test);
            let yes = resolve_expr(alloc, yes);
            expr_forms::conditional(alloc, test, yes, resolve_expr(alloc, no))
        }
        Expr::Assign(op, written, value) => {
            let written = expr_forms::target(resolve_expr(alloc, written));
            expr_forms::assign(alloc, *op, written, resolve_expr(alloc, value))
        }
        Expr::Comma(left, right) => {
            let left = resolve_expr(alloc, left);
            expr_forms::comma(alloc, left, resolve_expr(alloc, right))
        }
    }
}

#[cycle(resolve)]
#[tactic(auto, unfolding(crate::specs::Resolve::resolved))]
fn resolve_exprs(alloc: Global, list: &[Expr]) -> Result<Option<Vec<CExpr>>, Memory>
    ensures { Gives result (λ v. view.of_exprs v.items) (resolved tree.exprs (source.of_exprs list.now)) }
{
    let mut done = Vec::new(alloc);
    for expression in list {
        let Some(expression) = resolve_expr(alloc, expression)? else {
            return Ok(None);
        };
        done.push(Box::into_inner(expression))?;
    }
    Ok(Some(done))
}

#[cycle(resolve)]
#[tactic(auto, unfolding(crate::specs::Resolve::resolved))]
fn resolve_fields(
    alloc: Global,
    fields: &[(Name, Expr)],
) -> Result<Option<Vec<(Units, CExpr)>>, Memory>
    ensures { Gives result (λ v. view.of_fields v.items) (resolved tree.fields (source.of_fields fields.now)) }
{
    let mut done = Vec::new(alloc);
    for (key, value) in fields {
        let Some(value) = resolve_expr(alloc, value)? else {
            return Ok(None);
        };
        done.push((key.text.copy(alloc)?, Box::into_inner(value)))?;
    }
    Ok(Some(done))
}

#[cycle(resolve)]
#[tactic(auto, unfolding(crate::specs::Resolve::resolved))]
fn resolve_maybe_expr(
    alloc: Global,
    expression: &Option<Expr>,
) -> Result<Option<Option<Box<CExpr>>>, Memory>
    ensures { Gives result held.maybe_expr (resolved tree.maybe_expr (source.of_maybe_expr expression.now)) }
{
    let Some(expression) = expression else {
        return Ok(Some(None));
    };
    let Some(expression) = resolve_expr(alloc, expression)? else {
        return Ok(None);
    };
    Ok(Some(Some(expression)))
}

#[cycle(resolve)]
#[tactic(auto, unfolding(crate::specs::Resolve::resolved))]
fn resolve_func(alloc: Global, function: &Func) -> Result<Option<CFunc>, Memory>
    ensures { Gives result view.func (resolved tree.func (source.func function.now)) }
{
    let Some(body) = resolve_body(alloc, &function.body)? else {
        return Ok(None);
    };
    let name = expr_forms::text(alloc, &function.name)?;
    let params = expr_forms::texts(alloc, &function.params)?;
    Ok(Some(make_func(name, params, are_named(&function.body), body)))
}

/// The body without its places, and None exactly where a form in it has no resolved form.
///
/// # Errors
///
/// `Memory` where memory is wanting.
#[cycle(resolve)]
pub(crate) fn resolve_body(alloc: Global, body: &[Stmt]) -> Result<Option<CBody>, Memory>
    ensures { Gives result view.body (body_of (source.of_stmts body.now)) }
{
    let Some(funcs) = resolve_funcs(alloc, body)? else {
        return Ok(None);
    };
    let Some(list) = resolve_stmts(alloc, body)? else {
        return Ok(None);
    };
    let declarations = module_declarations(alloc, body)?;
    Ok(Some(make_body(funcs, vars_of(alloc, &declarations)?, list)))
}

// The functions that the statements declare directly.
#[cycle(resolve)]
#[tactic(auto, unfolding(crate::specs::Resolve::declared_functions), using(es3_tree::proofs::PlacedRows::placed_views))]
fn resolve_funcs(alloc: Global, list: &[Stmt]) -> Result<Option<Vec<CFunc>>, Memory>
    ensures { Gives result (λ v. view.of_funcs v.items) (declared_functions (source.of_stmts list.now)) }
{
    let mut done = Vec::new(alloc);
    for statement in list {
        if let Stmt::Func(function) = statement {
            let Some(function) = resolve_func(alloc, function)? else {
                return Ok(None);
            };
            done.push(function)?;
        }
    }
    Ok(Some(done))
}

#[cycle(resolve)]
#[tactic(auto, unfolding(crate::specs::Resolve::resolved), using(es3_tree::proofs::PlacedRows::placed_views))]
fn resolve_stmt(alloc: Global, statement: &Stmt) -> Result<Option<Box<CStmt>>, Memory>
    ensures { Gives result held.stmt (resolved tree.stmt (source.stmt statement.now)) }
{
    match statement {
        Stmt::Block(body) => stmt_forms::block(alloc, resolve_stmts(alloc, body)),
        Stmt::Var(items) => stmt_forms::var(alloc, resolve_items(alloc, items)),
        Stmt::Empty | Stmt::Func(_) => stmt_forms::leaf(alloc, CStmt::Empty),
        Stmt::Expr(value) => stmt_forms::expression(alloc, resolve_expr(alloc, value)),
        Stmt::If(test, then, otherwise) => {
            let test = resolve_expr(alloc, test);
            let then = resolve_stmt(alloc, then);
            stmt_forms::branch(alloc, test, then, resolve_maybe_stmt(alloc, otherwise))
        }
        Stmt::While(test, body) => {
            let test = resolve_expr(alloc, test);
            stmt_forms::while_loop(alloc, test, resolve_stmt(alloc, body))
        }
        Stmt::Do(body, test) => {
            let body = resolve_stmt(alloc, body);
            stmt_forms::do_loop(alloc, body, resolve_expr(alloc, test))
        }
        Stmt::For(start, test, update, body) => {
            let start = resolve_first(alloc, start);
            let test = resolve_maybe_expr(alloc, test);
            let update = resolve_maybe_expr(alloc, update);
            stmt_forms::for_loop(alloc, start, test, update, resolve_stmt(alloc, body))
        }
        Stmt::ForIn(target, object, body) => {
            let target = resolve_target(alloc, target);
            let object = resolve_expr(alloc, object);
            stmt_forms::for_in(alloc, target, object, resolve_stmt(alloc, body))
        }
        Stmt::Continue(label, _) => stmt_forms::continue_to(alloc, label),
        Stmt::Break(label, _) => stmt_forms::break_from(alloc, label),
        Stmt::Return(value, _) => stmt_forms::return_value(alloc, resolve_maybe_expr(alloc, value)),
        Stmt::With(_, _, _) => Ok(None),
        Stmt::Switch(value, cases) => {
            let value = resolve_expr(alloc, value);
            stmt_forms::switch(alloc, value, resolve_cases(alloc, cases))
        }
        Stmt::Label(label, body) => stmt_forms::label(alloc, label, resolve_stmt(alloc, body)),
        Stmt::Throw(value) => stmt_forms::throw(alloc, resolve_expr(alloc, value)),
        Stmt::Try(body, handler, last) => {
            let handler = match handler {
                Some((name, caught)) => {
                    stmt_forms::handler(alloc, name, resolve_stmts(alloc, caught))
                }
                None => Ok(Some(None)),
            };
            let last = match last {
                Some(last) => stmt_forms::last(resolve_stmts(alloc, last)),
                None => Ok(Some(None)),
            };
            stmt_forms::try_catch(alloc, resolve_stmts(alloc, body), handler, last)
        }
    }
}

// Whether the statement declares a function, which stands among its body's functions alone.
#[tactic(auto, using(es3_tree::proofs::PlacedRows::placed_views))]
fn is_declaration(statement: &Stmt) -> bool
    ensures { result ≡ declares_function (source.stmt statement.now) }
{
    matches!(statement, Stmt::Func(_))
}

#[cycle(resolve)]
#[tactic(auto, unfolding(crate::specs::Resolve::resolved))]
fn resolve_stmts(alloc: Global, list: &[Stmt]) -> Result<Option<Vec<CStmt>>, Memory>
    ensures { Gives result (λ v. view.of_stmts v.items) (resolved tree.stmts (source.of_stmts list.now)) }
{
    let mut done = Vec::new(alloc);
    for statement in list {
        if is_declaration(statement) {
            continue;
        }
        let Some(statement) = resolve_stmt(alloc, statement)? else {
            return Ok(None);
        };
        done.push(Box::into_inner(statement))?;
    }
    Ok(Some(done))
}

#[cycle(resolve)]
#[tactic(auto, unfolding(crate::specs::Resolve::resolved))]
fn resolve_maybe_stmt(
    alloc: Global,
    statement: &Option<Box<Stmt>>,
) -> Result<Option<Option<Box<CStmt>>>, Memory>
    ensures { Gives result view.of_maybe_stmt (resolved tree.maybe_stmt (source.of_maybe_stmt statement.now)) }
{
    let Some(statement) = statement else {
        return Ok(Some(None));
    };
    let Some(statement) = resolve_stmt(alloc, statement)? else {
        return Ok(None);
    };
    Ok(Some(Some(statement)))
}

#[cycle(resolve)]
#[tactic(auto, unfolding(crate::specs::Resolve::resolved))]
fn resolve_items(alloc: Global, items: &[VarItem]) -> Result<Option<Vec<CVarItem>>, Memory>
    ensures { Gives result (λ v. view.of_items v.items) (resolved tree.items (source.of_items items.now)) }
{
    let mut done = Vec::new(alloc);
    for item in items {
        let Some(value) = resolve_maybe_expr(alloc, &item.value)? else {
            return Ok(None);
        };
        done.push(CVarItem {
            name: item.name.text.copy(alloc)?,
            value: unboxed(value),
        })?;
    }
    Ok(Some(done))
}

#[cycle(resolve)]
#[tactic(auto, unfolding(crate::specs::Resolve::resolved))]
fn resolve_cases(alloc: Global, cases: &[Case]) -> Result<Option<Vec<CCase>>, Memory>
    ensures { Gives result (λ v. view.of_cases v.items) (resolved tree.cases (source.of_cases cases.now)) }
{
    let mut done = Vec::new(alloc);
    for case in cases {
        let Some(test) = resolve_maybe_expr(alloc, &case.test)? else {
            return Ok(None);
        };
        let Some(body) = resolve_stmts(alloc, &case.body)? else {
            return Ok(None);
        };
        done.push(CCase {
            test: unboxed(test),
            body,
        })?;
    }
    Ok(Some(done))
}

#[cycle(resolve)]
#[tactic(auto, unfolding(crate::specs::Resolve::resolved), using(es3_tree::proofs::PlacedRows::placed_views))]
fn resolve_first(alloc: Global, start: &First) -> Result<Option<Box<CFirst>>, Memory>
    ensures { Gives result held.first (resolved tree.first (source.first start.now)) }
{
    match start {
        First::None => stmt_forms::no_first(alloc),
        First::Var(items) => stmt_forms::first_var(alloc, resolve_items(alloc, items)),
        First::Expr(value) => stmt_forms::first_expr(alloc, resolve_expr(alloc, value)),
    }
}

#[cycle(resolve)]
#[tactic(auto, unfolding(crate::specs::Resolve::resolved), using(es3_tree::proofs::PlacedRows::placed_views))]
fn resolve_target(alloc: Global, target: &Loop) -> Result<Option<Target>, Memory>
    ensures { Gives result view.target (resolved tree.loop_target (source.loop_target target.now)) }
{
    match target {
        Loop::Var(name) => Ok(Some(Target::Var(name.text.copy(alloc)?))),
        Loop::Target(written) => expr_forms::target(resolve_expr(alloc, written)),
    }
}

//! Whether a body names `arguments` (ES3 10.1.8), outside the functions within it.

ghost use Rattle.std.specs.Prelude.{◌≡◌};
ghost use Rattle.es3_tree.specs.Tree as tree;
ghost use Rattle.es3_tree.specs.PlacedView as source;
ghost use Rattle.cajita_forms.specs.Arguments.{names_arguments};

use cajita_names::words::is_arguments;
use es3_tree::{Case, Expr, First, Loop, Name, Stmt, VarItem};

#[cycle(expressions)]
#[tactic(auto, unfolding(crate::specs::Arguments::names_arguments), using(es3_tree::proofs::PlacedRows::placed_views))]
fn named_in_expr(expression: &Expr) -> bool
    ensures { result ≡ names_arguments tree.expr (source.expr expression.now) }
{
    match expression {
        Expr::This(_) | Expr::Null | Expr::Bool(_) | Expr::Num(_) | Expr::Text(_) | Expr::Func(_) =>
            false,
        Expr::Name(name) => is_arguments(&name.text),
        Expr::Array(elements) => named_in_exprs(elements),
        Expr::Object(fields) => named_in_fields(fields),
        Expr::Dot(operand, _) | Expr::Unary(_, operand, _) | Expr::Step(_, _, operand) => {
            named_in_expr(operand)
        }
        Expr::Call(callee, arguments) | Expr::New(callee, arguments) => {
            named_in_expr(callee) || named_in_exprs(arguments)
        }
        Expr::Index(left, right)
        | Expr::Binary(_, left, right)
        | Expr::And(left, right)
        | Expr::Or(left, right)
        | Expr::Assign(_, left, right)
        | Expr::Comma(left, right) => named_in_expr(left) || named_in_expr(right),
        Expr::Cond(test, then, otherwise) => {
            named_in_expr(test) || named_in_expr(then) || named_in_expr(otherwise)
        }
    }
}

#[cycle(expressions)]
#[tactic(auto, unfolding(crate::specs::Arguments::names_arguments))]
fn named_in_exprs(list: &[Expr]) -> bool
    ensures { result ≡ names_arguments tree.exprs (source.of_exprs list.now) }
{
    for expression in list {
        if named_in_expr(expression) {
            return true;
        }
    }
    false
}

#[cycle(expressions)]
#[tactic(auto, unfolding(crate::specs::Arguments::names_arguments))]
fn named_in_fields(fields: &[(Name, Expr)]) -> bool
    ensures { result ≡ names_arguments tree.fields (source.of_fields fields.now) }
{
    for (_, value) in fields {
        if named_in_expr(value) {
            return true;
        }
    }
    false
}

#[tactic(auto, unfolding(crate::specs::Arguments::names_arguments))]
fn named_in_maybe_expr(expression: &Option<Expr>) -> bool
    ensures { result ≡ names_arguments tree.maybe_expr (source.of_maybe_expr expression.now) }
{
    match expression {
        Some(expression) => named_in_expr(expression),
        None => false,
    }
}

#[tactic(auto, unfolding(crate::specs::Arguments::names_arguments))]
fn named_in_items(items: &[VarItem]) -> bool
    ensures { result ≡ names_arguments tree.items (source.of_items items.now) }
{
    for item in items {
        if named_in_maybe_expr(&item.value) {
            return true;
        }
    }
    false
}

#[tactic(auto, unfolding(crate::specs::Arguments::names_arguments), using(es3_tree::proofs::PlacedRows::placed_views))]
fn named_in_first(start: &First) -> bool
    ensures { result ≡ names_arguments tree.first (source.first start.now) }
{
    match start {
        First::None => false,
        First::Var(items) => named_in_items(items),
        First::Expr(expression) => named_in_expr(expression),
    }
}

#[tactic(auto, unfolding(crate::specs::Arguments::names_arguments), using(es3_tree::proofs::PlacedRows::placed_views))]
fn named_in_target(target: &Loop) -> bool
    ensures { result ≡ names_arguments tree.loop_target (source.loop_target target.now) }
{
    match target {
        Loop::Var(_) => false,
        Loop::Target(expression) => named_in_expr(expression),
    }
}

#[cycle(statements)]
#[tactic(auto, unfolding(crate::specs::Arguments::names_arguments), using(es3_tree::proofs::PlacedRows::placed_views))]
fn named_in_stmt(statement: &Stmt) -> bool
    ensures { result ≡ names_arguments tree.stmt (source.stmt statement.now) }
{
    match statement {
        Stmt::Empty | Stmt::Continue(_, _) | Stmt::Break(_, _) | Stmt::Func(_) => false,
        Stmt::Block(list) => are_named(list),
        Stmt::Var(items) => named_in_items(items),
        Stmt::Expr(value) | Stmt::Throw(value) => named_in_expr(value),
        Stmt::If(test, then, otherwise) => {
            named_in_expr(test) || named_in_stmt(then) || named_in_maybe_stmt(otherwise)
        }
        Stmt::While(value, body) | Stmt::With(value, body, _) => {
            named_in_expr(value) || named_in_stmt(body)
        }
        Stmt::Do(body, test) => named_in_stmt(body) || named_in_expr(test),
        Stmt::For(start, test, update, body) => {
            named_in_first(start)
                || named_in_maybe_expr(test)
                || named_in_maybe_expr(update)
                || named_in_stmt(body)
        }
        Stmt::ForIn(target, object, body) => {
            named_in_target(target) || named_in_expr(object) || named_in_stmt(body)
        }
        Stmt::Return(value, _) => named_in_maybe_expr(value),
        Stmt::Switch(value, cases) => named_in_expr(value) || named_in_cases(cases),
        Stmt::Label(_, body) => named_in_stmt(body),
        Stmt::Try(body, handler, last) => {
            let in_handler = match handler {
                Some((_, caught)) => are_named(caught),
                None => false,
            };
            let in_last = match last {
                Some(last) => are_named(last),
                None => false,
            };
            are_named(body) || in_handler || in_last
        }
    }
}

#[cycle(statements)]
#[tactic(auto, unfolding(crate::specs::Arguments::names_arguments))]
fn named_in_maybe_stmt(statement: &Option<Box<Stmt>>) -> bool
    ensures { result ≡ names_arguments tree.maybe_stmt (source.of_maybe_stmt statement.now) }
{
    match statement {
        Some(statement) => named_in_stmt(statement),
        None => false,
    }
}

#[cycle(statements)]
#[tactic(auto, unfolding(crate::specs::Arguments::names_arguments))]
fn named_in_cases(cases: &[Case]) -> bool
    ensures { result ≡ names_arguments tree.cases (source.of_cases cases.now) }
{
    for case in cases {
        if named_in_maybe_expr(&case.test) || are_named(&case.body) {
            return true;
        }
    }
    false
}

/// Whether the statements name `arguments`, outside the functions within them.
#[cycle(statements)]
#[tactic(auto, unfolding(crate::specs::Arguments::names_arguments))]
pub fn are_named(list: &[Stmt]) -> bool
    ensures { result ≡ names_arguments tree.stmts (source.of_stmts list.now) }
{
    for statement in list {
        if named_in_stmt(statement) {
            return true;
        }
    }
    false
}

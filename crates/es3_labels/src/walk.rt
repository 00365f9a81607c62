//! The walk over a program, with what stands around each statement: `in_..` finds the first that is misplaced in a part.

ghost use Rattle.std.specs.Prelude.{◌≡◌, ◌++◌, List, option_map};
ghost use Rattle.es3_tree.specs.Tree as tree;
ghost use Rattle.es3_tree.specs.PlacedView as source;
ghost use Rattle.es3_labels.specs.Around.{has_label, in_loop as inside_loop};
ghost use Rattle.es3_labels.specs.Misplaced as wanted;
ghost use Rattle.es3_labels.specs.Misplaced.{misplaced};
ghost use Rattle.es3_labels.specs.View.{around_of, misplaced_of};

use crate::Misplaced;
use crate::around::Around;
use es3_tree::{Case, Expr, First, Loop, Name, Stmt, VarItem};

// Of two the one that stands earlier, the front one where both stand at the same byte.
fn picked<'a>(front: Option<Misplaced<'a>>, behind: Option<Misplaced<'a>>) -> Option<Misplaced<'a>>
    ensures { option_map misplaced_of result
        ≡ wanted.earlier (option_map misplaced_of front.entry) (option_map misplaced_of behind.entry) }
{
    match (front, behind) {
        (Some(front), Some(behind)) => {
            if behind.at < front.at {
                Some(behind)
            } else {
                Some(front)
            }
        }
        (Some(front), None) => Some(front),
        (None, behind) => behind,
    }
}

// The same, and what it is of the lists that the two are the first ones of.
fn earlier<'a>(front: Option<Misplaced<'a>>, behind: Option<Misplaced<'a>>) -> Option<Misplaced<'a>>
    ensures is { option_map misplaced_of result
        ≡ wanted.earlier (option_map misplaced_of front.entry) (option_map misplaced_of behind.entry) }
    ensures of_parts { (ms ns : List wanted.Misplaced)
        → option_map misplaced_of front.entry ≡ wanted.first ms
        → option_map misplaced_of behind.entry ≡ wanted.first ns
        → option_map misplaced_of result ≡ wanted.first (ms ++ ns) }
{
    picked(front, behind)
}

// A jump that begins at the byte, unless its target is there.
fn jump<'a>(is_there: bool, at: u32) -> Option<Misplaced<'a>>
    ensures { option_map misplaced_of result ≡ wanted.first (wanted.jump is_there at) }
{
    if is_there {
        None
    } else {
        Some(Misplaced { at, label: None })
    }
}

// A label, if a statement around it has the same.
fn again<'a>(around: Around<'_>, label: &'a Name) -> Option<Misplaced<'a>>
    ensures { option_map misplaced_of result
        ≡ wanted.first (wanted.again (has_label (around_of around.entry) label.now.text) (source.word label.now)) }
{
    if around.has_label(&label.text) {
        Some(Misplaced {
            at: label.at,
            label: Some(label),
        })
    } else {
        None
    }
}

// Whether the statement is a loop, behind labels or not (ES3 12.6, 12.12).
#[tactic(auto, using(es3_tree::proofs::PlacedRows::placed_views))]
fn is_loop(statement: &Stmt) -> bool
    ensures { result ≡ wanted.is_loop (source.stmt statement.now) }
{
    match statement {
        Stmt::While(_, _) | Stmt::Do(_, _) | Stmt::For(_, _, _, _) | Stmt::ForIn(_, _, _) => true,
        Stmt::Label(_, body) => is_loop(body),
        _ => false,
    }
}

#[cycle(walk)]
#[tactic(auto, unfolding(crate::specs::Misplaced::misplaced), using(es3_tree::proofs::PlacedRows::placed_views))]
fn in_expr<'a>(around: Around<'_>, expression: &'a Expr) -> Option<Misplaced<'a>>
    ensures { option_map misplaced_of result
        ≡ wanted.first (misplaced (around_of around.entry) tree.expr (source.expr expression.now)) }
{
    match expression {
        Expr::This(_) | Expr::Null | Expr::Bool(_) | Expr::Num(_) | Expr::Text(_) | Expr::Name(_) =>
            { None }
        Expr::Array(elements) => in_exprs(around, elements),
        Expr::Object(properties) => in_fields(around, properties),
        Expr::Func(function) => in_stmts(Around::Function, &function.body),
        Expr::Dot(operand, _) | Expr::Unary(_, operand, _) | Expr::Step(_, _, operand) => {
            in_expr(around, operand)
        }
        Expr::Call(callee, arguments) | Expr::New(callee, arguments) => {
            earlier(in_expr(around, callee), in_exprs(around, arguments))
        }
        Expr::Index(left, right)
        | Expr::Binary(_, left, right)
        | Expr::And(left, right)
        | Expr::Or(left, right)
        | Expr::Assign(_, left, right)
        | Expr::Comma(left, right) => earlier(in_expr(around, left), in_expr(around, right)),
        Expr::Cond(test, then, otherwise) => earlier(
            earlier(in_expr(around, test), in_expr(around, then)),
            in_expr(around, otherwise),
        ),
    }
}

#[cycle(walk)]
#[tactic(auto, unfolding(crate::specs::Misplaced::misplaced))]
fn in_exprs<'a>(around: Around<'_>, list: &'a [Expr]) -> Option<Misplaced<'a>>
    ensures { option_map misplaced_of result
        ≡ wanted.first (misplaced (around_of around.entry) tree.exprs (source.of_exprs list.now)) }
{
    let mut found = None;
    for expression in list {
        found = earlier(found, in_expr(around, expression));
    }
    found
}

#[cycle(walk)]
#[tactic(auto, unfolding(crate::specs::Misplaced::misplaced))]
fn in_fields<'a>(around: Around<'_>, fields: &'a [(Name, Expr)]) -> Option<Misplaced<'a>>
    ensures { option_map misplaced_of result
        ≡ wanted.first (misplaced (around_of around.entry) tree.fields (source.of_fields fields.now)) }
{
    let mut found = None;
    for (_, value) in fields {
        found = earlier(found, in_expr(around, value));
    }
    found
}

#[cycle(walk)]
#[tactic(auto, unfolding(crate::specs::Misplaced::misplaced))]
fn in_maybe_expr<'a>(around: Around<'_>, expression: &'a Option<Expr>) -> Option<Misplaced<'a>>
    ensures { option_map misplaced_of result
        ≡ wanted.first (misplaced (around_of around.entry) tree.maybe_expr (source.of_maybe_expr expression.now)) }
{
    match expression {
        Some(expression) => in_expr(around, expression),
        None => None,
    }
}

#[cycle(walk)]
#[tactic(auto, unfolding(crate::specs::Misplaced::misplaced), using(es3_tree::proofs::PlacedRows::placed_views))]
fn in_stmt<'a>(around: Around<'_>, statement: &'a Stmt) -> Option<Misplaced<'a>>
    ensures { option_map misplaced_of result
        ≡ wanted.first (misplaced (around_of around.entry) tree.stmt (source.stmt statement.now)) }
{
    match statement {
        Stmt::Empty => None,
        Stmt::Block(list) => in_stmts(around, list),
        Stmt::Var(items) => in_items(around, items),
        Stmt::Expr(value) | Stmt::Throw(value) => in_expr(around, value),
        Stmt::If(test, then, otherwise) => earlier(
            earlier(in_expr(around, test), in_stmt(around, then)),
            in_maybe_stmt(around, otherwise),
        ),
        Stmt::While(test, body) => earlier(in_expr(around, test), in_loop(around, body)),
        Stmt::Do(body, test) => earlier(in_loop(around, body), in_expr(around, test)),
        Stmt::For(start, test, update, body) => {
            let front = earlier(in_first(around, start), in_maybe_expr(around, test));
            let head = earlier(front, in_maybe_expr(around, update));
            earlier(head, in_loop(around, body))
        }
        Stmt::ForIn(target, object, body) => {
            let head = earlier(in_target(around, target), in_expr(around, object));
            earlier(head, in_loop(around, body))
        }
        Stmt::Continue(label, at) => jump(around.continues(label), *at),
        Stmt::Break(label, at) => jump(around.breaks(label), *at),
        Stmt::Return(value, at) => {
            let here = jump(around.has_function(), *at);
            earlier(here, in_maybe_expr(around, value))
        }
        Stmt::With(object, body, _) => earlier(in_expr(around, object), in_stmt(around, body)),
        Stmt::Switch(value, cases) => {
            let inner = Around::Switch(&around);
            earlier(in_expr(around, value), in_cases(inner, cases))
        }
        Stmt::Label(label, body) => {
            let inner = Around::Label(&label.text, is_loop(body), &around);
            earlier(again(around, label), in_stmt(inner, body))
        }
        Stmt::Try(body, handler, last) => {
            let caught = match handler {
                Some((_, caught)) => in_stmts(around, caught),
                None => None,
            };
            let last = match last {
                Some(last) => in_stmts(around, last),
                None => None,
            };
            earlier(earlier(in_stmts(around, body), caught), last)
        }
        Stmt::Func(function) => in_stmts(Around::Function, &function.body),
    }
}

// The statement of a loop.
#[cycle(walk)]
fn in_loop<'a>(around: Around<'_>, body: &'a Stmt) -> Option<Misplaced<'a>>
    ensures { option_map misplaced_of result
        ≡ wanted.first (misplaced (inside_loop (around_of around.entry)) tree.stmt (source.stmt body.now)) }
{
    in_stmt(Around::Loop(&around), body)
}

#[cycle(walk)]
#[tactic(auto, unfolding(crate::specs::Misplaced::misplaced))]
fn in_maybe_stmt<'a>(around: Around<'_>, statement: &'a Option<Box<Stmt>>) -> Option<Misplaced<'a>>
    ensures { option_map misplaced_of result
        ≡ wanted.first (misplaced (around_of around.entry) tree.maybe_stmt (source.of_maybe_stmt statement.now)) }
{
    match statement {
        Some(statement) => in_stmt(around, statement),
        None => None,
    }
}

#[cycle(walk)]
#[tactic(auto, unfolding(crate::specs::Misplaced::misplaced))]
pub(crate) fn in_stmts<'a>(around: Around<'_>, list: &'a [Stmt]) -> Option<Misplaced<'a>>
    ensures { option_map misplaced_of result
        ≡ wanted.first (misplaced (around_of around.entry) tree.stmts (source.of_stmts list.now)) }
{
    let mut found = None;
    for statement in list {
        found = earlier(found, in_stmt(around, statement));
    }
    found
}

#[cycle(walk)]
#[tactic(auto, unfolding(crate::specs::Misplaced::misplaced))]
fn in_items<'a>(around: Around<'_>, items: &'a [VarItem]) -> Option<Misplaced<'a>>
    ensures { option_map misplaced_of result
        ≡ wanted.first (misplaced (around_of around.entry) tree.items (source.of_items items.now)) }
{
    let mut found = None;
    for item in items {
        found = earlier(found, in_maybe_expr(around, &item.value));
    }
    found
}

#[cycle(walk)]
#[tactic(auto, unfolding(crate::specs::Misplaced::misplaced))]
fn in_cases<'a>(around: Around<'_>, cases: &'a [Case]) -> Option<Misplaced<'a>>
    ensures { option_map misplaced_of result
        ≡ wanted.first (misplaced (around_of around.entry) tree.cases (source.of_cases cases.now)) }
{
    let mut found = None;
    for case in cases {
        let here = earlier(
            in_maybe_expr(around, &case.test),
            in_stmts(around, &case.body),
        );
        found = earlier(found, here);
    }
    found
}

#[cycle(walk)]
#[tactic(auto, unfolding(crate::specs::Misplaced::misplaced), using(es3_tree::proofs::PlacedRows::placed_views))]
fn in_first<'a>(around: Around<'_>, start: &'a First) -> Option<Misplaced<'a>>
    ensures { option_map misplaced_of result
        ≡ wanted.first (misplaced (around_of around.entry) tree.first (source.first start.now)) }
{
    match start {
        First::None => None,
        First::Var(items) => in_items(around, items),
        First::Expr(value) => in_expr(around, value),
    }
}

#[cycle(walk)]
#[tactic(auto, unfolding(crate::specs::Misplaced::misplaced), using(es3_tree::proofs::PlacedRows::placed_views))]
fn in_target<'a>(around: Around<'_>, target: &'a Loop) -> Option<Misplaced<'a>>
    ensures { option_map misplaced_of result
        ≡ wanted.first (misplaced (around_of around.entry) tree.loop_target (source.loop_target target.now)) }
{
    match target {
        Loop::Var(_) => None,
        Loop::Target(target) => in_expr(around, target),
    }
}

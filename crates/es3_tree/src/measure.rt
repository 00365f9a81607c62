#![tactic(auto, using(crate::proofs::Rows::views))]

ghost use Rattle.std.specs.Prelude.{◌≡◌, ◌+◌, ◌-◌, ◌^◌, ◌<◌, min, max};
ghost use Rattle.es3_tree.specs.Tree as tree;
ghost use Rattle.es3_tree.specs.View.{
  expr,
  stmt,
  first,
  program,
  of_exprs,
  of_stmts,
  of_fields,
  of_items,
  of_cases,
  of_maybe_expr,
};
ghost use Rattle.es3_tree.specs.Measure.{nest, count};

use crate::{Case, Expr, First, Loop, Name, Program, Stmt, VarItem};

/// The nesting of a tree and the number of its statements, expressions and functions, each at most its type's greatest.
#[derive(Clone, Copy)]
struct Extent {
    depth: u32,
    size: u64,
}

impl Extent {
    fn none() -> Extent
        ensures depth { result.depth ≡ 0 }
        ensures size { result.size ≡ 0 }
    {
        Extent { depth: 0, size: 0 }
    }

    // Of two parts of one whole.
    fn beside(self, other: Extent) -> Extent
        ensures depth { result.depth ≡ max self.depth other.depth }
        ensures size { result.size ≡ min (self.size + other.size) (2 ^ 64 - 1) }
    {
        Extent {
            depth: self.depth.max(other.depth),
            size: self.size.saturating_add(other.size),
        }
    }

    // Of a statement, an expression or a function round these parts.
    fn around(self) -> Extent
        ensures depth { result.depth ≡ min (self.depth + 1) (2 ^ 32 - 1) }
        ensures size { result.size ≡ min (self.size + 1) (2 ^ 64 - 1) }
    {
        Extent {
            depth: self.depth.saturating_add(1),
            size: self.size.saturating_add(1),
        }
    }
}

#[cycle(extent)]
fn extent_of_expr(x: &Expr) -> Extent
    ensures depth { result.depth ≡ min (nest tree.expr (expr x.now)) (2 ^ 32 - 1) }
    ensures size { result.size ≡ min (count tree.expr (expr x.now)) (2 ^ 64 - 1) }
{
    match x {
        Expr::This(_) | Expr::Null | Expr::Bool(_) | Expr::Num(_) | Expr::Text(_) | Expr::Name(_) =>
            { Extent::none().around() }
        Expr::Array(elements) => extent_of_exprs(elements).around(),
        Expr::Object(properties) => extent_of_fields(properties).around(),
        Expr::Func(function) => extent_of_stmts(&function.body).around().around(),
        Expr::Dot(x, _) | Expr::Unary(_, x, _) | Expr::Step(_, _, x) => extent_of_expr(x).around(),
        Expr::Call(x, arguments) | Expr::New(x, arguments) => {
            extent_of_expr(x)
                .beside(extent_of_exprs(arguments))
                .around()
        }
        Expr::Index(x, y)
        | Expr::Binary(_, x, y)
        | Expr::And(x, y)
        | Expr::Or(x, y)
        | Expr::Assign(_, x, y)
        | Expr::Comma(x, y) => extent_of_expr(x).beside(extent_of_expr(y)).around(),
        Expr::Cond(x, y, z) => extent_of_expr(x)
            .beside(extent_of_expr(y))
            .beside(extent_of_expr(z))
            .around(),
    }
}

#[cycle(extent)]
fn extent_of_exprs(xs: &[Expr]) -> Extent
    ensures depth { result.depth ≡ min (nest tree.exprs (of_exprs xs.now)) (2 ^ 32 - 1) }
    ensures size { result.size ≡ min (count tree.exprs (of_exprs xs.now)) (2 ^ 64 - 1) }
{
    let mut total = Extent::none();
    for x in xs {
        total = total.beside(extent_of_expr(x));
    }
    total
}

#[cycle(extent)]
fn extent_of_fields(xs: &[(Name, Expr)]) -> Extent
    ensures depth { result.depth ≡ min (nest tree.fields (of_fields xs.now)) (2 ^ 32 - 1) }
    ensures size { result.size ≡ min (count tree.fields (of_fields xs.now)) (2 ^ 64 - 1) }
{
    let mut total = Extent::none();
    for (_, x) in xs {
        total = total.beside(extent_of_expr(x));
    }
    total
}

#[cycle(extent)]
fn extent_of_maybe(x: &Option<Expr>) -> Extent
    ensures depth { result.depth ≡ min (nest tree.maybe_expr (of_maybe_expr x.now)) (2 ^ 32 - 1) }
    ensures size { result.size ≡ min (count tree.maybe_expr (of_maybe_expr x.now)) (2 ^ 64 - 1) }
{
    match x {
        Some(x) => extent_of_expr(x),
        None => Extent::none(),
    }
}

#[cycle(extent)]
fn extent_of_stmt(s: &Stmt) -> Extent
    ensures depth { result.depth ≡ min (nest tree.stmt (stmt s.now)) (2 ^ 32 - 1) }
    ensures size { result.size ≡ min (count tree.stmt (stmt s.now)) (2 ^ 64 - 1) }
{
    match s {
        Stmt::Empty | Stmt::Continue(_, _) | Stmt::Break(_, _) => Extent::none().around(),
        Stmt::Block(body) => extent_of_stmts(body).around(),
        Stmt::Var(items) => extent_of_items(items).around(),
        Stmt::Expr(x) | Stmt::Throw(x) => extent_of_expr(x).around(),
        Stmt::If(x, y, None) => extent_of_expr(x).beside(extent_of_stmt(y)).around(),
        Stmt::If(x, y, Some(z)) => extent_of_expr(x)
            .beside(extent_of_stmt(y))
            .beside(extent_of_stmt(z))
            .around(),
        Stmt::While(x, y)
        | Stmt::With(x, y, _)
        | Stmt::Do(y, x)
        | Stmt::ForIn(Loop::Var(_), x, y) => {
            extent_of_expr(x).beside(extent_of_stmt(y)).around()
        }
        Stmt::ForIn(Loop::Target(target), x, y) => {
            extent_of_expr(target)
                .beside(extent_of_expr(x))
                .beside(extent_of_stmt(y))
                .around()
        }
        Stmt::For(start, x, y, body) => extent_of_first(start)
            .beside(extent_of_maybe(x))
            .beside(extent_of_maybe(y))
            .beside(extent_of_stmt(body))
            .around(),
        Stmt::Return(x, _) => extent_of_maybe(x).around(),
        Stmt::Switch(x, cases) => extent_of_expr(x).beside(extent_of_cases(cases)).around(),
        Stmt::Label(_, y) => extent_of_stmt(y).around(),
        Stmt::Try(body, handler, last) => match handler {
            None => match last {
                None => extent_of_stmts(body).around(),
                Some(last) => extent_of_stmts(body).beside(extent_of_stmts(last)).around(),
            },
            Some((_, caught)) => match last {
                None => extent_of_stmts(body)
                    .beside(extent_of_stmts(caught))
                    .around(),
                Some(last) => {
                    extent_of_stmts(body)
                        .beside(extent_of_stmts(caught))
                        .beside(extent_of_stmts(last))
                        .around()
                }
            },
        },
        Stmt::Func(function) => extent_of_stmts(&function.body).around().around(),
    }
}

#[cycle(extent)]
fn extent_of_first(start: &First) -> Extent
    ensures depth { result.depth ≡ min (nest tree.first (first start.now)) (2 ^ 32 - 1) }
    ensures size { result.size ≡ min (count tree.first (first start.now)) (2 ^ 64 - 1) }
{
    match start {
        First::None => Extent::none(),
        First::Var(items) => extent_of_items(items),
        First::Expr(x) => extent_of_expr(x),
    }
}

#[cycle(extent)]
fn extent_of_stmts(xs: &[Stmt]) -> Extent
    ensures depth { result.depth ≡ min (nest tree.stmts (of_stmts xs.now)) (2 ^ 32 - 1) }
    ensures size { result.size ≡ min (count tree.stmts (of_stmts xs.now)) (2 ^ 64 - 1) }
{
    let mut total = Extent::none();
    for x in xs {
        total = total.beside(extent_of_stmt(x));
    }
    total
}

#[cycle(extent)]
fn extent_of_items(xs: &[VarItem]) -> Extent
    ensures depth { result.depth ≡ min (nest tree.items (of_items xs.now)) (2 ^ 32 - 1) }
    ensures size { result.size ≡ min (count tree.items (of_items xs.now)) (2 ^ 64 - 1) }
{
    let mut total = Extent::none();
    for x in xs {
        total = total.beside(extent_of_maybe(&x.value));
    }
    total
}

#[cycle(extent)]
fn extent_of_cases(xs: &[Case]) -> Extent
    ensures depth { result.depth ≡ min (nest tree.cases (of_cases xs.now)) (2 ^ 32 - 1) }
    ensures size { result.size ≡ min (count tree.cases (of_cases xs.now)) (2 ^ 64 - 1) }
{
    let mut total = Extent::none();
    for x in xs {
        total = total
            .beside(extent_of_maybe(&x.test))
            .beside(extent_of_stmts(&x.body));
    }
    total
}

/// The nesting of a program: the greatest number of statements, expressions and functions on one path into it
/// (ES3 11 to 14). A function declaration is a statement that holds a function, and a function expression an expression
/// that holds one.
pub fn depth(p: &Program) -> u32
    requires { nest tree.program (program p.now) < 2 ^ 32 }
    ensures { result ≡ nest tree.program (program p.now) }
{
    extent_of_stmts(&p.body).depth
}

/// The nesting of an expression alone: the greatest number of statements, expressions and functions on one path into it (ES3 11).
pub fn depth_of_expr(x: &Expr) -> u32
    requires { nest tree.expr (expr x.now) < 2 ^ 32 }
    ensures { result ≡ nest tree.expr (expr x.now) }
{
    extent_of_expr(x).depth
}

/// The number of statements, expressions and functions of a program (ES3 11 to 14).
pub fn size(p: &Program) -> u64
    requires { count tree.program (program p.now) < 2 ^ 64 }
    ensures { result ≡ count tree.program (program p.now) }
{
    extent_of_stmts(&p.body).size
}

ghost use Rattle.std.specs.Prelude.{◌≡◌};
ghost use Rattle.cajita_tree.specs.Tree as tree;
ghost use Rattle.cajita_tree.specs.View.{
  expr,
  stmt,
  func,
  first,
  body as body_view,
  of_stmts,
  of_items,
  of_cases,
  of_maybe_expr,
  of_maybe_stmt,
  of_handler,
  of_maybe_block,
  of_funcs,
};

use crate::{CBody, CCase, CExpr, CFirst, CFunc, CStmt, CVarItem};
use caja_units::Units;

/// A block (ES3 12.1).
#[tactic(auto, using(crate::proofs::Rows::view_block))]
pub fn make_block(body: Vec<CStmt>) -> CStmt
    ensures { stmt result ≡ tree.block (of_stmts body.items) }
{
    CStmt::Block(body)
}

/// A `var` (ES3 12.2).
#[tactic(auto, using(crate::proofs::Rows::view_var))]
pub fn make_var(items: Vec<CVarItem>) -> CStmt
    ensures { stmt result ≡ tree.var (of_items items.items) }
{
    CStmt::Var(items)
}

/// An `if`, with its `else` if it has one (ES3 12.5).
#[tactic(auto, using(crate::proofs::Rows::view_if))]
pub fn make_if(test: CExpr, then: Box<CStmt>, otherwise: Option<Box<CStmt>>) -> CStmt
    ensures { stmt result ≡ tree.branch (expr test) (stmt then.value) (of_maybe_stmt otherwise) }
{
    CStmt::If(test, then, otherwise)
}

/// The first part of the head of a `for` that declares variables (ES3 12.6.3).
#[tactic(auto, using(crate::proofs::Rows::view_first_var))]
pub fn make_first_var(items: Vec<CVarItem>) -> CFirst
    ensures { first result ≡ tree.first_var (of_items items.items) }
{
    CFirst::Var(items)
}

/// A `for` whose head has three parts (ES3 12.6.3).
#[tactic(auto, using(crate::proofs::Rows::view_for))]
pub fn make_for(
    start: CFirst,
    test: Option<CExpr>,
    update: Option<CExpr>,
    body: Box<CStmt>,
) -> CStmt
    ensures { stmt result ≡ tree.for_loop (first start) (of_maybe_expr test) (of_maybe_expr update) (stmt body.value) }
{
    CStmt::For(start, test, update, body)
}

/// A `return`, with its value if it has one (ES3 12.9).
#[tactic(auto, using(crate::proofs::Rows::view_return))]
pub fn make_return(value: Option<CExpr>) -> CStmt
    ensures { stmt result ≡ tree.return (of_maybe_expr value) }
{
    CStmt::Return(value)
}

/// A `switch` (ES3 12.11).
#[tactic(auto, using(crate::proofs::Rows::view_switch))]
pub fn make_switch(value: CExpr, cases: Vec<CCase>) -> CStmt
    ensures { stmt result ≡ tree.switch (expr value) (of_cases cases.items) }
{
    CStmt::Switch(value, cases)
}

/// A `try`, with its `catch` and its `finally` if it has them (ES3 12.14).
pub fn make_try(
    body: Vec<CStmt>,
    handler: Option<(Units, Vec<CStmt>)>,
    last: Option<Vec<CStmt>>,
) -> CStmt
    ensures { stmt result ≡ tree.try (of_stmts body.items) (of_handler handler) (of_maybe_block last) }
{
    CStmt::Try(body, handler, last)
}

/// A function: its name if it has one, its parameters, whether its own body names `arguments`, and its body (ES3 13).
pub fn make_func(name: Option<Units>, params: Vec<Units>, args: bool, body: CBody) -> CFunc
    ensures { func result ≡ tree.fun name params.items args (body_view body) }
{
    CFunc {
        name,
        params,
        args,
        body,
    }
}

/// A body: the functions that it declares, the names that it declares by `var`, and its statements (ES3 10.1.3, 13, 14).
pub fn make_body(funcs: Vec<CFunc>, vars: Vec<Units>, list: Vec<CStmt>) -> CBody
    ensures { body_view result ≡ tree.a_body (of_funcs funcs.items) vars.items (of_stmts list.items) }
{
    CBody { funcs, vars, list }
}

//! The names that a body declares by `var` (ES3 12.2).

ghost use Rattle.std.specs.Prelude.{◌≡◌, ◌++◌, IfOk, OnOk};
ghost use Rattle.es3_tree.specs.Tree as tree;
ghost use Rattle.es3_language.specs.Arguments.{arguments_name};
ghost use Rattle.es3_language.specs.Hoisting as hoisting;
ghost use Rattle.es3_moves.specs.Code.{names_of, plain_stmt, plain_stmts, plain_vars, plain_cases, plain_first, plain_target, maybe_stmt, maybe_catch, maybe_finally};

use caja_units::{Memory, Units};
use es3_moves::code::{CaseCode, CatchCode, FinallyCode, FirstCode, StmtCode, TargetCode, VarCode};
use std::alloc::Global;
use std::rc::Rc;

/// Names, in the order in which they are declared.
type Names = Vec<Rc<Units>>;

/// The names that the statements of a body declare by `var`, also within statements (ES3 12.2).
///
/// # Errors
///
/// `Memory` where memory is wanting.
pub fn vars_of(alloc: Global, body: &[Rc<StmtCode>]) -> Result<Vec<Rc<Units>>, Memory>
    ensures { IfOk result (λ names. names_of names.items ≡ hoisting.vars_of (plain_stmts body.now)) }
{
    let mut names = Vec::new(alloc);
    push_stmts(&mut names, body)?;
    Ok(names)
}

/// The names that a function's body declares by `var`: `arguments` is no new one (ES3 10.1.6).
///
/// # Errors
///
/// `Memory` where memory is wanting.
pub fn own_vars(
    alloc: Global,
    body: &[Rc<StmtCode>],
    arguments: &Units,
) -> Result<Vec<Rc<Units>>, Memory>
    requires { arguments.now ≡ arguments_name }
    ensures { IfOk result (λ names. names_of names.items ≡ hoisting.own_vars (hoisting.vars_of (plain_stmts body.now))) }
{
    let all = vars_of(alloc, body)?;
    without_name(alloc, &all, arguments)
}

/// The names other than `arguments`, in their order.
#[tactic(auto, using(crate::proofs::Declared::own_more, crate::proofs::Declared::own_same))]
fn without_name(alloc: Global, all: &[Rc<Units>], arguments: &Units) -> Result<Names, Memory>
    requires { arguments.now ≡ arguments_name }
    ensures { IfOk result (λ names. names_of names.items ≡ hoisting.own_vars (names_of all.now)) }
{
    let mut names = Vec::new(alloc);
    for name in all {
        if !name.same(arguments) {
            names.push(name.clone()?)?;
        }
    }
    Ok(names)
}

/// Appends the names that the statements of a list declare.
#[cycle(declares)]
#[tactic(auto, using(crate::proofs::Declared::stmts_more))]
fn push_stmts(names: &mut Names, body: &[Rc<StmtCode>]) -> Result<(), Memory>
    ensures { OnOk result (names_of names.new.items ≡ names_of names.old.items ++ hoisting.vars_in tree.stmts (plain_stmts body.now)) }
{
    for s in body {
        push_stmt(names, s)?;
    }
    Ok(())
}

/// Appends the names that a statement declares, also within its parts.
#[cycle(declares)]
fn push_stmt(names: &mut Names, s: &StmtCode) -> Result<(), Memory>
    ensures { OnOk result (names_of names.new.items ≡ names_of names.old.items ++ hoisting.vars_in tree.stmt (plain_stmt s.now)) }
{
    match s {
        StmtCode::Block(body) => push_stmts(names, body),
        StmtCode::Var(items) => push_items(names, items),
        StmtCode::If(_, body, other) => {
            push_stmt(names, body)?;
            push_maybe_stmt(names, other)
        }
        StmtCode::While(_, body) => push_stmt(names, body),
        StmtCode::Do(body, _) => push_stmt(names, body),
        StmtCode::For(first, _, _, body) => {
            push_first(names, first)?;
            push_stmt(names, body)
        }
        StmtCode::ForIn(target, _, body) => {
            push_target(names, target)?;
            push_stmt(names, body)
        }
        StmtCode::With(_, body) => push_stmt(names, body),
        StmtCode::Switch(_, cases) => push_cases(names, cases),
        StmtCode::Label(_, body) => push_stmt(names, body),
        StmtCode::Try(body, handler, last) => {
            push_stmts(names, body)?;
            push_handler(names, handler)?;
            push_last(names, last)
        }
        StmtCode::Empty => Ok(()),
        StmtCode::Expr(_) => Ok(()),
        StmtCode::Continue(_) => Ok(()),
        StmtCode::Break(_) => Ok(()),
        StmtCode::Return(_) => Ok(()),
        StmtCode::Throw(_) => Ok(()),
        StmtCode::Function(_) => Ok(()),
    }
}

/// Appends the names that the `else` of an `if` declares.
#[cycle(declares)]
fn push_maybe_stmt(names: &mut Names, s: &Option<Rc<StmtCode>>) -> Result<(), Memory>
    ensures { OnOk result (names_of names.new.items ≡ names_of names.old.items ++ hoisting.vars_in tree.maybe_stmt (maybe_stmt s.now)) }
{
    match s {
        Some(s) => push_stmt(names, s),
        None => Ok(()),
    }
}

/// Appends the names that the clauses of a `switch` declare.
#[cycle(declares)]
#[tactic(auto, using(crate::proofs::Declared::cases_more))]
fn push_cases(names: &mut Names, cases: &[CaseCode]) -> Result<(), Memory>
    ensures { OnOk result (names_of names.new.items ≡ names_of names.old.items ++ hoisting.vars_in tree.cases (plain_cases cases.now)) }
{
    for case in cases {
        push_stmts(names, &case.body)?;
    }
    Ok(())
}

/// Appends the names that a `catch` declares: the one that it binds is none of them.
#[cycle(declares)]
fn push_handler(names: &mut Names, handler: &Option<Rc<CatchCode>>) -> Result<(), Memory>
    ensures { OnOk result (names_of names.new.items ≡ names_of names.old.items ++ hoisting.vars_in tree.handler (maybe_catch handler.now)) }
{
    match handler {
        Some(handler) => push_stmts(names, &handler.body),
        None => Ok(()),
    }
}

/// Appends the names that a `finally` declares.
#[cycle(declares)]
fn push_last(names: &mut Names, last: &Option<Rc<FinallyCode>>) -> Result<(), Memory>
    ensures { OnOk result (names_of names.new.items ≡ names_of names.old.items ++ hoisting.vars_in tree.maybe_block (maybe_finally last.now)) }
{
    match last {
        Some(last) => push_stmts(names, &last.body),
        None => Ok(()),
    }
}

/// Appends the names of the variables of a `var`.
#[tactic(auto, using(crate::proofs::Declared::items_more))]
fn push_items(names: &mut Names, items: &[VarCode]) -> Result<(), Memory>
    ensures { OnOk result (names_of names.new.items ≡ names_of names.old.items ++ hoisting.vars_in tree.items (plain_vars items.now)) }
{
    for item in items {
        names.push(item.name.clone()?)?;
    }
    Ok(())
}

/// Appends the names that the head of a `for` declares (ES3 12.6.3).
#[tactic(auto, using(es3_moves::proofs::Rows::view_first_var))]
fn push_first(names: &mut Names, first: &FirstCode) -> Result<(), Memory>
    ensures { OnOk result (names_of names.new.items ≡ names_of names.old.items ++ hoisting.vars_in tree.first (plain_first first.now)) }
{
    match first {
        FirstCode::None => Ok(()),
        FirstCode::Var(items) => push_items(names, items),
        FirstCode::Expr(_) => Ok(()),
    }
}

/// Appends the name that the head of a `for` .. `in` declares (ES3 12.6.4).
fn push_target(names: &mut Names, target: &TargetCode) -> Result<(), Memory>
    ensures { OnOk result (names_of names.new.items ≡ names_of names.old.items ++ hoisting.vars_in tree.loop_target (plain_target target.now)) }
{
    match target {
        TargetCode::Var(name) => {
            names.push(name.clone()?)?;
            Ok(())
        }
        TargetCode::Expr(_) => Ok(()),
    }
}

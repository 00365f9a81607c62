//! The names that statements declare by `var` outside the heads of `for (var x in ..)` (ES3 12.2, 12.6.3).
//! Each function fails with `Memory` where memory is wanting.

ghost use Rattle.std.specs.Prelude.{◌≡◌, OnOk};
ghost use Rattle.cajita_tree.specs.Tree as tree;
ghost use Rattle.cajita_tree.specs.View as source;
ghost use Rattle.cajita_rewrite.specs.Rewrite.{declared};
ghost use Rattle.cajita_rewrite.specs.Table.{with_all};

use crate::declared_names::DeclaredNames;
use caja_units::Memory;
use cajita_tree::{CCase, CFirst, CStmt, CVarItem};

/// Adds the names that the statements declare.
#[cycle(declared)]
#[tactic(auto, using(crate::proofs::Names::all_of_two))]
pub(crate) fn add_declared(names: &mut DeclaredNames, list: &[CStmt]) -> Result<(), Memory>
    ensures { OnOk result (names.new ≡ with_all names.old (declared tree.stmts (source.of_stmts list.now))) }
{
    for statement in list {
        add_stmt(names, statement)?;
    }
    Ok(())
}

#[cycle(declared)]
#[tactic(auto, using(cajita_tree::proofs::Rows::views, crate::proofs::Names::all_of_two))]
fn add_stmt(names: &mut DeclaredNames, statement: &CStmt) -> Result<(), Memory>
    ensures { OnOk result (names.new ≡ with_all names.old (declared tree.stmt (source.stmt statement.now))) }
{
    match statement {
        CStmt::Block(list) => add_declared(names, list),
        CStmt::Var(items) => add_items(names, items),
        CStmt::If(_, then, otherwise) => {
            add_stmt(names, then)?;
            add_maybe_stmt(names, otherwise)
        }
        CStmt::While(_, body)
        | CStmt::Do(body, _)
        | CStmt::ForIn(_, _, body)
        | CStmt::Label(_, body) => add_stmt(names, body),
        CStmt::For(start, _, _, body) => {
            add_first(names, start)?;
            add_stmt(names, body)
        }
        CStmt::Switch(_, cases) => add_cases(names, cases),
        CStmt::Try(body, handler, last) => {
            add_declared(names, body)?;
            if let Some((_, caught)) = handler {
                add_declared(names, caught)?;
            }
            if let Some(last) = last {
                add_declared(names, last)?;
            }
            Ok(())
        }
        CStmt::Empty
        | CStmt::Expr(_)
        | CStmt::Continue(_)
        | CStmt::Break(_)
        | CStmt::Return(_)
        | CStmt::Throw(_) => Ok(()),
    }
}

#[cycle(declared)]
fn add_maybe_stmt(names: &mut DeclaredNames, statement: &Option<Box<CStmt>>) -> Result<(), Memory>
    ensures { OnOk result (names.new ≡ with_all names.old (declared tree.maybe_stmt (source.of_maybe_stmt statement.now))) }
{
    match statement {
        Some(statement) => add_stmt(names, statement),
        None => Ok(()),
    }
}

#[cycle(declared)]
#[tactic(auto, using(crate::proofs::Names::all_of_two))]
fn add_cases(names: &mut DeclaredNames, cases: &[CCase]) -> Result<(), Memory>
    ensures { OnOk result (names.new ≡ with_all names.old (declared tree.cases (source.of_cases cases.now))) }
{
    for case in cases {
        add_declared(names, &case.body)?;
    }
    Ok(())
}

fn add_items(names: &mut DeclaredNames, items: &[CVarItem]) -> Result<(), Memory>
    ensures { OnOk result (names.new ≡ with_all names.old (declared tree.items (source.of_items items.now))) }
{
    for item in items {
        names.add(&item.name)?;
    }
    Ok(())
}

#[tactic(auto, using(cajita_tree::proofs::Rows::views))]
fn add_first(names: &mut DeclaredNames, start: &CFirst) -> Result<(), Memory>
    ensures { OnOk result (names.new ≡ with_all names.old (declared tree.first (source.first start.now))) }
{
    match start {
        CFirst::Var(items) => add_items(names, items),
        CFirst::None | CFirst::Expr(_) => Ok(()),
    }
}

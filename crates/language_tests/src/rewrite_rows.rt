//! A module and the guarded program that stands for it.

ghost use Rattle.std.specs.Prelude.{◌≡◌, codes, pos, IfOk};
ghost use Rattle.es3_tree.specs.Tree as target;
ghost use Rattle.es3_tree.specs.View.{program};
ghost use Rattle.es3_tree.specs.Measure.{nest, count};
ghost use Rattle.cajita_tree.specs.Tree as tree;
ghost use Rattle.cajita_tree.specs.View.{expr, module_view};
ghost use Rattle.cajita_rewrite.specs.Rewrite.{program_of};

use caja_num::Whole;
use caja_units::Units;
use cajita_rewrite::rewrite;
use cajita_tree::{CExpr, CStmt, CVarItem, Key, Module, make_body, make_record, make_var};
use es3_tree::{BinOp, Program, boxed, depth, size};
use std::alloc::Global;
use std::test::Fail;

fn number(n: i64) -> Result<CExpr, Fail>
    ensures { IfOk result (λ x. expr x ≡ tree.num n) }
{
    Ok(CExpr::Num(Whole::new(n).ok_or("out of range")?))
}

// `{x: 1}`
fn record(alloc: Global) -> Result<CExpr, Fail>
    ensures { IfOk result (λ x. expr x ≡ tree.record_of (tree.more_fields (codes "x") (tree.num (pos 1)) tree.no_fields)) }
{
    let key = Units::from_ascii(alloc, b"x")?;
    Ok(make_record(Vec::from_array(alloc, [(key, number(1)?)])?))
}

// `o.x + 2`
fn sum(alloc: Global) -> Result<CExpr, Fail>
    ensures { IfOk result (λ x.
        expr x ≡ tree.binary BinOp.Add (tree.read (tree.name (codes "o")) (tree.fixed (codes "x"))) (tree.num (pos 2))) }
{
    let object = CExpr::Name(Units::from_ascii(alloc, b"o")?);
    let key = Key::Fixed(Units::from_ascii(alloc, b"x")?);
    let left = CExpr::Read(boxed(alloc, object)?, key);
    Ok(CExpr::Binary(BinOp::Add, boxed(alloc, left)?, boxed(alloc, number(2)?)?))
}

// `var o = {x: 1}; o.x + 2;`
#[tactic(auto, unfolding(cajita_rewrite::specs::Rewrite::rewritten))]
fn module(alloc: Global) -> Result<Module, Fail>
    ensures measures { IfOk result (λ m.
        (nest target.program (program_of (module_view m)) ≡ 10)
        × (count target.program (program_of (module_view m)) ≡ 26)) }
{
    let item = CVarItem {
        name: Units::from_ascii(alloc, b"o")?,
        value: Some(record(alloc)?),
    };
    let first = make_var(Vec::from_array(alloc, [item])?);
    let list = Vec::from_array(alloc, [first, CStmt::Expr(sum(alloc)?)])?;
    let vars = Vec::from_array(alloc, [Units::from_ascii(alloc, b"o")?])?;
    Ok(Module {
        imports: Vec::new(alloc),
        body: make_body(Vec::new(alloc), vars, list),
    })
}

fn guarded(alloc: Global) -> Result<Program, Fail>
    ensures { IfOk result (λ p. (nest target.program (program p) ≡ 10) × (count target.program (program p) ≡ 26)) }
{
    Ok(rewrite(alloc, &module(alloc)?)?)
}

// `___.loadModule(function(___,IMPORTS___){var moduleResult___;var o=___.initializeMap(["x",1]);
// moduleResult___=___.readPub(o,"x")+2;return moduleResult___;});`
#[test]
fn records_and_members_are_calls_of_the_runtime(rt: HostRuntime) -> Result<(), Fail> {
    let program = guarded(rt.alloc())?;
    assert_eq!(rt; depth(&program), 10);
    assert_eq!(rt; size(&program), 26);
    Ok(())
}

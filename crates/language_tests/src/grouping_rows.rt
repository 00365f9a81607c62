//! Operands and the operators between them, grouped into trees.

ghost use Rattle.std.specs.Prelude.{◌<◌, length};

use es3_ops::{Infix, Ops};
use es3_tree::{BinOp, Expr, UnOp, boxed, make_unary};
use std::alloc::Global;
use std::test::Fail;

/// The sign of an operator.
fn write_sign(out: &mut String, tree: &Expr) -> Result<(), Fail> {
    match tree {
        Expr::Binary(op, _, _) => write!(out, " {op:?} ")?,
        Expr::And(_, _) => out.push_str(" && ")?,
        _ => out.push_str(" || ")?,
    }
    Ok(())
}

/// Writes the tree, with each operand by its place, and parentheses round each operator.
fn write_tree(out: &mut String, tree: &Expr) -> Result<(), Fail> {
    match tree {
        Expr::This(at) => write!(out, "{at}")?,
        Expr::Binary(_, left, right) | Expr::And(left, right) | Expr::Or(left, right) => {
            out.push('(')?;
            write_tree(out, left)?;
            write_sign(out, tree)?;
            write_tree(out, right)?;
            out.push(')')?;
        }
        _ => out.push('?')?,
    }
    Ok(())
}

fn written_out(alloc: Global, tree: Expr) -> Result<String, Fail> {
    let mut out = String::new(alloc);
    write_tree(&mut out, &tree)?;
    Ok(out)
}

/// The tree of the operands 0, 1 and so on with these operators between them, and what `add` says of each operator.
fn grouped(alloc: Global, infixes: &[Infix]) -> Result<String, Fail>
    requires { length infixes.now < 1000 }
{
    let mut ops = Ops::new(alloc, Expr::This(0))?;
    let mut depths = Vec::new(alloc);
    for op in infixes {
        depths.push(ops.add(*op)?)?;
        ops.part(Expr::This(u32::try_from(depths.len())?))?;
    }
    let tree = written_out(alloc, ops.finish()?)?;
    Ok(format!(in alloc; "{tree} {depths:?}")?)
}

const SUB: Infix = Infix::Op(BinOp::Sub);

const MUL: Infix = Infix::Op(BinOp::Mul);

const LESS: Infix = Infix::Op(BinOp::Less);

const EQUAL: Infix = Infix::Op(BinOp::Equal);

/// Operators, and the tree of their operands with the depths.
type Row = (&'static [Infix], &'static str);

static ROWS: [Row; 8] = [
    (&[], "0 []"),
    (&[SUB, MUL], "(0 Sub (1 Mul 2)) [2, 3]"),
    (&[MUL, SUB], "((0 Mul 1) Sub 2) [2, 3]"),
    (&[SUB, SUB], "((0 Sub 1) Sub 2) [2, 3]"),
    (&[LESS, EQUAL], "((0 Less 1) Equal 2) [2, 3]"),
    (&[EQUAL, LESS], "(0 Equal (1 Less 2)) [2, 3]"),
    (&[Infix::And, Infix::Or], "((0 && 1) || 2) [2, 3]"),
    (
        &[Infix::Or, SUB, MUL, Infix::And, LESS],
        "(0 || ((1 Sub (2 Mul 3)) && (4 Less 5))) [2, 3, 4, 5, 5]",
    ),
];

fn holds(alloc: Global, row: &Row) -> Result<bool, Fail> {
    let (infixes, wanted) = *row;
    if infixes.len() >= 1000 {
        return Ok(false);
    }
    Ok(grouped(alloc, infixes)?.as_str() == wanted)
}

#[test]
fn operators_are_grouped_by_their_levels(rt: HostRuntime) -> Result<(), Fail> {
    for row in ROWS.iter() {
        assert!(rt; holds(rt.alloc(), row)?, "{}", row.1);
    }
    Ok(())
}

#[test]
fn an_operand_nests_below_its_operator(rt: HostRuntime) -> Result<(), Fail> {
    let alloc = rt.alloc();
    let null = boxed(alloc, Expr::Null)?;
    let negative = make_unary(UnOp::Minus, null, 0);
    let mut ops = Ops::new(alloc, negative)?;
    assert_eq!(rt; ops.add(Infix::Or)?, 3);
    Ok(())
}

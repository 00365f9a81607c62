//! Trees: their depth and their size, and each maker once where it succeeds.

ghost use Rattle.std.specs.Prelude.{◌≡◌, IfOk};
ghost use Rattle.es3_tree.specs.Tree as tree;
ghost use Rattle.es3_tree.specs.View.{expr, stmt, program};
ghost use Rattle.es3_tree.specs.Measure.{nest, count};

use caja_units::Units;
use es3_tree::{
    BinOp, Case, Expr, First, Func, Loop, Name, Program, Stmt, UnOp, VarItem, boxed, depth,
    make_and, make_array, make_assign, make_binary, make_block, make_break, make_call, make_comma,
    make_cond, make_continue, make_declaration, make_do, make_dot, make_first_var, make_for,
    make_for_in, make_function, make_if, make_index, make_label, make_new, make_object, make_or,
    make_return, make_step, make_switch, make_try, make_unary, make_var, make_while, make_with,
    size,
};
use std::alloc::Global;
use std::test::Fail;

// The name `a`.
fn letter(alloc: Global) -> Result<Name, Fail> {
    Ok(Name {
        text: Units::from_units(alloc, &[97])?,
        at: 0,
    })
}

fn variable(alloc: Global) -> Result<Expr, Fail>
    ensures { IfOk result (λ x. (nest tree.expr (expr x) ≡ 1) × (count tree.expr (expr x) ≡ 1)) }
{
    Ok(Expr::Name(letter(alloc)?))
}

// `a(a)`
fn call(alloc: Global) -> Result<Expr, Fail>
    ensures { IfOk result (λ x. (nest tree.expr (expr x) ≡ 2) × (count tree.expr (expr x) ≡ 3)) }
{
    let arguments = Vec::from_array(alloc, [variable(alloc)?])?;
    Ok(make_call(boxed(alloc, variable(alloc)?)?, arguments))
}

// `for (var a in a);`
fn walk(alloc: Global) -> Result<Stmt, Fail>
    ensures { IfOk result (λ s. (nest tree.stmt (stmt s) ≡ 2) × (count tree.stmt (stmt s) ≡ 3)) }
{
    let target = Loop::Var(letter(alloc)?);
    let body = boxed(alloc, Stmt::Empty)?;
    Ok(make_for_in(target, variable(alloc)?, body))
}

// `try { a(a); } catch (a) {}`
fn attempt(alloc: Global) -> Result<Stmt, Fail>
    ensures { IfOk result (λ s. (nest tree.stmt (stmt s) ≡ 4) × (count tree.stmt (stmt s) ≡ 5)) }
{
    let body = Vec::from_array(alloc, [Stmt::Expr(call(alloc)?)])?;
    Ok(make_try(body, Some((letter(alloc)?, Vec::new(alloc))), None))
}

// `if (a) for (var a in a); else try { a(a); } catch (a) {}`
fn branch(alloc: Global) -> Result<Stmt, Fail>
    ensures { IfOk result (λ s. (nest tree.stmt (stmt s) ≡ 5) × (count tree.stmt (stmt s) ≡ 10)) }
{
    let then = boxed(alloc, walk(alloc)?)?;
    let otherwise = boxed(alloc, attempt(alloc)?)?;
    Ok(make_if(variable(alloc)?, then, Some(otherwise)))
}

// A function whose body is that `if`, declared.
fn declared(alloc: Global) -> Result<Stmt, Fail>
    ensures { IfOk result (λ s. (nest tree.stmt (stmt s) ≡ 7) × (count tree.stmt (stmt s) ≡ 12)) }
{
    let params = Vec::from_array(alloc, [letter(alloc)?])?;
    let name = Some(letter(alloc)?);
    let body = Vec::from_array(alloc, [branch(alloc)?])?;
    Ok(make_declaration(Func {
        name,
        params,
        body,
        at: 0,
    }))
}

fn script(alloc: Global) -> Result<Program, Fail>
    ensures { IfOk result (λ p. (nest tree.program (program p) ≡ 7) × (count tree.program (program p) ≡ 12)) }
{
    let body = Vec::from_array(alloc, [declared(alloc)?])?;
    Ok(Program { body })
}

#[test]
fn a_function_counts_in_its_nesting_and_its_size(rt: HostRuntime) -> Result<(), Fail> {
    let program = script(rt.alloc())?;
    assert_eq!(rt; depth(&program), 7);
    assert_eq!(rt; size(&program), 12);
    Ok(())
}

fn null(alloc: Global) -> Result<Box<Expr>, Fail> {
    Ok(boxed(alloc, Expr::Null)?)
}

// An expression that each maker of an operator had a part in.
fn operators(alloc: Global) -> Result<Expr, Fail> {
    let function = Func {
        name: None,
        params: Vec::new(alloc),
        body: Vec::new(alloc),
        at: 0,
    };
    let x = make_function(boxed(alloc, function)?);
    let x = make_new(boxed(alloc, x)?, Vec::new(alloc));
    let x = make_dot(boxed(alloc, x)?, letter(alloc)?);
    let x = make_index(boxed(alloc, x)?, null(alloc)?);
    let x = make_unary(UnOp::Minus, boxed(alloc, x)?, 0);
    let x = make_step(true, false, boxed(alloc, x)?);
    let x = make_binary(BinOp::Add, boxed(alloc, x)?, null(alloc)?);
    let array = make_array(Vec::new(alloc));
    let x = make_and(boxed(alloc, x)?, boxed(alloc, array)?);
    let object = make_object(Vec::new(alloc));
    Ok(make_or(boxed(alloc, x)?, boxed(alloc, object)?))
}

fn choices(alloc: Global) -> Result<Expr, Fail> {
    let x = make_cond(null(alloc)?, null(alloc)?, null(alloc)?);
    let target = boxed(alloc, variable(alloc)?)?;
    let x = make_assign(None, target, boxed(alloc, x)?);
    Ok(make_comma(boxed(alloc, x)?, null(alloc)?))
}

fn loops(alloc: Global) -> Result<Stmt, Fail> {
    let s = make_while(Expr::Null, boxed(alloc, make_break(None, 0))?);
    let s = make_do(boxed(alloc, s)?, Expr::Null);
    let s = make_for(First::None, None, None, boxed(alloc, s)?);
    let s = make_with(Expr::Null, boxed(alloc, s)?, 0);
    Ok(make_label(letter(alloc)?, boxed(alloc, s)?))
}

fn heads(alloc: Global) -> Result<Stmt, Fail> {
    let item = VarItem {
        name: letter(alloc)?,
        value: None,
    };
    let start = make_first_var(Vec::from_array(alloc, [item])?);
    let body = boxed(alloc, make_continue(None, 0))?;
    Ok(make_for(start, None, None, body))
}

// The cases of a `switch` without a test.
fn cases(alloc: Global, body: Vec<Stmt>) -> Result<Stmt, Fail> {
    let cases = Vec::from_array(alloc, [Case { test: None, body }])?;
    Ok(make_switch(Expr::Null, cases))
}

fn lists(alloc: Global) -> Result<Stmt, Fail> {
    let mut body = Vec::from_array(alloc, [make_return(None, 0)])?;
    body.push(make_var(Vec::new(alloc)))?;
    body.push(make_block(Vec::new(alloc)))?;
    cases(alloc, body)
}

#[test]
fn every_maker_succeeds(rt: HostRuntime) -> Result<(), Fail> {
    let _operators = operators(rt.alloc())?;
    let _choices = choices(rt.alloc())?;
    let _loops = loops(rt.alloc())?;
    let _heads = heads(rt.alloc())?;
    let _lists = lists(rt.alloc())?;
    Ok(())
}

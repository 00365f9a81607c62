//! Operands with operators between them, grouped by the operators' levels (ES3 11.5 to 11.11).

ghost use Rattle.std.specs.Prelude.{◌≡◌, [], IfOk, map, reverse};
ghost use Rattle.std.specs.Coded.{Coded-set, coded_ℕ, coded_list, coded×};
ghost use Rattle.es3_grammar.specs.Levels as levels;
ghost use Rattle.es3_expr.specs.Views.{join_of};
ghost use Rattle.es3_ops.specs.Views.{depth_of, infix_join, item_of, left_of};
ghost use Rattle.es3_ops.specs.Waiting as all;

use crate::measuring::measured;
use crate::waiting::{close, wait_behind};
use caja_units::Memory;
use es3_expr::Join;
use es3_tree::{BinOp, Expr};
use std::alloc::Global;

/// An operator between two operands that is grouped by its level, from the left (ES3 11.5 to 11.11).
#[derive(Debug, Clone, Copy, PartialEq, Eq)]
pub enum Infix {
    Op(BinOp),
    And,
    Or,
}

impl Infix {
    pub(crate) fn join(self) -> Join
        ensures { join_of result ≡ infix_join self }
    {
        match self {
            Infix::Op(op) => Join::Op(op),
            Infix::And => Join::And,
            Infix::Or => Join::Or,
        }
    }

    /// The level of what it makes, 3 to 12.
    pub(crate) fn level(self) -> u32
        ensures { result ≡ levels.own (infix_join self) }
    {
        self.join().own()
    }
}

/// Operands with operators between them (ES3 11.5 to 11.11), as they are read: an operand, and then in turn an operator and the operand
/// behind it. Each operand is a whole part, whatever it is made of. Where memory is wanting for one operator more, the list stays as it was.
#[derive(Drop)]
pub struct Ops {
    alloc: Global,
    // Each operand that has an operator behind it, with that operator; and the operand behind these, where it is read.
    front: Vec<(Expr, Infix)>,
    last: Option<Expr>,
    // The operators whose right parts end with the list, the innermost last, each with how deep its left part nests.
    waiting: Vec<(u32, Infix)>,
    ghost kept: { reverse (map depth_of waiting.items) ≡ all.depths (all.waiting [] (map item_of front.items)) },
}

impl Ops {
    ghost use Rattle.std.specs.Prelude.{◌≡◌, ◌^◌, ◌<◌, ◌++◌, ◌∷◌, [], IfOk, IsNone, IsOkAnd, IsOk, IsSome, OnErr, OnOk, Some, None};
    ghost use Rattle.es3_tree.specs.Tree as t;
    ghost use Rattle.es3_tree.specs.PlacedView.{expr};
    ghost use Rattle.es3_grammar.specs.Levels.{E};
    ghost use Rattle.es3_grammar.specs.Plain.{deep};
    ghost use Rattle.es3_ops.specs.Grouped.{Grouped};
    ghost use Rattle.es3_ops.specs.Listed.{front_of, last_of, front_with};

    /// The first operand alone.
    ///
    /// # Errors
    ///
    /// None: empty lists take no memory.
    pub fn new(alloc: Global, first: Expr) -> Result<Ops, Memory>
        ensures { IsOkAnd result (λ o. (front_of o ≡ []) × (last_of o ≡ Some (expr first))) }
    {
        Ok(Ops {
            alloc,
            front: Vec::new(alloc),
            last: Some(first),
            waiting: Vec::new(alloc),
        })
    }

    /// One operator more, behind the last operand. What comes back is how deep the tree of `finish` would nest if an operand that is a
    /// single node ended the list: the number of expressions, statements and functions on the longest path into it.
    ///
    /// # Errors
    ///
    /// `Memory` where memory is wanting; the operands and operators are then as they were.
    pub fn add(&mut self, op: Infix) -> Result<u32, Memory>
        requires whole { IsSome (last_of self.old) }
        requires fits { (x y : E) → deep t.expr x ≡ 1 → Grouped 3 (front_with self.old op) x y → deep t.expr y < 2 ^ 32 }
        ensures reads { OnOk result ((front_of self.new ≡ front_with self.old op) × (last_of self.new ≡ None)) }
        ensures nests { IfOk result (λ n.
            (x y : E) → deep t.expr x ≡ 1 → Grouped 3 (front_with self.old op) x y → n ≡ deep t.expr y) }
        ensures keeps { OnErr result ((front_of self.new ≡ front_of self.old) × (last_of self.new ≡ last_of self.old)) }
    {
        self.waiting.reserve(1)?;
        self.front.reserve(1)?;
        let last = self.last.take().unwrap();
        let depth = measured(&last);
        self.front.push((last, op)).unwrap();
        Ok(wait_behind(&mut self.waiting, depth, op))
    }

    /// The operand behind the last operator.
    ///
    /// # Errors
    ///
    /// None: it takes no memory.
    pub fn part(&mut self, part: Expr) -> Result<(), Memory>
        requires { IsNone (last_of self.old) }
        ensures succeeds { IsOk result }
        ensures front { front_of self.new ≡ front_of self.old }
        ensures last { last_of self.new ≡ Some (expr part) }
    {
        self.last = Some(part);
        Ok(())
    }

    /// The tree of the list, in which what binds alike is grouped from the left (ES3 11.5 to 11.11).
    ///
    /// # Errors
    ///
    /// `Memory` where memory is wanting.
    pub fn finish(self) -> Result<Expr, Memory>
        requires { IsSome (last_of self) }
        ensures { IfOk result (λ t. (x : E) → last_of self ≡ Some x → Grouped 3 (front_of self) x (expr t)) }
    {
        let Ops {
            alloc,
            front,
            last,
            ..
        } = self;
        let mut waiting = all_waiting(alloc, front)?;
        close(alloc, &mut waiting, Infix::Or.level(), last.unwrap())
    }
}

/// What waits behind operands that each have an operator behind them.
fn all_waiting(alloc: Global, front: Vec<(Expr, Infix)>) -> Result<Vec<(Expr, Infix)>, Memory>
    ensures { IfOk result (λ w. reverse (map left_of w.items) ≡ all.waiting [] (map item_of front.items)) }
{
    let mut waiting = Vec::new(alloc);
    for (part, op) in front {
        let left = close(alloc, &mut waiting, op.level(), part)?;
        waiting.push((left, op))?;
    }
    Ok(waiting)
}

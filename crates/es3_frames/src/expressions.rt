//! Expressions of their parts, with how deep they nest (ES3 11).

ghost use Rattle.std.specs.Prelude.{◌≡◌, IfOk, None, Some, if◌then◌else◌};
ghost use Rattle.es3_tree.specs.Placed as placed;
ghost use Rattle.es3_tree.specs.PlacedView.{expr};
ghost use Rattle.es3_grammar.specs.Levels.{joined as joined_spec, is_target as is_target_spec};
ghost use Rattle.es3_expr.specs.Views.{join_of};
ghost use Rattle.es3_frames.specs.Made.{made_of};

use crate::parts::{Part, above};
use caja_units::Memory;
use es3_expr::{Join, is_target};
use es3_tree::{Expr, UnOp};
use std::alloc::Global;

impl Part {
    /// A `new` without arguments (ES3 11.2.2).
    ///
    /// # Errors
    ///
    /// `Memory` where memory is wanting.
    #[tactic(auto, using(es3_tree::proofs::PlacedRows::placed_new))]
    pub fn constructed(alloc: Global, constructor: Part) -> Result<Part, Memory>
        ensures { IfOk result (λ x. expr x.tree.value ≡ placed.new (expr constructor.tree.value) placed.no_exprs) }
    {
        let depth = above(constructor.depth);
        Part::made(alloc, Expr::New(constructor.tree, Vec::new(alloc)), depth)
    }

    /// The member of an object by a key between brackets (ES3 11.2.1).
    ///
    /// # Errors
    ///
    /// `Memory` where memory is wanting.
    pub fn indexed(alloc: Global, object: Part, key: Part) -> Result<Part, Memory>
        ensures { IfOk result (λ x. expr x.tree.value ≡ placed.index (expr object.tree.value) (expr key.tree.value)) }
    {
        let depth = above(object.depth.max(key.depth));
        Part::made(alloc, Expr::Index(object.tree, key.tree), depth)
    }

    /// A prefix operator that is no `++` or `--`, which begins at the byte `at`, and its operand (ES3 11.4).
    ///
    /// # Errors
    ///
    /// `Memory` where memory is wanting.
    pub fn prefixed(alloc: Global, op: UnOp, operand: Part, at: u32) -> Result<Part, Memory>
        ensures { IfOk result (λ x. expr x.tree.value ≡ placed.unary op (expr operand.tree.value) at) }
    {
        let depth = above(operand.depth);
        Part::made(alloc, Expr::Unary(op, operand.tree, at), depth)
    }

    /// `++` where `up`, else `--`, before its operand where `before`, else behind it; none where the operand can't be assigned to
    /// (ES3 11.3, 11.4.4, 11.4.5).
    ///
    /// # Errors
    ///
    /// `Memory` where memory is wanting.
    pub fn stepped(
        alloc: Global,
        up: bool,
        before: bool,
        operand: Part,
    ) -> Result<Option<Part>, Memory>
        ensures { IfOk result (λ x.
            made_of x
            ≡ (if is_target_spec (expr operand.tree.value) then Some (placed.step up before (expr operand.tree.value)) else None)) }
    {
        if !is_target(&operand.tree) {
            return Ok(None);
        }
        let depth = above(operand.depth);
        let step = Expr::Step(up, before, operand.tree);
        Ok(Some(Part::made(alloc, step, depth)?))
    }

    /// An operator between two parts (ES3 11.5 to 11.11, 11.13, 11.14).
    ///
    /// # Errors
    ///
    /// `Memory` where memory is wanting.
    pub fn joined(alloc: Global, join: Join, left: Part, right: Part) -> Result<Part, Memory>
        ensures { IfOk result (λ x. expr x.tree.value ≡ joined_spec (join_of join) (expr left.tree.value) (expr right.tree.value)) }
    {
        let depth = above(left.depth.max(right.depth));
        Part::made(alloc, join.make(left.tree, right.tree), depth)
    }

    /// A conditional (ES3 11.12).
    ///
    /// # Errors
    ///
    /// `Memory` where memory is wanting.
    pub fn chosen(alloc: Global, test: Part, yes: Part, no: Part) -> Result<Part, Memory>
        ensures { IfOk result (λ x. expr x.tree.value ≡ placed.choice (expr test.tree.value) (expr yes.tree.value) (expr no.tree.value)) }
    {
        let depth = above(test.depth.max(yes.depth).max(no.depth));
        Part::made(alloc, Expr::Cond(test.tree, yes.tree, no.tree), depth)
    }
}

//! Statements of their parts, with how deep they nest (ES3 12).

ghost use Rattle.std.specs.Prelude.{◌≡◌, map, IfOk};
ghost use Rattle.es3_tree.specs.Placed as placed;
ghost use Rattle.es3_tree.specs.PlacedView.{word, word_of, expr, stmt, first, loop_target, of_handler};
ghost use Rattle.es3_grammar.specs.Frames.{stmts_of, items_of, cases_of};
ghost use Rattle.es3_grammar.specs.Machine.{jump as jump_spec, caught_made};
ghost use Rattle.es3_frames.specs.Boxed.{of_maybe_boxed};
ghost use Rattle.es3_frames.specs.Lists.{item_of, clause_of};

use crate::boxes::unboxed;
use crate::parts::{Clauses, Done, Front, Handler, Items, Maybe, Part, Stmts, Target, above};
use caja_units::Memory;
use es3_tree::{
    First, Loop, Name, Stmt, boxed, make_block, make_break, make_continue, make_first_var,
    make_return, make_switch, make_try, make_var,
};
use std::alloc::Global;

impl Handler {
    /// No `catch`.
    pub fn none() -> Handler
        ensures { of_handler result.tree ≡ placed.no_handler }
    {
        Handler {
            tree: None,
            depth: 0,
        }
    }

    /// A `catch` with its name and its block (ES3 12.14).
    #[tactic(auto, using(crate::proofs::Rows::stmts_mapped))]
    pub fn some(name: Name, body: Stmts) -> Handler
        ensures { of_handler result.tree ≡ placed.some_handler (word name) (stmts_of (map stmt body.list.items)) }
    {
        Handler {
            tree: Some((name, body.list)),
            depth: body.depth,
        }
    }
}

impl Front {
    /// The head of a `for` begins with a semicolon (ES3 12.6.3).
    ///
    /// # Errors
    ///
    /// `Memory` where memory is wanting.
    pub fn none(alloc: Global) -> Result<Front, Memory>
        ensures { IfOk result (λ x. first x.tree.value ≡ placed.no_first) }
    {
        let tree = boxed(alloc, First::None)?;
        Ok(Front { tree, depth: 0 })
    }

    /// The head of a `for` begins with variables (ES3 12.6.3).
    ///
    /// # Errors
    ///
    /// `Memory` where memory is wanting.
    #[tactic(auto, using(crate::proofs::Rows::items_mapped))]
    pub fn variables(alloc: Global, items: Items) -> Result<Front, Memory>
        ensures { IfOk result (λ x. first x.tree.value ≡ placed.first_var (items_of (map item_of items.list.items))) }
    {
        let depth = items.depth;
        let tree = boxed(alloc, make_first_var(items.list))?;
        Ok(Front { tree, depth })
    }

    /// The head of a `for` begins with an expression (ES3 12.6.3).
    ///
    /// # Errors
    ///
    /// `Memory` where memory is wanting.
    pub fn expression(alloc: Global, part: Part) -> Result<Front, Memory>
        ensures { IfOk result (λ x. first x.tree.value ≡ placed.first_expr (expr part.tree.value)) }
    {
        let depth = part.depth;
        let tree = boxed(alloc, First::Expr(Box::into_inner(part.tree)))?;
        Ok(Front { tree, depth })
    }
}

impl Target {
    /// The head of a `for` .. `in` declares this variable (ES3 12.6.4).
    ///
    /// # Errors
    ///
    /// `Memory` where memory is wanting.
    pub fn variable(alloc: Global, name: Name) -> Result<Target, Memory>
        ensures { IfOk result (λ x. loop_target x.tree.value ≡ placed.loop_var (word name)) }
    {
        let tree = boxed(alloc, Loop::Var(name))?;
        Ok(Target { tree, depth: 0 })
    }

    /// The head of a `for` .. `in` writes to what this expression names (ES3 12.6.4).
    ///
    /// # Errors
    ///
    /// `Memory` where memory is wanting.
    pub fn expression(alloc: Global, part: Part) -> Result<Target, Memory>
        ensures { IfOk result (λ x. loop_target x.tree.value ≡ placed.loop_expr (expr part.tree.value)) }
    {
        let depth = part.depth;
        let tree = boxed(alloc, Loop::Target(Box::into_inner(part.tree)))?;
        Ok(Target { tree, depth })
    }
}

impl Done {
    /// The empty statement (ES3 12.3).
    ///
    /// # Errors
    ///
    /// `Memory` where memory is wanting.
    pub fn empty(alloc: Global) -> Result<Done, Memory>
        ensures { IfOk result (λ s. stmt s.tree.value ≡ placed.empty) }
    {
        Done::made(alloc, Stmt::Empty, 1)
    }

    /// A block (ES3 12.1).
    ///
    /// # Errors
    ///
    /// `Memory` where memory is wanting.
    #[tactic(auto, using(crate::proofs::Rows::stmts_mapped))]
    pub fn block(alloc: Global, body: Stmts) -> Result<Done, Memory>
        ensures { IfOk result (λ s. stmt s.tree.value ≡ placed.block (stmts_of (map stmt body.list.items))) }
    {
        let depth = above(body.depth);
        Done::made(alloc, make_block(body.list), depth)
    }

    /// A `var` (ES3 12.2).
    ///
    /// # Errors
    ///
    /// `Memory` where memory is wanting.
    #[tactic(auto, using(crate::proofs::Rows::items_mapped))]
    pub fn variables(alloc: Global, items: Items) -> Result<Done, Memory>
        ensures { IfOk result (λ s. stmt s.tree.value ≡ placed.var (items_of (map item_of items.list.items))) }
    {
        let depth = above(items.depth);
        Done::made(alloc, make_var(items.list), depth)
    }

    /// An `if` with no `else` (ES3 12.5).
    ///
    /// # Errors
    ///
    /// `Memory` where memory is wanting.
    #[tactic(auto, using(es3_tree::proofs::PlacedRows::placed_if))]
    pub fn branch(alloc: Global, test: Part, then: Done) -> Result<Done, Memory>
        ensures { IfOk result (λ s. stmt s.tree.value ≡ placed.branch (expr test.tree.value) (stmt then.tree.value) placed.no_stmt) }
    {
        let depth = above(test.depth.max(then.depth));
        let test = Box::into_inner(test.tree);
        Done::made(alloc, Stmt::If(test, then.tree, None), depth)
    }

    /// An `if` with its `else` (ES3 12.5).
    ///
    /// # Errors
    ///
    /// `Memory` where memory is wanting.
    #[tactic(auto, using(es3_tree::proofs::PlacedRows::placed_if))]
    pub fn either(alloc: Global, test: Part, then: Done, otherwise: Done) -> Result<Done, Memory>
        ensures { IfOk result (λ s.
            stmt s.tree.value ≡ placed.branch (expr test.tree.value) (stmt then.tree.value) (placed.some_stmt (stmt otherwise.tree.value))) }
    {
        let depth = above(test.depth.max(then.depth).max(otherwise.depth));
        let test = Box::into_inner(test.tree);
        let tree = Stmt::If(test, then.tree, Some(otherwise.tree));
        Done::made(alloc, tree, depth)
    }

    /// A `while` (ES3 12.6.2).
    ///
    /// # Errors
    ///
    /// `Memory` where memory is wanting.
    pub fn while_loop(alloc: Global, test: Part, body: Done) -> Result<Done, Memory>
        ensures { IfOk result (λ s. stmt s.tree.value ≡ placed.while_loop (expr test.tree.value) (stmt body.tree.value)) }
    {
        let depth = above(test.depth.max(body.depth));
        let test = Box::into_inner(test.tree);
        Done::made(alloc, Stmt::While(test, body.tree), depth)
    }

    /// A `for` whose head has three parts (ES3 12.6.3).
    ///
    /// # Errors
    ///
    /// `Memory` where memory is wanting.
    #[tactic(auto, using(es3_tree::proofs::PlacedRows::placed_for))]
    pub fn for_loop(
        alloc: Global,
        start: Front,
        test: Maybe,
        update: Maybe,
        body: Done,
    ) -> Result<Done, Memory>
        ensures { IfOk result (λ s.
            stmt s.tree.value
            ≡ placed.for_loop (first start.tree.value) (of_maybe_boxed test.tree) (of_maybe_boxed update.tree) (stmt body.tree.value)) }
    {
        let depth = above(
            start
                .depth
                .max(test.depth)
                .max(update.depth)
                .max(body.depth),
        );
        let start = Box::into_inner(start.tree);
        let (test, update) = (unboxed(test.tree), unboxed(update.tree));
        Done::made(alloc, Stmt::For(start, test, update, body.tree), depth)
    }

    /// A `for` .. `in` (ES3 12.6.4).
    ///
    /// # Errors
    ///
    /// `Memory` where memory is wanting.
    pub fn for_in(alloc: Global, target: Target, object: Part, body: Done) -> Result<Done, Memory>
        ensures { IfOk result (λ s.
            stmt s.tree.value ≡ placed.for_in (loop_target target.tree.value) (expr object.tree.value) (stmt body.tree.value)) }
    {
        let depth = above(target.depth.max(object.depth).max(body.depth));
        let target = Box::into_inner(target.tree);
        let object = Box::into_inner(object.tree);
        Done::made(alloc, Stmt::ForIn(target, object, body.tree), depth)
    }

    /// A `break`, where `breaks`, else a `continue`, that begins at the byte `at`, with its label if it has one (ES3 12.7, 12.8).
    ///
    /// # Errors
    ///
    /// `Memory` where memory is wanting.
    pub fn jump(alloc: Global, breaks: bool, label: Option<Name>, at: u32) -> Result<Done, Memory>
        ensures { IfOk result (λ s. stmt s.tree.value ≡ jump_spec breaks (word_of label) at) }
    {
        if breaks {
            Done::made(alloc, make_break(label, at), 1)
        } else {
            Done::made(alloc, make_continue(label, at), 1)
        }
    }

    /// A `return` that begins at the byte `at`, with its value if it has one (ES3 12.9).
    ///
    /// # Errors
    ///
    /// `Memory` where memory is wanting.
    pub fn returned(alloc: Global, value: Maybe, at: u32) -> Result<Done, Memory>
        ensures { IfOk result (λ s. stmt s.tree.value ≡ placed.return (of_maybe_boxed value.tree) at) }
    {
        let depth = above(value.depth);
        Done::made(alloc, make_return(unboxed(value.tree), at), depth)
    }

    /// A `with` that begins at the byte `at` (ES3 12.10).
    ///
    /// # Errors
    ///
    /// `Memory` where memory is wanting.
    pub fn with_object(alloc: Global, object: Part, body: Done, at: u32) -> Result<Done, Memory>
        ensures { IfOk result (λ s. stmt s.tree.value ≡ placed.with_object (expr object.tree.value) (stmt body.tree.value) at) }
    {
        let depth = above(object.depth.max(body.depth));
        let object = Box::into_inner(object.tree);
        Done::made(alloc, Stmt::With(object, body.tree, at), depth)
    }

    /// A `switch` (ES3 12.11).
    ///
    /// # Errors
    ///
    /// `Memory` where memory is wanting.
    #[tactic(auto, using(crate::proofs::Rows::cases_mapped))]
    pub fn switch(alloc: Global, value: Part, clauses: Clauses) -> Result<Done, Memory>
        ensures { IfOk result (λ s.
            stmt s.tree.value ≡ placed.switch (expr value.tree.value) (cases_of (map clause_of clauses.list.items))) }
    {
        let depth = above(value.depth.max(clauses.depth));
        let value = Box::into_inner(value.tree);
        Done::made(alloc, make_switch(value, clauses.list), depth)
    }

    /// A statement with a label before it (ES3 12.12).
    ///
    /// # Errors
    ///
    /// `Memory` where memory is wanting.
    pub fn label(alloc: Global, name: Name, body: Done) -> Result<Done, Memory>
        ensures { IfOk result (λ s. stmt s.tree.value ≡ placed.label (word name) (stmt body.tree.value)) }
    {
        let depth = above(body.depth);
        Done::made(alloc, Stmt::Label(name, body.tree), depth)
    }

    /// A `try` with its `catch` and no `finally` (ES3 12.14).
    ///
    /// # Errors
    ///
    /// `Memory` where memory is wanting.
    #[tactic(auto, using(crate::proofs::Rows::stmts_mapped))]
    pub fn caught(alloc: Global, body: Stmts, name: Name, handler: Stmts) -> Result<Done, Memory>
        ensures { IfOk result (λ s.
            stmt s.tree.value ≡ caught_made (map stmt body.list.items) (word name) (map stmt handler.list.items)) }
    {
        let depth = above(body.depth.max(handler.depth));
        let tree = make_try(body.list, Some((name, handler.list)), None);
        Done::made(alloc, tree, depth)
    }

    /// A `try` with its `finally`, and its `catch` if it has one (ES3 12.14).
    ///
    /// # Errors
    ///
    /// `Memory` where memory is wanting.
    #[tactic(auto, using(crate::proofs::Rows::stmts_mapped))]
    pub fn finished(
        alloc: Global,
        body: Stmts,
        handler: Handler,
        last: Stmts,
    ) -> Result<Done, Memory>
        ensures { IfOk result (λ s.
            stmt s.tree.value
            ≡ placed.try (stmts_of (map stmt body.list.items)) (of_handler handler.tree) (placed.some_block (stmts_of (map stmt last.list.items)))) }
    {
        let depth = above(body.depth.max(handler.depth).max(last.depth));
        let tree = make_try(body.list, handler.tree, Some(last.list));
        Done::made(alloc, tree, depth)
    }

    /// An expression as a statement (ES3 12.4).
    ///
    /// # Errors
    ///
    /// `Memory` where memory is wanting.
    pub fn expression(alloc: Global, value: Part) -> Result<Done, Memory>
        ensures { IfOk result (λ s. stmt s.tree.value ≡ placed.expression (expr value.tree.value)) }
    {
        let depth = above(value.depth);
        Done::made(alloc, Stmt::Expr(Box::into_inner(value.tree)), depth)
    }

    /// A `do` .. `while` (ES3 12.6.1).
    ///
    /// # Errors
    ///
    /// `Memory` where memory is wanting.
    pub fn do_loop(alloc: Global, body: Done, test: Part) -> Result<Done, Memory>
        ensures { IfOk result (λ s. stmt s.tree.value ≡ placed.do_loop (stmt body.tree.value) (expr test.tree.value)) }
    {
        let depth = above(body.depth.max(test.depth));
        let test = Box::into_inner(test.tree);
        Done::made(alloc, Stmt::Do(body.tree, test), depth)
    }

    /// A `throw` (ES3 12.13).
    ///
    /// # Errors
    ///
    /// `Memory` where memory is wanting.
    pub fn thrown(alloc: Global, value: Part) -> Result<Done, Memory>
        ensures { IfOk result (λ s. stmt s.tree.value ≡ placed.throw (expr value.tree.value)) }
    {
        let depth = above(value.depth);
        Done::made(alloc, Stmt::Throw(Box::into_inner(value.tree)), depth)
    }
}

//! What is read of a program so far: trees with how deep they nest, and lists of them. A depth is at most 2^32 - 1.

ghost use Rattle.std.specs.Prelude.{◌≡◌, ◌+◌, ◌++◌, ◌∷◌, [], map, IfOk, None};
ghost use Rattle.es3_tree.specs.Tree as t;
ghost use Rattle.es3_tree.specs.Placed as placed;
ghost use Rattle.es3_tree.specs.PlacedView.{word, expr, stmt, first, loop_target, of_exprs, of_fields, of_stmts, of_items, of_cases, of_handler};
ghost use Rattle.es3_grammar.specs.Plain.{deep};
ghost use Rattle.es3_grammar.specs.Sums.{capped};
ghost use Rattle.es3_frames.specs.Boxed.{of_maybe_boxed};
ghost use Rattle.es3_frames.specs.Lists.{field_of, item_of, clause_of};
ghost use Rattle.es3_grammar.specs.Grammar.{has_default as default_spec};

use crate::boxes::unboxed;
use caja_units::Memory;
use es3_tree::{Case, Expr, First, Loop, Name, Stmt, VarItem, boxed};
use std::alloc::Global;

/// An expression.
#[derive(Drop)]
pub struct Part {
    pub tree: Box<Expr>,
    pub depth: u32,
    ghost right: { depth ≡ capped (deep t.expr (expr tree.value)) },
}

/// A statement.
#[derive(Drop)]
pub struct Done {
    pub tree: Box<Stmt>,
    pub depth: u32,
    ghost right: { depth ≡ capped (deep t.stmt (stmt tree.value)) },
}

/// An expression that may be absent.
#[derive(Drop)]
pub struct Maybe {
    pub tree: Option<Box<Expr>>,
    pub depth: u32,
    ghost right: { depth ≡ capped (deep t.maybe_expr (of_maybe_boxed tree)) },
}

/// The first part of the head of a `for` (ES3 12.6.3).
#[derive(Drop)]
pub struct Front {
    pub tree: Box<First>,
    pub depth: u32,
    ghost right: { depth ≡ capped (deep t.first (first tree.value)) },
}

/// What the head of a `for` .. `in` writes to (ES3 12.6.4).
#[derive(Drop)]
pub struct Target {
    pub tree: Box<Loop>,
    pub depth: u32,
    ghost right: { depth ≡ capped (deep t.loop_target (loop_target tree.value)) },
}

/// A `catch`, if there is one (ES3 12.14).
#[derive(Drop)]
pub struct Handler {
    pub tree: Option<(Name, Vec<Stmt>)>,
    pub depth: u32,
    ghost right: { depth ≡ capped (deep t.handler (of_handler tree)) },
}

/// Items of an array, or arguments.
#[derive(Drop)]
pub struct Exprs {
    pub list: Vec<Expr>,
    pub depth: u32,
    ghost right: { depth ≡ capped (deep t.exprs (of_exprs list.items)) },
}

/// Properties of an object literal (ES3 11.1.5).
#[derive(Drop)]
pub struct Fields {
    pub list: Vec<(Name, Expr)>,
    pub depth: u32,
    ghost right: { depth ≡ capped (deep t.fields (of_fields list.items)) },
}

/// Statements.
#[derive(Drop)]
pub struct Stmts {
    pub list: Vec<Stmt>,
    pub depth: u32,
    ghost right: { depth ≡ capped (deep t.stmts (of_stmts list.items)) },
}

/// Variables of a `var` (ES3 12.2).
#[derive(Drop)]
pub struct Items {
    pub list: Vec<VarItem>,
    pub depth: u32,
    ghost right: { depth ≡ capped (deep t.items (of_items list.items)) },
}

/// Clauses of a `switch` (ES3 12.11), and whether one of them is `default`.
#[derive(Drop)]
pub struct Clauses {
    pub list: Vec<Case>,
    pub has_default: bool,
    pub depth: u32,
    ghost right: { depth ≡ capped (deep t.cases (of_cases list.items)) },
    ghost known: { has_default ≡ default_spec (of_cases list.items) },
}

/// One level above a depth.
pub fn above(depth: u32) -> u32
    ensures { result ≡ capped (depth + 1) }
{
    depth.saturating_add(1)
}

impl Part {
    /// An expression that is so deep.
    ///
    /// # Errors
    ///
    /// `Memory` where memory is wanting.
    pub fn made(alloc: Global, tree: Expr, depth: u32) -> Result<Part, Memory>
        requires { depth ≡ capped (deep t.expr (expr tree)) }
        ensures { IfOk result (λ x. x.tree.value ≡ tree) }
    {
        let tree = boxed(alloc, tree)?;
        Ok(Part { tree, depth })
    }

    /// An expression without parts (ES3 11.1).
    ///
    /// # Errors
    ///
    /// `Memory` where memory is wanting.
    pub fn leaf(alloc: Global, tree: Expr) -> Result<Part, Memory>
        requires { deep t.expr (expr tree) ≡ 1 }
        ensures { IfOk result (λ x. x.tree.value ≡ tree) }
    {
        Part::made(alloc, tree, 1)
    }
}

impl Done {
    /// A statement that is so deep.
    ///
    /// # Errors
    ///
    /// `Memory` where memory is wanting.
    pub fn made(alloc: Global, tree: Stmt, depth: u32) -> Result<Done, Memory>
        requires { depth ≡ capped (deep t.stmt (stmt tree)) }
        ensures { IfOk result (λ s. s.tree.value ≡ tree) }
    {
        let tree = boxed(alloc, tree)?;
        Ok(Done { tree, depth })
    }
}

impl Maybe {
    /// No expression.
    pub fn none() -> Maybe
        ensures { result.tree ≡ None }
    {
        Maybe {
            tree: None,
            depth: 0,
        }
    }

    /// This expression.
    pub fn some(part: Part) -> Maybe
        ensures { of_maybe_boxed result.tree ≡ placed.some_expr (expr part.tree.value) }
    {
        Maybe {
            tree: Some(part.tree),
            depth: part.depth,
        }
    }
}

impl Exprs {
    /// No items of an array or arguments yet.
    pub fn new(alloc: Global) -> Exprs
        ensures { result.list.items ≡ [] }
    {
        Exprs {
            list: Vec::new(alloc),
            depth: 0,
        }
    }

    /// With one more at the end.
    ///
    /// # Errors
    ///
    /// `Memory` where memory is wanting.
    pub fn with(self, part: Part) -> Result<Exprs, Memory>
        ensures { IfOk result (λ xs. map expr xs.list.items ≡ map expr self.list.items ++ expr part.tree.value ∷ []) }
    {
        let Exprs { mut list, depth } = self;
        list.push(Box::into_inner(part.tree))?;
        Ok(Exprs {
            list,
            depth: depth.max(part.depth),
        })
    }
}

impl Stmts {
    /// No statements yet.
    pub fn new(alloc: Global) -> Stmts
        ensures { result.list.items ≡ [] }
    {
        Stmts {
            list: Vec::new(alloc),
            depth: 0,
        }
    }

    /// With one more at the end.
    ///
    /// # Errors
    ///
    /// `Memory` where memory is wanting.
    pub fn with(self, done: Done) -> Result<Stmts, Memory>
        ensures { IfOk result (λ xs. map stmt xs.list.items ≡ map stmt self.list.items ++ stmt done.tree.value ∷ []) }
    {
        let Stmts { mut list, depth } = self;
        list.push(Box::into_inner(done.tree))?;
        Ok(Stmts {
            list,
            depth: depth.max(done.depth),
        })
    }
}

impl Fields {
    /// No properties yet.
    pub fn new(alloc: Global) -> Fields
        ensures { result.list.items ≡ [] }
    {
        Fields {
            list: Vec::new(alloc),
            depth: 0,
        }
    }

    /// With one more at the end.
    ///
    /// # Errors
    ///
    /// `Memory` where memory is wanting.
    pub fn with(self, key: Name, value: Part) -> Result<Fields, Memory>
        ensures { IfOk result (λ xs.
            map field_of xs.list.items ≡ map field_of self.list.items ++ (word key, expr value.tree.value) ∷ []) }
    {
        let Fields { mut list, depth } = self;
        list.push((key, Box::into_inner(value.tree)))?;
        Ok(Fields {
            list,
            depth: depth.max(value.depth),
        })
    }
}

impl Items {
    /// No variables yet.
    pub fn new(alloc: Global) -> Items
        ensures { result.list.items ≡ [] }
    {
        Items {
            list: Vec::new(alloc),
            depth: 0,
        }
    }

    /// With one more at the end.
    ///
    /// # Errors
    ///
    /// `Memory` where memory is wanting.
    pub fn with(self, name: Name, value: Maybe) -> Result<Items, Memory>
        ensures { IfOk result (λ xs.
            map item_of xs.list.items ≡ map item_of self.list.items ++ (word name, of_maybe_boxed value.tree) ∷ []) }
    {
        let Items { mut list, depth } = self;
        list.push(VarItem {
            name,
            value: unboxed(value.tree),
        })?;
        Ok(Items {
            list,
            depth: depth.max(value.depth),
        })
    }
}

impl Clauses {
    /// No clauses yet.
    pub fn new(alloc: Global) -> Clauses
        ensures { result.list.items ≡ [] }
    {
        Clauses {
            list: Vec::new(alloc),
            has_default: false,
            depth: 0,
        }
    }

    /// With one more at the end: a `case` with its test, or `default` with none.
    ///
    /// # Errors
    ///
    /// `Memory` where memory is wanting.
    pub fn with(self, test: Maybe, body: Stmts) -> Result<Clauses, Memory>
        ensures { IfOk result (λ xs.
            map clause_of xs.list.items
            ≡ map clause_of self.list.items ++ (of_maybe_boxed test.tree, map stmt body.list.items) ∷ []) }
    {
        let Clauses {
            mut list,
            has_default,
            depth,
        } = self;
        let tree = unboxed(test.tree);
        let is_default = tree.is_none();
        list.push(Case {
            test: tree,
            body: body.list,
        })?;
        Ok(Clauses {
            list,
            has_default: has_default || is_default,
            depth: depth.max(test.depth).max(body.depth),
        })
    }
}

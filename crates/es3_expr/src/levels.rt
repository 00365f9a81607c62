//! Operators between two parts, their levels, and what they make.

ghost use Rattle.std.specs.Prelude.{◌≡◌};
ghost use Rattle.es3_tree.specs.PlacedView as view;
ghost use Rattle.es3_grammar.specs.Levels as levels;
ghost use Rattle.es3_expr.specs.Views.{join_of};

use es3_tree::{BinOp, Expr, make_and, make_assign, make_binary, make_comma, make_or};

/// An operator between two parts (ES3 11.5 to 11.11, 11.13, 11.14). An assignment has the operator of `+=` and its kin, or none for `=`.
#[derive(Debug, Clone, Copy, PartialEq, Eq)]
pub enum Join {
    Op(BinOp),
    And,
    Or,
    Assign(Option<BinOp>),
    Comma,
}

/// Whether an assignment, `++`, `--` or `for` .. `in` may write to the expression: a name or a member (ES3 8.7, 11.13).
pub fn is_target(x: &Expr) -> bool
    ensures { result ≡ levels.is_target (view.expr x.now) }
{
    matches!(x, Expr::Name(_) | Expr::Dot(_, _) | Expr::Index(_, _))
}

fn level(op: BinOp) -> u32
    ensures { result ≡ levels.level op }
{
    match op {
        BinOp::Mul | BinOp::Div | BinOp::Rem => 12,
        BinOp::Add | BinOp::Sub => 11,
        BinOp::Shl | BinOp::Shr | BinOp::Ushr => 10,
        BinOp::Less
        | BinOp::Greater
        | BinOp::LessEq
        | BinOp::GreaterEq
        | BinOp::InstanceOf
        | BinOp::InObject => 9,
        BinOp::Equal | BinOp::NotEqual | BinOp::Same | BinOp::NotSame => 8,
        BinOp::BitAnd => 7,
        BinOp::BitXor => 6,
        BinOp::BitOr => 5,
    }
}

impl Join {
    /// The level of what it makes, 0 to 12.
    pub fn own(self) -> u32
        ensures { result ≡ levels.own (join_of self) }
    {
        match self {
            Join::Op(op) => level(op),
            Join::And => 4,
            Join::Or => 3,
            Join::Assign(_) => 1,
            Join::Comma => 0,
        }
    }

    /// The level that it asks of its left part, 0 to 15.
    pub fn left(self) -> u32
        ensures { result ≡ levels.left (join_of self) }
    {
        match self {
            Join::Op(op) => level(op),
            Join::And => 4,
            Join::Or => 3,
            Join::Assign(_) => 15,
            Join::Comma => 0,
        }
    }

    /// The level that it asks of its right part, 1 to 13: what binds alike is grouped from the left, assignments from the right.
    pub fn right(self) -> u32
        ensures { result ≡ levels.right (join_of self) }
    {
        match self {
            Join::Op(op) => level(op) + 1,
            Join::And => 5,
            Join::Or => 4,
            Join::Assign(_) | Join::Comma => 1,
        }
    }

    /// Whether it may stand behind the part: an assignment behind a target alone.
    pub fn takes(self, left: &Expr) -> bool
        ensures { result ≡ levels.takes_left (join_of self) (view.expr left.now) }
    {
        match self {
            Join::Assign(_) => is_target(left),
            Join::Op(_) | Join::And | Join::Or | Join::Comma => true,
        }
    }

    /// The expression of it and its two parts.
    pub fn make(self, left: Box<Expr>, right: Box<Expr>) -> Expr
        ensures { view.expr result ≡ levels.joined (join_of self) (view.expr left.value) (view.expr right.value) }
    {
        match self {
            Join::Op(op) => make_binary(op, left, right),
            Join::And => make_and(left, right),
            Join::Or => make_or(left, right),
            Join::Assign(op) => make_assign(op, left, right),
            Join::Comma => make_comma(left, right),
        }
    }
}

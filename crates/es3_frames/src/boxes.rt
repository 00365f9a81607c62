//! Trees in boxes of their own: what is open holds many trees, and a box is small whatever it holds.

ghost use Rattle.std.specs.Prelude.{◌≡◌};
ghost use Rattle.es3_tree.specs.PlacedView.{of_maybe_expr};
ghost use Rattle.es3_frames.specs.Boxed.{of_maybe_boxed};

use es3_tree::Expr;

/// The expression out of its box, if there is one.
pub(crate) fn unboxed(tree: Option<Box<Expr>>) -> Option<Expr>
    ensures { of_maybe_expr result ≡ of_maybe_boxed tree }
{
    match tree {
        Some(held) => Some(Box::into_inner(held)),
        None => None,
    }
}

//! Resolved parts in boxes of their own: a box is small whatever it holds, and forms take and give many.

ghost use Rattle.std.specs.Prelude.{◌≡◌};
ghost use Rattle.cajita_tree.specs.View.{of_maybe_expr};
ghost use Rattle.cajita_forms.specs.Boxed as held;

use cajita_tree::CExpr;

/// The expression out of its box, if there is one.
pub fn unboxed(expression: Option<Box<CExpr>>) -> Option<CExpr>
    ensures { of_maybe_expr result ≡ held.maybe_expr expression }
{
    match expression {
        Some(expression) => Some(Box::into_inner(expression)),
        None => None,
    }
}

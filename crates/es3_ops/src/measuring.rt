//! How deep an expression nests.

ghost use Rattle.std.specs.Prelude.{◌≡◌, ◌^◌, ◌<◌};
ghost use Rattle.es3_tree.specs.Tree as t;
ghost use Rattle.es3_tree.specs.PlacedView.{expr};
ghost use Rattle.es3_grammar.specs.Plain.{deep};

use es3_tree::{Expr, depth_of_expr};

/// How deep an expression nests, a node alone being 1.
#[tactic(auto, using(es3_grammar::proofs::Unplaced::expr_plain))]
pub fn measured(part: &Expr) -> u32
    requires { deep t.expr (expr part.now) < 2 ^ 32 }
    ensures { result ≡ deep t.expr (expr part.now) }
{
    depth_of_expr(part)
}

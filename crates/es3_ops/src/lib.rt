//! Operators of ECMAScript 3 expressions with their levels (ES3 11), what a token is where an operand is wanted or was read, and lists of
//! operands that are grouped into a tree by the operators between them.
#![tactic(auto)]

ghost use Rattle.std.specs.Prelude.{◌≡◌, ℕ, ◌+◌, ◌≤◌, All, sum_by};
ghost use Rattle.es3_tree.specs.Tree as t;
ghost use Rattle.es3_grammar.specs.Levels.{E, own};
ghost use Rattle.es3_grammar.specs.Plain.{deep};
ghost use Rattle.es3_ops.specs.Grouped.{Front, Grouped};

mod grouping;
mod measuring;
mod waiting;

pub use grouping::{Infix, Ops};

/// No operands and operators are grouped into two trees, and where each operator has the level 3 or above, as an `Infix` has, they are
/// grouped into one (ES3 11.5 to 11.11).
#[tactic(auto, using(crate::proofs::Unique::one_tree, crate::proofs::Exists::some_tree))]
pub fn grouping_is_one()
    ensures one { (n : ℕ) (front : Front) (x a b : E) → Grouped n front x a → Grouped n front x b → a ≡ b }
    ensures some { (front : Front) (x : E) → All (λ p. 3 ≤ own p.1) front → (a : E) × Grouped 3 front x a }
{}

/// A tree nests no deeper than all its operands together, with one more for each operator.
#[tactic(auto, using(crate::proofs::Nested::within_parts))]
pub fn grouping_nests_within_its_parts()
    ensures { (n : ℕ) (front : Front) (x a : E) → Grouped n front x a
        → deep t.expr a ≤ sum_by (λ p. deep t.expr p.0 + 1) front + deep t.expr x }
{}

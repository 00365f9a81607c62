//! The text of the program that stands for an accepted module is read back as that program.
//!
//! There is no code. The function here has no body: its contract is the law.
#![tactic(auto)]

ghost use Rattle.std.specs.Prelude.{◌≡◌, ◌<◌, ℕ, List, Some};
ghost use Rattle.es3_tree.specs.Tree as t;
ghost use Rattle.es3_tree.specs.Placed as placed;
ghost use Rattle.es3_tree.specs.Placed.{Placed};
ghost use Rattle.es3_grammar.specs.Spots.{Spot};
ghost use Rattle.es3_grammar.specs.Grammar.{free, Spells};
ghost use Rattle.es3_printed.specs.Back.{AreTokens, IsSpelled};
ghost use Rattle.cajita_tree.specs.Tree as c;
ghost use Rattle.scope_rules.specs.Resolve.{module_of};
ghost use Rattle.cajita_rewrite.specs.Rewrite.{program_of};
ghost use Rattle.source_sizes.specs.Sizes.{temps_everywhere};

/// The program that stands for a module which tokens spell is itself one that tokens spell, so that its printed text is read back as it.
/// Temporaries have names of their own where the module and its functions have fewer than 2^64 of them together, as in every source.
#[tactic(auto, using(crate::proofs::Rewritten::rewritten_is_spelled))]
pub fn a_rewritten_module_is_spelled()
    ensures { (grants : List (List ℕ)) (body : Placed t.stmts) (u : List Spot) (m : c.Tree c.program)
        → Spells t.program free 0 (placed.script body) u → AreTokens u → module_of grants body ≡ Some m
        → temps_everywhere m < 18446744073709551616 → IsSpelled (program_of m) }
{}

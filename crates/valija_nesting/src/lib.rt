//! How deep the program nests that stands for a lowered program of Valija, the prelude in front: little where the program does.
//!
//! There is no code. The function here has no body: its contract is the law.
#![tactic(auto)]

ghost use Rattle.std.specs.Prelude.{◌≡◌, ℕ, ◌+◌, ◌*◌, ◌≤◌, max, List, Some};
ghost use Rattle.es3_tree.specs.Tree as t;
ghost use Rattle.es3_tree.specs.Placed.{Placed};
ghost use Rattle.es3_tree.specs.Measure.{nest};
ghost use Rattle.es3_grammar.specs.Plain.{plain};
ghost use Rattle.cajita_tree.specs.Tree as c;
ghost use Rattle.cajita_rewrite.specs.Rewrite.{program_of};
ghost use Rattle.scope_rules.specs.Resolve.{module_of};
ghost use Rattle.valija_lower.specs.Module.{lowered_source};
ghost use Rattle.valija_prelude.specs.Read.{prelude_statements};

/// What runs for a program of Valija nests at most six times as deep as the program, and twelve more, or at most 520 deep, as the prelude in front of it may: so where the
/// program nests at most 128 deep, it nests at most 1,024 deep.
#[tactic(auto, using(crate::proofs::Module::lowered_within, crate::proofs::Module::lowered_nests))]
pub fn a_lowered_program_nests_little()
    ensures within { (grants : List (List ℕ)) (body : Placed t.stmts) (m : c.Tree c.program) → module_of grants (lowered_source prelude_statements grants body) ≡ Some m
        → nest t.program (program_of m) ≤ max 520 (6 * nest t.stmts (plain t.stmts body) + 12) }
    ensures bounded { (grants : List (List ℕ)) (body : Placed t.stmts) (m : c.Tree c.program) → module_of grants (lowered_source prelude_statements grants body) ≡ Some m
        → nest t.stmts (plain t.stmts body) ≤ 128 → nest t.program (program_of m) ≤ 1024 }
{}

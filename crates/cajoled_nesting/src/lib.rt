//! How deep the program nests that stands for a module of Cajita.
//!
//! specs/Nesting.antt has it as a table, a line for each form. There is no code. The functions here have no bodies: their contracts are the laws.
#![tactic(auto)]

ghost use Rattle.std.specs.Prelude.{◌≡◌, ℕ, ◌+◌, ◌*◌, ◌≤◌, Bool, List, Some};
ghost use Rattle.es3_tree.specs.Tree as t;
ghost use Rattle.es3_tree.specs.Placed.{Placed};
ghost use Rattle.es3_tree.specs.Measure.{nest};
ghost use Rattle.es3_grammar.specs.Plain.{plain};
ghost use Rattle.cajita_tree.specs.Tree as c;
ghost use Rattle.cajita_rewrite.specs.Rewrite.{of_sort, rewritten, program_of};
ghost use Rattle.scope_rules.specs.Resolve.{module_of};
ghost use Rattle.cajoled_nesting.specs.Nesting.{deep, depth};

/// What stands for a part nests as deep as the table tells, from how deep what stands for its parts does.
#[tactic(auto, using(crate::proofs::Deep::deep_is))]
pub fn each_form_nests_as_told()
    ensures { (m : Bool) (s : c.Sort) (n : ℕ) (x : c.Tree s) → nest (of_sort s) (rewritten m s n x) ≡ deep m s x }
{}

/// The program of a module nests at most four times as deep as the module, and eight more.
#[tactic(auto, using(crate::proofs::Bound::module_within))]
pub fn a_program_nests_four_times_as_deep()
    ensures { (m : c.Tree c.program) → nest t.program (program_of m) ≤ 4 * depth c.program m + 8 }
{}

/// A module nests no deeper than its source, so the program of a source that nests at most 128 deep nests at most 520 deep.
#[tactic(auto, using(crate::proofs::Source::module_nests, crate::proofs::Source::source_nests))]
pub fn a_source_nests_little()
    ensures no_deeper { (grants : List (List ℕ)) (body : Placed t.stmts) (m : c.Tree c.program) → module_of grants body ≡ Some m
        → depth c.program m ≤ nest t.stmts (plain t.stmts body) }
    ensures bounded { (grants : List (List ℕ)) (body : Placed t.stmts) (m : c.Tree c.program) → module_of grants body ≡ Some m
        → nest t.stmts (plain t.stmts body) ≤ 128 → nest t.program (program_of m) ≤ 520 }
{}

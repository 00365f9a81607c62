//! That each jump of a cajoled program has its target (ES3 12.7 to 12.9, 12.12).
//!
//! specs/Targets.antt says it of a program and of a module, form by form, without places. There is no code. The functions here have no bodies: their contracts are the laws.
#![tactic(auto)]

ghost use Rattle.std.specs.Prelude.{◌≡◌, ◌↔◌, ℕ, List, [], Some, None, true};
ghost use Rattle.es3_tree.specs.Tree as t;
ghost use Rattle.es3_tree.specs.Placed.{Placed};
ghost use Rattle.es3_grammar.specs.Plain.{plain};
ghost use Rattle.es3_labels.specs.Around.{Around, in_program};
ghost use Rattle.es3_labels.specs.Misplaced.{misplaced};
ghost use Rattle.cajita_tree.specs.Tree as c;
ghost use Rattle.cajita_rewrite.specs.Rewrite.{program_of};
ghost use Rattle.cajita_rules.specs.Faults.{faults, first};
ghost use Rattle.scope_rules.specs.Resolve.{module_of};
ghost use Rattle.cajoled_jumps.specs.Targets.{targeted, resolved_targeted};

/// No jump and no label of a part is misplaced just where its tree is targeted: places have no say in it.
#[tactic(auto, using(crate::proofs::Places::none_where_targeted))]
pub fn jumps_go_by_the_tree_alone()
    ensures { (a : Around) (s : t.Sort) (x : Placed s) → (misplaced a s x ≡ []) ↔ (targeted a s (plain s x) ≡ true) }
{}

/// Resolving keeps it: the module of a program that breaks no rule is targeted.
#[tactic(auto, using(crate::proofs::Source::module_jumps))]
pub fn a_module_jumps_to_its_targets()
    ensures { (grants : List (List ℕ)) (body : Placed t.stmts) (m : c.Tree c.program) → first (faults grants body) ≡ None → module_of grants body ≡ Some m
        → resolved_targeted in_program c.program m ≡ true }
{}

/// Rewriting keeps it: the program of a module that is targeted is so.
#[tactic(auto, using(crate::proofs::Rewritten::program_targeted))]
pub fn rewriting_keeps_targets()
    ensures { (m : c.Tree c.program) → resolved_targeted in_program c.program m ≡ true → targeted in_program t.program (program_of m) ≡ true }
{}

/// So the program of a source that breaks no rule is targeted, whatever names are granted.
#[tactic(auto, using(crate::proofs::Source::cajoled_jumps))]
pub fn a_cajoled_program_jumps_to_its_targets()
    ensures { (grants : List (List ℕ)) (body : Placed t.stmts) (m : c.Tree c.program) → first (faults grants body) ≡ None → module_of grants body ≡ Some m
        → targeted in_program t.program (program_of m) ≡ true }
{}

//! What Cajita's rules say of a program of Valija that was lowered: nothing, where Valija's rules find no fault in it.
//!
//! So what is known of the modules of Cajita that break no rule is known of lowered programs. There is no code. The function here has no body: its contract is the law.
#![tactic(auto)]

ghost use Rattle.std.specs.Prelude.{◌≡◌, ℕ, List, None};
ghost use Rattle.es3_tree.specs.Tree as t;
ghost use Rattle.es3_tree.specs.Placed as placed;
ghost use Rattle.es3_tree.specs.Placed.{Placed};
ghost use Rattle.es3_grammar.specs.Spots.{Spot};
ghost use Rattle.es3_grammar.specs.Grammar.{free, Spells};
ghost use Rattle.cajita_rules.specs.Faults as cajita;
ghost use Rattle.cajita_rules.specs.Faults.{first};
ghost use Rattle.valija_rules.specs.Faults as valija;
ghost use Rattle.valija_lower.specs.Module.{lowered_source};
ghost use Rattle.valija_prelude.specs.Read.{prelude_statements};

/// A program that tokens spell and that breaks no rule of Valija is lowered to a source, the prelude in front, that breaks no rule of Cajita, whatever names are granted.
#[tactic(auto, using(crate::proofs::Accepted::accepted))]
pub fn a_lowered_program_breaks_no_rule()
    ensures { (grants : List (List ℕ)) (body : Placed t.stmts) (u : List Spot) → Spells t.program free 0 (placed.script body) u
        → first (valija.faults grants body) ≡ None → first (cajita.faults grants (lowered_source prelude_statements grants body)) ≡ None }
{}

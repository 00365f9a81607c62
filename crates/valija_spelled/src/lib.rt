//! A lowered program of Valija is one that tokens spell.
//!
//! So what is known of the modules of Cajita that tokens spell is known of lowered programs. There is no code. The function here has no body: its contract is the law.
#![tactic(auto)]

ghost use Rattle.std.specs.Prelude.{ℕ, ◌+◌, ◌*◌, List, length};
ghost use Rattle.es3_tree.specs.Tree as t;
ghost use Rattle.es3_tree.specs.Placed as placed;
ghost use Rattle.es3_tree.specs.Placed.{Placed};
ghost use Rattle.es3_grammar.specs.Spots.{Spot};
ghost use Rattle.es3_grammar.specs.Grammar.{free, Spells};
ghost use Rattle.es3_printed.specs.Back.{AreTokens};
ghost use Rattle.valija_lower.specs.Module.{lowered_source};
ghost use Rattle.valija_prelude.specs.Read.{prelude_statements};
ghost use Rattle.valija_spelled.specs.Written.{IsWritten};

/// What a program that tokens spell is lowered to, the prelude in front, is spelled by tokens too, of which there are no more than so many for each of the program.
#[tactic(auto, using(crate::proofs::Spelled::lowered_is_spelled))]
pub fn a_lowered_program_is_spelled()
    ensures { (grants : List (List ℕ)) (body : Placed t.stmts) (u : List Spot) → Spells t.program free 0 (placed.script body) u → AreTokens u
        → IsWritten (lowered_source prelude_statements grants body) (64 * length u + 4096) }
{}

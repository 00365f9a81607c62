//! What is known of a module that was accepted: its names are declared, no name or key is one that the rewriting or the interpreter uses itself, and each jump has
//! its target.
//!
//! `GuestModule` of cajita_simulation says it of a resolved module. There is no code. The functions here have no bodies: their contracts are the laws.
#![tactic(auto)]

ghost use Rattle.std.specs.Prelude.{◌≡◌, ◌<◌, ℕ, true, List, Some, None, All, IsTrue};
ghost use Rattle.es3_tree.specs.Tree as t;
ghost use Rattle.es3_tree.specs.Placed as placed;
ghost use Rattle.es3_tree.specs.Placed.{Placed};
ghost use Rattle.es3_grammar.specs.Spots.{Spot};
ghost use Rattle.es3_grammar.specs.Grammar.{free, Spells};
ghost use Rattle.cajita_tree.specs.Tree as c;
ghost use Rattle.cajita_rules.specs.Faults.{faults, first};
ghost use Rattle.scope_rules.specs.Resolve.{module_of};
ghost use Rattle.source_sizes.specs.Sizes.{temps_everywhere};
ghost use Rattle.manifest_names.specs.Names.{is_grant_name};
ghost use Rattle.cajita_simulation.specs.Guest.{is_among, GuestName, GuestModule};

/// The module of a tree that tokens spell and that breaks no rule is a guest, whatever names it is granted that a module may use; temporaries have names of their own
/// where the module and its functions have fewer than 2^64 of them together, as in every source.
#[tactic(auto, using(crate::proofs::Accepted::guest_of))]
pub fn an_accepted_module_is_a_guest()
    ensures { (grants : List (List ℕ)) → ((k : List ℕ) → is_among grants k ≡ true → GuestName k)
        → (body : Placed t.stmts) (u : List Spot) (m : c.Tree c.program) → Spells t.program free 0 (placed.script body) u
        → first (faults grants body) ≡ None → module_of grants body ≡ Some m → temps_everywhere m < 18446744073709551616 → GuestModule m }
{}

/// The names under which a page may grant something are names that a module may use.
#[tactic(auto, using(crate::proofs::Granted::granted_guests))]
pub fn a_granted_name_is_a_guests()
    ensures { (grants : List (List ℕ)) → All (λ s. IsTrue (is_grant_name s)) grants → (k : List ℕ) → is_among grants k ≡ true → GuestName k }
{}

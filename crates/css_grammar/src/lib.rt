//! Texts of CSS and the sheets that they spell (CSS 2.1, as much of it as pages of modules need), and where a text is refused.
//!
//! The definitions stand in specs/: classes of characters (specs/Characters.antt), sheets (specs/Sheets.antt), tokens (specs/Tokens.antt), the grammar
//! (specs/Grammar.antt), which says by rules, a token at a time, to which places a text leads, and so which sheets it spells; where a text is refused
//! (specs/Refusals.antt). Beside them is the reading as one function from left to right, a character at a time (specs/Machine.antt), which the laws below show to be
//! the same. A text is a list of 16-bit units. There is no code. The functions here have no bodies: their contracts are the laws.
#![tactic(auto)]

ghost use Rattle.std.specs.Prelude.{◌≡◌, ◌⊎◌, ◌↔◌, ℕ, List, ◌∷◌, ◌++◌};
ghost use Rattle.css_grammar.specs.Sheets.{Text, Rule};
ghost use Rattle.css_grammar.specs.Grammar.{Spells, Begins, StopsAt};
ghost use Rattle.css_grammar.specs.Refusals.{Refusal, Refused};
ghost use Rattle.css_grammar.specs.Machine.{read, sheet, part, stopped};

/// No text spells two sheets.
#[tactic(auto, using(crate::proofs::Exact::one_sheet))]
pub fn a_text_spells_one_sheet()
    ensures { (s : Text) (rs qs : List Rule) → Spells rs s → Spells qs s → rs ≡ qs }
{}

/// Each text spells a sheet or is refused, not both, and it is refused for one reason at one place.
#[tactic(auto, using(crate::proofs::Refusals::apart, crate::proofs::Refusals::once))]
pub fn a_text_is_a_sheet_or_refused()
    ensures either { (s : Text) → ((rs : List Rule) × Spells rs s) ⊎ ((x : Refusal) × (p : ℕ) × Refused s x p) }
    ensures apart { (s : Text) (rs : List Rule) (x : Refusal) (p : ℕ) → Spells rs s → Refused s x p → ⊥ }
    ensures once { (s : Text) (x y : Refusal) (p q : ℕ) → Refused s x p → Refused s y q → (x ≡ y) × (p ≡ q) }
{}

/// Reading from left to right is the grammar: it gives a sheet exactly where the text spells it, and stops at the first unit with which no sheet goes on; where it
/// does neither, some sheet goes on behind the text.
#[tactic(auto, using(crate::proofs::Exact::reading, crate::proofs::Viable::stops_exactly, crate::proofs::Viable::breaks_off))]
pub fn reading_is_the_grammar()
    ensures spelled { (s : Text) (rs : List Rule) → (read s ≡ sheet rs) ↔ Spells rs s }
    ensures stopped { (s r : Text) → read s ≡ stopped r → (u : Text) × (c : ℕ) × (z : Text) × (s ≡ u ++ c ∷ z) × (r ≡ c ∷ z) × StopsAt u c }
    ensures ended { (s : Text) → read s ≡ part → Begins s }
{}

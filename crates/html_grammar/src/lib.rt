//! Texts of HTML and the trees that they spell (HTML 4.01, as much of it as pages of modules need), and where a text is refused.
//!
//! The definitions stand in specs/: characters, names of characters and of elements (specs/Characters.antt, specs/Tables.antt); what a reference, a run of characters
//! and a tag are (specs/References.antt, specs/Runs.antt, specs/Tags.antt); what stands at a point of a text (specs/Point.antt); which trees a text spells
//! (specs/Document.antt), by rules and without a stack; where a text is refused (specs/Refusals.antt), as a front that goes on and what stands behind it.
//! Beside them is the reading as one function from left to right (specs/Reading.antt), which the laws below show to be the same. A text is a list of
//! characters, each its number in Unicode. There is no code. The functions here have no bodies: their contracts are the laws.
#![tactic(auto)]

ghost use Rattle.std.specs.Prelude.{◌≡◌, ◌⊎◌, ℕ, List, Bool, length, ◌<◌};
ghost use Rattle.html_grammar.specs.Tags.{Refusal};
ghost use Rattle.html_grammar.specs.Point.{point};
ghost use Rattle.html_grammar.specs.Trees.{Tree, many};
ghost use Rattle.html_grammar.specs.Document.{Spells};
ghost use Rattle.html_grammar.specs.Refusals.{Refused};
ghost use Rattle.html_grammar.specs.Reading.{read, trees, refused};
ghost use Rattle.html_grammar.specs.Fits.{StepFits};

/// No text spells two documents.
pub fn a_text_spells_one_document()
    ensures { (t u : Tree many) (s : List ℕ) → Spells t s → Spells u s → t ≡ u }
{}

/// Each text spells a document or is refused, not both, and it is refused for one reason at one place.
pub fn a_text_is_a_document_or_refused()
    ensures either { (s : List ℕ) → ((t : Tree many) × Spells t s) ⊎ ((x : Refusal) × (p : ℕ) × Refused x p s) }
    ensures apart { (t : Tree many) (x : Refusal) (p : ℕ) (s : List ℕ) → Spells t s → Refused x p s → ⊥ }
    ensures once { (x y : Refusal) (p q : ℕ) (s : List ℕ) → Refused x p s → Refused y q s → (x ≡ y) × (p ≡ q) }
{}

/// Reading from left to right is the grammar: it gives trees exactly where the text spells them, and a refusal exactly where the text is so refused.
pub fn reading_is_the_grammar()
    ensures spelled { (t : Tree many) (s : List ℕ) → Spells t s → read s ≡ trees t }
    ensures read { (t : Tree many) (s : List ℕ) → read s ≡ trees t → Spells t s }
    ensures stopped { (x : Refusal) (p : ℕ) (s : List ℕ) → Refused x p s → read s ≡ refused x p }
    ensures refused { (x : Refusal) (p : ℕ) (s : List ℕ) → read s ≡ refused x p → Refused x p s }
{}

/// What stands at a point of a text has some characters, and no more than there are.
#[tactic(auto, using(crate::proofs::PieceBounds::point_fits))]
pub fn a_piece_stands_within_its_text()
    ensures { (b : Bool) (name s : List ℕ) → 0 < length s → StepFits (length s) (point b name s) }
{}

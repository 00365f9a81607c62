//! A program of ECMAScript 3 from its tokens (ES3 11 to 14).
//!
//! The reader goes through the tokens from left to right with a stack of its own, so that a source that nests deep fills no stack of
//! calls: each token leads from a state to the next (src/step.rt), as `step` of the grammar's machine says.
#![tactic(auto)]

ghost use Rattle.std.specs.Prelude.{◌≡◌, ℕ, List};
ghost use Rattle.es3_tokens.specs.Tokens as tokens;
ghost use Rattle.es3_grammar.specs.Spots.{Spot, spots};
ghost use Rattle.es3_grammar.specs.Answers.{Answer, answer, syntax, deep};
ghost use Rattle.es3_stmt.specs.Told.{Becomes, NoProgram};

mod ending;
mod read;
pub mod step;

pub use read::{ReadError, read_program};

/// Of tokens just one thing is so, and it is what the grammar's machine finds: they spell a program within the limit, or they are
/// refused, in one way and at one place, and then they spell none.
#[tactic(auto, using(crate::proofs::Telling::some_answer, crate::proofs::Telling::one_answer, crate::proofs::Telling::becomes_answer))]
pub fn tokens_become_one_thing()
    ensures some { (limit end : ℕ) (u : List Spot) → (a : Answer) × Becomes limit end u a }
    ensures one { (limit end : ℕ) (u : List Spot) (a b : Answer) → Becomes limit end u a → Becomes limit end u b → a ≡ b }
    ensures found { (limit end : ℕ) (ts : List tokens.Placed) → Becomes limit end (spots ts) (answer limit end ts) }
    ensures refused { (limit end at : ℕ) (u : List Spot) → Becomes limit end u (syntax at) → NoProgram limit u }
    ensures deep { (limit end : ℕ) (u : List Spot) → Becomes limit end u deep → NoProgram limit u }
{}

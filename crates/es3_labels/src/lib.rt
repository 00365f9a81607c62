//! Jumps without their targets, and labels inside a statement of the same label (ES3 12.7 to 12.9, 12.12).
#![tactic(auto)]

ghost use Rattle.std.specs.Prelude.{◌≡◌, option_map};
ghost use Rattle.es3_tree.specs.PlacedView.{program};
ghost use Rattle.es3_labels.specs.Misplaced.{first_of};
ghost use Rattle.es3_labels.specs.View.{misplaced_of};

mod around;
mod walk;

use es3_tree::{Name, Program};

/// A jump without its target (ES3 12.7 to 12.9), or a label inside a statement of the same label (12.12).
#[derive(Clone, Copy)]
pub struct Misplaced<'a> {
    /// The byte of the source where the jump or the inner label begins, from 0.
    pub at: u32,
    /// That label, or `None` for a jump.
    pub label: Option<&'a Name>,
}

/// Of the jumps of a program that have no target, and of its labels that stand inside a statement of the same label, the
/// one that stands first; `None` exactly where there is none (ES3 12.7 to 12.9, 12.12).
///
/// A function's labels and jumps are its own: what stands around the function is no target within it.
#[tactic(auto, unfolding(crate::specs::Misplaced::misplaced))]
pub fn first_misplaced(p: &Program) -> Option<Misplaced<'_>>
    ensures { option_map misplaced_of result ≡ first_of (program p.now) }
{
    walk::in_stmts(around::Around::Program, &p.body)
}

/// The byte at which that one begins (ES3 12.7 to 12.9, 12.12).
pub fn labels(p: &Program) -> Option<u32>
    ensures { result ≡ option_map (λ m. m.at) (first_of (program p.now)) }
{
    first_misplaced(p).map(|found| found.at)
}

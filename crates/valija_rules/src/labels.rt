//! Rule 4: jumps without their targets, and labels within a statement of the same label (ES3 12.7 to 12.9, 12.12).

ghost use Rattle.std.specs.Prelude.{map};
ghost use Rattle.es3_tree.specs.Tree as tree;
ghost use Rattle.es3_tree.specs.PlacedView.{of_stmts};
ghost use Rattle.es3_labels.specs.Around.{in_program};
ghost use Rattle.es3_labels.specs.Misplaced.{misplaced};
ghost use Rattle.valija_rules.specs.Faults.{bad_label};
ghost use Rattle.cajita_rules.specs.Found.{IsFirst};

use caja_units::{Memory, Units};
use cajita_rules::Found;
use es3_labels::first_misplaced;
use es3_tree::Program;
use std::alloc::Global;

/// The first fault of a program by this rule.
#[tactic(auto, using(crate::proofs::Misplaced::of_program))]
pub(crate) fn first_bad_label(alloc: Global, program: &Program) -> Result<Option<Found>, Memory>
    ensures { IsFirst result (map bad_label (misplaced in_program tree.stmts (of_stmts program.now.body.items))) }
{
    let Some(found) = first_misplaced(program) else {
        return Ok(None);
    };
    let text = match found.label {
        Some(label) => label.text.copy(alloc)?,
        None => Units::from_ascii(alloc, &[])?,
    };
    Ok(Some(Found {
        rule: 4,
        at: found.at,
        text,
    }))
}

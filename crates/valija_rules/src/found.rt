//! Faults as they are found, and of two the one that comes first.

ghost use Rattle.std.specs.Prelude.{◌≡◌, option_map};
ghost use Rattle.es3_tree.specs.PlacedView as source;
ghost use Rattle.cajita_rules.specs.Faults.{is_before as is_fault_before, word_fault as word_faults, form_fault as form_faults};
ghost use Rattle.cajita_rules.specs.Found.{fault_of, earlier_of, IsFirst};

use caja_units::{Memory, Units};
use cajita_rules::Found;
use es3_tree::Name;
use std::alloc::Global;

// Earlier in the source, or at the same byte by a smaller number.
fn is_before(found: &Found, other: &Found) -> bool
    ensures { result ≡ is_fault_before (fault_of found.now) (fault_of other.now) }
{
    found.at < other.at || (found.at == other.at && found.rule < other.rule)
}

/// Of two faults the one that comes first, the one in front where both stand alike.
pub(crate) fn picked(front: Option<Found>, behind: Option<Found>) -> Option<Found>
    ensures { option_map fault_of result ≡ earlier_of (option_map fault_of front) (option_map fault_of behind) }
{
    match (front, behind) {
        (Some(front), Some(behind)) => {
            if is_before(&behind, &front) {
                Some(behind)
            } else {
                Some(front)
            }
        }
        (Some(front), None) => Some(front),
        (None, behind) => behind,
    }
}

/// A word that breaks the rule, or not.
pub(crate) fn word_fault(
    alloc: Global,
    rule: u8,
    word: &Name,
    is_broken: bool,
) -> Result<Option<Found>, Memory>
    ensures { IsFirst result (word_faults rule (source.word word.now) is_broken) }
{
    if is_broken {
        Ok(Some(Found {
            rule,
            at: word.at,
            text: word.text.copy(alloc)?,
        }))
    } else {
        Ok(None)
    }
}

/// A form that breaks the rule, at the byte where it begins.
pub(crate) fn form_fault(alloc: Global, rule: u8, at: u32) -> Result<Option<Found>, Memory>
    ensures { IsFirst result (form_faults rule at) }
{
    Ok(Some(Found {
        rule,
        at,
        text: Units::from_ascii(alloc, &[])?,
    }))
}

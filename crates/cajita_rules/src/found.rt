//! A fault as it is found, and of two the one that comes first.

ghost use Rattle.std.specs.Prelude.{◌≡◌, ◌++◌, List, IfOk, option_map};
ghost use Rattle.es3_tree.specs.PlacedView as source;
ghost use Rattle.cajita_rules.specs.Faults.{Fault, is_before as is_fault_before, word_fault as word_faults, form_fault as form_faults};
ghost use Rattle.cajita_rules.specs.Found.{fault_of, earlier_of, IsFirst};

use caja_units::{Memory, Units};
use es3_tree::Name;
use std::alloc::Global;

/// A broken rule: its number, the byte of the source where it is broken, and the text of the name, label or key there.
#[derive(Drop)]
pub struct Found {
    /// The number of the rule, 1 to 13; 0 where something else than a name or a member is written to, which no tokens spell.
    pub rule: u8,
    /// The byte of the source, from 0.
    pub at: u32,
    /// The text of the name, the label or the key there, or none where a form begins there.
    pub text: Units,
}

impl Found {
    // Of a rule that the word breaks.
    fn at_word(alloc: Global, rule: u8, word: &Name) -> Result<Found, Memory>
        ensures { IfOk result (λ f. fault_of f ≡ record { rule = rule; at = word.now.at; text = word.now.text }) }
    {
        Ok(Found {
            rule,
            at: word.at,
            text: word.text.copy(alloc)?,
        })
    }

    // Earlier in the source, or at the same byte by a smaller number.
    fn is_before(&self, other: &Found) -> bool
        ensures { result ≡ is_fault_before (fault_of self.now) (fault_of other.now) }
    {
        self.at < other.at || (self.at == other.at && self.rule < other.rule)
    }
}

/// Of two faults the one that comes first, the one in front where both stand alike.
pub(crate) fn picked(front: Option<Found>, behind: Option<Found>) -> Option<Found>
    ensures { option_map fault_of result ≡ earlier_of (option_map fault_of front) (option_map fault_of behind) }
{
    match (front, behind) {
        (Some(front), Some(behind)) => {
            if behind.is_before(&front) {
                Some(behind)
            } else {
                Some(front)
            }
        }
        (Some(front), None) => Some(front),
        (None, behind) => behind,
    }
}

/// The first fault of two parts, of the first one of each.
///
/// # Errors
///
/// `Memory` where memory was wanting in one of them.
pub fn earlier(
    front: Result<Option<Found>, Memory>,
    behind: Result<Option<Found>, Memory>,
) -> Result<Option<Found>, Memory>
    ensures { (fs gs : List Fault)
        → IsFirst front fs
        → IsFirst behind gs
        → IsFirst result (fs ++ gs) }
{
    Ok(picked(front?, behind?))
}

/// A word that breaks the rule, or not.
pub(crate) fn word_fault(
    alloc: Global,
    rule: u8,
    word: &Name,
    is_broken: bool,
) -> Result<Option<Found>, Memory>
    ensures { IsFirst result (word_faults rule (source.word word.now) is_broken) }
{
    if is_broken {
        Ok(Some(Found::at_word(alloc, rule, word)?))
    } else {
        Ok(None)
    }
}

/// A form that breaks the rule, at the byte where it begins.
pub(crate) fn form_fault(alloc: Global, rule: u8, at: u32) -> Result<Option<Found>, Memory>
    ensures { IsFirst result (form_faults rule at) }
{
    Ok(Some(Found {
        rule,
        at,
        text: Units::from_ascii(alloc, &[])?,
    }))
}

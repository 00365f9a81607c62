//! The queues in which functions wait to be called, one for each module.

ghost use Rattle.std.specs.Prelude.{◌≡◌, ◌≤◌, [], OnOk, length, map, slice_get};
ghost use Rattle.dom_facets.specs.Places.{padded};
ghost use Rattle.page_natives.specs.Natives.{queue_of, added, rest_of};

use caja_units::Memory;
use es3_heap::Value;
use std::alloc::Global;
use std::collections::VecDeque;

/// Makes so many queues at least; new ones are empty.
fn reach(alloc: Global, queues: &mut Vec<VecDeque<Value>>, count: usize) -> Result<(), Memory>
    ensures items { OnOk result (map (λ q. q.items) queues.new.items ≡ padded [] count (map (λ q. q.items) queues.old.items)) }
    ensures long { OnOk result (count ≤ length queues.new.items) }
{
    'reach: while queues.len() < count {
        queues.push(VecDeque::new(alloc))?;
    }
    Ok(())
}

/// Puts a function behind all others in the queue of a module, by its number. The queues before it of which there were none yet
/// are empty.
pub(crate) fn wait_in(
    alloc: Global,
    queues: &mut Vec<VecDeque<Value>>,
    owner: u32,
    function: Value,
) -> Result<(), Memory>
    ensures { OnOk result (map (λ q. q.items) queues.new.items ≡ added owner function (map (λ q. q.items) queues.old.items)) }
{
    let at = owner as usize;
    reach(alloc, queues, at + 1)?;
    queues[at].push_back(function)?;
    Ok(())
}

/// Takes the first function out of the queue of a module, by its number; None exactly where that is empty. It takes no memory.
pub(crate) fn take_first(queues: &mut Vec<VecDeque<Value>>, owner: u32) -> Option<Value>
    ensures taken { result ≡ slice_get (queue_of owner (map (λ q. q.items) queues.old.items)) 0 }
    ensures left { map (λ q. q.items) queues.new.items ≡ rest_of owner (map (λ q. q.items) queues.old.items) }
{
    match queues.get_mut(owner as usize) {
        Some(queue) => queue.pop_front(),
        None => None,
    }
}

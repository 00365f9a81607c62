//! Calls of properties one after another, in whichever form these are.

ghost use Rattle.std.specs.Prelude.{◌≡◌, ℕ, IfOk, OnOk, OnErr, take};
ghost use Rattle.property_tables.specs.Running.{reply, left, replies, left_by};

use crate::field::Copied;
use crate::props::{Keys, Props};
use caja_units::{Memory, Units};
use std::alloc::Global;

/// A call of properties.
#[derive(Debug, Drop)]
pub enum PropCall<V, A> {
    Own(Units),
    Set(Units, V, A),
    Remove(Units),
    Names,
}

/// What a call of properties answers.
#[derive(Debug, Drop)]
pub enum PropReply<V, A> {
    Own(Option<(V, A)>),
    Set,
    Removed(bool),
    Names(Keys),
}

/// Makes a call.
fn answer<V: Copied, A: Copy, P: Props<V, A>>(
    alloc: Global,
    p: &mut P,
    call: &PropCall<V, A>,
) -> Result<PropReply<V, A>, Memory>
    ensures told { IfOk result (λ r. r ≡ reply call.now (P.held p.old)) }
    ensures after { OnOk result (P.held p.new ≡ left call.now (P.held p.old)) }
    ensures kept { OnErr result (P.held p.new ≡ P.held p.old) }
{
    match call {
        PropCall::Own(k) => {
            let Some((value, attrs)) = p.own(k) else {
                return Ok(PropReply::Own(None));
            };
            let value = value.copied(alloc)?;
            Ok(PropReply::Own(Some((value, attrs))))
        }
        PropCall::Set(k, value, attrs) => {
            let value = value.copied(alloc)?;
            p.set(k, value, *attrs)?;
            Ok(PropReply::Set)
        }
        PropCall::Remove(k) => Ok(PropReply::Removed(p.remove(k))),
        PropCall::Names => Ok(PropReply::Names(p.names()?)),
    }
}

/// Makes the calls in order, and gives their replies.
///
/// # Errors
///
/// Where memory is wanting; then some of the calls, from the first on, have been made.
pub fn props_run<V: Copied, A: Copy, P: Props<V, A>>(
    alloc: Global,
    p: &mut P,
    calls: &[PropCall<V, A>],
) -> Result<Vec<PropReply<V, A>>, Memory>
    ensures told { IfOk result (λ rs. rs.items ≡ replies calls.now (P.held p.old)) }
    ensures after { OnOk result (P.held p.new ≡ left_by calls.now (P.held p.old)) }
    ensures kept { OnErr result ((n : ℕ) × (P.held p.new ≡ left_by (take n calls.now) (P.held p.old))) }
{
    let mut told = Vec::new(alloc);
    for call in calls {
        let reply = answer(alloc, p, call)?;
        told.push(reply)?;
    }
    Ok(told)
}

//! Loops, and where jumps lead (ES3 12.6, 12.12).

ghost use Rattle.std.specs.Prelude.{◌≡◌, ◌<◌};
ghost use Rattle.es3_language.specs.Store.{Store};
ghost use Rattle.es3_language.specs.Statements as st;
ghost use Rattle.es3_moves.specs.Code.{maybe_units};
ghost use Rattle.es3_moves.specs.Where.{plain_flow, plain_labels};
ghost use Rattle.es3_moves.specs.Moves as moves;
ghost use Rattle.es3_moves.specs.Moves.{move_plan};
ghost use Rattle.es3_moves.specs.declared.frame.Frame.TheVariants as frame;
ghost use Rattle.es3_access.specs.Sizes.{size};
ghost use Rattle.es3_endings.specs.Turns.{has_label, plain_turn};

use crate::lists::later;
use caja_units::Units;
use es3_heap::Value;
use es3_moves::frame::{Flow, Labels, Looping, Move};
use std::rc::Rc;

/// Whether a jump is to one of the labels, or to none (ES3 12.12).
pub fn is_to(jump: &Option<Rc<Units>>, labels: &Labels) -> bool
    ensures { result ≡ st.is_to (maybe_units jump.now) (plain_labels labels.now) }
{
    match jump {
        Some(label) => has_label(label, labels),
        None => true,
    }
}

/// Whether a label is one of the labels.
fn has_label(label: &Rc<Units>, labels: &Labels) -> bool
    ensures { result ≡ has_label label.now.value (plain_labels labels.now) }
{
    let mut rest = labels;
    while let Labels::In(first, outer) = rest {
        if label.same(first) {
            return true;
        }
        rest = outer;
    }
    false
}

/// What follows the body of a loop.
#[derive(Drop)]
pub enum Turn {
    /// One more turn, with the value so far.
    Turns(Option<Value>),
    /// The loop ends.
    Leaves(Flow),
}

/// What follows the body of a loop, by how it ended (ES3 12.6).
pub fn turned(labels: &Labels, acc: Option<Value>, flow: Flow) -> Turn
    ensures { plain_turn result ≡ st.turned (plain_labels labels.now) acc (plain_flow flow) }
{
    match flow {
        Flow::Normal(v) => Turn::Turns(later(v, acc)),
        Flow::Continued(jump, v) => {
            if is_to(&jump, labels) {
                Turn::Turns(later(v, acc))
            } else {
                Turn::Leaves(Flow::Continued(jump, v))
            }
        }
        Flow::Broke(jump, v) => {
            if is_to(&jump, labels) {
                Turn::Leaves(Flow::Normal(later(v, acc)))
            } else {
                Turn::Leaves(Flow::Broke(jump, v))
            }
        }
        other => Turn::Leaves(other),
    }
}

/// What follows the body of a loop: the next turn, or the end of the loop.
pub fn after_turn(mut l: Box<Looping>, flow: Flow) -> Move
    ensures plan { (s : Store) → move_plan result s ≡ moves.resume (frame.LoopNext l) (plain_flow flow) s }
    ensures small { size result < 24 }
{
    let acc = l.acc.take();
    match turned(&l.labels, acc, flow) {
        Turn::Turns(v) => {
            l.acc = v;
            Move::Again(l)
        }
        Turn::Leaves(flow) => Move::End(flow),
    }
}

/// A statement with a label ends where a `break` names the label (ES3 12.12).
pub fn after_label(label: Rc<Units>, flow: Flow) -> Move
    ensures plan { (s : Store) → move_plan result s ≡ st.on_label label.value (plain_flow flow) s }
    ensures small { size result < 24 }
{
    Move::End(unlabelled(&label, flow))
}

/// Whether a jump names a label.
fn is_label(jump: &Option<Rc<Units>>, label: &Rc<Units>) -> bool
    ensures { result ≡ st.is_label (maybe_units jump.now) label.now.value }
{
    match jump {
        Some(jump) => jump.same(label),
        None => false,
    }
}

/// How a statement with a label ends.
fn unlabelled(label: &Rc<Units>, flow: Flow) -> Flow
    ensures { plain_flow result ≡ st.unlabelled label.now.value (plain_flow flow) }
{
    match flow {
        Flow::Broke(jump, v) => {
            if is_label(&jump, label) {
                Flow::Normal(v)
            } else {
                Flow::Broke(jump, v)
            }
        }
        other => other,
    }
}

//! The frames that are open, the innermost last, with their sums.

ghost use Rattle.std.specs.Prelude.{◌≡◌, ◌&&◌, ◌∷◌, [], false};
ghost use Rattle.es3_grammar.specs.Frames.{Stack as Frames, asks as asks_spec};
ghost use Rattle.es3_frames.specs.Ending.{ends_all};
ghost use Rattle.es3_grammar.specs.Machine.{holds as holds_spec};
ghost use Rattle.es3_frames.specs.FrameViews.{body_of, bracket_of, frame_of, waiting_of};
ghost use Rattle.es3_frames.specs.Kept.{Kept};
ghost use Rattle.es3_frames.specs.KeptOnce.{Kept-prop};

use crate::frames::{Body, Bracket, Frame, Root, Waiting};
use crate::sums::{Sums, after};
use caja_units::Memory;
use std::alloc::Global;

/// A frame, with the sums of what is open up to it.
#[derive(Drop)]
struct Entry {
    frame: Frame,
    sums: Sums,
}

/// What is open, the innermost last.
pub struct Stack {
    entries: Vec<Entry>,
    ghost kept: { Kept entries.items [] } by { Kept-prop entries.items [] },
}

// Written out, so that no crate above need show anew how the frames are let go.
impl Drop for Stack {
    fn drop(self) {
        let Stack { entries: _ } = self;
    }
}

impl Stack {
    ghost use Rattle.std.specs.Prelude.{◌≡◌, ◌∷◌, [], OnErr, OnOk};
    ghost use Rattle.es3_grammar.specs.Frames.{asked as asked_spec, behind_new as behind_new_spec, no_in_here};
    ghost use Rattle.es3_grammar.specs.Machine.{declares as declares_spec};
    ghost use Rattle.es3_grammar.specs.Sums as m;
    ghost use Rattle.es3_frames.specs.Ending.{ends_all};
    ghost use Rattle.es3_frames.specs.Kept.{Innermost, IsSums};
    ghost use Rattle.es3_frames.specs.Views.{frame_of, lists, stack_of, Popped};

    /// Nothing is open.
    pub fn new(alloc: Global) -> Stack
        ensures { stack_of result ≡ [] }
    {
        Stack {
            entries: Vec::new(alloc),
        }
    }

    /// The sums of what is open.
    pub fn sums(&self) -> Sums
        ensures { IsSums (m.sums (stack_of self.now)) result }
    {
        match self.entries.last() {
            Some(entry) => entry.sums,
            None => Sums::level(),
        }
    }

    /// One more frame, within the others.
    ///
    /// # Errors
    ///
    /// `Memory` where memory is wanting.
    #[tactic(auto, using(crate::proofs::Stacks::pushed))]
    pub fn push(&mut self, frame: Frame) -> Result<(), Memory>
        ensures pushed { OnOk result (stack_of self.new ≡ frame_of frame ∷ stack_of self.old) }
        ensures stays { OnErr result (stack_of self.new ≡ stack_of self.old) }
    {
        let sums = after(&frame, self.sums());
        self.entries.push(Entry { frame, sums })?;
        Ok(())
    }

    /// The innermost frame, taken off.
    #[tactic(auto, using(crate::proofs::Stacks::pushed))]
    pub fn pop(&mut self) -> Option<Frame>
        ensures { Popped result (stack_of self.old) (stack_of self.new) }
    {
        match self.entries.pop() {
            Some(Entry { frame, .. }) => Some(frame),
            None => None,
        }
    }

    /// The innermost frame.
    pub fn innermost(&self) -> Option<&Frame>
        ensures { Innermost result (stack_of self.now) }
    {
        match self.entries.last() {
            Some(entry) => Some(&entry.frame),
            None => None,
        }
    }

    /// Whether a list of statements is innermost.
    pub fn lists(&self) -> bool
        ensures { result ≡ lists (stack_of self.now) }
    {
        matches!(self.innermost(), Some(Frame::List(_, _)))
    }

    /// The level that the innermost place asks of what stands there, 0 to 15.
    pub fn asked(&self) -> u32
        ensures { result ≡ asked_spec (stack_of self.now) }
    {
        match self.innermost() {
            Some(frame) => asked_by(frame),
            None => 0,
        }
    }

    /// Whether a `new` waits here for its constructor (ES3 11.2.2).
    pub fn behind_new(&self) -> bool
        ensures { result ≡ behind_new_spec (stack_of self.now) }
    {
        matches!(self.innermost(), Some(Frame::Waiting(Waiting::New)))
    }

    /// Whether function declarations may stand here (ES3 13, 14).
    pub fn declares(&self) -> bool
        ensures { result ≡ declares_spec (stack_of self.now) }
    {
        match self.innermost() {
            Some(Frame::List(body, _)) => holds(body),
            _ => false,
        }
    }

    /// Whether an expression, which may be assigned to or not, ends everything that is open (ES3 11).
    #[tactic(auto, using(crate::proofs::Stacks::pushed))]
    pub fn ends_with(&self, is_target: bool) -> bool
        ensures { result ≡ ends_all is_target (stack_of self.now) }
    {
        let mut target = is_target;
        for entry in self.entries.iter().rev() {
            if !fills(&entry.frame, target) {
                return false;
            }
            target = false;
        }
        true
    }

    /// Whether no `in` may stand here (ES3 12.6.3).
    pub fn no_in(&self) -> bool
        ensures { result ≡ no_in_here (stack_of self.now) }
    {
        self.sums().no_in
    }
}

/// Whether an expression, which may be assigned to or not, is the last part that the frame waits for.
fn fills(frame: &Frame, is_target: bool) -> bool
    ensures { (k : Frames) → ends_all is_target (frame_of frame.now ∷ k) ≡ (result && ends_all false k) }
{
    match frame {
        Frame::Waiting(Waiting::Step(_)) => is_target,
        Frame::Waiting(
            Waiting::New | Waiting::Prefix(_, _) | Waiting::Join(_, _) | Waiting::Branch(_, _),
        ) => true,
        Frame::Bracket(_) | Frame::Root(_) | Frame::Outer(_) | Frame::List(_, _) => false,
    }
}

fn asked_by_operator(waiting: &Waiting) -> u32
    ensures { result ≡ asks_spec (waiting_of waiting.now) }
{
    match waiting {
        Waiting::New | Waiting::Step(_) => 15,
        Waiting::Prefix(_, _) => 13,
        Waiting::Join(join, _) => join.right(),
        Waiting::Branch(_, _) => 1,
    }
}

fn asked_in_bracket(bracket: &Bracket) -> u32
    ensures { result ≡ asks_spec (bracket_of bracket.now) }
{
    match bracket {
        Bracket::List(_, _) | Bracket::Field(_, _) | Bracket::Test(_) => 1,
        Bracket::Paren | Bracket::Subscript(_) => 0,
    }
}

fn asked_by(frame: &Frame) -> u32
    ensures { result ≡ asks_spec (frame_of frame.now) }
{
    match frame {
        Frame::Waiting(waiting) => asked_by_operator(waiting),
        Frame::Bracket(bracket) => asked_in_bracket(bracket),
        Frame::Root(root) => u32::from(matches!(root, Root::Value(_, _, _))),
        Frame::Outer(_) | Frame::List(_, _) => 0,
    }
}

fn holds(body: &Body) -> bool
    ensures { result ≡ holds_spec (body_of body.now) }
{
    matches!(body, Body::Program | Body::Function(_, _))
}

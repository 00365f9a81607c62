//! Sums along what is open, by which it takes constant time to say how deep the programs are that begin with what is read.
//! Numbers are of 32 bits: what is greater than the greatest stays the greatest.

ghost use Rattle.std.specs.Prelude.{◌≡◌, ℕ, Bool, false, [], map, if◌then◌else◌};
ghost use Rattle.es3_tree.specs.PlacedView.{expr};
ghost use Rattle.es3_grammar.specs.Sums as m;
ghost use Rattle.es3_grammar.specs.Sums.{behind_sums, body_rise, capped, items_deep, level_rise, part_sums, value_deep};
ghost use Rattle.es3_frames.specs.Lists.{item_of};
ghost use Rattle.es3_frames.specs.FrameViews.{body_of, bracket_of, frame_of, opened_of, outer_of, root_of, waiting_of};
ghost use Rattle.es3_frames.specs.Kept.{IsRise, IsSums};

use crate::frames::{Body, Bracket, Frame, Opened, Outer, Root, Waiting};
use crate::parts::{Exprs, Items};

/// What the frames round a part make of its depth.
#[derive(Clone, Copy)]
pub struct Rise {
    /// They are at least so deep.
    pub floor: u32,
    /// So many layers more than the part.
    pub layers: u32,
}

/// The sums of what is open: for what stands within it.
#[derive(Clone, Copy)]
pub struct Sums {
    /// Round an expression that may be written to.
    pub target: Rise,
    /// Round another expression.
    pub other: Rise,
    /// Round a statement.
    pub behind: Rise,
    /// The shortest end behind an expression opens a bracket before it closes one.
    pub part_opens: bool,
    /// So does the shortest end behind a statement.
    pub behind_opens: bool,
    /// `++` or `--` waits, behind it nothing or only `new`.
    pub stepped: bool,
    /// No `in` may stand here (ES3 12.6.3).
    pub no_in: bool,
}

impl Rise {
    /// That of nothing.
    pub fn level() -> Rise
        ensures { IsRise level_rise result }
    {
        Rise {
            floor: 0,
            layers: 0,
        }
    }

    /// Within one frame more, which adds so many layers round the part and other parts that are so deep.
    pub fn raise(self, layers: u32, depth: u32) -> Rise
        ensures { (r : m.Rise) (d : ℕ) → IsRise r self → depth ≡ capped d → IsRise (m.raise layers d r) result }
    {
        Rise {
            floor: self
                .floor
                .max(self.layers.saturating_add(layers.saturating_add(depth))),
            layers: self.layers.saturating_add(layers),
        }
    }

    /// How deep they are with a part that is so deep.
    pub fn rise(self, depth: u32) -> u32
        ensures { (r : m.Rise) (d : ℕ) → IsRise r self → depth ≡ capped d → result ≡ capped (m.rise r d) }
    {
        self.floor.max(self.layers.saturating_add(depth))
    }
}

impl Sums {
    /// Where nothing is open.
    pub fn level() -> Sums
        ensures { IsSums (m.sums []) result }
    {
        Sums {
            target: Rise::level(),
            other: Rise::level(),
            behind: Rise::level(),
            part_opens: false,
            behind_opens: false,
            stepped: false,
            no_in: false,
        }
    }
}

/// Within a frame that an expression stands in: round what is round the frame, beside parts that are so deep.
fn round_part(outside: Rise, depth: u32, part_opens: bool, no_in: bool) -> Sums
    ensures { (r : m.Rise) (d : ℕ) (o n : Bool) → IsRise r outside → depth ≡ capped d → part_opens ≡ o → no_in ≡ n →
        IsSums (part_sums (m.raise 1 d r) o n) result }
{
    let rise = outside.raise(1, depth);
    Sums {
        target: rise,
        other: rise,
        behind: Rise::level(),
        part_opens,
        behind_opens: false,
        stepped: false,
        no_in,
    }
}

/// Within a frame that a statement stands in.
fn round_statement(rise: Rise, behind_opens: bool) -> Sums
    ensures { (r : m.Rise) (o : Bool) → IsRise r rise → behind_opens ≡ o → IsSums (behind_sums r o) result }
{
    Sums {
        target: Rise::level(),
        other: Rise::level(),
        behind: rise,
        part_opens: false,
        behind_opens,
        stepped: false,
        no_in: false,
    }
}

/// Behind an operator whose other parts are so deep.
fn within_operator(round: Sums, depth: u32) -> Sums
    ensures { (k : m.Sums) (d : ℕ) → IsSums k round → depth ≡ capped d →
        IsSums (part_sums (m.raise 1 d k.other) k.part_opens k.no_in) result }
{
    round_part(round.other, depth, round.part_opens, round.no_in)
}

fn within_waiting(waiting: &Waiting, round: Sums) -> Sums
    ensures { (k : m.Sums) → IsSums k round → IsSums (m.after (waiting_of waiting.now) k) result }
{
    match waiting {
        Waiting::New => {
            let rise = round.other.raise(1, 0);
            Sums {
                target: rise,
                other: rise,
                behind: Rise::level(),
                part_opens: round.stepped || round.part_opens,
                behind_opens: false,
                stepped: round.stepped,
                no_in: round.no_in,
            }
        }
        Waiting::Step(_) => Sums {
            target: round.other.raise(1, 0),
            other: round.other.raise(2, 0),
            behind: Rise::level(),
            part_opens: round.part_opens,
            behind_opens: false,
            stepped: true,
            no_in: round.no_in,
        },
        Waiting::Prefix(_, _) => within_operator(round, 0),
        Waiting::Join(_, left) => within_operator(round, left.depth),
        Waiting::Branch(test, first) => within_operator(round, test.depth.max(first.depth)),
    }
}

/// How deep the parts are that stand before the next item or argument.
#[tactic(auto, using(crate::proofs::Rows::exprs_mapped))]
pub fn items_depth(opened: &Opened, items: &Exprs) -> u32
    ensures { result ≡ capped (items_deep (opened_of opened.now) (map expr items.now.list.items)) }
{
    match opened {
        Opened::Array => items.depth,
        Opened::Call(part) | Opened::New(part) => part.depth.max(items.depth),
    }
}

/// Before an item of a list within brackets, of which the parts before it are so deep.
fn within_list(round: Sums, depth: u32) -> Sums
    ensures { (k : m.Sums) (d : ℕ) → IsSums k round → depth ≡ capped d →
        IsSums (part_sums (m.raise 1 d k.other) false false) result }
{
    round_part(round.other, depth, false, false)
}

#[tactic(auto, using(crate::proofs::Rows::fields_mapped))]
fn within_bracket(bracket: &Bracket, round: Sums) -> Sums
    ensures { (k : m.Sums) → IsSums k round → IsSums (m.after (bracket_of bracket.now) k) result }
{
    match bracket {
        Bracket::Paren => Sums {
            behind: Rise::level(),
            part_opens: false,
            behind_opens: false,
            stepped: false,
            no_in: false,
            ..round
        },
        Bracket::Subscript(part) => round_part(round.target, part.depth, false, false),
        Bracket::List(opened, items) => within_list(round, items_depth(opened, items)),
        Bracket::Field(fields, _) => within_list(round, fields.depth),
        Bracket::Test(part) => {
            round_part(round.other, part.depth.max(1), round.part_opens, false)
        }
    }
}

/// Within a place that a token of its own closes, of a statement whose other parts are so deep.
fn within_head(round: Sums, depth: u32) -> Sums
    ensures { (k : m.Sums) (d : ℕ) → IsSums k round → depth ≡ capped d →
        IsSums (part_sums (m.raise 1 d k.behind) false false) result }
{
    round_part(round.behind, depth, false, false)
}

/// Within a statement that ends with what is read, and whose other parts are so deep.
fn within_end(round: Sums, depth: u32) -> Sums
    ensures { (k : m.Sums) (d : ℕ) → IsSums k round → depth ≡ capped d →
        IsSums (part_sums (m.raise 1 d k.behind) k.behind_opens false) result }
{
    round_part(round.behind, depth, round.behind_opens, false)
}

/// Within a `var`, or one in the head of a `for`, which has a body behind it.
#[tactic(auto, using(crate::proofs::Rows::items_mapped))]
fn within_value(in_for: bool, items: &Items, round: Sums) -> Sums
    ensures { (k : m.Sums) → IsSums k round →
        IsSums (part_sums (m.raise 1 (value_deep in_for (map item_of items.now.list.items)) k.behind) (if in_for then false else k.behind_opens) in_for) result }
{
    if in_for {
        round_part(round.behind, items.depth.max(1), false, true)
    } else {
        within_end(round, items.depth)
    }
}

#[tactic(auto, using(crate::proofs::Rows::cases_mapped))]
fn within_root(root: &Root, round: Sums) -> Sums
    ensures { (k : m.Sums) → IsSums k round → IsSums (m.after (root_of root.now) k) result }
{
    match root {
        Root::Statement | Root::Return(_) | Root::Throw => within_end(round, 0),
        Root::Value(in_for, _, items) => within_value(*in_for, items, round),
        Root::If | Root::While | Root::With(_) => within_head(round, 1),
        Root::Do(body) => within_head(round, body.depth),
        Root::ForFirst => round_part(round.behind, 1, false, true),
        Root::ForTest(front) => within_head(round, front.depth.max(1)),
        Root::ForStep(front, test) => within_head(round, front.depth.max(test.depth.max(1))),
        Root::ForObject(target) => within_head(round, target.depth.max(1)),
        Root::Switch => within_head(round, 0),
        Root::Case(value, clauses) => within_head(round, value.depth.max(clauses.depth)),
    }
}

/// Within a statement that ends with the one that is read, and whose other parts are so deep.
fn within_body(round: Sums, depth: u32) -> Sums
    ensures { (k : m.Sums) (d : ℕ) → IsSums k round → depth ≡ capped d →
        IsSums (behind_sums (m.raise 1 d k.behind) k.behind_opens) result }
{
    round_statement(round.behind.raise(1, depth), round.behind_opens)
}

fn within_outer(outer: &Outer, round: Sums) -> Sums
    ensures { (k : m.Sums) → IsSums k round → IsSums (m.after (outer_of outer.now) k) result }
{
    match outer {
        Outer::Then(test) | Outer::While(test) | Outer::With(test, _) => {
            within_body(round, test.depth)
        }
        Outer::Else(test, then) => within_body(round, test.depth.max(then.depth)),
        Outer::Do => round_statement(round.behind.raise(1, 1), true),
        Outer::For(front, test, step) => {
            within_body(round, front.depth.max(test.depth.max(step.depth)))
        }
        Outer::ForIn(target, object) => { within_body(round, target.depth.max(object.depth)) }
        Outer::Label(_) => within_body(round, 0),
    }
}

/// What a list of statements makes of the depth of one, where those before it are so deep.
#[tactic(auto, using(crate::proofs::Rows::stmts_mapped, crate::proofs::Rows::cases_mapped))]
fn list_rise(body: &Body, depth: u32, round: Sums) -> Rise
    ensures { (k : m.Sums) (d : ℕ) → IsSums k round → depth ≡ capped d →
        IsRise (body_rise (body_of body.now) d k) result }
{
    match body {
        Body::Program => Rise::level().raise(0, depth),
        Body::Block | Body::Try => round.behind.raise(1, depth),
        Body::Function(head, _) => {
            let rise = if head.declared {
                round.behind
            } else {
                round.other
            };
            rise.raise(2, depth)
        }
        Body::Clause(value, clauses, test) => {
            let beside = value.depth.max(clauses.depth.max(test.depth));
            round.behind.raise(1, beside.max(depth))
        }
        Body::Catch(tried, _) => round.behind.raise(1, tried.depth.max(depth)),
        Body::Finally(tried, handler) => {
            round
                .behind
                .raise(1, tried.depth.max(handler.depth.max(depth)))
        }
    }
}

/// The sums within a frame, of those round it.
#[tactic(auto, using(crate::proofs::Rows::stmts_mapped))]
pub fn after(frame: &Frame, round: Sums) -> Sums
    ensures { (k : m.Sums) → IsSums k round → IsSums (m.after (frame_of frame.now) k) result }
{
    match frame {
        Frame::Waiting(waiting) => within_waiting(waiting, round),
        Frame::Bracket(bracket) => within_bracket(bracket, round),
        Frame::Root(root) => within_root(root, round),
        Frame::Outer(outer) => within_outer(outer, round),
        Frame::List(body, list) => round_statement(list_rise(body, list.depth, round), false),
    }
}

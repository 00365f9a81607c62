//! Which tokens a tree of ECMAScript 3 is spelled by (ES3 11 to 14), and a machine that reads them.
//!
//! The definitions stand in specs/: `spells` (specs/Grammar.antt) by cases on the tree, with the levels of specs/Levels.antt; `read`
//! (specs/Machine.antt), which goes from left to right, a token at a time, with a stack of frames (specs/Frames.antt); `read_within`
//! (specs/Within.antt), the same with a limit of nesting (specs/Limit.antt), by the shortest end of each state (specs/Ends.antt);
//! `read_quickly` (specs/Sums.antt), the same again, by sums along the stack in place of that end; `read_longest` (specs/Longest.antt),
//! which reads expressions alone, as long as one goes on, and keeps how many tokens the longest has.
//! There is no code. The functions here have no body: each one's contract is a law. Trees have the places of their tokens.
#![tactic(auto)]

ghost use Rattle.std.specs.Prelude.{◌≡◌, ◌≤◌, ◌+◌, ◌↔◌, ℕ, Bool, true, false, List, [], ◌∷◌, ◌++◌, length, take, Option, None, Some};
ghost use Rattle.es3_tree.specs.Placed.{Placed};
ghost use Rattle.es3_tree.specs.Tree as t;
ghost use Rattle.es3_tokens.specs.Tokens as tokens;
ghost use Rattle.es3_grammar.specs.Spots.{Spot, spots};
ghost use Rattle.es3_grammar.specs.Grammar.{Spells, free, spells};
ghost use Rattle.es3_grammar.specs.Begins.{Begins, StopsAt};
ghost use Rattle.es3_grammar.specs.Limit.{turn, counted, Within, BeginsWithin};
ghost use Rattle.es3_grammar.specs.Machine.{step, ending, beginning, read, read_phrase, whole, phrase, part, stopped};
ghost use Rattle.es3_grammar.specs.Frames.{Stack, State, want, no_in_here};
ghost use Rattle.es3_grammar.specs.Ends.{stepped, height_at, height_behind};
ghost use Rattle.es3_grammar.specs.Sums.{rise, around, sums, brackets_in, Steady, within_by, read_quickly};
ghost use Rattle.es3_grammar.specs.Within.{is_within, read_within, program, broken, refused, too_deep, RefusedAt, DeepAt};
ghost use Rattle.es3_grammar.specs.Longest.{ExprWithin, BeginsExpr, BeginsExprWithin, Longest, Best, ExprRefusedAt, ExprDeepAt, StopsExpr, KnownExpr, better, read_longest};

/// Reading is the grammar: the machine reads a program of the tokens exactly where they spell it.
#[tactic(auto, using(crate::proofs::Exact::reading))]
pub fn reading_is_the_grammar()
    ensures { (p : Placed t.program) (ts : List tokens.Placed) → (read (spots ts) ≡ whole p) ↔ spells p ts }
{}

/// No tokens are spelled by two programs.
#[tactic(auto, using(crate::proofs::OneTree::one_tree))]
pub fn tokens_spell_one_program()
    ensures { (p q : Placed t.program) (ts : List tokens.Placed) → spells p ts → spells q ts → p ≡ q }
{}

/// The same of expressions (ES3 11.14) alone: the machine reads one of the tokens exactly where they spell it, so no tokens are spelled
/// by two; and tokens that begin a program are never read as one.
#[tactic(auto, using(crate::proofs::Phrases::phrases, crate::proofs::Stops::no_program_is_a_phrase))]
pub fn reading_expressions_is_the_grammar()
    ensures read { (x : Placed t.expr) (u : List Spot) → (read_phrase u ≡ phrase x) ↔ Spells t.expr free 0 x u }
    ensures apart { (x : Placed t.expr) (u : List Spot) → read u ≡ phrase x → ⊥ }
{}

/// The machine refuses the first token with which no program goes on, and none before it; where it refuses none and has no whole
/// program either, a program goes on behind the last token.
#[tactic(auto, using(crate::proofs::Stops::stops_exactly, crate::proofs::Stops::breaks_off))]
pub fn reading_stops_exactly()
    ensures refused { (u : List Spot) (c : Spot) (k : List Spot) → read u ≡ stopped (c ∷ k) → StopsAt u c k }
    ensures ended { (u : List Spot) → read u ≡ part → Begins u }
{}

/// Reading within a limit is the grammar within it: a program is read exactly where the tokens spell it and neither its nesting nor
/// its open brackets pass the limit.
#[tactic(auto, using(crate::proofs::Limits::within_sound, crate::proofs::Limits::within_complete))]
pub fn reading_within_is_the_grammar()
    ensures sound { (limit : ℕ) (p : Placed t.program) (u : List Spot) → read_within limit u ≡ program p → Within limit p u }
    ensures complete { (limit : ℕ) (p : Placed t.program) (u : List Spot) → Within limit p u → read_within limit u ≡ program p }
{}

/// Each refusal within a limit has a token and is exact: a token is refused where it is the first with which no program goes on, and
/// too deep where it is the first with which none within the limit goes on but a deeper one does; where neither comes and no program
/// is read, one within the limit goes on behind the last token.
#[tactic(auto, using(crate::proofs::Limits::refused_at, crate::proofs::Limits::deep_at, crate::proofs::Limits::broken_off, crate::proofs::Limits::refused_some))]
pub fn reading_within_stops_exactly()
    ensures refused { (limit : ℕ) (u : List Spot) (c : Spot) (k : List Spot) → read_within limit u ≡ refused (c ∷ k) → RefusedAt limit u c k }
    ensures deep { (limit : ℕ) (u : List Spot) (c : Spot) (k : List Spot) → read_within limit u ≡ too_deep (c ∷ k) → DeepAt limit u c k }
    ensures broken { (limit : ℕ) (u : List Spot) → read_within limit u ≡ broken → BeginsWithin limit u }
    ensures some { (limit : ℕ) (u : List Spot) → ((read_within limit u ≡ refused [] → ⊥) × (read_within limit u ≡ too_deep [] → ⊥)) }
{}

/// The sums of a stack, which one frame more changes by its own parts alone, say how deep the shortest end makes the tree, what a
/// prefix `++` or `--` waits for, and whether an `in` is an operator.
pub fn sums_tell_heights()
    ensures at { (f : Stack) (b : Bool) (h : ℕ) → height_at b f h ≡ rise (around b (sums f)) h }
    ensures behind { (f : Stack) (h : ℕ) → height_behind f h ≡ rise (sums f).behind h }
    ensures steps { (f : Stack) → stepped f ≡ (sums f).stepped }
    ensures bars { (f : Stack) → no_in_here f ≡ (sums f).no_in }
{}

/// A state tells how many brackets are open, each step turns that count by its token, and the stack's sums tell how many the shortest
/// end opens at once: the test against a limit by them is the test by that end, and reading with it is reading within the limit.
pub fn sums_tell_brackets()
    ensures first { (brackets_in beginning ≡ 0) × Steady beginning }
    ensures counts { (s r : State) (c : Spot) → Steady s → step s c ≡ Some r → brackets_in r ≡ turn (brackets_in s) c }
    ensures steady { (s r : State) (c : Spot) → Steady s → step s c ≡ Some r → Steady r }
    ensures tests { (limit o : ℕ) (s : State) → Steady s → o ≡ brackets_in s → is_within limit o s ≡ within_by limit o s }
    ensures reads { (limit : ℕ) (u : List Spot) → read_quickly limit u ≡ read_within limit u }
{}

/// Reading an expression (ES3 11.14) alone within a limit is the grammar within it: the machine stands at a whole expression exactly
/// behind the tokens that spell one within the limit, it comes there over each such tokens, and it never stands at a whole program.
pub fn reading_expressions_within_is_the_grammar()
    ensures first { (limit : ℕ) → 1 ≤ limit → KnownExpr limit [] (want []) }
    ensures on { (limit : ℕ) (u : List Spot) (s r : State) (c : Spot) → KnownExpr limit u s → step s c ≡ Some r
        → within_by limit (turn (counted 0 u) c) r ≡ true → KnownExpr limit (u ++ c ∷ []) r }
    ensures sound { (limit : ℕ) (u : List Spot) (s : State) (x : Placed t.expr) → KnownExpr limit u s → ending s ≡ phrase x → ExprWithin limit x u }
    ensures complete { (limit : ℕ) (u : List Spot) (s : State) (x : Placed t.expr) → KnownExpr limit u s → ExprWithin limit x u → ending s ≡ phrase x }
    ensures reached { (limit : ℕ) (u : List Spot) (x : Placed t.expr) → ExprWithin limit x u → (s : State) × KnownExpr limit u s × (ending s ≡ phrase x) }
    ensures apart { (limit : ℕ) (u : List Spot) (s : State) (p : Placed t.program) → KnownExpr limit u s → ending s ≡ whole p → ⊥ }
{}

/// Behind the tokens that are read an expression within the limit goes on. With a token that is refused none goes on, within the limit
/// or not; with one that leads past the limit a deeper one does, and none within it.
pub fn reading_expressions_within_stops_exactly()
    ensures begins { (limit : ℕ) (u : List Spot) (s : State) → KnownExpr limit u s → BeginsExprWithin limit u }
    ensures refused { (limit : ℕ) (u : List Spot) (s : State) (c : Spot) → KnownExpr limit u s → step s c ≡ None → BeginsExpr (u ++ c ∷ []) → ⊥ }
    ensures deep { (limit : ℕ) (u : List Spot) (s r : State) (c : Spot) → KnownExpr limit u s → step s c ≡ Some r
        → within_by limit (turn (counted 0 u) c) r ≡ false → BeginsExpr (u ++ c ∷ []) × (BeginsExprWithin limit (u ++ c ∷ []) → ⊥) }
{}

/// The longest expression so far goes on with each token that is read, and it is the longest of all where reading stops: at a token
/// that is refused or too deep, whatever stands behind it.
pub fn the_longest_goes_on()
    ensures first { (limit : ℕ) → Best limit [] None }
    ensures on { (limit : ℕ) (u : List Spot) (c : Spot) (r : State) (best : Option ℕ) → KnownExpr limit (u ++ c ∷ []) r → Best limit u best
        → Best limit (u ++ c ∷ []) (better r (length u + 1) best) }
    ensures counts { (u : List Spot) (c : Spot) → counted 0 (u ++ c ∷ []) ≡ turn (counted 0 u) c }
    ensures refused { (limit : ℕ) (u : List Spot) (s : State) (c : Spot) (k : List Spot) (best : Option ℕ) → KnownExpr limit u s → step s c ≡ None
        → Best limit u best → Best limit (u ++ c ∷ k) best × ExprRefusedAt limit (u ++ c ∷ k) c k }
    ensures deep { (limit : ℕ) (u : List Spot) (s r : State) (c : Spot) (k : List Spot) (best : Option ℕ) → KnownExpr limit u s → step s c ≡ Some r
        → within_by limit (turn (counted 0 u) c) r ≡ false → Best limit u best → Best limit (u ++ c ∷ k) best × ExprDeepAt limit (u ++ c ∷ k) c k }
{}

/// What is found is the longest expression at the front of the tokens within the limit, or that there is none, and reading stops at its
/// exact place; there is one longest, which the machine reads from its tokens alone. A limit of 0 leaves room for no expression, so that
/// there is no place then.
pub fn the_longest_is_found()
    ensures best { (limit : ℕ) (u : List Spot) → Best limit u (read_longest limit u).best }
    ensures stops { (limit : ℕ) (u : List Spot) → 1 ≤ limit → StopsExpr limit u (read_longest limit u).stop }
    ensures counts { (limit : ℕ) (u : List Spot) (x : Placed t.expr) (n : ℕ) → Longest limit u x n → (read_longest limit u).best ≡ Some n }
    ensures reads { (limit : ℕ) (u : List Spot) (x : Placed t.expr) (n : ℕ) → Longest limit u x n → read_phrase (take n u) ≡ phrase x }
    ensures one { (limit : ℕ) (u : List Spot) (x y : Placed t.expr) (n m : ℕ) → Longest limit u x n → Longest limit u y m → (x ≡ y) × (n ≡ m) }
{}

//! What a text of ECMAScript 3 does names live objects alone: begun in a store that names live ones alone, it ends so, and no object is gone.
//!
//! What the laws say stands in specs/ here and in es3_live; there is no code. The functions have no body: each one's contract is a law.
#![tactic(auto)]

ghost use Rattle.std.specs.Prelude.{ℕ, ◌<◌, List, [], All, length, ⊤};
ghost use Rattle.es3_tree.specs.Tree as t;
ghost use Rattle.es3_objects.specs.declared.value.Value.{Value};
ghost use Rattle.es3_heap.specs.Objects.{Objects};
ghost use Rattle.es3_language.specs.Natives.{Table};
ghost use Rattle.es3_language.specs.Store.{Store};
ghost use Rattle.es3_language.specs.Meaning.{run_program, run_call};
ghost use Rattle.es3_language.specs.Rows.{empty_store, no_natives};
ghost use Rattle.es3_live.specs.Live.{IsLive, AreClosed};
ghost use Rattle.es3_live.specs.Runs.{LiveStore};
ghost use Rattle.es3_live.specs.Keeps.{KeepsLive};
ghost use Rattle.es3_kept.specs.Kept.{KeptRun, AlwaysFits};

/// Functions that are no texts, and when what they keep fits a store's objects.
pub trait FittedNatives {
    /// What they keep.
    ghost State: { Type 0 };

    /// What each of them does, and what a touch leaves.
    ghost table: { Table State };

    /// When what they keep fits a store's objects.
    ghost fits: { State → Objects → Type 0 };
}

/// A program (ES3 14), with any number of steps: with natives that name live objects alone, in a store that does, with which what they keep fits. However
/// its run comes to an end, as an ending, by a fault of its own or of a native, or for want of steps, its store names live objects alone, and so does
/// how it ended; no object is gone or of another class; and what the natives keep fits the objects still.
pub fn a_program_keeps_objects_live<N: FittedNatives>()
    ensures { (p : t.Tree t.program) (by : ℕ) (s : Store) (z : N.State) (n : ℕ) → KeepsLive N.fits N.table → LiveStore s → N.fits z s.heap → KeptRun N.fits s.heap (run_program N.table p by s z n) }
{}

/// A call from outside (13.2.1) of a live value, with a live receiver and live arguments: the same.
pub fn a_call_keeps_objects_live<N: FittedNatives>()
    ensures { (f this : Value) (vs : List Value) (by : ℕ) (s : Store) (z : N.State) (n : ℕ)
        → KeepsLive N.fits N.table → LiveStore s → IsLive (length s.heap.list) f → IsLive (length s.heap.list) this → All (IsLive (length s.heap.list)) vs → N.fits z s.heap
        → KeptRun N.fits s.heap (run_call N.table f this vs by s z n) }
{}

/// A store in which no text ran yet names live objects alone, where its objects do and its global object is one of them.
#[tactic(auto, using(crate::proofs::Rows::new_store_live))]
pub fn a_store_begins_live()
    ensures { (h : Objects) (g : ℕ) → AreClosed h → g < length h.list → LiveStore (record { heap = h; scopes = []; codes = []; globals = g; shared = [] }) }
{}

/// Natives that only throw undefined name live objects alone.
#[tactic(auto, using(crate::proofs::Rows::throwing_keeps))]
pub fn natives_that_throw_keep_objects_live()
    ensures { KeepsLive AlwaysFits no_natives }
{}

/// So a program by itself, in a store whose global object has no names, keeps objects live.
#[tactic(auto, using(crate::proofs::Rows::program_alone_kept))]
pub fn a_program_by_itself_keeps_objects_live()
    ensures { (p : t.Tree t.program) (by n : ℕ) → KeptRun AlwaysFits empty_store.heap (run_program no_natives p by empty_store tt n) }
{}

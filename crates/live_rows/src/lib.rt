//! What a row comes to among the objects of ES3 names live objects alone. There is no code: the functions here have no bodies, and each one's contract is a law.
//!
//! What it means is specs/Live.antt; which built-in functions a row names, specs/Named.antt. No row has a law of its own: one induction is for all rows
//! (proofs/Rows.antt), over a law for each way in which a row ends.
#![tactic(auto)]

ghost use Rattle.std.specs.Prelude.{◌≡◌, ℕ, List, true, length, All};
ghost use Rattle.es3_objects.specs.declared.value.Value.{Value};
ghost use Rattle.es3_heap.specs.Objects.{Objects};
ghost use Rattle.es3_live.specs.Live.{IsLive, AreClosed};
ghost use Rattle.rows.specs.Rows.{Native, Row};
ghost use Rattle.heap_rows.specs.Natives.{is_common};
ghost use Rattle.heap_rows.specs.Opening.{place_of, built_ins_there};
ghost use Rattle.heap_rows.specs.Doing.{Page, Told, does};
ghost use Rattle.live_rows.specs.Named.{RowNames};
ghost use Rattle.live_rows.specs.Live.{IsThere, LivePage, LiveCame};

/// Whatever a row is, done with live values among closed objects, it takes no object away, leaves closed objects and a live page, and answers live values. The
/// built-in functions that it names must stand among the objects.
pub fn what_a_row_comes_to_is_live()
    ensures { (fs : Native → ℕ) (by : ℕ) (q : Row) (vs : List Value) (h : Objects) (g : Page) (y : List Told) → RowNames (IsThere fs h) q → AreClosed h
        → All (IsLive (length h.list)) vs → LivePage (length h.list) g → LiveCame h (does fs by q vs h g y) }
{}

/// Where all built-in functions stand among the objects, so do those that a row names.
pub fn a_row_names_what_is_there()
    ensures { (fs : Native → ℕ) (h : Objects) (q : Row) → ((f : Native) → IsThere fs h f) → RowNames (IsThere fs h) q }
{}

/// The common ones stand among the objects of a page that has begun.
pub fn common_built_ins_are_there()
    ensures { (h : Objects) (f : Native) → built_ins_there h → is_common f ≡ true → IsThere place_of h f }
{}

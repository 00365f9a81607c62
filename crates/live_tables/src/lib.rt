//! What the rows of the tables come to names live objects alone, where a page has begun. There is no code: the functions here have no bodies, and each one's
//! contract is a law.
#![tactic(auto)]

ghost use Rattle.std.specs.Prelude.{ℕ, List, length, All};
ghost use Rattle.es3_objects.specs.declared.value.Value.{Value};
ghost use Rattle.es3_heap.specs.Objects.{Objects};
ghost use Rattle.es3_live.specs.Live.{IsLive, AreClosed};
ghost use Rattle.rows.specs.Rows.{Native, Row};
ghost use Rattle.heap_rows.specs.Opening.{place_of, built_ins_there};
ghost use Rattle.live_rows.specs.Named.{RowNames};
ghost use Rattle.live_rows.specs.Live.{IsThere, LiveDone};
ghost use Rattle.row_outcomes.specs.Comes.{row_done};
ghost use Rattle.row_simulation.specs.Among.{IsAmongObjects};

/// A row that is among objects names built-in functions that stand in their places.
pub fn rows_among_objects_name_what_is_there()
    ensures { (h : Objects) (q : Row) → built_ins_there h → IsAmongObjects q → RowNames (IsThere place_of h) q }
{}

/// What the row of a built-in function comes to names live objects alone, where its receiver and its arguments are live.
pub fn what_a_built_in_comes_to_is_live()
    ensures { (f : Native) (by : ℕ) (this : Value) (args : List Value) (h : Objects) → built_ins_there h → AreClosed h → IsLive (length h.list) this
        → All (IsLive (length h.list)) args → LiveDone h (row_done f by this args h) }
{}

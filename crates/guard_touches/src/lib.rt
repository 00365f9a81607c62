//! What the guards touch: an object with a name, at a key where there is one. The log of a page has a line for each touch, where
//! touches are asked for.
#![tactic(auto)]

mod touches;

ghost use Rattle.std.specs.Prelude.{◌≡◌, ℕ, false, List, []};
ghost use Rattle.es3_objects.specs.declared.value.Value.{Value};
ghost use Rattle.es3_heap.specs.Objects.{Objects};
ghost use Rattle.heap_rows.specs.Doing.{heard};
ghost use Rattle.guard_runtime.specs.declared.Guard.{Guard};
ghost use Rattle.guard_runtime.specs.Guards.{done_of};
ghost use Rattle.guard_touches.specs.Touches.{touches_of};

pub use touches::touched_by;

/// What a guard tells is what it touches, and nothing of it is heard where touches are not asked for.
pub fn a_guard_tells_what_it_touches()
    ensures touches { (guard : Guard) (by : ℕ) (args : List Value) (h : Objects) → (done_of guard by args h).items ≡ touches_of guard by args h }
    ensures unheard { (guard : Guard) (by : ℕ) (args : List Value) (h : Objects) → heard false (done_of guard by args h).items ≡ [] }
{}

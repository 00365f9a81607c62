//! Laws of the guards. There is no code: the functions here have no bodies, and each one's contract is a law.

ghost use Rattle.std.specs.Prelude.{ℕ, ◌<◌, List, length, All};
ghost use Rattle.es3_objects.specs.declared.value.Value.{Value};
ghost use Rattle.es3_heap.specs.Objects.{Objects};
ghost use Rattle.es3_live.specs.Live.{IsLive, AreClosed};
ghost use Rattle.heap_rows.specs.Opening.{built_ins_there};
ghost use Rattle.live_rows.specs.Live.{LiveDone};
ghost use Rattle.guard_runtime.specs.declared.Guard.{Guard};
ghost use Rattle.guard_runtime.specs.Guards.{load_module, done_of};

/// What a guard comes to names live objects alone (ES3 8.6), where its arguments are live and the built-in functions stand in their
/// places.
pub fn what_a_guard_comes_to_is_live()
    ensures { (guard : Guard) (by : ℕ) (args : List Value) (h : Objects) → built_ins_there h → AreClosed h → All (IsLive (length h.list)) args
        → LiveDone h (done_of guard by args h) }
{}

/// What `loadModule` comes to names live objects alone, where the object of the runtime, the imports and the argument are live.
pub fn a_module_is_called_with_what_is_live()
    ensures { (runtime imports by : ℕ) (f : Value) (h : Objects) → AreClosed h → runtime < length h.list → imports < length h.list → IsLive (length h.list) f
        → LiveDone h (load_module runtime imports by f h) }
{}

//! Worked modules: sources, with all that the direct meaning gives for each: how the load ended, the steps that it took, and what was told, in order.
//!
//! specs/Shown.antt cuts, reads, judges, resolves and loads a source by computation, and specs/Pages.antt does the deeds of a page of such sources. Each row of
//! proofs/ is equal to what is expected; the files are named after what they show. There is no code. The functions here have no bodies: their contracts are
//! the rows that tell most, a few of each kind of form.
#![tactic(auto)]

ghost use Rattle.std.specs.Prelude.{ℕ, List, ◌≡◌, [], ◌∷◌, codes, map, pos};
ghost use Rattle.plans.specs.Plans.{number_fault, depth_fault};
ghost use Rattle.acts.specs.Acts.{fault};
ghost use Rattle.cajita_tree.specs.Tree as c;
ghost use Rattle.page_deeds.specs.Deeds as deed;
ghost use Rattle.page_deeds.specs.Deeds.{a_cell, a_result, to_load, to_tick, of_load, of_call, of_tick};
ghost use Rattle.page_deeds.specs.Shown as log;
ghost use Rattle.page_deeds.specs.Shown.{thing, by_return, by_throw, by_nothing};
ghost use Rattle.rows.specs.Rows as r;
ghost use Rattle.rows.specs.Rows.{to_get, to_set, to_delete, to_has, to_keys, to_call};
ghost use Rattle.rows.specs.Names.{of_cajita};
ghost use Rattle.cajita_meaning.specs.World.{World, Value, made_name, cell_name, own_name, built_name, tools_name, undefined, number, text, object};
ghost use Rattle.cajita_names.specs.Rules.{fixed_names};
ghost use Rattle.cajita_meaning.specs.Imports.{fixed_imports};
ghost use Rattle.cajita_meaning.specs.Asking.{entry_reply};
ghost use Rattle.cajita_meaning.specs.Direct.{gave, threw, made, got, touched, passed, granted, said, ended};
ghost use Rattle.cajita_meaning.specs.Events.{the_page};
ghost use Rattle.cajita_shown.specs.Shown.{came, faulted, spent, breaks, shown, shown_second, shown_call};
ghost use Rattle.cajita_shown.specs.Pages.{done, shown_page};

/// Without a grant a module may import the fixed names, in the order in which the rules have them, and no other name.
#[tactic(auto, using(crate::proofs::Imports::fixed_names_are_imported))]
pub fn a_module_imports_the_fixed_names()
    ensures { (m : ℕ) → map (λ p. p.0) (fixed_imports m) ≡ fixed_names }
{}

/// The module `var o = {x: 1}; o.x + 2;` gives 3, in ten steps: it makes one record, and reads one key of it.
#[tactic(auto, using(crate::proofs::Forms::record_read))]
pub fn a_member_is_read()
    ensures { shown (codes "var o = {x: 1}; o.x + 2;") 20 ≡
        came (gave (number (pos 3))) 10 (made 0 (made_name 0 0) ∷ touched 0 to_get (made_name 0 0) (codes "x" ∷ []) ∷ []) }
{}

/// Of `var o = {x: {}}; o.x;` it is told that the inner record is got out of the outer one; of `'ab'.charAt;` nothing is told, since a text is no
/// object.
#[tactic(auto, using(crate::proofs::Members::a_written_key_is_read, crate::proofs::Members::a_method_of_a_text_is_not_got))]
pub fn what_is_read_out_of_an_object_is_got()
    ensures record { shown (codes "var o = {x: {}}; o.x;") 10 ≡
        came (gave (object (made_name 0 0))) 8 (made 0 (made_name 0 0) ∷ made 0 (made_name 0 1) ∷ touched 0 to_get (made_name 0 1) (codes "x" ∷ []) ∷
        got 0 (made_name 0 1) (made_name 0 0) ∷ []) }
    ensures text { shown (codes "'ab'.charAt;") 10 ≡ came (gave (object (built_name r.char_at))) 4 [] }
{}

/// A key that ends in two underscores isn't written, `o['a' + '__'] = 1`, nor is `toString`: each is a TypeError `bad key` that the module makes.
/// `constructor` is a key like any other.
#[tactic(auto, using(crate::proofs::Members::a_hidden_key_is_not_written, crate::proofs::Members::a_key_named_toString_is_not_written, crate::proofs::Members::a_constructor_is_a_key))]
pub fn some_keys_are_never_written()
    ensures hidden { shown (codes "var o = {}; o['a' + '__'] = 1;") 20 ≡
        came (threw (object (made_name 0 1))) 11 (made 0 (made_name 0 0) ∷ touched 0 to_set (made_name 0 0) (codes "a__" ∷ []) ∷ made 0 (made_name 0 1) ∷ []) }
    ensures reserved { shown (codes "var o = {}; o.toString = 1;") 10 ≡
        came (threw (object (made_name 0 1))) 8 (made 0 (made_name 0 0) ∷ touched 0 to_set (made_name 0 0) (codes "toString" ∷ []) ∷
        made 0 (made_name 0 1) ∷ []) }
    ensures plain { shown (codes "var o = {}; o.constructor = 1; delete o.constructor; o.constructor;") 20 ≡
        came (gave undefined) 14 (made 0 (made_name 0 0) ∷ touched 0 to_set (made_name 0 0) (codes "constructor" ∷ []) ∷
        touched 0 to_delete (made_name 0 0) (codes "constructor" ∷ []) ∷ touched 0 to_get (made_name 0 0) (codes "constructor" ∷ []) ∷ []) }
{}

/// A frozen record isn't written, and a copy of it may be: `cajita.freeze({x: 1})` keeps its 1, where the copy gets a 2.
/// `cajita.freeze([1]).push(2);` throws `not writable`.
#[tactic(auto, using(crate::proofs::Cajita::a_frozen_record_is_not_written, crate::proofs::Arrays::a_frozen_array_is_not_pushed))]
pub fn what_is_frozen_stays()
    ensures record { shown (codes "var o = cajita.freeze({x: 1}); var c = cajita.copy(o); c.x = 2; var t = false; try { o.x = 3; } catch (e) { t = e.message; } [o.x, c.x, o === c, t].join(' ');") 50 ≡
        came (gave (text (codes "1 2 false not writable"))) 44 (made 0 (made_name 0 0) ∷ touched 0 to_get (tools_name of_cajita) (codes "freeze" ∷ []) ∷
        got 0 (tools_name of_cajita) (built_name r.freeze) ∷ touched 0 to_call (built_name r.freeze) [] ∷
        touched 0 to_get (tools_name of_cajita) (codes "copy" ∷ []) ∷ got 0 (tools_name of_cajita) (built_name r.copy) ∷
        touched 0 to_call (built_name r.copy) [] ∷ made 0 (made_name 0 1) ∷ touched 0 to_set (made_name 0 1) (codes "x" ∷ []) ∷
        touched 0 to_set (made_name 0 0) (codes "x" ∷ []) ∷ made 0 (made_name 0 2) ∷ touched 0 to_get (made_name 0 2) (codes "message" ∷ []) ∷
        touched 0 to_get (made_name 0 0) (codes "x" ∷ []) ∷ touched 0 to_get (made_name 0 1) (codes "x" ∷ []) ∷ made 0 (made_name 0 3) ∷
        touched 0 to_get (made_name 0 3) (codes "join" ∷ []) ∷ got 0 (made_name 0 3) (built_name r.join) ∷ touched 0 to_call (built_name r.join) [] ∷ []) }
    ensures array { shown (codes "cajita.freeze([1]).push(2);") 20 ≡
        came (threw (object (made_name 0 1))) 11 (made 0 (made_name 0 0) ∷ touched 0 to_get (tools_name of_cajita) (codes "freeze" ∷ []) ∷
        got 0 (tools_name of_cajita) (built_name r.freeze) ∷ touched 0 to_call (built_name r.freeze) [] ∷
        touched 0 to_get (made_name 0 0) (codes "push" ∷ []) ∷ got 0 (made_name 0 0) (built_name r.push) ∷ touched 0 to_call (built_name r.push) [] ∷
        made 0 (made_name 0 1) ∷ []) }
{}

/// An array takes an item behind its last one, `a[a.length] = 6`, and no key past that, nor one such as `'01'` that is no index.
#[tactic(auto, using(crate::proofs::Arrays::an_array_grows_at_its_end_only))]
pub fn an_array_grows_at_its_end()
    ensures { shown (codes "var a = [5]; a[a.length] = 6; var t = ''; try { a[a.length + 1] = 7; } catch (e) { t += 'x'; } try { a['01'] = 7; } catch (e) { t += 'y'; } a.join('-') + t;") 50 ≡
        came (gave (text (codes "5-6xy"))) 42 (made 0 (made_name 0 0) ∷ touched 0 to_get (made_name 0 0) (codes "length" ∷ []) ∷
        touched 0 to_set (made_name 0 0) (codes "1" ∷ []) ∷ touched 0 to_get (made_name 0 0) (codes "length" ∷ []) ∷
        touched 0 to_set (made_name 0 0) (codes "3" ∷ []) ∷ made 0 (made_name 0 1) ∷ touched 0 to_set (made_name 0 0) (codes "01" ∷ []) ∷
        made 0 (made_name 0 2) ∷ touched 0 to_get (made_name 0 0) (codes "join" ∷ []) ∷ got 0 (made_name 0 0) (built_name r.join) ∷
        touched 0 to_call (built_name r.join) [] ∷ []) }
{}

/// A call tests its function before its arguments are evaluated: in `f(t = 'yes')` with an undefined `f`, `t` stays. A method is looked up behind its
/// arguments, so `o.f(t += 'b')` evaluates them. A method that is read out of an array can't be called without it, and its arguments aren't
/// evaluated.
#[tactic(auto, using(crate::proofs::Calls::a_callee_is_tested_before_its_arguments, crate::proofs::Calls::a_method_call_looks_the_method_up_last, crate::proofs::Calls::a_method_of_arrays_is_not_called_plainly))]
pub fn parts_are_evaluated_in_order()
    ensures plain { shown (codes "var f; var t = 'no'; try { f(t = 'yes'); } catch (e) { t += e.message; } t;") 20 ≡
        came (gave (text (codes "nonot a function"))) 16 (made 0 (made_name 0 0) ∷ touched 0 to_get (made_name 0 0) (codes "message" ∷ []) ∷ []) }
    ensures method { shown (codes "var o = {}; var t = 'a'; try { o.f(t += 'b'); } catch (e) { t += e.message; } t;") 20 ≡
        came (gave (text (codes "abnot a function"))) 19 (made 0 (made_name 0 0) ∷ touched 0 to_get (made_name 0 0) (codes "f" ∷ []) ∷
        made 0 (made_name 0 1) ∷ touched 0 to_get (made_name 0 1) (codes "message" ∷ []) ∷ []) }
    ensures unbound { shown (codes "var p = [].push; var t = 0; try { p(t = 1); } catch (e) { t += e.message; } [1].push(2) + t;") 30 ≡
        came (gave (text (codes "20bad receiver"))) 24 (made 0 (made_name 0 0) ∷ touched 0 to_get (made_name 0 0) (codes "push" ∷ []) ∷
        got 0 (made_name 0 0) (built_name r.push) ∷ made 0 (made_name 0 1) ∷ touched 0 to_get (made_name 0 1) (codes "message" ∷ []) ∷
        made 0 (made_name 0 2) ∷ touched 0 to_get (made_name 0 2) (codes "push" ∷ []) ∷ got 0 (made_name 0 2) (built_name r.push) ∷
        touched 0 to_call (built_name r.push) [] ∷ []) }
{}

/// A function that names `arguments` makes a frozen array at each call, which is not changed by a write, `arguments[0] = 1`, nor by one to a
/// parameter.
#[tactic(auto, using(crate::proofs::Literals::arguments_are_frozen, crate::proofs::Literals::arguments_keep_what_was_passed))]
pub fn arguments_are_a_frozen_array()
    ensures frozen { shown (codes "function f(a) { arguments[0] = 1; } f(2);") 20 ≡
        came (threw (object (made_name 0 2))) 13 (made 0 (made_name 0 0) ∷ touched 0 to_call (made_name 0 0) [] ∷ made 0 (made_name 0 1) ∷
        touched 0 to_set (made_name 0 1) (codes "0" ∷ []) ∷ made 0 (made_name 0 2) ∷ passed 0 0 (made_name 0 2) ∷ []) }
    ensures kept { shown (codes "function f(a) { a = 5; return arguments[0]; } f(2);") 20 ≡
        came (gave (number (pos 2))) 15 (made 0 (made_name 0 0) ∷ touched 0 to_call (made_name 0 0) [] ∷ made 0 (made_name 0 1) ∷
        touched 0 to_get (made_name 0 1) (codes "0" ∷ []) ∷ []) }
{}

/// Each call of `counter`, a function that returns a function, has a variable of its own, which the function it returned goes on counting with.
#[tactic(auto, using(crate::proofs::Functions::a_closure_keeps_its_variables))]
pub fn closures_keep_variables()
    ensures { shown (codes "function counter() { var n = 0; return function () { n = n + 1; return n; }; } var a = counter(), b = counter(); a(); a(); [a(), b()].join();") 70 ≡
        came (gave (text (codes "3,1"))) 61 (made 0 (made_name 0 0) ∷ touched 0 to_call (made_name 0 0) [] ∷ made 0 (made_name 0 1) ∷
        passed 0 0 (made_name 0 1) ∷ touched 0 to_call (made_name 0 0) [] ∷ made 0 (made_name 0 2) ∷ passed 0 0 (made_name 0 2) ∷
        touched 0 to_call (made_name 0 1) [] ∷ touched 0 to_call (made_name 0 1) [] ∷ touched 0 to_call (made_name 0 1) [] ∷
        touched 0 to_call (made_name 0 2) [] ∷ made 0 (made_name 0 3) ∷ touched 0 to_get (made_name 0 3) (codes "join" ∷ []) ∷
        got 0 (made_name 0 3) (built_name r.join) ∷ touched 0 to_call (built_name r.join) [] ∷ []) }
{}

/// A `for in` over three keys, where the body deletes the second one and adds a fourth, visits the first and the third; each of the three takes its
/// step and is looked for.
#[tactic(auto, using(crate::proofs::Loops::for_in_skips_a_key_that_was_deleted))]
pub fn a_loop_visits_the_keys_that_are_left()
    ensures { shown (codes "var o = {x: 1, y: 2, z: 3}, t = ''; for (var k in o) { t += k; delete o.y; o.w = 4; } t;") 40 ≡
        came (gave (text (codes "xz"))) 39 (made 0 (made_name 0 0) ∷ touched 0 to_keys (made_name 0 0) [] ∷
        touched 0 to_has (made_name 0 0) (codes "x" ∷ []) ∷ touched 0 to_delete (made_name 0 0) (codes "y" ∷ []) ∷
        touched 0 to_set (made_name 0 0) (codes "w" ∷ []) ∷ touched 0 to_has (made_name 0 0) (codes "y" ∷ []) ∷
        touched 0 to_has (made_name 0 0) (codes "z" ∷ []) ∷ touched 0 to_delete (made_name 0 0) (codes "y" ∷ []) ∷
        touched 0 to_set (made_name 0 0) (codes "w" ∷ []) ∷ []) }
{}

/// A `return` in a `finally` stands in the place of a throw before it; where a `finally` ends of itself, the throw goes on.
#[tactic(auto, using(crate::proofs::Statements::a_finally_that_returns, crate::proofs::Statements::a_finally_keeps_the_throw))]
pub fn a_finally_comes_last()
    ensures returns { shown (codes "function f() { try { throw 1; } finally { return 2; } } f();") 20 ≡
        came (gave (number (pos 2))) 10 (made 0 (made_name 0 0) ∷ touched 0 to_call (made_name 0 0) [] ∷ []) }
    ensures keeps { shown (codes "try { throw 'x'; } finally { 5; }") 10 ≡ came (threw (text (codes "x"))) 6 [] }
{}

/// A `switch` whose `default` stands in the middle: a case falls through it, and it falls through into the next case. Cases are compared strictly.
#[tactic(auto, using(crate::proofs::Statements::a_switch_falls_through))]
pub fn a_switch_falls_through()
    ensures { shown (codes "function f(x) { var t = ''; switch (x) { case 1: t += 'a'; default: t += 'd'; case 2: t += 'b'; break; case 3: t += 'c'; } return t; } [f(1), f(2), f(3), f('1')].join();") 90 ≡
        came (gave (text (codes "adb,b,c,db"))) 83 (made 0 (made_name 0 0) ∷ touched 0 to_call (made_name 0 0) [] ∷ touched 0 to_call (made_name 0 0) [] ∷
        touched 0 to_call (made_name 0 0) [] ∷ touched 0 to_call (made_name 0 0) [] ∷ made 0 (made_name 0 1) ∷
        touched 0 to_get (made_name 0 1) (codes "join" ∷ []) ∷ got 0 (made_name 0 1) (built_name r.join) ∷ touched 0 to_call (built_name r.join) [] ∷ []) }
{}

/// A number fault passes `catch` and `finally`: of `try { say('a'); -{}; } ..` only the `a` is said. The depth fault does as well, where a function
/// calls itself within `try` until a thousand calls are open.
#[tactic(auto, using(crate::proofs::Faults::a_fault_is_not_caught, crate::proofs::Depth::a_depth_fault_is_not_caught))]
pub fn faults_are_never_caught()
    ensures number { shown (codes "try { say('a'); -{}; } catch (e) { say('b'); } finally { say('c'); }") 20 ≡
        faulted number_fault 11 (touched 0 to_call (own_name 0 0) [] ∷ said 0 (codes "a") ∷ made 0 (made_name 0 0) ∷ []) }
    ensures depth { shown_call (codes "(function f(n) { try { return f(n + 1); } catch (e) { say('c'); } finally { say('f'); } });") 997 (number (pos 0) ∷ []) 30 ≡
        faulted depth_fault 25 (touched 0 to_call (made_name 0 0) [] ∷ touched 0 to_call (made_name 0 0) [] ∷ touched 0 to_call (made_name 0 0) [] ∷
        touched 0 to_call (made_name 0 0) [] ∷ []) }
{}

/// Where 990 calls are open, `function f(n) { return n === 0 ? 0 : f(n - 1); }` gives 0 for 9, and for 10 the call of one more is the depth fault. No
/// closure is entered where a thousand are open.
#[tactic(auto, using(crate::proofs::Depth::a_thousand_calls_may_be_open, crate::proofs::Depth::one_call_more_is_a_fault, crate::proofs::Depth::no_call_is_entered_beyond_a_thousand))]
pub fn no_more_than_a_thousand_calls_are_open()
    ensures allowed { shown_call (codes "function f(n) { return n === 0 ? 0 : f(n - 1); } f;") 990 (number (pos 9) ∷ []) 110 ≡
        came (gave (number (pos 0))) 107 (touched 0 to_call (made_name 0 0) [] ∷ touched 0 to_call (made_name 0 0) [] ∷ touched 0 to_call (made_name 0 0) [] ∷
        touched 0 to_call (made_name 0 0) [] ∷ touched 0 to_call (made_name 0 0) [] ∷ touched 0 to_call (made_name 0 0) [] ∷
        touched 0 to_call (made_name 0 0) [] ∷ touched 0 to_call (made_name 0 0) [] ∷ touched 0 to_call (made_name 0 0) [] ∷
        touched 0 to_call (made_name 0 0) [] ∷ []) }
    ensures fault { shown_call (codes "function f(n) { return n === 0 ? 0 : f(n - 1); } f;") 990 (number (pos 10) ∷ []) 120 ≡
        faulted depth_fault 111 (touched 0 to_call (made_name 0 0) [] ∷ touched 0 to_call (made_name 0 0) [] ∷ touched 0 to_call (made_name 0 0) [] ∷
        touched 0 to_call (made_name 0 0) [] ∷ touched 0 to_call (made_name 0 0) [] ∷ touched 0 to_call (made_name 0 0) [] ∷
        touched 0 to_call (made_name 0 0) [] ∷ touched 0 to_call (made_name 0 0) [] ∷ touched 0 to_call (made_name 0 0) [] ∷
        touched 0 to_call (made_name 0 0) [] ∷ touched 0 to_call (made_name 0 0) [] ∷ []) }
    ensures closure { (f : c.Tree c.func) (chain : List ℕ) (m : ℕ) (vs : List Value) (by : ℕ) (w : World) → entry_reply f chain m vs 1000 by w ≡
        fault depth_fault w }
{}

/// Ten steps are enough for the module of ten steps; with nine of them its run is cut, and what was told until then stays.
#[tactic(auto, using(crate::proofs::Faults::the_last_step_is_enough, crate::proofs::Faults::a_step_less_is_not_enough))]
pub fn the_last_step_counts()
    ensures enough { shown (codes "var o = {x: 1}; o.x + 2;") 10 ≡
        came (gave (number (pos 3))) 10 (made 0 (made_name 0 0) ∷ touched 0 to_get (made_name 0 0) (codes "x" ∷ []) ∷ []) }
    ensures cut { shown (codes "var o = {x: 1}; o.x + 2;") 9 ≡ spent (made 0 (made_name 0 0) ∷ touched 0 to_get (made_name 0 0) (codes "x" ∷ []) ∷ []) }
{}

/// The module `(function (g) { return g({}); });` is called by a second one, `c(function (o) { return [o]; });`: the first makes the record, the
/// second the array, each by its own count, and both are passed over. An error that a function of the first makes is the first's.
#[tactic(auto, using(crate::proofs::Modules::a_callback_runs_as_the_module_that_made_it, crate::proofs::Modules::an_error_is_made_by_the_module_that_runs))]
pub fn a_closure_runs_as_its_maker()
    ensures callback { shown_second (codes "(function (g) { return g({}); });") (codes "c(function (o) { return [o]; });") 60 ≡
        came (gave (object (made_name 1 1))) 15 (made 1 (made_name 1 0) ∷ touched 1 to_call (made_name 0 0) [] ∷ passed 1 0 (made_name 1 0) ∷
        made 0 (made_name 0 1) ∷ touched 0 to_call (made_name 1 0) [] ∷ passed 0 1 (made_name 0 1) ∷ made 1 (made_name 1 1) ∷ passed 1 0 (made_name 1 1) ∷
        passed 0 1 (made_name 1 1) ∷ []) }
    ensures error { shown_second (codes "({f: function (o) { o.x = 1; }});") (codes "var r; try { c.f(cajita.freeze({})); } catch (e) { r = e; } r.message;") 60 ≡
        came (gave (text (codes "not writable"))) 24 (made 1 (made_name 1 0) ∷ touched 1 to_get (tools_name of_cajita) (codes "freeze" ∷ []) ∷
        got 1 (tools_name of_cajita) (built_name r.freeze) ∷ touched 1 to_call (built_name r.freeze) [] ∷ touched 1 to_get (made_name 0 1) (codes "f" ∷ []) ∷
        got 1 (made_name 0 1) (made_name 0 0) ∷ touched 1 to_call (made_name 0 0) [] ∷ passed 1 0 (made_name 1 0) ∷
        touched 0 to_set (made_name 1 0) (codes "x" ∷ []) ∷ made 0 (made_name 0 2) ∷ passed 0 1 (made_name 0 2) ∷
        touched 1 to_get (made_name 0 2) (codes "message" ∷ []) ∷ []) }
{}

/// The second module's first object is its number 0, whatever the first one made.
#[tactic(auto, using(crate::proofs::Modules::a_name_is_counted_for_each_module))]
pub fn names_are_counted_by_module()
    ensures { shown_second (codes "var a = [], b = {}; b;") (codes "var o = {}; o.c = c; o;") 60 ≡
        came (gave (object (made_name 1 0))) 11 (made 1 (made_name 1 0) ∷ touched 1 to_set (made_name 1 0) (codes "c" ∷ []) ∷ []) }
{}

/// `arguments;` outside of functions is refused by rule 10 at 0, and `delete x;` by rule 12 at 0, the first of its two faults.
#[tactic(auto, using(crate::proofs::Refused::arguments_outside_of_functions, crate::proofs::Refused::the_first_of_two_faults))]
pub fn a_source_that_breaks_a_rule_is_refused()
    ensures arguments { shown (codes "arguments;") 10 ≡ breaks 10 0 }
    ensures first { shown (codes "delete x;") 10 ≡ breaks 12 0 }
{}

/// A page of two modules that share a cell: the first keeps a record there and gives a function; the second changes the record, and lets a function wait,
/// which calls the first one's with it. The one event gets 2, which is read by the first module; for the next nothing waits.
#[tactic(auto, using(crate::proofs::Pages::a_cell_is_shared_and_a_function_waits))]
pub fn a_page_goes_on_after_its_loads()
    ensures { shown_page
        (to_load 0 (codes "k.set({v: 1}); ({f: function (x) { return x.v; }});") ((codes "k", a_cell 0) ∷ []) ∷
        to_load 1 (codes "k.get().v = 2; later(function () { return a.f(k.get()); });") ((codes "k", a_cell 0) ∷ (codes "a", a_result 0) ∷ []) ∷
        to_tick 0 1 ∷ to_tick 1 1 ∷ []) 200 ≡
        done (granted 0 (cell_name 0 0) ∷ made 0 (made_name 0 0) ∷ touched 0 to_get (cell_name 0 0) (codes "set" ∷ []) ∷ got 0 (cell_name 0 0) (cell_name 0 2) ∷
        touched 0 to_call (cell_name 0 2) [] ∷ made 0 (made_name 0 1) ∷ made 0 (made_name 0 2) ∷ passed 0 the_page (made_name 0 2) ∷
        ended (of_load 0) (by_return (thing log.a_record (made_name 0 2))) ∷
        granted 1 (cell_name 0 0) ∷ granted 1 (made_name 0 2) ∷ touched 1 to_get (cell_name 0 0) (codes "get" ∷ []) ∷ got 1 (cell_name 0 0) (cell_name 0 1) ∷
        touched 1 to_call (cell_name 0 1) [] ∷ got 1 (cell_name 0 1) (made_name 0 0) ∷ touched 1 to_set (made_name 0 0) (codes "v" ∷ []) ∷
        made 1 (made_name 1 0) ∷ touched 1 to_call (own_name 1 1) [] ∷ ended (of_load 1) (by_return log.undefined) ∷
        touched 1 to_get (cell_name 0 0) (codes "get" ∷ []) ∷ got 1 (cell_name 0 0) (cell_name 0 1) ∷ touched 1 to_call (cell_name 0 1) [] ∷
        got 1 (cell_name 0 1) (made_name 0 0) ∷ touched 1 to_get (made_name 0 2) (codes "f" ∷ []) ∷ got 1 (made_name 0 2) (made_name 0 1) ∷
        touched 1 to_call (made_name 0 1) [] ∷ passed 1 0 (made_name 0 0) ∷ touched 0 to_get (made_name 0 0) (codes "v" ∷ []) ∷
        ended (of_tick 0 1) (by_return (log.number (pos 2))) ∷ ended (of_tick 1 1) by_nothing ∷ []) }
{}

/// A load that throws has no result: a module that is granted it gets undefined, and an event that calls a key of it gets a TypeError, `no object`.
#[tactic(auto, using(crate::proofs::Pages::a_load_that_throws_has_no_result))]
pub fn a_load_that_throws_has_no_result()
    ensures { shown_page
        (to_load 0 (codes "throw {m: 1};") [] ∷ to_load 1 (codes "a;") ((codes "a", a_result 0) ∷ []) ∷ deed.to_call 0 0 (codes "f") [] ∷ []) 50 ≡
        done (made 0 (made_name 0 0) ∷ passed 0 the_page (made_name 0 0) ∷ ended (of_load 0) (by_throw (thing log.a_record (made_name 0 0))) ∷
        ended (of_load 1) (by_return log.undefined) ∷
        made 0 (made_name 0 1) ∷ passed 0 the_page (made_name 0 1) ∷
        ended (of_call 0 0 (codes "f")) (by_throw (log.error (made_name 0 1) (codes "TypeError") (codes "no object"))) ∷ []) }
{}

//! The object of the runtime, `___`, in texts that run as they stand: its guards, and marks that a text sets by itself.

use caja_cli::Status;
use command_runs::tables::{check_ends, check_gives};
use std::test::Fail;

/// What a guard leaves on an object is seen by the text that called it, and what a text sets itself is a mark for the guards.
static MARKS: &str = "
run ⇒ ___.loadModule(function (___, IMPORTS___) { var o = ___.initializeMap([\"x\", 1]); var b = o.x_canRead___; ___.readPub(o, \"x\"); return [b, o.x_canRead___].join(\" \"); }); ⇒ return \" true\"
run ⇒ var o = {x: 1}; o.x_canRead___ = true; ___.readPub(o, 'x'); ⇒ return 1
run ⇒ var o = {}; o.x_canSet___ = true; ___.setPub(o, 'x', 5); o.x; ⇒ return 5
run ⇒ var o = {x: 1}; o.FROZEN___ = true; try { ___.setPub(o, 'x', 2); } catch (e) { e.message + o.x; } ⇒ return \"not writable1\"
run ⇒ var o = {x: 1}; o.FROZEN___ = true; try { ___.deletePub(o, 'x'); } catch (e) { e.message + o.x; } ⇒ return \"not deletable1\"
run ⇒ var o = ___.initializeMap(['x', 1]); ___.readPub(o, 'x'); ___.deletePub(o, 'x'); [o.x, o.x_canRead___].join(' '); ⇒ return \" \"
run ⇒ var o = ___.initializeMap(['x', 1]); ___.setPub(o, 'x', 2); [o.x, o.x_canSet___].join(' '); ⇒ return \"2 true\"
run ⇒ function f() { return 3; } f.SIMPLEFUNC___ = true; ___.asSimpleFunc(f)(); ⇒ return 3
run ⇒ function f() { return 4; } ___.func(f); [f.SIMPLEFUNC___, ___.asSimpleFunc(f)()].join(' '); ⇒ return \"true 4\"
run ⇒ ___.keysPub({a: 1, b__: 2, c: 3}).join(' '); ⇒ return \"a c\"
run ⇒ var o = ___.initializeMap(['x', 1]); ___.readPub(o, 'x'); [___.inPub('x', o), ___.inPub('x_canRead___', o)].join(' '); ⇒ return \"true false\"
";

/// A guard takes what it is given wherever it is called from, and refuses what a module has no right to.
static GUARDS: &str = "
run ⇒ ___; ⇒ return record ?
run ⇒ ___ = 1; ___; ⇒ return 1
run ⇒ var r = ___.readPub; r({x: 2}, 'x'); ⇒ return 2
run ⇒ ___.key([1, [2]]); ⇒ return \"1,2\"
run ⇒ ___.readPub({a__: 1}, 'a__'); ⇒ return undefined
run ⇒ ___.callPub([1, 2], 'push', [3]); ⇒ return 3
run ⇒ ___.initializeArray([1, 2]).join('-'); ⇒ return \"1-2\"
run ⇒ ___.instanceOf(new TypeError('a'), TypeError); ⇒ return true
run ⇒ ___.construct(Error, ['a']); ⇒ return error main#0 Error \"a\"
run ⇒ ___.readPub(null, 'x'); ⇒ throw error main#0 TypeError \"no object\"
run ⇒ ___.setPub({}, 'a__', 1); ⇒ throw error main#0 TypeError \"bad key\"
run ⇒ function f() {} ___.asSimpleFunc(f); ⇒ throw error main#0 TypeError \"not a function\"
run ⇒ ___.callPub({f: function () { return 1; }}, 'f', []); ⇒ throw error main#0 TypeError \"not a function\"
run ⇒ ___.construct(function () {}, []); ⇒ throw error main#0 TypeError \"not a constructor\"
run ⇒ ___.loadModule(5); ⇒ throw error main#0 TypeError \"not a function\"
";

/// A conversion of a text's own, which only a text that no cajoler made can ask for, ends the run.
static CONVERSIONS: &str = "
run ⇒ ___.loadModule(function (___, IMPORTS___) { return {toString: 1} + \"\"; }); ⇒ end convert
";

#[test]
fn marks_are_seen_and_set_by_texts(rt: HostRuntime) -> Result<(), Fail> {
    check_gives(rt.alloc(), MARKS)
}

#[test]
fn guards_answer_texts_as_they_answer_modules(rt: HostRuntime) -> Result<(), Fail> {
    check_gives(rt.alloc(), GUARDS)
}

#[test]
fn a_conversion_in_a_module_of_a_text_ends_the_run(rt: HostRuntime) -> Result<(), Fail> {
    check_ends(rt.alloc(), CONVERSIONS, Status::Convert)
}

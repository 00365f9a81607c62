//! Modules that break a rule within a function: the source, and the line that refuses it.

use command_runs::runs::check_refusals;
use std::test::Fail;

/// `this`, in functions of every kind, and before faults that stand behind it.
static THIS: &str = "
function f() { return [this]; } ⇒ refused main rule 4 23
var f = function () { g(this); }; function g() {} ⇒ refused main rule 4 24
var o = {m: function () { return this.x; }}; ⇒ refused main rule 4 33
function f(a) { if (a) { return; } else { this; } } ⇒ refused main rule 4 42
function f() { for (var k in this) {} x; } ⇒ refused main rule 4 29
";

/// Names declared twice, masked or written to though they are settled.
static NAMES: &str = "
var f = function (a, b, a) {}; ⇒ refused main rule 5 24
function g() { var h; function h() {} } ⇒ refused main rule 5 31
function g(h) { return function () {}; function h() {} } ⇒ refused main rule 5 48
function g() { function h() {} function h() {} } ⇒ refused main rule 5 40
function g() { for (var h in {}) {} function h() {} } ⇒ refused main rule 5 45
(function () { function h() {} while (1) { var h; } }); ⇒ refused main rule 5 47
function f() { try {} catch (e) {} var e; } ⇒ refused main rule 6 29
function f() { for (var e in {}) {} try {} catch (e) {} } ⇒ refused main rule 6 50
function f() { function e() {} if (1) { try {} catch (e) {} } } ⇒ refused main rule 6 54
(function (e) { try {} catch (e) {} finally {} }); ⇒ refused main rule 6 30
function f() { try {} catch (a) { while (1) { try {} catch (a) {} } } } ⇒ refused main rule 6 60
function f() { say = 1; } ⇒ refused main rule 7 15
function f() { for (later in {}) {} } ⇒ refused main rule 7 20
function f() { g = 1; function g() {} } ⇒ refused main rule 7 15
function f() { return function () { f++; }; } ⇒ refused main rule 7 36
var f = function g() { g += 1; }; ⇒ refused main rule 7 23
var f = function g() { return function () { delete g.x; g = 1; }; }; ⇒ refused main rule 7 56
function f() { return cajita.x = undefined = 1; } ⇒ refused main rule 7 33
function f(Math) { Math = 1; return Number--; } ⇒ refused main rule 7 36
";

/// Names that nothing declares, and `arguments` outside functions.
static UNBOUND: &str = "
function f() { return a; } ⇒ refused main rule 10 22
function f() { var a; } a; ⇒ refused main rule 10 24
(function g() {}); g(); ⇒ refused main rule 10 19
try {} catch (e) {} function f() { return e; } ⇒ refused main rule 10 42
function f() { return typeof unknown; } ⇒ refused main rule 10 29
function f() { return arguments; } arguments; ⇒ refused main rule 10 35
[arguments]; function f() {} ⇒ refused main rule 10 1
function f(a) { return function (b) { return a + b + c; }; } ⇒ refused main rule 10 53
parseInt('1'); ⇒ refused main rule 10 0
new Array(3); ⇒ refused main rule 10 4
Object.keys({}); ⇒ refused main rule 10 0
function f() { return new Date(); } ⇒ refused main rule 10 26
";

/// Jumps that leave their function, and labels within statements of the same label.
static JUMPS: &str = "
while (1) { (function () { continue; }); } ⇒ refused main rule 11 27
a: while (1) { (function () { break a; }); } ⇒ refused main rule 11 30
function f() { switch (1) { case 1: continue; } } ⇒ refused main rule 11 36
function f() { a: { continue a; } } ⇒ refused main rule 11 20
function f() { a: while (1) { b: { a: ; } } } ⇒ refused main rule 11 35
function f() { if (1) break; } ⇒ refused main rule 11 22
function f() {} return 1; ⇒ refused main rule 11 16
if (1) { return; } ⇒ refused main rule 11 9
function f() { try { break; } finally { return; } } ⇒ refused main rule 11 21
";

/// `arguments` that is declared or written to.
static ARGUMENTS: &str = "
function f() { arguments = []; } ⇒ refused main rule 13 15
function f() { var arguments; } ⇒ refused main rule 13 19
function f() { function arguments() {} } ⇒ refused main rule 13 24
var f = function arguments() {}; ⇒ refused main rule 13 17
function f() { try {} catch (arguments) {} } ⇒ refused main rule 13 29
function f() { for (arguments in {}) {} } ⇒ refused main rule 13 20
function f() { for (var arguments in {}) {} } ⇒ refused main rule 13 24
function f() { return arguments++; } ⇒ refused main rule 13 22
function f() { arguments.length = 0; --arguments; } ⇒ refused main rule 13 39
function f() { arguments += 1; } ⇒ refused main rule 13 15
";

#[test]
fn functions_without_this(rt: HostRuntime) -> Result<(), Fail> {
    check_refusals(rt.alloc(), "solo", THIS)
}

#[test]
fn names_that_are_settled(rt: HostRuntime) -> Result<(), Fail> {
    check_refusals(rt.alloc(), "solo", NAMES)
}

#[test]
fn names_that_nothing_declares(rt: HostRuntime) -> Result<(), Fail> {
    check_refusals(rt.alloc(), "solo", UNBOUND)
}

#[test]
fn jumps_that_leave_a_function(rt: HostRuntime) -> Result<(), Fail> {
    check_refusals(rt.alloc(), "solo", JUMPS)
}

#[test]
fn arguments_that_are_written_to(rt: HostRuntime) -> Result<(), Fail> {
    check_refusals(rt.alloc(), "solo", ARGUMENTS)
}

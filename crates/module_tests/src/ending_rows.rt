//! Modules whose functions end in each way: `finally`, labels, `switch`, and what is thrown and caught.

use command_runs::tables::check_loads;
use std::test::Fail;

/// `finally` over each ending: the ending of its own block counts where there is one, else the other (12.14).
static FINALLY: &str = "
function f() { try { return 1; } finally { return 2; } } f(); ⇒ return 2
var t = ''; function f() { try { return 1; } finally { t = 'done'; } } f() + t; ⇒ return \"1done\"
var x = 1; function f() { try { return x; } finally { x = 2; } } f() + '/' + x; ⇒ return \"1/2\"
function f() { try { return 1; } finally { throw 2; } } var t; try { f(); } catch (e) { t = e; } t; ⇒ return 2
function f() { try { throw 1; } finally { throw 2; } } var t; try { f(); } catch (e) { t = e; } t; ⇒ return 2
function f() { try { throw 1; } catch (e) { return 'c' + e; } finally { 5; } } f(); ⇒ return \"c1\"
function f() { try { throw 1; } catch (e) { throw 'c'; } finally { return 'f'; } } f(); ⇒ return \"f\"
function f() { while (true) { try { return 1; } finally { break; } } return 2; } f(); ⇒ return 2
function f() { do { try { throw 1; } finally { continue; } } while (false); return 2; } f(); ⇒ return 2
function f() { l: try { return 1; } finally { break l; } return 2; } f(); ⇒ return 2
function f() { var i, t = ''; for (i = 0; i < 4; i++) { try { if (i === 1) { continue; } if (i === 3) { break; } t += i; } finally { t += 'f'; } } return t; } f(); ⇒ return \"0ff2ff\"
function f() { var t = ''; try { try { throw 1; } finally { t += 'a'; } } catch (e) { t += e; } finally { t += 'b'; } return t; } f(); ⇒ return \"a1b\"
function f() { try { try { return 1; } finally { return 2; } } finally { return 3; } } f(); ⇒ return 3
function f() { for (var k in {a: 1, b: 2}) { try { return k; } finally { continue; } } return k + '!'; } f(); ⇒ return \"b!\"
var t = ''; function f(n) { try { t += n; if (n === 0) { throw 'x'; } f(n - 1); } finally { t += n; } } try { f(2); } catch (e) { t += e; } t; ⇒ return \"210012x\"
var t = ''; function g() { t += 'g'; return 1; } function f() { try { return g(); } finally { t += 'f'; } } f(); t; ⇒ return \"gf\"
function f() { try { return 1; } finally { try { throw 2; } catch (e) { 3; } } } f(); ⇒ return 1
function f() { switch (1) { case 1: try { break; } finally { return 'f'; } } return 'end'; } f(); ⇒ return \"f\"
function f() { try { undefined.x; } finally { return 'f'; } } f(); ⇒ return \"f\"
";

/// Labels and jumps within functions (12.7, 12.8, 12.12).
static LABELS: &str = "
function f() { var n = 0; a: for (var i = 0; i < 3; i++) { for (var j = 0; j < 3; j++) { if (j === i) { continue a; } n += 1; } } return n; } f(); ⇒ return 3
function f() { a: for (var i = 0; ; i++) { while (true) { if (i === 4) { break a; } continue a; } } return i; } f(); ⇒ return 4
function f() { a: { b: { break a; } return 'no'; } return 'yes'; } f(); ⇒ return \"yes\"
function f() { a: if (true) { break a; } return 1; } f(); ⇒ return 1
function f() { a: b: while (true) { break a; } return 1; } f(); ⇒ return 1
function f() { var i = 0; a: b: do { i++; if (i < 3) { continue a; } } while (i < 5); return i; } f(); ⇒ return 5
function f() { a: for (var k in {x: 1, y: 2}) { for (var l in [1, 2]) { if (l === '1') { continue a; } } } return k + l; } f(); ⇒ return \"y1\"
a: for (var i = 0; i < 2; i++) { (function () { a: for (;;) { break a; } })(); } i; ⇒ return 2
function f() { var t = ''; a: for (var i = 0; i < 3; i++) { switch (i) { case 1: continue a; default: t += i; } t += '.'; } return t; } f(); ⇒ return \"0.2.\"
function f(n) { block: { if (n > 0) { break block; } return 'not'; } return 'positive'; } f(1) + f(0); ⇒ return \"positivenot\"
function f() { Math: for (;;) { break Math; } return Math.abs(-2); } f(); ⇒ return 2
";

/// `switch` in functions: by `===`, with fall through, with `default` in the middle (12.11).
static SWITCHES: &str = "
function f(n) { switch (n) { case 1: return 'one'; case 2: return 'two'; default: return 'many'; } } f(1) + f(2) + f(3); ⇒ return \"onetwomany\"
function f(n) { var t = ''; switch (n) { case 1: t += 'a'; case 2: t += 'b'; break; case 3: t += 'c'; } return t; } f(1) + '/' + f(2) + '/' + f(3) + '/' + f(4); ⇒ return \"ab/b/c/\"
function f(n) { var t = ''; switch (n) { case 1: t += 'a'; default: t += 'd'; case 2: t += 'b'; } return t; } f(1) + '/' + f(2) + '/' + f(5); ⇒ return \"adb/b/db\"
function f(v) { switch (v) { case 1: return 'n'; case '1': return 't'; case true: return 'b'; case null: return '0'; case undefined: return 'u'; } return '?'; } f('1') + f(1) + f(true) + f() + f(null) + f([1]); ⇒ return \"tnbu0?\"
var t = ''; function c(n) { t += n; return n; } switch (2) { case c(1): case c(2): t += '!'; case c(3): t += '?'; } t; ⇒ return \"12!?\"
var t = ''; function c(n) { t += n; return n; } switch (9) { case c(1): default: t += 'd'; break; case c(2): t += 'no'; } t; ⇒ return \"12d\"
function f(o) { switch (o) { case f: return 'itself'; default: return 'other'; } } f(f) + f({}); ⇒ return \"itselfother\"
function f() { for (var i = 0; i < 5; i++) { switch (i) { case 3: return i; } } } f(); ⇒ return 3
function f(n) { switch (true) { case n < 10: return 'small'; case n < 100: return 'middle'; } return 'large'; } f(5) + f(50) + f(500); ⇒ return \"smallmiddlelarge\"
function f(x) { switch (x) {} return 1; } f(2); ⇒ return 1
function f() { switch (1) { case 1: var x = 'in'; } return x; } f(); ⇒ return \"in\"
";

/// What is thrown through calls, caught, and thrown again.
static THROWN: &str = "
function f() { throw 'up'; } function g() { f(); return 'not'; } var t; try { g(); } catch (e) { t = e; } t; ⇒ return \"up\"
function f() { try { throw {n: 1}; } catch (e) { e.n++; throw e; } } var t; try { f(); } catch (e) { t = e.n; } t; ⇒ return 2
throw 5; ⇒ throw 5
throw 'a'; ⇒ throw \"a\"
throw {a: 1}; ⇒ throw record main#0
throw [1]; ⇒ throw array main#0
throw function () {}; ⇒ throw function main#0
throw null; ⇒ throw null
throw undefined; ⇒ throw undefined
throw say; ⇒ throw function main!say
function f() { throw 1; } try { f(); } catch (e) { throw e + 1; } ⇒ throw 2
1; throw 2; 3; ⇒ throw 2
var t = ''; try { t += 'a'; undefined.x; t += 'b'; } catch (e) { t += e.message; } t; ⇒ return \"ano object\"
var t; try { (function () { return nothing.x; var nothing; })(); } catch (e) { t = e.name + ': ' + e.message; } t; ⇒ return \"TypeError: no object\"
function f(n) { if (n === 0) { throw 'deep'; } f(n - 1); } var t; try { f(300); } catch (e) { t = e; } t; ⇒ return \"deep\"
function f() { try { return 1; } catch (e) { return 2; } } f(); ⇒ return 1
var e1, e2; try { undefined.x; } catch (e) { e1 = e; try { throw e; } catch (f) { e2 = f; } } e1 === e2; ⇒ return true
var t = 0; for (var i = 0; i < 3; i++) { try { throw i; } catch (e) { t += e; continue; } t = 100; } t; ⇒ return 3
";

/// The name of an object is the number of those that the module made before it, errors of guards among them.
static ERRORS_COUNTED: &str = "
null.x; ⇒ throw error main#0 TypeError \"no object\"
var o = {}; null.x; ⇒ throw error main#1 TypeError \"no object\"
function f() {} null.x; ⇒ throw error main#1 TypeError \"no object\"
[{}, [], function () {}]; ⇒ return array main#3
({a: {b: []}}); ⇒ return record main#2
try { null.x; } catch (e) {} ({}); ⇒ return record main#1
try { null.x; } catch (e) {} null.y; ⇒ throw error main#1 TypeError \"no object\"
function f() { return {}; } f(); f(); f(); ⇒ return record main#3
function f() { return function () {}; } f(); f(); ⇒ return function main#2
function f() { function g() {} function h() {} return {}; } f(); ⇒ return record main#3
function f() { arguments; function g() {} return g; } f(); ⇒ return function main#2
function f() { arguments; return arguments; } f(); f(); ⇒ return array main#2
for (var i = 0; i < 3; i++) { [i]; } [9]; ⇒ return array main#3
for (var k in {a: 1}) {} ({}); ⇒ return record main#1
new Error('a'); ⇒ return error main#0 Error \"a\"
[Error('a'), TypeError('b'), new RangeError('c')][2]; ⇒ return error main#2 RangeError \"c\"
'a b'.split(' '); ⇒ return array main#0
[1, 2].slice(1); ⇒ return array main#1
[1].concat([2]); ⇒ return array main#2
cajita.keys({a: 1}); ⇒ return array main#1
cajita.copy([1]); ⇒ return array main#1
cajita.snapshot({}); ⇒ return record main#1
cajita.freeze({}); ⇒ return record main#0
[].reverse(); ⇒ return array main#0
var f = function g() { return g; }; f(); ⇒ return function main#0
function a() {} function b() {} [a, b][1]; ⇒ return function main#1
[a]; function a() {} ⇒ return array main#1
";

/// What the load of a module gives: its last expression statement that stands directly in the module.
static VALUES: &str = "
function f() { return 1; } ⇒ return undefined
function f() { return 1; } f; ⇒ return function main#0
function f() { return 1; } f(); ⇒ return 1
1; function f() {} ⇒ return 1
1; if (true) { 2; } ⇒ return 1
1; (function () { 2; })(); ⇒ return undefined
1; { 2; } ⇒ return 1
1; for (var i = 0; i < 1; i++) { 2; } ⇒ return 1
1; var x = 2; ⇒ return 1
1; l: 2; ⇒ return 1
1; ; ⇒ return 1
({incr: function () { return 1; }}); ⇒ return record main#1
";

#[test]
fn finally_over_each_ending(rt: HostRuntime) -> Result<(), Fail> {
    check_loads(rt.alloc(), FINALLY)
}

#[test]
fn labels_within_functions(rt: HostRuntime) -> Result<(), Fail> {
    check_loads(rt.alloc(), LABELS)
}

#[test]
fn choices_with_fall_through(rt: HostRuntime) -> Result<(), Fail> {
    check_loads(rt.alloc(), SWITCHES)
}

#[test]
fn what_is_thrown_is_caught(rt: HostRuntime) -> Result<(), Fail> {
    check_loads(rt.alloc(), THROWN)
}

#[test]
fn objects_are_counted_from_zero(rt: HostRuntime) -> Result<(), Fail> {
    check_loads(rt.alloc(), ERRORS_COUNTED)
}

#[test]
fn values_of_modules(rt: HostRuntime) -> Result<(), Fail> {
    check_loads(rt.alloc(), VALUES)
}

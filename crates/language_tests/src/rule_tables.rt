//! Sources with the first rule of Cajita that each breaks, as its number and the byte of its place; zeros where it breaks none.

/// Hidden names and keys, `with`, `this`, keys of records, `delete`.
pub static KEYS_AND_FORMS: &str = "
foo__; ⇒ 1 0
var x; x.y__; ⇒ 1 9
var x; x['y__']; ⇒ 0 0
var x; x.y__ = 1; ⇒ 1 9
({y__: 1}); ⇒ 1 2
({'y__': 1}); ⇒ 1 2
var x__; ⇒ 1 4
function f__() {} ⇒ 1 9
(function f__() {}); ⇒ 1 10
function f(p__) {} ⇒ 1 11
for (var k__ in {}) ; ⇒ 1 9
try {} catch (e__) {} ⇒ 1 14
l__: ; ⇒ 1 0
while (1) break l__; ⇒ 11 10
l: while (1) { m__: continue l; } ⇒ 1 15
function f() { return {a: {b__: 1}}; } ⇒ 1 27
__; ⇒ 1 0
var a_; a_._; ⇒ 0 0
with ({}) ; ⇒ 2 0
function f(o) { with (o) ; } ⇒ 2 16
if (1) with ({}) this; ⇒ 2 7
l: with ({}) break l; ⇒ 2 3
this; ⇒ 4 0
function f() { return this.x; } ⇒ 4 22
({a: this}); ⇒ 4 5
switch (1) { case this: } ⇒ 4 18
({toString: 1}); ⇒ 8 2
({'valueOf': 1}); ⇒ 8 2
var o = {a: {b: 1, toString: 2}}; ⇒ 8 19
var o; o.toString; ⇒ 0 0
({a: 1, a: 2}); ⇒ 9 8
({a: 1, b: 2, 'a': 3}); ⇒ 9 14
({1: 1, '1': 2}); ⇒ 9 8
({16: 1, 0x10: 2}); ⇒ 9 9
({a: {a: 1}}); ⇒ 0 0
({a: 1, b: {a: 1, c: 2, a: 3}}); ⇒ 9 24
({a: 1, b: 2, c: 3, b: 4, a: 5}); ⇒ 9 20
var x; delete x; ⇒ 12 7
delete 1; ⇒ 12 0
var o; delete o.x; ⇒ 0 0
var o; delete o['x']; ⇒ 0 0
delete {}.x; ⇒ 0 0
var f; delete f(); ⇒ 12 7
function f() { delete f; } ⇒ 12 15
var o; delete (o.x); ⇒ 0 0
delete x; ⇒ 12 0
";

/// Names declared twice, masked by `catch`, or written to though they are settled.
pub static DECLARATIONS: &str = "
function f() {} var f; ⇒ 5 20
var f; function f() {} ⇒ 5 16
function f() {} function f() {} ⇒ 5 25
function f(a, a) {} ⇒ 5 14
function f(a) { function a() {} } ⇒ 5 25
function f(a) { var a; } ⇒ 0 0
var a; var a; ⇒ 0 0
function g() {} for (var g in {}) ; ⇒ 5 25
function g() {} for (var g = 1; ; ) ; ⇒ 5 25
function g() {} if (1) { var g; } ⇒ 5 29
function g() {} try {} catch (e) { var g; } ⇒ 5 39
function g() {} switch (1) { case 1: var g; } ⇒ 5 41
(function f() { var f; }); ⇒ 0 0
(function f(f) {}); ⇒ 0 0
function f(a, b, a, a) {} ⇒ 5 17
function f() { function f() {} } ⇒ 0 0
try {} catch (e) { var e; } ⇒ 6 14
var e; try {} catch (e) {} ⇒ 6 21
function e() {} try {} catch (e) {} ⇒ 6 30
function f(e) { try {} catch (e) {} } ⇒ 6 30
try {} catch (e) { try {} catch (e) {} } ⇒ 6 33
try {} catch (e) {} try {} catch (e) {} ⇒ 0 0
try { try {} catch (e) {} } catch (e) {} ⇒ 0 0
try {} catch (e) {} finally { try {} catch (e) {} } ⇒ 0 0
try {} catch (e) { (function () { try {} catch (e) {} }); } ⇒ 0 0
try {} catch (e) { (function (e) { var a = e; }); } ⇒ 0 0
var e; (function () { try {} catch (e) {} }); ⇒ 0 0
(function e() { try {} catch (e) {} }); ⇒ 0 0
try {} catch (e) { for (var e in {}) ; } ⇒ 6 14
function f() {} f = 1; ⇒ 7 16
f = 1; function f() {} ⇒ 7 0
function f() { f = 1; } ⇒ 7 15
(function f() { f = 1; }); ⇒ 7 16
(function f() { var f; f = 1; }); ⇒ 0 0
(function f(f) { f = 1; }); ⇒ 0 0
Math = 1; ⇒ 7 0
undefined += 1; ⇒ 7 0
++say; ⇒ 7 2
later--; ⇒ 7 0
for (Math in {}) ; ⇒ 7 5
var Math; Math = 1; ⇒ 0 0
function f() { var Math; Math = 1; } Math; ⇒ 0 0
function g() {} function f() { g++; } ⇒ 7 31
function f() {} for (f in {}) ; ⇒ 7 21
Math.x = 1; ⇒ 0 0
try {} catch (e) { e = 1; } ⇒ 0 0
function f() { try {} catch (g) { g = 1; } } function g() {} ⇒ 0 0
";

/// `eval`, `arguments`, names that nothing declares, and names that hide others.
pub static NAMES: &str = "
eval; ⇒ 3 0
eval('1'); ⇒ 3 0
var eval; ⇒ 3 4
function eval() {} ⇒ 3 9
(function eval() {}); ⇒ 3 10
function f(eval) {} ⇒ 3 11
try {} catch (eval) {} ⇒ 3 14
for (var eval in {}) ; ⇒ 3 9
eval = 1; ⇒ 3 0
var o = {eval: 1}; o.eval; ⇒ 0 0
eval: ; ⇒ 0 0
typeof eval; ⇒ 3 7
x; ⇒ 10 0
if (a) b; ⇒ 10 4
x = 1; ⇒ 10 0
typeof x; ⇒ 10 7
function f() { return x; } ⇒ 10 22
function f() { var x; } x; ⇒ 10 24
(function f() {}); f; ⇒ 10 19
try {} catch (e) {} e; ⇒ 10 20
function f(p) {} p; ⇒ 10 17
for (x in {}) ; ⇒ 10 5
x; var x; ⇒ 0 0
function f() { return x; } var x; ⇒ 0 0
arguments; ⇒ 10 0
function f() { return arguments; } ⇒ 0 0
function f() { return function () { return arguments; }; } ⇒ 0 0
try {} catch (e) { arguments; } ⇒ 10 19
document; ⇒ 10 0
var o; o.x; ⇒ 0 0
({x: y}); ⇒ 10 5
while (1) { var z; } z; ⇒ 0 0
l: ; l; ⇒ 10 5
(function f() { return f; }); ⇒ 0 0
function f() { arguments = 1; } ⇒ 13 15
var arguments; ⇒ 13 4
function arguments() {} ⇒ 13 9
function f(arguments) {} ⇒ 13 11
(function arguments() {}); ⇒ 13 10
try {} catch (arguments) {} ⇒ 13 14
function f() { for (var arguments in {}) ; } ⇒ 13 24
function f() { arguments++; } ⇒ 13 15
function f() { for (arguments in {}) ; } ⇒ 13 20
function f() { arguments.x = 1; } ⇒ 0 0
arguments = 1; ⇒ 10 0
var o = {arguments: 1}; o.arguments; ⇒ 0 0
arguments: ; ⇒ 0 0
var undefined; undefined = 1; ⇒ 0 0
function Error() {} Error = 1; ⇒ 7 20
function f(cajita) { cajita = 1; } ⇒ 0 0
function f(cajita) {} cajita = 1; ⇒ 7 22
try {} catch (Error) { Error = 1; } ⇒ 0 0
Number; String; Boolean; RangeError; TypeError; ⇒ 0 0
Array; ⇒ 10 0
";

/// Jumps and labels.
pub static LABELS: &str = "
break; ⇒ 11 0
continue; ⇒ 11 0
return; ⇒ 11 0
return 1; ⇒ 11 0
if (1) break; ⇒ 11 7
switch (1) { case 1: continue; } ⇒ 11 21
switch (1) { case 1: break; } ⇒ 0 0
while (1) { break; continue; } ⇒ 0 0
l: { break l; } ⇒ 0 0
l: { continue l; } ⇒ 11 5
l: while (1) continue l; ⇒ 0 0
l: m: while (1) continue l; ⇒ 0 0
l: { while (1) continue l; } ⇒ 11 15
l: l: ; ⇒ 11 3
l: while (1) { l: ; } ⇒ 11 15
l: ; l: ; ⇒ 0 0
l: (function () { l: ; }); ⇒ 0 0
l: while (1) { (function () { break l; }); } ⇒ 11 30
while (1) { (function () { break; }); } ⇒ 11 27
function f() { return; } ⇒ 0 0
function f() { while (1) break m; } ⇒ 11 25
do continue; while (0); ⇒ 0 0
for (;;) break; ⇒ 0 0
for (var k in {}) continue; ⇒ 0 0
try { break; } finally {} ⇒ 11 6
l: try {} finally { break l; } ⇒ 0 0
";

/// Two faults: the earlier place comes first, and at one place the smaller number.
pub static SEVERAL: &str = "
x; y__; ⇒ 10 0
y__; x; ⇒ 1 0
x__; ⇒ 1 0
with (x) this; ⇒ 2 0
function f() {} f = this; ⇒ 7 16
this; f = 1; function f() {} ⇒ 4 0
({a: x, a: 1}); ⇒ 10 5
({toString: 1, toString: 2}); ⇒ 8 2
({a__: 1, a__: 2}); ⇒ 1 2
delete this; ⇒ 12 0
break x__; ⇒ 11 0
var eval, arguments; ⇒ 3 4
function f(a, a__, a) {} ⇒ 1 14
try {} catch (eval) { var eval; } ⇒ 3 14
function f() { g = 1; } function g() {} var g; ⇒ 7 15
var x; function x() { y; } ⇒ 5 16
";

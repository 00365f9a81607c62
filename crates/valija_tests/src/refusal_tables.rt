//! Sources with the first rule of Valija that each breaks, as its number and the byte of its place; zeros where it breaks none.

/// Hidden names and keys, `eval`, names of the prelude.
pub static WORDS: &str = "
foo__; ⇒ 1 0
foo_; ⇒ 0 0
o.y__; ⇒ 1 2
o.y_; ⇒ 0 0
o['y__']; ⇒ 0 0
o.y__ = 1; ⇒ 1 2
o.y__(); ⇒ 1 2
delete o.y__; ⇒ 1 9
this.y__; ⇒ 1 5
({y__: 1}); ⇒ 1 2
({'y__': 1}); ⇒ 1 2
({y_: 1}); ⇒ 0 0
var x__; ⇒ 1 4
function f__() {} ⇒ 1 9
(function f__() {}); ⇒ 1 10
function f(p__) {} ⇒ 1 11
function f(p_) {} ⇒ 0 0
for (var k__ in {}) ; ⇒ 1 9
try {} catch (e__) {} ⇒ 1 14
l__: ; ⇒ 1 0
l_: ; ⇒ 0 0
l: while (1) { m__: continue l; } ⇒ 1 15
__; ⇒ 1 0
eval; ⇒ 3 0
eval('1'); ⇒ 3 0
typeof eval; ⇒ 3 7
eval = 1; ⇒ 3 0
var eval; ⇒ 3 4
function eval() {} ⇒ 3 9
function f(eval) {} ⇒ 3 11
try {} catch (eval) {} ⇒ 3 14
o.eval('1'); ⇒ 0 0
({eval: 1}); ⇒ 0 0
eval: ; ⇒ 0 0
evil; ⇒ 0 0
$v; ⇒ 5 0
$v.r(o, 'k'); ⇒ 5 0
$dis; ⇒ 5 0
$v0; ⇒ 5 0
$v12 = 1; ⇒ 5 0
typeof $v3; ⇒ 5 7
var $v; ⇒ 5 4
function $v1() {} ⇒ 5 9
(function $dis() {}); ⇒ 5 10
function f(a, $dis) {} ⇒ 5 14
for (var $v00 in {}) ; ⇒ 5 9
for ($v in {}) ; ⇒ 5 5
try {} catch ($v2) {} ⇒ 5 14
function f() { return $v; } ⇒ 5 22
$w; ⇒ 0 0
$v_; ⇒ 0 0
$v0a; ⇒ 0 0
$vv; ⇒ 0 0
$V; ⇒ 0 0
$di; ⇒ 0 0
$diss; ⇒ 0 0
$; ⇒ 0 0
o.$v; ⇒ 0 0
({$v: 1, $dis: 2, $v0: 3}); ⇒ 0 0
$v: ; ⇒ 0 0
'$v'; ⇒ 0 0
";

/// `with`, jumps and labels, keys of records, `delete`.
pub static FORMS: &str = "
with ({}) ; ⇒ 2 0
function f(o) { with (o) ; } ⇒ 2 16
if (1) with ({}) this; ⇒ 2 7
l: with ({}) break l; ⇒ 2 3
'with'; ⇒ 0 0
break; ⇒ 4 0
continue; ⇒ 4 0
return; ⇒ 4 0
return 1; ⇒ 4 0
function f() { return; } ⇒ 0 0
if (1) break; ⇒ 4 7
switch (1) { case 1: continue; } ⇒ 4 21
switch (1) { case 1: break; } ⇒ 0 0
l: { continue l; } ⇒ 4 5
l: { break l; } ⇒ 0 0
l: l: ; ⇒ 4 3
l: ; l: ; ⇒ 0 0
l: while (1) { (function () { break l; }); } ⇒ 4 30
for (k in o) { continue; } ⇒ 0 0
({toString: 1}); ⇒ 8 2
({'valueOf': 1}); ⇒ 8 2
({a: {b: 1, toString: 2}}); ⇒ 8 12
o.toString = 1; ⇒ 0 0
({tostring: 1}); ⇒ 0 0
({a: 1, a: 2}); ⇒ 9 8
({a: 1, b: 2, 'a': 3}); ⇒ 9 14
({1: 1, '1': 2}); ⇒ 9 8
({16: 1, 0x10: 2}); ⇒ 9 9
({a: {a: 1}}); ⇒ 0 0
({a: 1, A: 2}); ⇒ 0 0
delete x; ⇒ 10 0
delete this; ⇒ 10 0
delete 1; ⇒ 10 0
delete f(); ⇒ 10 0
function f() { delete f; } ⇒ 10 15
delete o.x; ⇒ 0 0
delete o['x']; ⇒ 0 0
delete (o.x); ⇒ 0 0
delete this.x; ⇒ 0 0
";

/// Parameters that are alike, names that a `catch` masks, `arguments`, imports that are written to.
pub static DECLARATIONS: &str = "
function f(a, a) {} ⇒ 6 14
(function (a, b, a) {}); ⇒ 6 17
function f(a, b) {} ⇒ 0 0
function f(a) { var a; } ⇒ 0 0
function f(a) { function a() {} } ⇒ 0 0
function f() {} var f; ⇒ 0 0
function f() {} function f() {} ⇒ 0 0
var e; try {} catch (e) {} ⇒ 7 21
try {} catch (e) { var e; } ⇒ 7 14
for (var e in {}) ; try {} catch (e) {} ⇒ 7 34
function e() {} try {} catch (e) {} ⇒ 7 30
function f(e) { try {} catch (e) {} } ⇒ 7 30
try {} catch (e) { try {} catch (e) {} } ⇒ 7 33
try {} catch (e) {} try {} catch (e) {} ⇒ 0 0
try {} catch (e) { try {} catch (d) {} } ⇒ 0 0
try {} catch (e) { (function () { try {} catch (e) {} }); } ⇒ 0 0
var e; function f() { try {} catch (e) {} } ⇒ 0 0
function f() { try {} catch (f) {} } ⇒ 0 0
try {} catch (say) {} ⇒ 0 0
arguments; ⇒ 11 0
typeof arguments; ⇒ 11 7
arguments.length; ⇒ 11 0
arguments = 1; ⇒ 11 0
var arguments; ⇒ 11 4
function arguments() {} ⇒ 11 9
function f(arguments) {} ⇒ 11 11
function f() { var arguments; } ⇒ 11 19
function f() { arguments = 1; } ⇒ 11 15
function f() { arguments++; } ⇒ 11 15
function f() { for (arguments in {}) ; } ⇒ 11 20
try {} catch (arguments) {} ⇒ 11 14
function f() { return arguments; } ⇒ 0 0
function f() { arguments[0] = arguments.length; } ⇒ 0 0
function f() { return function () { return arguments; }; } ⇒ 0 0
o.arguments; ⇒ 0 0
arguments: ; ⇒ 0 0
say = 1; ⇒ 12 0
Math++; ⇒ 12 0
--later; ⇒ 12 2
cajita += 1; ⇒ 12 0
undefined = 1; ⇒ 12 0
for (TypeError in {}) ; ⇒ 12 5
function f() { say = 1; } ⇒ 12 15
say.x = 1; ⇒ 0 0
var say; say = 1; ⇒ 0 0
function f(say) { say = 1; } ⇒ 0 0
try {} catch (say) { say = 1; } ⇒ 0 0
function f() {} f = 1; ⇒ 0 0
(function g() { g = 1; }); ⇒ 0 0
said = 1; ⇒ 0 0
for (k in o) ; ⇒ 0 0
";

/// Sources with more than one fault, some at one place.
pub static SEVERAL: &str = "
$v; y__; ⇒ 5 0
y__; $v; ⇒ 1 0
this; $v; ⇒ 5 6
try {} catch (eval) { var eval; } ⇒ 3 14
try {} catch ($v) { var $v; } ⇒ 5 14
try {} catch (e__) { var e__; } ⇒ 1 14
try {} catch (arguments) { var arguments; } ⇒ 7 14
delete eval; ⇒ 10 0
with (eval) ; ⇒ 2 0
break y__; ⇒ 4 0
x = $v0; break; ⇒ 5 4
break; $v0; ⇒ 4 0
function f(a, a) { with (a) ; } ⇒ 6 14
({toString: 1, toString: 2}); ⇒ 8 2
({a__: 1, a__: 2}); ⇒ 1 2
say = $v; ⇒ 12 0
x = say = $v, $dis; ⇒ 12 4
arguments = eval; ⇒ 11 0
({a: 1, a: arguments}); ⇒ 9 8
({a: arguments, a: 1}); ⇒ 11 5
";

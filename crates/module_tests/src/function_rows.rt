//! Modules with functions: recursion, closures, scopes, parameters and `arguments`, each with what its load gives.

use command_runs::tables::check_loads;
use std::test::Fail;

/// Functions that call themselves and one another (13, 10.2.3).
static RECURSION: &str = "
function fib(n) { return n < 2 ? n : fib(n - 1) + fib(n - 2); } fib(15); ⇒ return 610
function gcd(a, b) { return b === 0 ? a : gcd(b, a % b); } gcd(1071, 462); ⇒ return 21
function power(b, n) { return n === 0 ? 1 : b * power(b, n - 1); } power(3, 20); ⇒ return 3486784401
function digits(n) { return n < 10 ? '' + n : digits((n - n % 10) / 10) + n % 10; } digits(9070); ⇒ return \"9070\"
function hanoi(n, a, b, c) { return n === 0 ? 0 : hanoi(n - 1, a, c, b) + 1 + hanoi(n - 1, c, b, a); } hanoi(8, 'a', 'b', 'c'); ⇒ return 255
function flat(a) { var out = [], i; for (i = 0; i < a.length; i++) { if (cajita.isArray(a[i])) { out = out.concat(flat(a[i])); } else { out.push(a[i]); } } return out; } flat([1, [2, [3, [4]], 5]]).join(''); ⇒ return \"12345\"
function depth(t) { return t === null ? 0 : 1 + Math.max(depth(t.l), depth(t.r)); } depth({l: {l: null, r: {l: null, r: null}}, r: null}); ⇒ return 3
function even(n) { return n === 0 || odd(n - 1); } function odd(n) { return n !== 0 && even(n - 1); } even(10) + ' ' + odd(10) + ' ' + even(7); ⇒ return \"true false false\"
function female(n) { return n === 0 ? 1 : n - male(female(n - 1)); } function male(n) { return n === 0 ? 0 : n - female(male(n - 1)); } female(9) + '/' + male(9); ⇒ return \"6/6\"
function ackermann(m, n) { return m === 0 ? n + 1 : n === 0 ? ackermann(m - 1, 1) : ackermann(m - 1, ackermann(m, n - 1)); } ackermann(2, 3); ⇒ return 9
var y = function (f) { return (function (x) { return x(x); })(function (x) { return f(function (n) { return x(x)(n); }); }); }; y(function (self) { return function (n) { return n === 0 ? 0 : n + self(n - 1); }; })(10); ⇒ return 55
var o = {f: function (n) { return n === 0 ? 'end' : o.f(n - 1); }}; o.f(3); ⇒ return \"end\"
function turned(s) { return s === '' ? '' : turned(s.slice(1)) + s.charAt(0); } turned('cajita'); ⇒ return \"atijac\"
function perms(s) { if (s.length < 2) { return [s]; } var out = [], i; for (i = 0; i < s.length; i++) { out = out.concat(perms(s.slice(0, i) + s.slice(i + 1)).join(s.charAt(i) + ' ').split(' ')); } return out; } perms('abc').length; ⇒ return 6
";

/// What closures see of the variables around them, in loops too: one variable for all turns (10.1.4, 13.2.2).
static CLOSURES: &str = "
var fs = [], i; for (i = 0; i < 3; i++) { fs.push(function () { return i; }); } fs[0]() + fs[1]() + fs[2](); ⇒ return 9
var fs = [], i; for (i = 0; i < 3; i++) { (function (k) { fs.push(function () { return k; }); })(i); } fs[0]() + '' + fs[1]() + fs[2](); ⇒ return \"012\"
function counter() { var n = 0; return function () { n += 1; return n; }; } var a = counter(), b = counter(); a(); a(); b(); a() + '/' + b(); ⇒ return \"3/2\"
function pair() { var n = 0; return {up: function () { return ++n; }, now: function () { return n; }}; } var p = pair(); p.up(); p.up(); p.now(); ⇒ return 2
function f() { return x; } var x = 1, a = f(); x = 2; a + '/' + f(); ⇒ return \"1/2\"
function outer(a) { return function (b) { return function (c) { return a + b + c; }; }; } outer('x')('y')('z'); ⇒ return \"xyz\"
var g; (function () { var hidden = 7; g = function (d) { hidden += d; return hidden; }; })(); g(1); g(10); ⇒ return 18
var fs = {}, k; for (k in {a: 1, b: 2}) { fs[k] = function () { return k; }; } fs.a() + fs.b(); ⇒ return \"bb\"
var fs = [], i; for (i = 0; i < 2; i++) { try { throw i; } catch (e) { fs.push(function () { return e; }); } } fs[0]() + '' + fs[1](); ⇒ return \"01\"
var g, s; try { throw 7; } catch (e) { g = function () { return e; }; s = function (v) { e = v; }; } s(8); g(); ⇒ return 8
function make() { var fs = []; for (var i = 0; i < 3; i++) { var j = i * i; fs[i] = function () { return j; }; } return fs; } make()[0](); ⇒ return 4
function once(f) { var done = false, v; return function () { if (!done) { done = true; v = f(); } return v; }; } var n = 0, g = once(function () { n++; return n; }); g(); g(); g() + '/' + n; ⇒ return \"1/1\"
function compose(f, g) { return function (x) { return f(g(x)); }; } compose(function (x) { return x * 2; }, function (x) { return x + 1; })(5); ⇒ return 12
var fs = []; (function again(n) { if (n > 0) { fs.push(function () { return n; }); again(n - 1); } })(3); fs[0]() + '' + fs[1]() + fs[2](); ⇒ return \"321\"
";

/// Names that hide others around them, and names that are hoisted (10.1.3).
static SHADOWING: &str = "
var x = 1; function f() { return x; var x = 2; } f(); ⇒ return undefined
var x = 1; function f(x) { x = 2; return x; } f(3) + '/' + x; ⇒ return \"2/1\"
var x = 'out'; (function () { var x = 'in'; (function () { x = 'set'; })(); })(); x; ⇒ return \"out\"
function f() { return g(); function g() { return 1; } } f(); ⇒ return 1
typeof f; function f() {} ⇒ return \"function\"
typeof f; var f = function () {}; ⇒ return \"undefined\"
var Math = {abs: function (n) { return 'mine' + n; }}; Math.abs(-1); ⇒ return \"mine-1\"
function f(say) { return say + 1; } f(2); ⇒ return 3
function say(v) { return 'said ' + v; } say(1); ⇒ return \"said 1\"
function f() { function f() { return 'inner'; } return f(); } f(); ⇒ return \"inner\"
function cajita() { return cajita === undefined; } cajita(); ⇒ return false
var f = function (undefined) { return undefined; }; f(4); ⇒ return 4
function f() { if (false) { var x = 1; } return typeof x; } f(); ⇒ return \"undefined\"
var x = 1; (function () { x = 2; })(); x; ⇒ return 2
var e = 'out'; (function () { try { throw 'in'; } catch (e) { return e; } })() + e; ⇒ return \"inout\"
(function () { var t = ''; try { throw 1; } catch (e) { t += e; } try { throw 2; } catch (e) { t += e; } return t; })(); ⇒ return \"12\"
(function () { try { throw 1; } catch (a) { try { throw a + 1; } catch (b) { return a + '/' + b; } } })(); ⇒ return \"1/2\"
(function () { try { throw 1; } catch (e) { var f = function (e) { return e; }; return f(9) + '/' + e; } })(); ⇒ return \"9/1\"
(function () { try { throw 1; } catch (e) { e = e + 4; return e; } })(); ⇒ return 5
(function () { try { throw 1; } catch (e) { var x = e; } return x; })(); ⇒ return 1
try { throw 1; } catch (e) { try { throw 2; } catch (f) { e + f; } } ⇒ return undefined
";

/// The own names of function expressions, which nobody else sees (13).
static OWN_NAMES: &str = "
(function f() { return typeof f; })(); ⇒ return \"function\"
var f = 1, g = function f() { return typeof f; }; g() + '/' + f; ⇒ return \"function/1\"
var g = function f(n) { return n === 0 ? 'x' : 'y' + f(n - 1); }, h = g; g = null; h(2); ⇒ return \"yyx\"
(function f(f) { return f; })(3); ⇒ return 3
(function f() { var f; return f; })(); ⇒ return undefined
(function f() { var f = 4; return f; })(); ⇒ return 4
(function f() { function f() { return 'inner'; } return f(); })(); ⇒ return \"inner\"
(function f() { try { throw 5; } catch (f) { return f; } })(); ⇒ return 5
var f = function g() { return g; }; f() === f; ⇒ return true
(function Math() { return typeof Math; })(); ⇒ return \"function\"
";

/// Parameters that are left out, one too many, variables too, and declared once more by a loop (10.1.3).
static PARAMETERS: &str = "
function f(a, b) { return a + '/' + b; } f(1); ⇒ return \"1/undefined\"
function f(a) { return a; } f(1, 2, 3); ⇒ return 1
function f(a) { var a; return a; } f(1); ⇒ return 1
function f(a) { var a = 2; return a; } f(1); ⇒ return 2
function f(a) { for (var a in {k: 1}) {} return a; } f(1); ⇒ return \"k\"
function f(a) { for (var a = 5; a < 7; a++) {} return a; } f(1); ⇒ return 7
function f(a) { a.x = 2; a = {x: 3}; } var o = {x: 1}; f(o); o.x; ⇒ return 2
function f() { return f; } f() === f; ⇒ return true
function f(f) { return f; } f(6); ⇒ return 6
function swap(a, b) { return [b, a]; } swap(1, 2).join(); ⇒ return \"2,1\"
function f(a, b) { a = a || 'none'; b = b === undefined ? 'left out' : b; return a + ' ' + b; } f(0) + '; ' + f('a', null); ⇒ return \"none left out; a null\"
var n = 0; function f(a, b, c) { return a + '' + b + c; } f(n++, n++, n++); ⇒ return \"012\"
var t = ''; function p(x) { t += x; return x; } function f() {} f(p('a'), p('b'), p('c')); t; ⇒ return \"abc\"
function f() {} f(); ⇒ return undefined
function f() { 5; } f(); ⇒ return undefined
";

/// `arguments`: a frozen array of what a call was given, which doesn't follow the parameters, kept and passed on.
static ARGUMENTS: &str = "
(function () { return arguments.length; })(); ⇒ return 0
(function (a, b) { return arguments.length; })(1); ⇒ return 1
(function (a) { a = 2; return arguments[0]; })(1); ⇒ return 1
(function (a) { var t; try { arguments[0] = 2; } catch (e) { t = e.message; } return a + t; })(1); ⇒ return \"1not writable\"
(function () { try { arguments.push(1); } catch (e) { return e.message; } })(); ⇒ return \"not writable\"
(function () { return cajita.isFrozen(arguments) && cajita.isArray(arguments); })(); ⇒ return true
(function () { return arguments; })(4, 5); ⇒ return array main#1
var kept; (function () { kept = arguments; })(4, 5); (function () { arguments.length; })(6); kept.join(); ⇒ return \"4,5\"
(function () { return (function () { return arguments[0]; })(2) + arguments[0]; })(1); ⇒ return 3
function sum() { var s = 0, i; for (i = 0; i < arguments.length; i++) { s += arguments[i]; } return s; } sum(1, 2, 3, 4); ⇒ return 10
function sum() { var s = 0, k; for (k in arguments) { s += arguments[k]; } return s; } sum(1, 2, 3, 4); ⇒ return 10
function list() { return arguments; } function pass() { return list.apply(undefined, arguments); } pass(7, 8).join('-'); ⇒ return \"7-8\"
function f() { return [].concat(arguments, arguments).length; } f(1, 2); ⇒ return 4
function f() { return arguments.slice(1).join(); } f(1, 2, 3); ⇒ return \"2,3\"
function f() { return arguments === arguments; } f(1); ⇒ return true
function f() { return [arguments]; } f(1)[0] === f(1)[0]; ⇒ return false
function f() { return arguments['1'] + arguments[5]; } f('a', 'b'); ⇒ return \"bundefined\"
function f() { return typeof arguments + arguments; } f(1, null, [2]); ⇒ return \"object1,,2\"
function f() { return 0 in arguments && !(1 in arguments) && 'length' in arguments; } f(undefined); ⇒ return true
function f(n) { return n === 0 ? '' : arguments.length + f(n - 1); } f(2, 0, 0); ⇒ return \"31\"
function f() { return arguments.callee; } f(); ⇒ return undefined
function f() { var g = function () { return typeof arguments[0]; }; return g() + arguments[0]; } f(1); ⇒ return \"undefined1\"
function f() { if (false) { arguments; } return 1; } f(); ⇒ return 1
function f() { delete arguments[0]; } f(1); ⇒ throw error main#2 TypeError \"not deletable\"
";

#[test]
fn recursion(rt: HostRuntime) -> Result<(), Fail> {
    check_loads(rt.alloc(), RECURSION)
}

#[test]
fn closures_and_their_variables(rt: HostRuntime) -> Result<(), Fail> {
    check_loads(rt.alloc(), CLOSURES)
}

#[test]
fn names_that_hide_others(rt: HostRuntime) -> Result<(), Fail> {
    check_loads(rt.alloc(), SHADOWING)
}

#[test]
fn own_names_of_functions(rt: HostRuntime) -> Result<(), Fail> {
    check_loads(rt.alloc(), OWN_NAMES)
}

#[test]
fn parameters(rt: HostRuntime) -> Result<(), Fail> {
    check_loads(rt.alloc(), PARAMETERS)
}

#[test]
fn arguments_are_a_frozen_array(rt: HostRuntime) -> Result<(), Fail> {
    check_loads(rt.alloc(), ARGUMENTS)
}

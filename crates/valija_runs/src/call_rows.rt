//! Receivers, `call` and `apply`, names that nothing declares, and `arguments`.

use command_runs::page_tables::check_modules;
use std::test::Fail;

/// Methods that are taken out lose their receiver; `this` in every place.
static METHODS_THAT_ARE_TAKEN_OUT: &str = r#"
var o = {x: 1, f: function () { return typeof this; }}, f = o.f; f() + '/' + o.f(); ⇒ load main return "undefined/object"
function f() { return typeof this; } f(); ⇒ load main return "undefined"
var o = {f: function () { return this.x; }, x: 'dot'}; o.f() + o['f'](); ⇒ load main return "dotdot"
var o = {x: 1, f: function () { var inner = function () { return typeof this; }; return inner(); }}; o.f(); ⇒ load main return "undefined"
var o = {x: 7, f: function () { var self = this, g = function () { return self.x; }; return g(); }}; o.f(); ⇒ load main return 7
var a = {x: 'a', f: function () { return this.x; }}, b = {x: 'b'}; b.f = a.f; b.f() + a.f(); ⇒ load main return "ba"
var o = {f: function () { return this === o; }}; o.f() + ''; ⇒ load main return "true"
var o = {p: {x: 'in', f: function () { return this.x; }}, x: 'out'}; o.p.f(); ⇒ load main return "in"
var o = {f: function () { return this; }}; (o.f() === o) + '/' + (o['f']() === o); ⇒ load main return "true/true"
function F() { this.me = this; } var p = new F(); (p.me === p) + ''; ⇒ load main return "true"
function f(x) { return x ? typeof this : f.call(5, true); } f(false); ⇒ load main return "number"
(function () { return typeof this; })(); ⇒ load main return "undefined"
var o = {f: function () { return function () { return typeof this; }; }}; o.f()(); ⇒ load main return "undefined"
var k = 'f', o = {x: 3, f: function (y) { return this.x + y; }}; o[k](4); ⇒ load main return 7
function P() { this.f = function () { return this.x; }; this.x = 'p'; } var p = new P(), q = {x: 'q', f: p.f}; p.f() + q.f(); ⇒ load main return "pq"
var o = {x: 1, f: function () { this.x++; return this.x; }}; o.f(); o.f() + '/' + o.x; ⇒ load main return "3/3"
var n = 0, o = {get: function () { n++; return {f: function () { return typeof this; }}; }}; o.get().f() + n; ⇒ load main return "object1"
"#;

/// `call` and `apply` of the module's own functions (15.3.4.3, 15.3.4.4).
static CALL_AND_APPLY_OF_THE: &str = r#"
function f(a, b) { return this.x + a + b; } f.call({x: 1}, 2, 3); ⇒ load main return 6
function f(a, b) { return this.x + a + b; } f.apply({x: 1}, [2, 3]); ⇒ load main return 6
function f() { return typeof this + arguments.length; } f.call(); ⇒ load main return "undefined0"
function f() { return typeof this + arguments.length; } f.apply(); ⇒ load main return "undefined0"
function f() { return arguments.length; } f.apply(null, null) + f.apply(null, undefined) + f.apply(null, [1, 2]); ⇒ load main return 2
function f() { return typeof this; } f.call(undefined) + f.call({}); ⇒ load main return "undefinedobject"
var o = {f: function () { return this.x; }, x: 'o'}; o.f.call({x: 'other'}) + o.f(); ⇒ load main return "othero"
function A(x) { this.x = x; } function B(x) { A.apply(this, arguments); } new B(6).x; ⇒ load main return 6
function list() { return arguments; } list.apply(null, ['a', 'b'])[1]; ⇒ load main return "b"
function f(g) { return g.call({x: 'in'}); } f(function () { return this.x; }); ⇒ load main return "in"
function f() { return this.k; } f.k = 'own'; f.call(f); ⇒ load main return "own"
"#;

/// `call` and `apply` of functions of others.
static CALL_AND_APPLY_OF_FUNCTIONS: &str = r#"
say.call(undefined, 'called'); say.apply(undefined, ['applied']); ⇒ say main "called"¦say main "applied"¦load main return undefined
Math.max.call(undefined, 3, 9); ⇒ load main return 9
Math.max.apply(undefined, [3, 9]); ⇒ load main return 9
[].push.call([1], 2); ⇒ load main return 2
'abc'.charAt.call('xyz', 1); ⇒ load main return "y"
var f = say; f('by another name'); ⇒ say main "by another name"¦load main return undefined
var o = {say: say}; o.say('as a method'); ⇒ say main "as a method"¦load main return undefined
"#;

/// Names that nothing declares belong to the module (10.1.4).
static NAMES_THAT_NOTHING_DECLARES_BELONG: &str = r#"
x = 1; x + 1; ⇒ load main return 2
x = 'set'; function f() { return x; } f(); ⇒ load main return "set"
function f() { x = 5; } f(); x; ⇒ load main return 5
typeof x; ⇒ load main return "undefined"
x = 2; typeof x; ⇒ load main return "number"
x = 1; x += 4; x; ⇒ load main return 5
x = 1; x++ + '/' + x; ⇒ load main return "1/2"
x = 1; ++x + '/' + x--  + '/' + x; ⇒ load main return "2/2/1"
x = {k: 1}; x.k = 2; x.k; ⇒ load main return 2
x = function (a) { return a * 2; }; x(4); ⇒ load main return 8
x = 'a'; x = x + 'b'; x; ⇒ load main return "ab"
for (i = 0; i < 3; i++) {} i; ⇒ load main return 3
for (k in {a: 1, b: 2}) {} k; ⇒ load main return "b"
function f() { try { return missing; } catch (e) { return 'caught'; } } f(); ⇒ load main return "caught"
function P() { this.x = y; } y = 'outer'; new P().x; ⇒ load main return "outer"
function f() { y = 'in'; return function () { return y; }; } f()(); ⇒ load main return "in"
x = 3; (function () { var x = 4; x++; })(); x; ⇒ load main return 3
"#;

/// `arguments` is what the call passed (10.1.8).
static ARGUMENTS_IS_WHAT_THE_CALL: &str = r#"
function f() { return arguments.length; } f() + f(1) + f(1, 2); ⇒ load main return 3
function f() { return arguments[1]; } f('a', 'b'); ⇒ load main return "b"
function f(a) { return a + arguments[0]; } f(2); ⇒ load main return 4
function f() { var n = 0, i; for (i = 0; i < arguments.length; i++) { n += arguments[i]; } return n; } f(1, 2, 3, 4); ⇒ load main return 10
var o = {f: function () { return arguments.length; }}; o.f('a', 'b', 'c'); ⇒ load main return 3
function f() { return g.apply(null, arguments); } function g(a, b) { return a + '-' + b; } f('x', 'y'); ⇒ load main return "x-y"
function f() { return function () { return arguments.length; }; } f(1, 2)(3); ⇒ load main return 1
function f() { return typeof arguments; } f(); ⇒ load main return "object"
"#;

/// What is written to `arguments` is not seen later.
static WHAT_IS_WRITTEN_TO_ARGUMENTS: &str = r#"
function f() { arguments[0] = 'new'; return arguments[0]; } f('old'); ⇒ load main return "old"
function f(a) { a = 'new'; return arguments[0]; } f('old'); ⇒ load main return "old"
function f() { var a = arguments; a[0] = 'new'; return a[0]; } f('old'); ⇒ load main return "new"
"#;

#[test]
fn methods_that_are_taken_out(rt: HostRuntime) -> Result<(), Fail> {
    check_modules(rt.alloc(), "valija", METHODS_THAT_ARE_TAKEN_OUT)
}

#[test]
fn call_and_apply_of_the(rt: HostRuntime) -> Result<(), Fail> {
    check_modules(rt.alloc(), "valija", CALL_AND_APPLY_OF_THE)
}

#[test]
fn call_and_apply_of_functions(rt: HostRuntime) -> Result<(), Fail> {
    check_modules(rt.alloc(), "valija", CALL_AND_APPLY_OF_FUNCTIONS)
}

#[test]
fn names_that_nothing_declares_belong(rt: HostRuntime) -> Result<(), Fail> {
    check_modules(rt.alloc(), "valija", NAMES_THAT_NOTHING_DECLARES_BELONG)
}

#[test]
fn arguments_is_what_the_call(rt: HostRuntime) -> Result<(), Fail> {
    check_modules(rt.alloc(), "valija", ARGUMENTS_IS_WHAT_THE_CALL)
}

#[test]
fn what_is_written_to_arguments(rt: HostRuntime) -> Result<(), Fail> {
    check_modules(rt.alloc(), "valija", WHAT_IS_WRITTEN_TO_ARGUMENTS)
}

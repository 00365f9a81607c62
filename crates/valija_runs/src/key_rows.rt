//! Loops over keys, `delete`, and functions with keys of their own.

use command_runs::page_tables::check_modules;
use std::test::Fail;

/// `for` .. `in` over own and inherited keys (12.6.4).
static FOR_IN_OVER_OWN_AND: &str = r#"
function P() { this.a = 1; this.b = 2; } var t = ''; for (var k in new P()) { t += k; } t; ⇒ load main return "ab"
function P() { this.a = 1; } P.prototype.c = 3; var t = ''; for (var k in new P()) { t += k; } t; ⇒ load main return "ac"
function A() { this.x = 1; } A.prototype.y = 2; function B() { this.z = 3; } B.prototype = new A(); var t = ''; for (var k in new B()) { t += k; } t; ⇒ load main return "zxy"
function P() { this.k = 'own'; } P.prototype.k = 'inherited'; var t = '', p = new P(), k; for (k in p) { t += k + p[k]; } t; ⇒ load main return "kown"
var o = {a: 1, b: 2, c: 3}, t = ''; for (var k in o) { if (k === 'a') { delete o.b; } t += k; } t; ⇒ load main return "ac"
var t = ''; for (var i in [7, 8]) { t += i; } t; ⇒ load main return "01"
var o = {}, t = ''; for (o.k in {a: 1, b: 2}) { t += o.k; } t; ⇒ load main return "ab"
var t = ''; outer: for (var a in {x: 1, y: 2}) { for (var b in {p: 1, q: 2}) { if (b === 'q') { continue outer; } t += a + b; } } t; ⇒ load main return "xpyp"
var t = ''; for (var k in {a: 1, b: 2, c: 3}) { if (k === 'b') { break; } t += k; } t; ⇒ load main return "a"
function f() { for (var k in {only: 1}) { return k; } } f(); ⇒ load main return "only"
"#;

/// `delete` takes own keys away (11.4.1).
static DELETE_TAKES_OWN_KEYS_AWAY: &str = r#"
var o = {a: 1}; delete o.a; typeof o.a; ⇒ load main return "undefined"
function P() { this.k = 'own'; } P.prototype.k = 'below'; var p = new P(); delete p.k; p.k; ⇒ load main return "below"
var o = {a: 1, b: 2}, k = 'b'; delete o[k]; ('a' in o) + '/' + ('b' in o); ⇒ load main return "true/false"
(delete {}.none) + ''; ⇒ load main return "true"
function f() {} f.k = 1; delete f.k; typeof f.k; ⇒ load main return "undefined"
"#;

/// Functions have keys of their own (13.2).
static FUNCTIONS_HAVE_KEYS_OF_THEIR: &str = r#"
function f() {} f.count = 1; f.count++; f.count; ⇒ load main return 2
function P() { P.made++; } P.made = 0; new P(); new P(); P.made; ⇒ load main return 2
function P() {} P.of = function (x) { var p = new P(); p.x = x; return p; }; P.of(8).x; ⇒ load main return 8
function f() { return 'called'; } f.g = function () { return typeof this; }; f() + f.g(); ⇒ load main return "calledfunction"
var f = function () {}; f.k = {n: 1}; f.k.n += 1; f.k.n; ⇒ load main return 2
function f() {} function g() {} f.k = 'f'; typeof g.k + f.k; ⇒ load main return "undefinedf"
function f() {} typeof f.prototype; ⇒ load main return "object"
function f() {} f['a b'] = 3; f['a b']; ⇒ load main return 3
function f() {} f.k = 1; ('k' in f) + '/' + ('j' in f); ⇒ load main return "true/false"
"#;

#[test]
fn for_in_over_own_and(rt: HostRuntime) -> Result<(), Fail> {
    check_modules(rt.alloc(), "valija", FOR_IN_OVER_OWN_AND)
}

#[test]
fn delete_takes_own_keys_away(rt: HostRuntime) -> Result<(), Fail> {
    check_modules(rt.alloc(), "valija", DELETE_TAKES_OWN_KEYS_AWAY)
}

#[test]
fn functions_have_keys_of_their(rt: HostRuntime) -> Result<(), Fail> {
    check_modules(rt.alloc(), "valija", FUNCTIONS_HAVE_KEYS_OF_THEIR)
}

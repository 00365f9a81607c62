//! Constructors and prototypes, and what goes by them.

use command_runs::page_tables::check_modules;
use std::test::Fail;

/// Constructors: what `new` gives, and what a constructor returns (ES3 13.2.2).
static CONSTRUCTORS_WHAT_NEW_GIVES_AND: &str = r#"
function P(x) { this.x = x; } var p = new P(4); p.x; ⇒ load main return 4
function P(x, y) { this.x = x; this.y = y; } new P(3, 4).x * 10 + new P(5, 6).y; ⇒ load main return 36
function P() {} var p = new P(); p.k = 1; typeof p + p.k; ⇒ load main return "object1"
function P() {} typeof new P; ⇒ load main return "object"
function P() { return {x: 'own'}; } new P().x; ⇒ load main return "own"
function P() { this.x = 'kept'; return 5; } new P().x; ⇒ load main return "kept"
function P() { this.x = 'kept'; return null; } new P().x; ⇒ load main return "kept"
function P() { return function () { return 'called'; }; } new P()(); ⇒ load main return "called"
function P() { return [7, 8]; } new P()[1]; ⇒ load main return 8
var P = function (x) { this.x = x; }; new P('e').x; ⇒ load main return "e"
var o = {P: function (x) { this.x = x; }}; new o.P('m').x; ⇒ load main return "m"
var o = {P: function (x) { this.x = x; }}, k = 'P'; new o[k]('b').x; ⇒ load main return "b"
function P() { this.n = arguments.length; } new P(1, 2, 3).n; ⇒ load main return 3
function P(x) { this.x = x; } var a = [new P(1), new P(2)]; a[0].x + a[1].x; ⇒ load main return 3
function P(x) { if (x > 0) { this.next = new P(x - 1); } this.x = x; } var p = new P(2); p.next.next.x + '/' + p.x; ⇒ load main return "0/2"
function P() { this.set = function (v) { this.v = v; return this; }; } var p = new P(), q = new P(); p.set(1); q.set(2); p.v + '/' + q.v; ⇒ load main return "1/2"
function P() { var hidden = 7; this.get = function () { return hidden; }; } new P().get(); ⇒ load main return 7
(new (function (x) { this.x = x; })(9)).x; ⇒ load main return 9
"#;

/// Prototypes and their chains (8.6.2.1, 13.2): methods, inherited values, what is written to one.
static PROTOTYPES_AND_THEIR_CHAINS_METHODS: &str = r#"
function P(x) { this.x = x; } P.prototype.get = function () { return this.x; }; new P(4).get(); ⇒ load main return 4
function P() {} P.prototype.k = 'first'; var p = new P(); var a = p.k; P.prototype.k = 'then'; a + '/' + p.k; ⇒ load main return "first/then"
function P() {} P.prototype.k = 1; var p = new P(); p.k = 2; p.k + '/' + new P().k; ⇒ load main return "2/1"
function A() {} A.prototype.f = function () { return 'A'; }; function B() {} B.prototype = new A(); new B().f(); ⇒ load main return "A"
function A() {} A.prototype.f = function () { return 'A'; }; function B() {} B.prototype = new A(); B.prototype.f = function () { return 'B'; }; new A().f() + new B().f(); ⇒ load main return "AB"
function A() {} A.prototype.name = function () { return 'A'; }; function B() {} B.prototype = new A(); B.prototype.name = function () { return 'B' + A.prototype.name.call(this); }; new B().name(); ⇒ load main return "BA"
function A() {} A.prototype.k = 'a'; function B() {} B.prototype = new A(); function C() {} C.prototype = new B(); new C().k; ⇒ load main return "a"
function A(x) { this.x = x; } A.prototype.twice = function () { return this.x * 2; }; function B(x, y) { A.call(this, x); this.y = y; } B.prototype = new A(0); var b = new B(4, 5); b.twice() + b.y; ⇒ load main return 13
function A() { A.apply.k = 1; } 'fine'; ⇒ load main return "fine"
function P() {} P.prototype = {a: 1, b: 2}; var p = new P(); p.a + p.b; ⇒ load main return 3
function P() {} var p = new P(); P.prototype = {k: 'late'}; typeof p.k + new P().k; ⇒ load main return "undefinedlate"
function P() {} P.prototype.f = function () { return this.g(); }; P.prototype.g = function () { return 'g'; }; new P().f(); ⇒ load main return "g"
function P(n) { this.n = n; } P.prototype.add = function (n) { this.n += n; return this; }; new P(1).add(2).add(3).n; ⇒ load main return 6
function P() {} P.prototype.list = []; var p = new P(), q = new P(); p.list.push('shared'); q.list[0]; ⇒ load main return "shared"
function P() {} P.prototype.n = 5; var p = new P(); p.n++; p.n + '/' + P.prototype.n; ⇒ load main return "6/5"
function P() {} P.prototype.n = 5; var p = new P(); p.n -= 2; p.n + '/' + new P().n; ⇒ load main return "3/5"
function Shape() {} Shape.prototype.area = function () { return 0; }; function Square(s) { this.s = s; } Square.prototype = new Shape(); Square.prototype.area = function () { return this.s * this.s; }; function Dot() {} Dot.prototype = new Shape(); new Square(3).area() + '/' + new Dot().area(); ⇒ load main return "9/0"
function P() {} var base = new P(); function C() {} C.prototype = base; var c = new C(); base.late = 'seen'; c.late; ⇒ load main return "seen"
"#;

/// `instanceof` and `in` go by the same way (11.8.6, 11.8.7).
static INSTANCEOF_AND_IN_GO_BY: &str = r#"
function P() {} var p = new P(); (p instanceof P) + ''; ⇒ load main return "true"
function A() {} function B() {} (new A() instanceof B) + ''; ⇒ load main return "false"
function A() {} function B() {} B.prototype = new A(); var b = new B(); (b instanceof B) + '/' + (b instanceof A); ⇒ load main return "true/true"
function P() {} ({} instanceof P) + ''; ⇒ load main return "false"
function P() {} var p = new P(); P.prototype = {}; (p instanceof P) + ''; ⇒ load main return "false"
function P() { return {}; } (new P() instanceof P) + ''; ⇒ load main return "false"
function P() {} P.prototype.k = undefined; var p = new P(); ('k' in p) + '/' + ('j' in p); ⇒ load main return "true/false"
function A() {} A.prototype.a = 1; function B() { this.b = 2; } B.prototype = new A(); var b = new B(); ('a' in b) + '/' + ('b' in b) + '/' + ('c' in b); ⇒ load main return "true/true/false"
('a' in {a: 1}) + '/' + ('length' in [1]); ⇒ load main return "true/true"
var e; try { throw new RangeError('r'); } catch (x) { e = x; } (e instanceof RangeError) + '/' + (e instanceof TypeError); ⇒ load main return "true/false"
"#;

#[test]
fn constructors_what_new_gives_and(rt: HostRuntime) -> Result<(), Fail> {
    check_modules(rt.alloc(), "valija", CONSTRUCTORS_WHAT_NEW_GIVES_AND)
}

#[test]
fn prototypes_and_their_chains_methods(rt: HostRuntime) -> Result<(), Fail> {
    check_modules(rt.alloc(), "valija", PROTOTYPES_AND_THEIR_CHAINS_METHODS)
}

#[test]
fn instanceof_and_in_go_by(rt: HostRuntime) -> Result<(), Fail> {
    check_modules(rt.alloc(), "valija", INSTANCEOF_AND_IN_GO_BY)
}

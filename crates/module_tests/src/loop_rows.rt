//! Modules that go over keys with `for` .. `in`.

use command_runs::tables::check_loads;
use std::test::Fail;

/// The keys of each kind of value, in order (12.6.4, and the table of public interfaces).
static KEYS: &str = "
var t = ''; for (var k in {}) { t += k; } t; ⇒ return \"\"
var t = ''; for (var k in {b: 1, a: 2, 1: 3, 0: 4}) { t += k; } t; ⇒ return \"ba10\"
var t = ''; for (var k in ['x', 'y', 'z']) { t += k + ' '; } t; ⇒ return \"0 1 2 \"
var t = ''; for (var k in []) { t += k; } t; ⇒ return \"\"
var t = ''; for (var k in 'abc') { t += k; } t; ⇒ return \"\"
var t = ''; for (var k in 5) { t += k; } t; ⇒ return \"\"
var t = ''; for (var k in true) { t += k; } t; ⇒ return \"\"
var t = ''; for (var k in function (a) {}) { t += k; } t; ⇒ return \"\"
var t = ''; for (var k in Error) { t += k; } t; ⇒ return \"\"
var t = ''; for (var k in new Error('m')) { t += k; } t; ⇒ return \"\"
var t = ''; for (var k in Math) { t += k + ' '; } t; ⇒ return \"abs floor ceil round max min \"
var t = ''; for (var k in cajita) { t += k + ' '; } t; ⇒ return \"freeze isFrozen copy snapshot isArray isRecord keys \"
var t = ''; for (var k in cajita.freeze({x: 1, y: 2})) { t += k; } t; ⇒ return \"xy\"
var t = ''; for (var k in cajita.freeze([1])) { t += k; } t; ⇒ return \"0\"
for (var k in null) {} ⇒ throw error main#0 TypeError \"no object\"
for (var k in undefined) {} ⇒ throw error main#0 TypeError \"no object\"
for (var k in (function () { return arguments; })(1, 2)) {} k; ⇒ return \"1\"
for (var k in {a: 1}) {} typeof k; ⇒ return \"string\"
for (var k in [7]) {} typeof k; ⇒ return \"string\"
var k = 'before'; for (k in {}) {} k; ⇒ return \"before\"
for (var k in {}) {} k; ⇒ return undefined
var o = {b: 1}; o.a = 2; delete o.b; o.b = 3; var t = ''; for (var k in o) { t += k; } t; ⇒ return \"ab\"
var o = {b: 1, a: 2}; o.b = 3; var t = ''; for (var k in o) { t += k + o[k]; } t; ⇒ return \"b3a2\"
";

/// Keys that are taken away and added while the loop runs: the list is made at the start, and a key is visited if it is still there.
static CHANGES: &str = "
var o = {a: 1, b: 2, c: 3}, t = ''; for (var k in o) { t += k; delete o.b; } t; ⇒ return \"ac\"
var o = {a: 1, b: 2}, t = ''; for (var k in o) { t += k; o[k + 'x'] = 1; } t; ⇒ return \"ab\"
var o = {a: 1, b: 2}, t = ''; for (var k in o) { t += k; delete o.b; o.b = 3; } t; ⇒ return \"ab\"
var o = {a: 1, b: 2}, t = ''; for (var k in o) { t += k; delete o[k]; } t + cajita.keys(o).length; ⇒ return \"ab0\"
var a = [1, 2, 3], t = ''; for (var k in a) { t += k; a.pop(); } t; ⇒ return \"01\"
var a = [1], t = ''; for (var k in a) { t += k; a.push(2); } t + a.length; ⇒ return \"02\"
var o = {a: 1, b: 2}, t = ''; for (var k in o) { t += k; o = {c: 1}; } t; ⇒ return \"ab\"
var o = {a: 1, b: 2}, t = ''; for (var k in o) { t += k; k = 'x'; } t + k; ⇒ return \"abx\"
var o = {a: 1, b: 2}, t = ''; for (var k in o) { for (var l in o) { t += k + l + ' '; } } t; ⇒ return \"aa ab ba bb \"
var o = {a: {x: 1}, b: {y: 2, z: 3}}, t = ''; for (var k in o) { for (var l in o[k]) { t += k + l; } } t; ⇒ return \"axbybz\"
var n = 0; function o() { n++; return {a: 1, b: 2}; } for (var k in o()) {} n; ⇒ return 1
var o = {a: 1, b: 2, c: 3}, t = ''; for (var k in o) { if (k === 'b') { break; } t += k; } t + k; ⇒ return \"ab\"
var o = {a: 1, b: 2, c: 3}, t = ''; for (var k in o) { if (k === 'b') { continue; } t += k; } t; ⇒ return \"ac\"
var o = {a: 1, b: 2}; function f() { for (var k in o) { return k; } } f(); ⇒ return \"a\"
function f(o) { var n = 0, k; for (k in o) { n++; } return n; } f({a: 1}) + f([1, 2]) + f('abc'); ⇒ return 3
function f(o) { for (k in o) {} return k; var k; } f({z: 1}); ⇒ return \"z\"
";

/// A loop that writes to a member, or to a variable further out.
static TARGETS: &str = "
var o = {}; for (o.k in {a: 1, b: 2}) {} o.k; ⇒ return \"b\"
var a = []; for (a[a.length] in {x: 1, y: 2, z: 3}) {} a.join(); ⇒ return \"x,y,z\"
var a = [], i = 0; for (a[i++] in {x: 1, y: 2}) {} a.join() + i; ⇒ return \"x,y2\"
var o = {a: 1}, p = {}; for (p[o.a] in o) {} p[1]; ⇒ return \"a\"
var t = '', o = {}; for (o.k in {a: 1, b: 2}) { t += o.k; } t; ⇒ return \"ab\"
var o = cajita.freeze({}); for (o.k in {a: 1}) {} ⇒ throw error main#2 TypeError \"not writable\"
var o = cajita.freeze({}); for (o.k in {}) {} 1; ⇒ return 1
for (null.k in {a: 1}) {} ⇒ throw error main#1 TypeError \"no object\"
for (null.k in {}) {} 1; ⇒ return 1
var o = {}; for (o['k__'] in {a: 1}) {} ⇒ throw error main#2 TypeError \"bad key\"
var k = 1; (function () { for (k in {q: 1}) {} })(); k; ⇒ return \"q\"
var k = 1; (function () { for (var k in {q: 1}) {} })(); k; ⇒ return 1
var t = ''; function o() { t += 'o'; return {}; } function p() { t += 'p'; return {a: 1, b: 2}; } for (o().k in p()) { t += '.'; } t; ⇒ return \"po.o.\"
function f(p) { for (p in {a: 1}) {} return p; } f(2); ⇒ return \"a\"
";

#[test]
fn keys_of_each_value(rt: HostRuntime) -> Result<(), Fail> {
    check_loads(rt.alloc(), KEYS)
}

#[test]
fn keys_that_come_and_go(rt: HostRuntime) -> Result<(), Fail> {
    check_loads(rt.alloc(), CHANGES)
}

#[test]
fn loops_that_write_to_members(rt: HostRuntime) -> Result<(), Fail> {
    check_loads(rt.alloc(), TARGETS)
}

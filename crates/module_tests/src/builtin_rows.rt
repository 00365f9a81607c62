//! Modules that call built-in functions, each with right and with wrong arguments and receivers.

use caja_cli::Status;
use command_runs::tables::{check_loads, check_logs};
use std::test::Fail;

/// The functions of `cajita`.
static CAJITA: &str = "
var o = {}; cajita.freeze(o) === o; ⇒ return true
var a = []; cajita.freeze(a) === a; ⇒ return true
cajita.freeze(5) + cajita.freeze('a'); ⇒ return \"5a\"
cajita.freeze(); ⇒ return undefined
cajita.freeze(null); ⇒ return null
var o = cajita.freeze({x: {y: 1}}); o.x.y = 2; o.x.y; ⇒ return 2
var o = cajita.freeze({x: 1}); delete o.x; ⇒ throw error main#1 TypeError \"not deletable\"
var o = cajita.freeze({x: 1}); o.y = 1; ⇒ throw error main#1 TypeError \"not writable\"
var a = cajita.freeze([1]); a[0] = 2; ⇒ throw error main#1 TypeError \"not writable\"
var a = cajita.freeze([1]); a[1] = 2; ⇒ throw error main#1 TypeError \"not writable\"
var o = {x: 1}; o.x = 2; cajita.freeze(o); o.x++; ⇒ throw error main#1 TypeError \"not writable\"
[cajita.isFrozen({}), cajita.isFrozen([]), cajita.isFrozen(5), cajita.isFrozen(), cajita.isFrozen('a'), cajita.isFrozen(say)].join(); ⇒ return \"false,false,true,true,true,true\"
[cajita.isFrozen(cajita), cajita.isFrozen(Math), cajita.isFrozen(Error()), cajita.isFrozen(null), cajita.isFrozen(cajita.freeze({}))].join(); ⇒ return \"true,true,true,true,true\"
var a = [1, 2], b = cajita.copy(a); b.push(3); a.length + '/' + b.length + '/' + cajita.isFrozen(b); ⇒ return \"2/3/false\"
var o = {x: {}}, c = cajita.copy(o); o.x === c.x && o !== c; ⇒ return true
cajita.copy(cajita.freeze([1])).push(2); ⇒ return 2
cajita.copy(5); ⇒ throw error main#0 TypeError \"bad argument\"
cajita.copy('a'); ⇒ throw error main#0 TypeError \"bad argument\"
cajita.copy(); ⇒ throw error main#0 TypeError \"bad argument\"
cajita.copy(say); ⇒ throw error main#0 TypeError \"bad argument\"
cajita.copy(Error()); ⇒ throw error main#1 TypeError \"bad argument\"
var o = {x: 1}, s = cajita.snapshot(o); o.x = 2; s.x + '/' + cajita.isFrozen(s) + '/' + cajita.isFrozen(o); ⇒ return \"1/true/false\"
cajita.snapshot([1]).push(2); ⇒ throw error main#2 TypeError \"not writable\"
cajita.snapshot(null); ⇒ throw error main#0 TypeError \"bad argument\"
cajita.snapshot(function () {}); ⇒ throw error main#1 TypeError \"bad argument\"
[cajita.isArray([]), cajita.isArray({}), cajita.isArray('a'), cajita.isArray()].join(); ⇒ return \"true,false,false,false\"
[cajita.isRecord({}), cajita.isRecord([]), cajita.isRecord(Error()), cajita.isRecord(say), cajita.isRecord(null), cajita.isRecord(Math)].join(); ⇒ return \"true,false,false,false,false,true\"
cajita.keys({b: 1, a: 2}).join(); ⇒ return \"b,a\"
cajita.keys(['x', 'y']).join(); ⇒ return \"0,1\"
cajita.keys('abc').length + cajita.keys(5).length + cajita.keys(say).length + cajita.keys(Error()).length; ⇒ return 0
cajita.keys(null); ⇒ throw error main#0 TypeError \"no object\"
cajita.keys(); ⇒ throw error main#0 TypeError \"no object\"
var k = cajita.keys({a: 1}); k.push('b'); k.join(); ⇒ return \"a,b\"
cajita.keys(cajita).length; ⇒ return 7
cajita.none; ⇒ return undefined
cajita.freeze.call(null, {}) !== cajita.freeze.call(null, {}); ⇒ return true
var o = {a: 1}, c = cajita.copy(o); delete c.a; c.z = 1; cajita.keys(o).join() + cajita.keys(c).join(); ⇒ return \"az\"
cajita.copy({toString_: 1}).toString_; ⇒ return 1
";

/// The functions of `Math`, and the conversions.
static MATH: &str = "
[Math.abs(-5), Math.abs('-6'), Math.floor(7), Math.ceil(8), Math.round(-9), Math.abs(true), Math.abs(null)].join(); ⇒ return \"5,6,7,8,-9,1,0\"
[Math.max(3, '12', true), Math.min(3, -9, null), Math.max(4), Math.min('7')].join(); ⇒ return \"12,-9,4,7\"
Math.abs(-5, 'no number'); ⇒ return 5
var m = Math.max; m.apply(Math, [1, 5, 2]); ⇒ return 5
Math.PI; ⇒ return undefined
Math.random(); ⇒ throw error main#0 TypeError \"not a function\"
Math.sqrt; ⇒ return undefined
Number() + Number('12') + Number(' 0x10 ') + Number(true) + Number(null) + Number([7]) + Number(''); ⇒ return 36
Number('-7') + Number('+8') + Number('007'); ⇒ return 8
Number([]) + Number(['3']); ⇒ return 3
typeof Number('5') + typeof String(5) + typeof Boolean(5); ⇒ return \"numberstringboolean\"
[String(), String(12), String(null), String([1, [2]]), String({}), String(say), String(undefined), String(true)].join(';'); ⇒ return \";12;null;1,2;[object Object];[object Function];undefined;true\"
[Boolean(), Boolean(0), Boolean(''), Boolean('0'), Boolean({}), Boolean(null), Boolean([]), Boolean(1)].join(); ⇒ return \"false,false,false,true,true,false,true,true\"
Number.call(null, '5') + 1; ⇒ return 6
String.apply(null, ['x', 'y']); ⇒ return \"x\"
Number.MAX_VALUE; ⇒ return undefined
String.fromCharCode; ⇒ return undefined
";

/// Among them, what has no exact value: the load has no line of its own.
static WITHOUT_NUMBER: &str = "
solo ⇒ Math.max(); ⇒ end number
solo ⇒ Math.min(); ⇒ end number
solo ⇒ Math.abs(); ⇒ end number
solo ⇒ Math.abs('a'); ⇒ end number
solo ⇒ Math.max(1, 'a'); ⇒ end number
solo ⇒ Number('a'); ⇒ end number
solo ⇒ Number(undefined); ⇒ end number
solo ⇒ Number({}); ⇒ end number
solo ⇒ Number('1.5'); ⇒ end number
solo ⇒ Number('9007199254740992'); ⇒ end number
solo ⇒ 'abc'.charCodeAt(3); ⇒ end number
solo ⇒ 'abc'.charAt('x'); ⇒ end number
solo ⇒ 'abc'.slice({}); ⇒ end number
solo ⇒ [1].slice('x'); ⇒ end number
solo ⇒ function f() { return 7 / 2; } f(); ⇒ end number
solo ⇒ function f() { try { return 1 / 0; } catch (e) { return 'caught'; } finally { say('finally'); } } f(); ⇒ end number
solo ⇒ say('before'); try { undefined + 1; } catch (e) { say('caught'); } finally { say('finally'); } ⇒ say main \"before\"¦end number
solo ⇒ function f() { return -f; } f(); ⇒ end number
solo ⇒ function f(n) { return n * f(n * n); } f(10); ⇒ end number
solo ⇒ var a = []; a[0]++; ⇒ end number
solo ⇒ 5 % 0; ⇒ end number
";

/// The methods of texts (15.5.4).
static TEXTS: &str = "
'abc'.charAt(1) + 'abc'.charAt() + 'abc'.charAt(9) + 'abc'.charAt(-1) + 'abc'.charAt('2'); ⇒ return \"bac\"
'abc'.charCodeAt(1) + 'abc'.charCodeAt(); ⇒ return 195
'banana'.indexOf('an') + 'banana'.indexOf('an', 2) + 'banana'.indexOf('x'); ⇒ return 3
'banana'.indexOf('', 99) + 'banana'.indexOf('b', -5) + 'banana'.indexOf(''); ⇒ return 6
'undefined'.indexOf(); ⇒ return 0
'banana'.lastIndexOf('an') + 'banana'.lastIndexOf('x') + 'banana'.lastIndexOf(''); ⇒ return 8
'abcdef'.slice(2) + '/' + 'abcdef'.slice(-2) + '/' + 'abcdef'.slice(1, -1) + '/' + 'abcdef'.slice(4, 2) + '/' + 'abcdef'.slice(); ⇒ return \"cdef/ef/bcde//abcdef\"
'abcdef'.substring(4, 2) + '/' + 'abcdef'.substring(-3, 2) + '/' + 'abcdef'.substring(3) + '/' + 'abcdef'.substring(5, 99); ⇒ return \"cd/ab/def/f\"
'a,b,,c'.split(',').join('|'); ⇒ return \"a|b||c\"
'abc'.split('').join('-'); ⇒ return \"a-b-c\"
'abc'.split().length; ⇒ return 1
''.split('').length + ''.split(',').length; ⇒ return 1
'aXbXc'.split('X', 2).length; ⇒ return 3
'a1b1c'.split(1).join(); ⇒ return \"a,b,c\"
'a'.concat('b', 1, null, [2, 3], {}); ⇒ return \"ab1null2,3[object Object]\"
'a'.concat(); ⇒ return \"a\"
'abc'.length + ''.length; ⇒ return 3
'abc'[1]; ⇒ return undefined
'abc'.toUpperCase; ⇒ return undefined
'a-b'.replace('-', '+'); ⇒ throw error main#0 TypeError \"not a function\"
'abc'.x = 1; ⇒ throw error main#0 TypeError \"not writable\"
'length' in 'abc'; ⇒ throw error main#0 TypeError \"no object\"
'abc'.slice.call({}, 1); ⇒ throw error main#1 TypeError \"bad receiver\"
'abc'.indexOf.call(null, 'a'); ⇒ throw error main#0 TypeError \"bad receiver\"
'abc'.split.apply([1], ['']); ⇒ throw error main#2 TypeError \"bad receiver\"
var s = 'x'; s.charAt(0) === s; ⇒ return true
'a b c'.split(' ').reverse().join(' '); ⇒ return \"c b a\"
";

/// The methods of arrays (15.4.4).
static ARRAYS: &str = "
var a = [1]; a.push(2, 3) + '/' + a.join(); ⇒ return \"3/1,2,3\"
var a = [1]; a.push() + a.unshift(); ⇒ return 2
var a = [3]; a.unshift(1, 2) + '/' + a.join(); ⇒ return \"3/1,2,3\"
var a = [1, 2]; a.pop() + a.pop() + '/' + a.pop() + a.length; ⇒ return \"3/undefined0\"
var a = [1, 2]; a.shift() + '/' + a.join() + '/' + [].shift(); ⇒ return \"1/2/undefined\"
var a = [1, 2, 3]; a.reverse() === a && a.join(); ⇒ return \"3,2,1\"
var a = [1, 2, 3, 4]; a.slice(1, 3).join() + '/' + a.slice(-2).join() + '/' + a.slice().join() + '/' + a.slice(3, 1).length + '/' + a.slice(-9, 9).length; ⇒ return \"2,3/3,4/1,2,3,4/0/4\"
[1].concat(2, [3, [4]], 'x').length; ⇒ return 5
var a = [1], b = a.concat(); b !== a && b.join(); ⇒ return \"1\"
[1, null, undefined, 'a', [2, [3]], true].join(); ⇒ return \"1,,,a,2,3,true\"
[1, 2].join('') + [1, 2].join(null) + [1, 2].join(undefined); ⇒ return \"121null21,2\"
[].join('x') + [5].join('x'); ⇒ return \"5\"
'' + [1, [2, 3]] + []; ⇒ return \"1,2,3\"
var a = []; a[0] = 'x'; a[a.length] = 'y'; a.join(''); ⇒ return \"xy\"
var a = [1]; a.length = 0; ⇒ throw error main#1 TypeError \"not writable\"
var a = [1]; delete a[0]; ⇒ throw error main#1 TypeError \"not deletable\"
var a = [1]; a.x = 1; ⇒ throw error main#1 TypeError \"not writable\"
var a = [1]; a[-1] = 1; ⇒ throw error main#1 TypeError \"not writable\"
var a = [1]; a.push = 1; ⇒ throw error main#1 TypeError \"not writable\"
var a = [1]; a.toString = 1; ⇒ throw error main#1 TypeError \"bad key\"
[1].sort; ⇒ return undefined
[1].splice(0); ⇒ throw error main#1 TypeError \"not a function\"
[1].push.call('a', 1); ⇒ throw error main#1 TypeError \"bad receiver\"
[1].join.call({length: 1}); ⇒ throw error main#2 TypeError \"bad receiver\"
cajita.freeze([1]).push(2); ⇒ throw error main#1 TypeError \"not writable\"
cajita.freeze([1]).pop(); ⇒ throw error main#1 TypeError \"not writable\"
cajita.freeze([1]).shift(); ⇒ throw error main#1 TypeError \"not writable\"
cajita.freeze([1]).unshift(0); ⇒ throw error main#1 TypeError \"not writable\"
cajita.freeze([1]).reverse(); ⇒ throw error main#1 TypeError \"not writable\"
cajita.freeze([1]).push(); ⇒ throw error main#1 TypeError \"not writable\"
cajita.freeze([1, 2]).slice(1).join() + cajita.freeze([1]).concat(2).join() + cajita.freeze([3]).join(); ⇒ return \"21,23\"
cajita.isFrozen(cajita.freeze([1]).slice()); ⇒ return false
0 in [1] && !(1 in [1]) && 'length' in [] && !('push' in []); ⇒ return true
var a = [1, 2, 3]; a[1] = 'b'; a['2'] = 'c'; a.join(''); ⇒ return \"1bc\"
var a = [function () { return a.length; }]; a[0](); ⇒ return 1
var q = []; q.push('a'); q.push('b'); q.shift() + q.length; ⇒ return \"a1\"
var a = [1]; a[1] = a; a.length; ⇒ return 2
";

/// Records with functions: hidden and reserved keys, keys that are taken away.
static RECORDS: &str = "
var o = {}; o.constructor = 1; delete o.constructor; o.constructor; ⇒ return undefined
var o = {}; o['a' + '__'] = 1; ⇒ throw error main#1 TypeError \"bad key\"
var o = {}; o['a__']; ⇒ return undefined
var o = {}; 'a__' in o; ⇒ return false
var o = {}; delete o['a__']; ⇒ throw error main#1 TypeError \"bad key\"
var o = {}; o.toString = function () { return 'x'; }; ⇒ throw error main#2 TypeError \"bad key\"
var o = {}; o['valueOf'] = 1; ⇒ throw error main#1 TypeError \"bad key\"
var o = {}; delete o.toString; ⇒ throw error main#1 TypeError \"bad key\"
cajita.freeze({})['a__'] = 1; ⇒ throw error main#1 TypeError \"bad key\"
cajita.freeze({}).toString = 1; ⇒ throw error main#1 TypeError \"bad key\"
var o = {a: 1}; delete o.a && delete o.a && !('a' in o); ⇒ return true
var o = {}; o[1] = 'n'; o['1'] + o[1]; ⇒ return \"nn\"
var o = {}; o[[1, 2]] = 'a'; o['1,2']; ⇒ return \"a\"
var o = {}; o[{}] = 'o'; o['[object Object]']; ⇒ return \"o\"
var o = {}; o[say] = 'f'; o['[object Function]']; ⇒ return \"f\"
var o = {}; o[null] = 1; o[undefined] = 2; o[true] = 3; cajita.keys(o).join(); ⇒ return \"null,undefined,true\"
var o = {}; o.hasOwnProperty = 1; o.prototype = 2; o.length = 3; cajita.keys(o).length; ⇒ return 3
var o = {}; (o.x = 5) + (o['y'] = 6); ⇒ return 11
var o = {f: function () { return 1; }}; delete o.f; o.f; ⇒ return undefined
var o = {n: 1}; o.n += o.n++ + ++o.n; o.n; ⇒ return 5
var t = ''; function p(x) { t += x; return x; } var o = {}; o[p('k')] = p('v'); t; ⇒ return \"kv\"
var t = ''; function o() { t += 'o'; return {n: 1}; } function k() { t += 'k'; return 'n'; } function v() { t += 'v'; return 1; } o()[k()] += v(); t; ⇒ return \"okv\"
var t = ''; function v() { t += 'v'; return 1; } try { null.x = v(); } catch (e) { t += e.message; } t; ⇒ return \"vno object\"
var o = {x: 1}; function f(p) { p.x = 2; p = null; } f(o); o.x; ⇒ return 2
";

#[test]
fn functions_of_cajita(rt: HostRuntime) -> Result<(), Fail> {
    check_loads(rt.alloc(), CAJITA)
}

#[test]
fn functions_of_numbers_and_conversions(rt: HostRuntime) -> Result<(), Fail> {
    check_loads(rt.alloc(), MATH)?;
    check_logs(rt.alloc(), WITHOUT_NUMBER, Status::Number)
}

#[test]
fn methods_of_texts(rt: HostRuntime) -> Result<(), Fail> {
    check_loads(rt.alloc(), TEXTS)
}

#[test]
fn methods_of_arrays(rt: HostRuntime) -> Result<(), Fail> {
    check_loads(rt.alloc(), ARRAYS)
}

#[test]
fn records_and_their_keys(rt: HostRuntime) -> Result<(), Fail> {
    check_loads(rt.alloc(), RECORDS)
}

//! Modules that call: plainly, by a member, by `call` and `apply`, and by `new`.

use command_runs::tables::check_loads;
use std::test::Fail;

/// Plain calls: the callee is checked before the arguments are evaluated (11.2.3, and the table of public interfaces).
static PLAIN: &str = "
undefined(); ⇒ throw error main#0 TypeError \"not a function\"
(5)(); ⇒ throw error main#0 TypeError \"not a function\"
({})(); ⇒ throw error main#1 TypeError \"not a function\"
'text'(); ⇒ throw error main#0 TypeError \"not a function\"
new Error('x')(); ⇒ throw error main#1 TypeError \"not a function\"
var e = new Error('x'); e(); ⇒ throw error main#1 TypeError \"not a function\"
Math(); ⇒ throw error main#0 TypeError \"not a function\"
var n = 0, f; try { f(n++); } catch (e) { e.message + n; } ⇒ return undefined
var n = 0, f, t; try { f(n++); } catch (e) { t = e.message + n; } t; ⇒ return \"not a function0\"
var n = 0, p = [].push, t; try { p(n++); } catch (e) { t = e.message + n; } t; ⇒ return \"bad receiver0\"
var n = 0, p = ''.slice, t; try { p(n++); } catch (e) { t = e.message + n; } t; ⇒ return \"bad receiver0\"
var n = 0, p = say.call, t; try { p(n++); } catch (e) { t = e.message + n; } t; ⇒ return \"bad receiver0\"
var f = Math.max; f(1, 3, 2); ⇒ return 3
var f = cajita.keys; f({a: 1}).join(); ⇒ return \"a\"
var o = {f: function () { return 'plain'; }}, f = o.f; f(); ⇒ return \"plain\"
(true ? Math.abs : Math.max)(-3); ⇒ return 3
(0, [].push)(1); ⇒ throw error main#1 TypeError \"bad receiver\"
var a; (a = Math.abs)(-1); ⇒ return 1
function f() { return g; } function g() { return 'g'; } f()(); ⇒ return \"g\"
Number.call; ⇒ return function !function.call
undefined === (function () {})(); ⇒ return true
";

/// Calls of members: object, key and arguments are evaluated, and then the member is looked up.
static METHODS: &str = "
({f: function (x) { return x + 1; }}).f(2); ⇒ return 3
({f: function (x) { return x + 1; }})['f'](2); ⇒ return 3
({}).f(); ⇒ throw error main#1 TypeError \"not a function\"
({f: 5}).f(); ⇒ throw error main#1 TypeError \"not a function\"
null.f(); ⇒ throw error main#0 TypeError \"no object\"
undefined.f(); ⇒ throw error main#0 TypeError \"no object\"
(5).f(); ⇒ throw error main#0 TypeError \"not a function\"
true.f(); ⇒ throw error main#0 TypeError \"not a function\"
'a'.f(); ⇒ throw error main#0 TypeError \"not a function\"
'a'.length(); ⇒ throw error main#0 TypeError \"not a function\"
'abc'[0](); ⇒ throw error main#0 TypeError \"not a function\"
[].f(); ⇒ throw error main#1 TypeError \"not a function\"
[function () { return 'item'; }][0](); ⇒ return \"item\"
say.f(); ⇒ throw error main#0 TypeError \"not a function\"
new Error('m').message(); ⇒ throw error main#1 TypeError \"not a function\"
var n = 0, t; try { null.f(n++); } catch (e) { t = e.message + n; } t; ⇒ return \"no object1\"
var n = 0, t; try { ({}).f(n++); } catch (e) { t = e.message + n; } t; ⇒ return \"not a function1\"
var n = 0, t; try { null[n++](n++); } catch (e) { t = e.message + n; } t; ⇒ return \"no object2\"
var o = {f: function () { return 'old'; }}; o.f(o.f = function () { return 'new'; }); ⇒ return \"new\"
var o = {}; o.f(o.f = function (g) { return typeof g; }); ⇒ return \"function\"
var t = ''; function p(x) { t += x; return x; } var o = {m: function () { return t; }}; (p('a'), o)[p('m')](p('b')); ⇒ return \"amb\"
({}).toString(); ⇒ throw error main#1 TypeError \"not a function\"
({}).hasOwnProperty('a'); ⇒ throw error main#1 TypeError \"not a function\"
[].toString(); ⇒ throw error main#1 TypeError \"not a function\"
(function () {}).toString(); ⇒ throw error main#1 TypeError \"not a function\"
({f: 1})['f__'](); ⇒ throw error main#1 TypeError \"not a function\"
var o = {n: 1, f: function () { return o.n; }}; o.f(); ⇒ return 1
var o = {push: [].push}; o.push(1); ⇒ throw error main#2 TypeError \"bad receiver\"
var o = {push: [].push}; o.push.call([4], 1); ⇒ return 2
var o = {f: Math.abs}; o.f(-2); ⇒ return 2
var o = {e: Error}; o.e('m').message; ⇒ return \"m\"
({s: say}).s === say; ⇒ return true
[1, 2].concat.call([3], 4).join(); ⇒ return \"3,4\"
'abc'['char' + 'At'](1); ⇒ return \"b\"
";

/// Methods are values, the same one for all of a kind, and functions are frozen.
static TAKEN: &str = "
[].push === [1].push; ⇒ return true
[].concat === ''.concat; ⇒ return false
[].slice === ''.slice; ⇒ return false
'a'.slice; ⇒ return function !text.slice
[].push; ⇒ return function !array.push
say.apply; ⇒ return function !function.apply
(function () {}).call === say.call; ⇒ return true
(function () {}).call; ⇒ return function !function.call
(function () {}).length; ⇒ return undefined
(function () {}).prototype; ⇒ return undefined
function f() {} f.x = 1; ⇒ throw error main#1 TypeError \"not writable\"
function f() {} delete f.x; ⇒ throw error main#1 TypeError \"not deletable\"
function f() {} f.call = 1; ⇒ throw error main#1 TypeError \"not writable\"
function f() {} f['x__'] = 1; ⇒ throw error main#1 TypeError \"bad key\"
function f() {} cajita.isFrozen(f); ⇒ return true
function f() {} 'call' in f; ⇒ return false
function f() {} cajita.keys(f).length; ⇒ return 0
function f() {} typeof f + typeof say + typeof Error + typeof [].push; ⇒ return \"functionfunctionfunctionfunction\"
function f() {} '' + f + say; ⇒ return \"[object Function][object Function]\"
function f() {} f === f && f !== function () {}; ⇒ return true
function f() {} f == '[object Function]'; ⇒ return true
function f() {} !f; ⇒ return false
function f() {} var g = f; g === f; ⇒ return true
function f() {} cajita.freeze(f) === f; ⇒ return true
function f() {} cajita.isRecord(f) || cajita.isArray(f); ⇒ return false
";

/// `call` and `apply` of each kind of function: a closure drops its receiver, a method wants one of its kind (15.3.4.3, 15.3.4.4).
static CALL_AND_APPLY: &str = "
function f(a, b) { return a + '/' + b; } f.call(null, 1, 2); ⇒ return \"1/2\"
function f(a, b) { return a + '/' + b; } f.call({}, 1); ⇒ return \"1/undefined\"
function f(a, b) { return a + '/' + b; } f.call(); ⇒ return \"undefined/undefined\"
function f(a, b) { return a + '/' + b; } f.apply(null, [1, 2]); ⇒ return \"1/2\"
function f(a, b) { return a + '/' + b; } f.apply(null); ⇒ return \"undefined/undefined\"
function f(a, b) { return a + '/' + b; } f.apply(null, null); ⇒ return \"undefined/undefined\"
function f(a, b) { return a + '/' + b; } f.apply(null, undefined); ⇒ return \"undefined/undefined\"
function f() {} f.apply(null, {}); ⇒ throw error main#2 TypeError \"bad argument\"
function f() {} f.apply(null, 'ab'); ⇒ throw error main#1 TypeError \"bad argument\"
function f() {} f.apply(null, 5); ⇒ throw error main#1 TypeError \"bad argument\"
function f() { return arguments.length; } f.apply(null, []) + '/' + f.apply(null, [1, undefined]); ⇒ return \"0/2\"
Math.max.apply(null, [3, 9, 4]); ⇒ return 9
Math.max.call(null, 3, 9, 4); ⇒ return 9
String.call(null, 5) + 1; ⇒ return \"51\"
Error.call(null, 'm').message; ⇒ return \"m\"
[].push.call([1], 2); ⇒ return 2
[].push.apply([1], [2, 3]); ⇒ return 3
[].push.call({}, 2); ⇒ throw error main#2 TypeError \"bad receiver\"
[].push.call(cajita.freeze([]), 2); ⇒ throw error main#2 TypeError \"not writable\"
[].join.call('abc', '-'); ⇒ throw error main#1 TypeError \"bad receiver\"
[].join.call([1, 2], '-'); ⇒ return \"1-2\"
''.slice.call('abcd', 1, 3); ⇒ return \"bc\"
''.slice.call([1], 0); ⇒ throw error main#1 TypeError \"bad receiver\"
''.slice.call(5, 0); ⇒ throw error main#0 TypeError \"bad receiver\"
''.charAt.apply('abc', [2]); ⇒ return \"c\"
''.concat.call('a', 'b', 1); ⇒ return \"ab1\"
function f() { return 'called'; } f.call.call(f); ⇒ return \"called\"
function f(a) { return a; } f.call.call(f, null, 'x'); ⇒ return \"x\"
function f(a, b) { return a + b; } f.apply.call(f, null, [1, 2]); ⇒ return 3
function f(a, b) { return a + b; } f.call.apply(f, [null, 1, 2]); ⇒ return 3
say.call.call({}); ⇒ throw error main#1 TypeError \"bad receiver\"
say.call.call([].push, [1], 2); ⇒ return 2
say.apply.call(5); ⇒ throw error main#0 TypeError \"bad receiver\"
var c = say.call; c(); ⇒ throw error main#0 TypeError \"bad receiver\"
var o = {c: (function () { return 'f'; }).call}; o.c(); ⇒ throw error main#2 TypeError \"bad receiver\"
function f(a) { return f.call === a; } f(f.call); ⇒ return true
function f(n) { return n === 0 ? 'end' : f.call(null, n - 1); } f(50); ⇒ return \"end\"
function f(n) { return n === 0 ? 'end' : f.apply(null, [n - 1]); } f(50); ⇒ return \"end\"
";

/// `new` makes errors alone; its callee is checked after the arguments (11.2.2).
static NEW: &str = "
new Error('m').name; ⇒ return \"Error\"
new TypeError('m').name; ⇒ return \"TypeError\"
new RangeError('m').name; ⇒ return \"RangeError\"
new Error().message; ⇒ return \"\"
new Error(undefined).message; ⇒ return \"\"
new Error(null).message; ⇒ return \"null\"
new Error(12).message + 1; ⇒ return \"121\"
new Error([1, [2, 3]]).message; ⇒ return \"1,2,3\"
new Error('a', 'b').message; ⇒ return \"a\"
Error('m').message; ⇒ return \"m\"
Error('m') instanceof Error; ⇒ return true
TypeError() instanceof Error; ⇒ return true
TypeError() instanceof TypeError; ⇒ return true
TypeError() instanceof RangeError; ⇒ return false
Error() instanceof TypeError; ⇒ return false
function f() {} new f(); ⇒ throw error main#1 TypeError \"not a constructor\"
new (function () {})(); ⇒ throw error main#1 TypeError \"not a constructor\"
new Number(5); ⇒ throw error main#0 TypeError \"not a constructor\"
new String('a'); ⇒ throw error main#0 TypeError \"not a constructor\"
new Boolean(true); ⇒ throw error main#0 TypeError \"not a constructor\"
new Math.abs(1); ⇒ throw error main#0 TypeError \"not a constructor\"
new [].push(1); ⇒ throw error main#1 TypeError \"not a constructor\"
new say('x'); ⇒ throw error main#0 TypeError \"not a constructor\"
new later(function () {}); ⇒ throw error main#1 TypeError \"not a constructor\"
new undefined(); ⇒ throw error main#0 TypeError \"not a constructor\"
new (5)(); ⇒ throw error main#0 TypeError \"not a constructor\"
new ({})(); ⇒ throw error main#1 TypeError \"not a constructor\"
var n = 0, f, t; try { new f(n++); } catch (e) { t = e.message + n; } t; ⇒ return \"not a constructor1\"
var o = {E: RangeError}; new o.E('r').name; ⇒ return \"RangeError\"
function f() { return TypeError; } new (f())('m').message; ⇒ return \"m\"
var e = new Error('m'); e.message = 'other'; ⇒ throw error main#1 TypeError \"not writable\"
var e = new Error('m'); delete e.name; ⇒ throw error main#1 TypeError \"not deletable\"
var e = new Error('m'); 'name' in e && 'message' in e && !('x' in e); ⇒ return true
var e = new Error('m'); e.x + '' + e.stack + e; ⇒ return \"undefinedundefined[object Object]\"
var e = new Error('m'); cajita.isFrozen(e) + '/' + cajita.isRecord(e) + '/' + typeof e; ⇒ return \"true/false/object\"
var e = new Error('m'); e === e && e !== new Error('m'); ⇒ return true
({}) instanceof Error; ⇒ return false
'a' instanceof TypeError; ⇒ return false
undefined instanceof Error; ⇒ return false
new Error() instanceof Number; ⇒ return false
function f() {} new Error() instanceof f; ⇒ return false
new Error() instanceof {}; ⇒ throw error main#2 TypeError \"not a function\"
new Error() instanceof 5; ⇒ throw error main#1 TypeError \"not a function\"
";

/// `typeof`, `void`, equality and conversions of what modules make (11.4.3, 11.9).
static TYPES: &str = "
function t(v) { return typeof v; } [t(), t(null), t(true), t(5), t('a'), t({}), t([]), t(t), t(Error()), t(Math), t(say)].join(' '); ⇒ return \"undefined object boolean number string object object function object object function\"
function f() { return 1; } void f(); ⇒ return undefined
function f() { return 1; } typeof f(); ⇒ return \"number\"
function f() {} f == f && f != null && f != undefined; ⇒ return true
function f() {} var g = function () {}; f == g; ⇒ return false
function f() { return [1]; } f() == f(); ⇒ return false
function f() { return [1]; } f() == 1 && f() == '1' && !(f() === 1); ⇒ return true
function f() { return {}; } f() == '[object Object]'; ⇒ return true
undefined == null && undefined !== null && undefined == (function () {})(); ⇒ return true
function f() { return '12'; } f() * f() - f(); ⇒ return 132
function f() { return null; } f() + 1 + f() * 5; ⇒ return 1
function f() { return true; } f() + f(); ⇒ return 2
function f() {} f() || f && 'both'; ⇒ return \"both\"
function f() {} f ? 'yes' : 'no'; ⇒ return \"yes\"
function f(a) { return a < 'b'; } f('a') + '/' + f('c') + '/' + f([]); ⇒ return \"true/false/true\"
function f() { return [10] > [9]; } f(); ⇒ return false
function f() { return [10] > 9; } f(); ⇒ return true
function f(a) { return -a + ~a + +a; } f('7'); ⇒ return -8
function f(a, b) { return a & b | a ^ b; } f(12, 10) + (1 << 31) + (-1 >>> 28) + (-8 >> 1); ⇒ return -2147483623
";

#[test]
fn plain_calls(rt: HostRuntime) -> Result<(), Fail> {
    check_loads(rt.alloc(), PLAIN)
}

#[test]
fn types_and_conversions(rt: HostRuntime) -> Result<(), Fail> {
    check_loads(rt.alloc(), TYPES)
}

#[test]
fn calls_of_members(rt: HostRuntime) -> Result<(), Fail> {
    check_loads(rt.alloc(), METHODS)
}

#[test]
fn methods_are_values_and_functions_are_frozen(rt: HostRuntime) -> Result<(), Fail> {
    check_loads(rt.alloc(), TAKEN)
}

#[test]
fn calls_by_call_and_by_apply(rt: HostRuntime) -> Result<(), Fail> {
    check_loads(rt.alloc(), CALL_AND_APPLY)
}

#[test]
fn what_new_makes(rt: HostRuntime) -> Result<(), Fail> {
    check_loads(rt.alloc(), NEW)
}

//! Calls by `call` and `apply`, and the receivers that methods want: the words, the text, and what it gives.

use caja_cli::Status;
use command_runs::tables::{check_ends, check_gives};
use std::test::Fail;

/// call (ES3 15.3.4.4).
static CALLED: &str = "
run ⇒ (function () { return this.x; }).call({x: 5}); ⇒ return 5
run ⇒ (function (a, b) { return a + b; }).call(null, 1, 2); ⇒ return 3
run ⇒ (function () { return arguments.length; }).call(); ⇒ return 0
run ⇒ (function () { return arguments.length; }).call(null); ⇒ return 0
run ⇒ (function () { return arguments.length; }).call(null, 1, undefined, 3); ⇒ return 3
run ⇒ (function () { return this; }).call() === this; ⇒ return true
run ⇒ (function () { return this; }).call(null) === this; ⇒ return true
run ⇒ (function () { return this; }).call(undefined) === this; ⇒ return true
run ⇒ var o = {}; (function () { return this; }).call(o) === o; ⇒ return true
run ⇒ function f() { return typeof this; } f.call(5); ⇒ return \"object\"
run ⇒ function f(a) { this.x = a; } var o = {}; f.call(o, 3); o.x; ⇒ return 3
run ⇒ (function () { throw 7; }).call(); ⇒ throw 7
run ⇒ Math.abs.call.call(Math.abs, null, -4); ⇒ return 4
run ⇒ Function.prototype.call.apply(Math.max, [null, 2, 7]); ⇒ return 7
run ⇒ Error.call(null, 'a'); ⇒ return error main#0 Error \"a\"
run ⇒ Object.call(null); ⇒ return record main#0
run ⇒ function A() { this.a = 1; } function B() { A.call(this); this.b = 2; } var o = new B(); o.a + o.b; ⇒ return 3
run ⇒ function f(n) { return n === 0 ? 0 : f.call(null, n - 1); } f(999); ⇒ return 0
";

/// apply (15.3.4.3): no arguments for undefined and null, and the items of an array, where a hole is undefined.
static APPLIED: &str = "
run ⇒ (function (a, b) { return b; }).apply(null, [1, 2]); ⇒ return 2
run ⇒ (function () { return arguments.length; }).apply(); ⇒ return 0
run ⇒ (function () { return arguments.length; }).apply({}); ⇒ return 0
run ⇒ (function () { return arguments.length; }).apply(null, undefined); ⇒ return 0
run ⇒ (function () { return arguments.length; }).apply(null, null); ⇒ return 0
run ⇒ (function () { return arguments.length; }).apply(null, []); ⇒ return 0
run ⇒ (function () { return arguments.length; }).apply(null, [1, 2, 3], 4); ⇒ return 3
run ⇒ (function () { return this.x; }).apply({x: 6}, []); ⇒ return 6
run ⇒ (function () { return this; }).apply() === this; ⇒ return true
run ⇒ var a = []; a[2] = 1; (function (x) { return x + '' + arguments.length; }).apply(null, a); ⇒ return \"undefined3\"
run ⇒ var a = []; a[2] = 1; (function () { return 0 in arguments; }).apply(null, a); ⇒ return true
run ⇒ Math.max.apply(null, [3, 9, 4]); ⇒ return 9
run ⇒ var a = [1]; [].push.apply(a, [2, 3]); a.join(); ⇒ return \"1,2,3\"
run ⇒ [].concat.apply([1], [[2, 3], [4]]).join(); ⇒ return \"1,2,3,4\"
run ⇒ ''.concat.apply('a', ['b', 'c']); ⇒ return \"abc\"
run ⇒ [].slice.apply([1, 2, 3], [1]).join(); ⇒ return \"2,3\"
run ⇒ Function.prototype.apply.call(Math.max, null, [1, 8]); ⇒ return 8
run ⇒ Math.max.apply.apply(Math.max, [null, [5, 6]]); ⇒ return 6
run ⇒ (function () { throw 7; }).apply(null, []); ⇒ throw 7
run ⇒ function f(n) { return n === 0 ? 0 : f.apply(null, [n - 1]); } f(999); ⇒ return 0
";

/// Calls by `call` and `apply` count as any other: 1,000 may be open.
static DEEP_CALLS: &str = "
run ⇒ function f(n) { return n === 0 ? 0 : f.call(null, n - 1); } f(1000); ⇒ end depth
run ⇒ function f(n) { return n === 0 ? 0 : f.apply(null, [n - 1]); } f(1000); ⇒ end depth
run ⇒ function f() { try { f.call(); } catch (e) { 1; } } f(); ⇒ end depth
";

/// What is neither undefined, nor null, nor an array is no list of arguments.
static BAD_ARGUMENTS: &str = "
run ⇒ Math.max.apply(null, 5); ⇒ throw error main#0 TypeError \"bad argument\"
run ⇒ Math.max.apply(null, 'ab'); ⇒ throw error main#0 TypeError \"bad argument\"
run ⇒ Math.max.apply(null, true); ⇒ throw error main#0 TypeError \"bad argument\"
run ⇒ Math.max.apply(null, false); ⇒ throw error main#0 TypeError \"bad argument\"
run ⇒ Math.max.apply(null, {}); ⇒ throw error main#0 TypeError \"bad argument\"
run ⇒ Math.max.apply(null, {length: 0}); ⇒ throw error main#0 TypeError \"bad argument\"
run ⇒ Math.max.apply(null, Math.abs); ⇒ throw error main#0 TypeError \"bad argument\"
run ⇒ Math.max.apply(null, Error('a')); ⇒ throw error main#1 TypeError \"bad argument\"
run ⇒ (function () {}).apply({}, 0); ⇒ throw error main#0 TypeError \"bad argument\"
run ⇒ try { Math.max.apply(null, 5); } catch (e) { e.name + ' ' + e.message + ' ' + (e instanceof TypeError); } ⇒ return \"TypeError bad argument true\"
";

/// A method takes a receiver of its kind from anywhere.
static RECEIVERS: &str = "
run ⇒ Array.prototype.push.call([1], 2); ⇒ return 2
run ⇒ [].concat.call([1], [2]).join(); ⇒ return \"1,2\"
run ⇒ [].join.call([1, 2], ''); ⇒ return \"12\"
run ⇒ [].reverse.call([1, 2]).join(); ⇒ return \"2,1\"
run ⇒ [].pop.call([1, 2]); ⇒ return 2
run ⇒ [].shift.call([1, 2]); ⇒ return 1
run ⇒ [].unshift.call([1, 2], 0); ⇒ return 3
run ⇒ ''.charAt.call('abc', 2); ⇒ return \"c\"
run ⇒ String.prototype.slice.call('abc', 1); ⇒ return \"bc\"
run ⇒ String.prototype.split.call('a b', ' ').length; ⇒ return 2
run ⇒ var a = [1, 2]; a.f = [].join; a.f('-'); ⇒ return \"1-2\"
run ⇒ String.prototype.f = ''.charAt; 'abc'.f(1); ⇒ return \"b\"
run ⇒ function F() {} F.prototype = [1, 2]; new F().length; ⇒ return 2
";

/// What is no array is no receiver of an array's methods, whatever the arguments.
static BAD_ARRAYS: &str = "
run ⇒ Array.prototype.push.call({}); ⇒ throw error main#0 TypeError \"bad receiver\"
run ⇒ Array.prototype.push.call('abc', 1); ⇒ throw error main#0 TypeError \"bad receiver\"
run ⇒ Array.prototype.pop.call(null); ⇒ throw error main#0 TypeError \"bad receiver\"
run ⇒ Array.prototype.shift.call(undefined); ⇒ throw error main#0 TypeError \"bad receiver\"
run ⇒ Array.prototype.unshift.call(5, 1); ⇒ throw error main#0 TypeError \"bad receiver\"
run ⇒ Array.prototype.reverse.call(true); ⇒ throw error main#0 TypeError \"bad receiver\"
run ⇒ Array.prototype.join.call('abc'); ⇒ throw error main#0 TypeError \"bad receiver\"
run ⇒ Array.prototype.join.call({}, {toString: 1}); ⇒ throw error main#0 TypeError \"bad receiver\"
run ⇒ Array.prototype.concat.call({}, [1]); ⇒ throw error main#0 TypeError \"bad receiver\"
run ⇒ Array.prototype.slice.call({length: 1}); ⇒ throw error main#0 TypeError \"bad receiver\"
run ⇒ Array.prototype.slice.call('abc', 'x'); ⇒ throw error main#0 TypeError \"bad receiver\"
run ⇒ Array.prototype.join.call(); ⇒ throw error main#0 TypeError \"bad receiver\"
run ⇒ Array.prototype.join.apply(Math.abs, []); ⇒ throw error main#0 TypeError \"bad receiver\"
run ⇒ (function () { return [].slice.call(arguments); })(1); ⇒ throw error main#0 TypeError \"bad receiver\"
run ⇒ var push = [].push; push(1); ⇒ throw error main#0 TypeError \"bad receiver\"
run ⇒ ({push: [].push}).push(1); ⇒ throw error main#0 TypeError \"bad receiver\"
run ⇒ function F() {} F.prototype = []; new F().push(1); ⇒ throw error main#0 TypeError \"bad receiver\"
run ⇒ [].push.call(Error('a')); ⇒ throw error main#1 TypeError \"bad receiver\"
";

/// What is no text is no receiver of a text's methods, and what can't be called none of `call` and `apply`.
static BAD_TEXTS: &str = "
run ⇒ String.prototype.charAt.call(5); ⇒ throw error main#0 TypeError \"bad receiver\"
run ⇒ String.prototype.charAt.call({}, 'x'); ⇒ throw error main#0 TypeError \"bad receiver\"
run ⇒ String.prototype.charCodeAt.call([1]); ⇒ throw error main#0 TypeError \"bad receiver\"
run ⇒ String.prototype.indexOf.call({}, ''); ⇒ throw error main#0 TypeError \"bad receiver\"
run ⇒ String.prototype.lastIndexOf.call(null); ⇒ throw error main#0 TypeError \"bad receiver\"
run ⇒ String.prototype.slice.call([1, 2], 1); ⇒ throw error main#0 TypeError \"bad receiver\"
run ⇒ String.prototype.substring.call(undefined); ⇒ throw error main#0 TypeError \"bad receiver\"
run ⇒ String.prototype.split.call(true); ⇒ throw error main#0 TypeError \"bad receiver\"
run ⇒ String.prototype.concat.call(1, 2); ⇒ throw error main#0 TypeError \"bad receiver\"
run ⇒ String.prototype.concat.call({}, {toString: 1}); ⇒ throw error main#0 TypeError \"bad receiver\"
run ⇒ var charAt = 'abc'.charAt; charAt(1); ⇒ throw error main#0 TypeError \"bad receiver\"
run ⇒ ''.charAt.call(); ⇒ throw error main#0 TypeError \"bad receiver\"
run ⇒ Function.prototype.call.call(1); ⇒ throw error main#0 TypeError \"bad receiver\"
run ⇒ Function.prototype.call.call({}, 1, 2); ⇒ throw error main#0 TypeError \"bad receiver\"
run ⇒ Function.prototype.apply.call('a', null, 5); ⇒ throw error main#0 TypeError \"bad receiver\"
run ⇒ var call = Math.abs.call; call(null, 1); ⇒ throw error main#0 TypeError \"bad receiver\"
run ⇒ ({apply: Math.abs.apply}).apply(null, []); ⇒ throw error main#0 TypeError \"bad receiver\"
run ⇒ try { [].push.call(1); } catch (e) { e; } [].push.call(2); ⇒ throw error main#1 TypeError \"bad receiver\"
run ⇒ try { ''.charAt.call(1); } catch (e) { e.name + ' ' + e.message + ' ' + (e instanceof TypeError); } ⇒ return \"TypeError bad receiver true\"
";

/// A built-in function takes one step when it is called, and so does each that it calls in its place.
static EXACT_STEPS: &str = "
run --steps 7 ⇒ Math.max(1, 2); ⇒ return 2
run --steps 9 ⇒ Math.max.call(null, 1); ⇒ return 1
run --steps 5 ⇒ new Error('x'); ⇒ return error main#0 Error \"x\"
run --steps 3 ⇒ [].push; ⇒ return function !array.push
run --steps 4 ⇒ Function(); ⇒ throw error main#0 TypeError \"not allowed\"
";

/// The same with one step less.
static SHORT_STEPS: &str = "
run --steps 6 ⇒ Math.max(1, 2); ⇒ end steps
run --steps 8 ⇒ Math.max.call(null, 1); ⇒ end steps
run --steps 4 ⇒ new Error('x'); ⇒ end steps
run --steps 2 ⇒ [].push; ⇒ end steps
run --steps 3 ⇒ Function(); ⇒ end steps
run --steps 5 ⇒ 'a'.charCodeAt(9); ⇒ end steps
";

#[test]
fn call_and_apply_call_in_their_place(rt: HostRuntime) -> Result<(), Fail> {
    check_gives(rt.alloc(), CALLED)?;
    check_gives(rt.alloc(), APPLIED)?;
    check_ends(rt.alloc(), DEEP_CALLS, Status::Depth)
}

#[test]
fn apply_wants_an_array(rt: HostRuntime) -> Result<(), Fail> {
    check_gives(rt.alloc(), BAD_ARGUMENTS)
}

#[test]
fn a_method_wants_a_receiver_of_its_kind(rt: HostRuntime) -> Result<(), Fail> {
    check_gives(rt.alloc(), RECEIVERS)?;
    check_gives(rt.alloc(), BAD_ARRAYS)?;
    check_gives(rt.alloc(), BAD_TEXTS)
}

#[test]
fn a_built_in_function_takes_one_step(rt: HostRuntime) -> Result<(), Fail> {
    check_gives(rt.alloc(), EXACT_STEPS)?;
    check_ends(rt.alloc(), SHORT_STEPS, Status::Steps)
}

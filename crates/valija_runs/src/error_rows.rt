//! Constructors of others, errors, what can't be called or read, and forms that stay what they are.

use command_runs::page_tables::check_modules;
use std::test::Fail;

/// `new` of functions that others made hands on one argument.
static NEW_OF_FUNCTIONS_THAT_OTHERS: &str = r#"
new Error('m').message; ⇒ load main return "m"
new TypeError('m') + ''; ⇒ load main return "[object Object]"
var E = RangeError; new E('r').name; ⇒ load main return "RangeError"
var t; try { new say('x'); } catch (e) { t = e.message; } t; ⇒ load main return "not a constructor"
"#;

/// Errors that are thrown and caught (12.13, 12.14).
static ERRORS_THAT_ARE_THROWN_AND: &str = r#"
function MyError(m) { this.message = m; } var t; try { throw new MyError('mine'); } catch (e) { t = e.message; } t; ⇒ load main return "mine"
function A() {} var t = ''; try { throw new A(); } catch (e) { t = e instanceof A ? 'A' : 'other'; } finally { t += '!'; } t; ⇒ load main return "A!"
function f() { try { return 'try'; } finally { say('finally'); } } f(); ⇒ say main "finally"¦load main return "try"
var o = {f: function () { throw 'out'; }}; var t; try { o.f(); } catch (e) { t = e; } t; ⇒ load main return "out"
function P() { throw 'no'; } var t = 'none'; try { new P(); } catch (e) { t = e; } t; ⇒ load main return "no"
function f() { try { throw 1; } catch (e) { e = e + 1; return e; } } f(); ⇒ load main return 2
var t = ''; try { null.k; } catch (e) { t = typeof e.message; } t; ⇒ load main return "string"
function f(n) { if (n === 0) { throw 'deep'; } return f(n - 1); } var t; try { f(5); } catch (e) { t = e; } t; ⇒ load main return "deep"
var t; try { throw {k: 'record'}; } catch (e) { t = e.k; } t; ⇒ load main return "record"
"#;

/// What can't be called or read.
static WHAT_CANT_BE_CALLED_OR: &str = r#"
x; ⇒ load main throw error main#22 TypeError "unbound"
typeof x + (x = 1); ⇒ load main return "undefined1"
var o = {}; o.f(); ⇒ load main throw error main#24 TypeError "not a function"
var o = {f: 5}; o.f(); ⇒ load main throw error main#24 TypeError "not a function"
5(); ⇒ load main throw error main#23 TypeError "not a function"
undefined.k; ⇒ load main throw error main#22 TypeError "no object"
null.k = 1; ⇒ load main throw error main#22 TypeError "no object"
new 5(); ⇒ load main throw error main#24 TypeError "not a constructor"
throw 'thrown'; ⇒ load main throw "thrown"
throw new Error('thrown'); ⇒ load main throw error main#24 Error "thrown"
"#;

/// Operators, statements and literals stay what they are.
static OPERATORS_STATEMENTS_AND_LITERALS_STAY: &str = r#"
var a = 1, b; b = a + 2 * 3 - (4 % 3); b; ⇒ load main return 6
var t = ''; for (var i = 0; i < 4; i++) { if (i === 2) { continue; } t += i; } t; ⇒ load main return "013"
function f(x) { switch (x) { case 1: return 'one'; case 'a': return 'text'; default: return 'other'; } } f(1) + f('a') + f(null); ⇒ load main return "onetextother"
var n = 5, t = ''; while (n) { t += n; n -= 1; } do { t += '.'; } while (false); t; ⇒ load main return "54321."
var o = {a: {b: [1, {c: 'deep'}]}}; o.a.b[1].c; ⇒ load main return "deep"
var o = {n: 1}; o.n += 2; o['n'] *= 3; o.n <<= 1; o.n; ⇒ load main return 18
var a = [1, 2]; a[a.length] = 3; a.join('-'); ⇒ load main return "1-2-3"
var f = function fact(n) { return n < 2 ? 1 : n * fact(n - 1); }; f(5); ⇒ load main return 120
(function () { var x = 1; { var x = 2; } return x; })(); ⇒ load main return 2
function f() { return 1; } function f() { return 2; } f(); ⇒ load main return 2
var f = 1; function f() {} typeof f; ⇒ load main return "number"
function f() { return g(); function g() { return 'hoisted'; } } f(); ⇒ load main return "hoisted"
f(); function f() { return 0; } f = function () { return 'other'; }; f(); ⇒ load main return "other"
(1, 2, 'last') + (true && 'and') + (false || 'or') + (null ? 1 : 'else'); ⇒ load main return "lastandorelse"
var x = 1; x = x++ + ++x; x; ⇒ load main return 4
typeof null + typeof undefined + typeof 1 + typeof 'a' + typeof true + typeof {} + typeof f; function f() {} ⇒ load main return "objectundefinednumberstringbooleanobjectfunction"
void 0 === undefined; ⇒ load main return true
var o = {'a b': 1, 2: 'two', c: 3}; o['a b'] + o[2] + o.c; ⇒ load main return "1two3"
"#;

#[test]
fn new_of_functions_that_others(rt: HostRuntime) -> Result<(), Fail> {
    check_modules(rt.alloc(), "valija", NEW_OF_FUNCTIONS_THAT_OTHERS)
}

#[test]
fn errors_that_are_thrown_and(rt: HostRuntime) -> Result<(), Fail> {
    check_modules(rt.alloc(), "valija", ERRORS_THAT_ARE_THROWN_AND)
}

#[test]
fn what_cant_be_called_or(rt: HostRuntime) -> Result<(), Fail> {
    check_modules(rt.alloc(), "valija", WHAT_CANT_BE_CALLED_OR)
}

#[test]
fn operators_statements_and_literals_stay(rt: HostRuntime) -> Result<(), Fail> {
    check_modules(rt.alloc(), "valija", OPERATORS_STATEMENTS_AND_LITERALS_STAY)
}

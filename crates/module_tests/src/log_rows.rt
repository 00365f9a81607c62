//! Modules that say something, that register functions, and that come to an end for good.

use caja_cli::Status;
use command_runs::tables::check_logs;
use std::test::Fail;

/// What is said stands before the line of the load, in order.
static SAID: &str = "
solo ⇒ say('a'); ⇒ say main \"a\"¦load main return undefined¦end done
solo ⇒ say('a'); say('b'); 3; ⇒ say main \"a\"¦say main \"b\"¦load main return 3¦end done
solo ⇒ say(); say(null); say(5); say([1, [2]]); say({}); say(say); ⇒ say main \"undefined\"¦say main \"null\"¦say main \"5\"¦say main \"1,2\"¦say main \"[object Object]\"¦say main \"[object Function]\"¦load main return undefined¦end done
solo ⇒ say('a', 'b'); ⇒ say main \"a\"¦load main return undefined¦end done
solo ⇒ say('<b>' + \"'\" + '\"'); ⇒ say main \"\\x3Cb\\x3E'\\\"\"¦load main return undefined¦end done
solo ⇒ say('a\\n\\tb\\x00\\u20ac'); ⇒ say main \"a\\n\\tb\\x00\\u20AC\"¦load main return undefined¦end done
solo ⇒ say('a'); throw 'b'; ⇒ say main \"a\"¦load main throw \"b\"¦end done
solo ⇒ say('a'); null.x; say('b'); ⇒ say main \"a\"¦load main throw error main#0 TypeError \"no object\"¦end done
solo ⇒ function f(n) { if (n > 0) { say(n); f(n - 1); } } f(3); ⇒ say main \"3\"¦say main \"2\"¦say main \"1\"¦load main return undefined¦end done
solo ⇒ say.call(null, 'called'); say.apply(null, ['applied']); ⇒ say main \"called\"¦say main \"applied\"¦load main return undefined¦end done
solo ⇒ var s = say; s('kept'); ({s: say}).s('member'); ⇒ say main \"kept\"¦say main \"member\"¦load main return undefined¦end done
solo ⇒ [1, 2].concat(say('in')).length; ⇒ say main \"in\"¦load main return 3¦end done
solo ⇒ try { say('try'); throw 1; } catch (e) { say('catch ' + e); } finally { say('finally'); } ⇒ say main \"try\"¦say main \"catch 1\"¦say main \"finally\"¦load main return undefined¦end done
solo ⇒ for (var k in {a: 1, b: 2}) { say(k); } ⇒ say main \"a\"¦say main \"b\"¦load main return undefined¦end done
solo ⇒ say(''); ⇒ say main \"\"¦load main return undefined¦end done
solo ⇒ say(say('inner')); ⇒ say main \"inner\"¦say main \"undefined\"¦load main return undefined¦end done
solo ⇒ (function () { say(arguments.length); return say; })(1, 2)('x'); ⇒ say main \"2\"¦say main \"x\"¦load main return undefined¦end done
";

/// `later` takes a closure; no turn comes after the load under `solo`, so none is called.
static REGISTERED: &str = "
solo ⇒ later(function () { say('never'); }); ⇒ load main return undefined¦end done
solo ⇒ later(function () {}); later(function () {}); say('two'); ⇒ say main \"two\"¦load main return undefined¦end done
solo ⇒ function f() { say('never'); } later(f); later(f); ⇒ load main return undefined¦end done
solo ⇒ later(); ⇒ load main throw error main#0 TypeError \"bad argument\"¦end done
solo ⇒ later(5); ⇒ load main throw error main#0 TypeError \"bad argument\"¦end done
solo ⇒ later({}); ⇒ load main throw error main#1 TypeError \"bad argument\"¦end done
solo ⇒ later(say); ⇒ load main throw error main#0 TypeError \"bad argument\"¦end done
solo ⇒ later(later); ⇒ load main throw error main#0 TypeError \"bad argument\"¦end done
solo ⇒ later([].push); ⇒ load main throw error main#1 TypeError \"bad argument\"¦end done
solo ⇒ later('say(1)'); ⇒ load main throw error main#0 TypeError \"bad argument\"¦end done
solo ⇒ later.call(null, function () {}); ⇒ load main return undefined¦end done
solo ⇒ try { later(null); } catch (e) { say(e.message); } ⇒ say main \"bad argument\"¦load main return undefined¦end done
";

/// At most 1,000 calls of functions of the module are open, its body among them; one more ends the page, and no `finally` is done.
static DEEP: &str = "
solo ⇒ function f() { f(); } f(); ⇒ end depth
solo ⇒ var n = 0; function f() { n++; try { f(); } catch (e) { say('caught'); } finally { say('finally'); } } f(); ⇒ end depth
solo ⇒ function f() { if (n === 998) { say('998 calls'); } n++; f(); } var n = 1; f(); ⇒ say main \"998 calls\"¦end depth
solo ⇒ var o = {f: function () { o.f(); }}; o.f(); ⇒ end depth
solo ⇒ function f() { f.call(null); } f(); ⇒ end depth
solo ⇒ function f() { f.apply(null, []); } f(); ⇒ end depth
solo ⇒ function a() { b(); } function b() { a(); } a(); ⇒ end depth
solo ⇒ var a = [1], i; for (i = 0; i < 32; i++) { a = [a]; } '' + a; ⇒ end depth
solo ⇒ var a = [1]; a[1] = a; say('before'); a.join(); ⇒ say main \"before\"¦end depth
solo ⇒ var a = []; a.push(a); say(a); ⇒ end depth
";

/// Among them, what is just within the bound.
static NOT_TOO_DEEP: &str = "
solo ⇒ function f(n) { return n === 0 ? 0 : f(n - 1); } f(998); f(998) + f(998); ⇒ load main return 0¦end done
solo ⇒ var o = {f: function (n) { return n === 0 ? 'end' : o.f(n - 1); }}; o.f(998); ⇒ load main return \"end\"¦end done
solo ⇒ function f(n) { return n === 0 ? 0 : f.call(null, n - 1); } f(998); ⇒ load main return 0¦end done
solo ⇒ function f(n) { if (n === 0) { throw 'up'; } f(n - 1); } var i; for (i = 0; i < 3; i++) { try { f(998); } catch (e) { say(e); } } ⇒ say main \"up\"¦say main \"up\"¦say main \"up\"¦load main return undefined¦end done
solo ⇒ function f(n) { return n === 0 ? Math.abs(-1) : f(n - 1); } f(998); ⇒ load main return 1¦end done
solo ⇒ var a = [1], i; for (i = 0; i < 31; i++) { a = [a]; } '' + a; ⇒ load main return \"1\"¦end done
";

/// Budgets that are just enough: N of the words gives the text 64 N steps, of which not one is left over.
static BUDGET_ENOUGH: &str = "
solo --steps 1 ⇒ say('said'); ;;;;;;;;;;;;;;;;;;;;;;;;;;;;;;;;;;;;; ⇒ say main \"said\"¦load main return undefined¦end done
solo --steps 1 ⇒ function f() { return 1; } f(); ;;;;;;;;;;;;;;;;;;;;;;;;;;;;;;;;;;;;; ⇒ load main return 1¦end done
solo --steps 2 ⇒ function f(n) { return n === 0 ? 0 : f(n - 1); } f(4); ;;;;;;;;;;;;;;;;;;;;;;;;;;;;;;;;;;;;;;;; ⇒ load main return 0¦end done
solo --steps 2 ⇒ var t = ''; for (var k in {a: 1, b: 2}) { t += k; } say(t); ;;;;;;;;;;;;;;; ⇒ say main \"ab\"¦load main return undefined¦end done
solo --steps 2 ⇒ var o = {n: 1}; o.n++; o['n'] += 2; say(o.n); ;;;;;;;;;;;;;;;;;;;;;;;;;;;;;;; ⇒ say main \"4\"¦load main return undefined¦end done
solo --steps 1 ⇒ (function () { return arguments.length; })(1, 2); ;;;;;;;;;;;;;;;;;;;;;;;;;;; ⇒ load main return 2¦end done
solo --steps 1 ⇒ try { null.x; } catch (e) { say(e.message); } ;;;;;;;;;;;;;;;;;;;;;;;;;; ⇒ say main \"no object\"¦load main return undefined¦end done
solo --steps 1 ⇒ say([3, 1, 2].slice(1).concat(4).join()); ;;;;;;; ⇒ say main \"1,2,4\"¦load main return undefined¦end done
solo --steps 1 ⇒ say(new Error('m').message); ;;;;;;;;;;;;;;;;;; ⇒ say main \"m\"¦load main return undefined¦end done
solo --steps 1 ⇒ var i = 0; while (i < 3) { i++; } say(i); ;;;;;;;;;; ⇒ say main \"3\"¦load main return undefined¦end done
solo --steps 1 ⇒ switch (2) { case 1: case 2: say('two'); } ;;;;;;;;;;;;;;;;;;;;;;;;;;;;;;;;;;; ⇒ say main \"two\"¦load main return undefined¦end done
solo --steps 1 ⇒ say.call(null, 'by call'); Math.max.apply(null, [1, 2]); ;; ⇒ say main \"by call\"¦load main return 2¦end done
";

/// The same with one statement more: what was said stays, and the load has no line.
static BUDGET_SHORT: &str = "
solo --steps 1 ⇒ say('said'); ;;;;;;;;;;;;;;;;;;;;;;;;;;;;;;;;;;;;;; ⇒ say main \"said\"¦end steps
solo --steps 1 ⇒ function f() { return 1; } f(); ;;;;;;;;;;;;;;;;;;;;;;;;;;;;;;;;;;;;;; ⇒ end steps
solo --steps 2 ⇒ function f(n) { return n === 0 ? 0 : f(n - 1); } f(4); ;;;;;;;;;;;;;;;;;;;;;;;;;;;;;;;;;;;;;;;;; ⇒ end steps
solo --steps 2 ⇒ var t = ''; for (var k in {a: 1, b: 2}) { t += k; } say(t); ;;;;;;;;;;;;;;;; ⇒ say main \"ab\"¦end steps
solo --steps 2 ⇒ var o = {n: 1}; o.n++; o['n'] += 2; say(o.n); ;;;;;;;;;;;;;;;;;;;;;;;;;;;;;;;; ⇒ say main \"4\"¦end steps
solo --steps 1 ⇒ (function () { return arguments.length; })(1, 2); ;;;;;;;;;;;;;;;;;;;;;;;;;;;; ⇒ end steps
solo --steps 1 ⇒ try { null.x; } catch (e) { say(e.message); } ;;;;;;;;;;;;;;;;;;;;;;;;;;; ⇒ say main \"no object\"¦end steps
solo --steps 1 ⇒ say([3, 1, 2].slice(1).concat(4).join()); ;;;;;;;; ⇒ say main \"1,2,4\"¦end steps
solo --steps 1 ⇒ say(new Error('m').message); ;;;;;;;;;;;;;;;;;;; ⇒ say main \"m\"¦end steps
solo --steps 1 ⇒ var i = 0; while (i < 3) { i++; } say(i); ;;;;;;;;;;; ⇒ say main \"3\"¦end steps
solo --steps 1 ⇒ switch (2) { case 1: case 2: say('two'); } ;;;;;;;;;;;;;;;;;;;;;;;;;;;;;;;;;;;; ⇒ say main \"two\"¦end steps
solo --steps 1 ⇒ say.call(null, 'by call'); Math.max.apply(null, [1, 2]); ;;; ⇒ say main \"by call\"¦end steps
solo --steps 100 ⇒ say('before'); for (;;) {} ⇒ say main \"before\"¦end steps
solo --steps=10 ⇒ function f() { try { while (true) {} } catch (e) { say('caught'); } finally { say('finally'); } } f(); ⇒ end steps
solo --steps 50 ⇒ function f() { f(); } f(); ⇒ end steps
";

#[test]
fn what_is_said_stands_in_order(rt: HostRuntime) -> Result<(), Fail> {
    check_logs(rt.alloc(), SAID, Status::Done)
}

#[test]
fn functions_are_registered(rt: HostRuntime) -> Result<(), Fail> {
    check_logs(rt.alloc(), REGISTERED, Status::Done)
}

#[test]
fn calls_that_nest_too_deep(rt: HostRuntime) -> Result<(), Fail> {
    check_logs(rt.alloc(), DEEP, Status::Depth)?;
    check_logs(rt.alloc(), NOT_TOO_DEEP, Status::Done)
}

#[test]
fn budgets_that_are_enough_and_one_short(rt: HostRuntime) -> Result<(), Fail> {
    check_logs(rt.alloc(), BUDGET_ENOUGH, Status::Done)?;
    check_logs(rt.alloc(), BUDGET_SHORT, Status::Steps)
}

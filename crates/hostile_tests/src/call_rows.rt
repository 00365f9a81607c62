//! Guests that call what they were given otherwise than it was meant, each beside a victim whose log shows what came of it.

use command_runs::page_tables::check_pages;
use std::test::Fail;

/// A guest that is granted the result of a victim, and calls its functions by tricks.
static CALLS: &str = r#"
# a receiver of the guest's
page
{"version":1,"modules":[
{"name":"victim","language":"cajita","source":"var pin = 1234, tries = 0; cajita.freeze({ask: function (p) { tries = tries + 1; return p === pin; }, list: cajita.freeze([1, 2]), tries: function () { return tries; }});"},
{"name":"guest","language":"cajita","source":"var out = []; function attempt(f) { try { out.push('' + f()); } catch (e) { out.push(e.message); } } attempt(function () { return v.ask.call({pin: 1}, 1); }); attempt(function () { return v.ask.apply({pin: 1, tries: 9}, [1]); }); attempt(function () { var ask = v.ask; return ask(1); }); attempt(function () { return ({pin: 1, ask: v.ask}).ask(1); }); out.join(', ');","grants":[{"name":"v","module":"victim"}]}],
"events":[{"call":"victim","key":"tries"}]}
⇒
group victim guest
load victim return record victim#3
load guest return "false, false, false, false"
event 0 call victim "tries" return 4
html 0

end done
# call and apply by themselves
page
{"version":1,"modules":[
{"name":"victim","language":"cajita","source":"var pin = 1234, tries = 0; cajita.freeze({ask: function (p) { tries = tries + 1; return p === pin; }, list: cajita.freeze([1, 2]), tries: function () { return tries; }});"},
{"name":"guest","language":"cajita","source":"var out = []; function attempt(f) { try { out.push('' + f()); } catch (e) { out.push(e.message); } } attempt(function () { var call = v.ask.call; return call(null); }); attempt(function () { return ({call: v.ask.call}).call(null); }); attempt(function () { return v.ask.call.call(v, null); }); attempt(function () { return v.ask.apply.call(v.list, null, []); }); attempt(function () { return v.ask.call.call(v.ask, null, 1); }); attempt(function () { return v.ask.call.apply(v.ask, [null, 1]); }); attempt(function () { return v.ask.apply.apply(v.ask, [null, [1]]); }); out.join(', ');","grants":[{"name":"v","module":"victim"}]}],
"events":[{"call":"victim","key":"tries"}]}
⇒
group victim guest
load victim return record victim#3
load guest return "bad receiver, bad receiver, bad receiver, bad receiver, false, false, false"
event 0 call victim "tries" return 3
html 0

end done
# arguments that are no array
page
{"version":1,"modules":[
{"name":"victim","language":"cajita","source":"var pin = 1234, tries = 0; cajita.freeze({ask: function (p) { tries = tries + 1; return p === pin; }, list: cajita.freeze([1, 2]), tries: function () { return tries; }});"},
{"name":"guest","language":"cajita","source":"var out = []; function attempt(f) { try { out.push('' + f()); } catch (e) { out.push(e.message); } } attempt(function () { return v.ask.apply(null, {length: 1, 0: 1}); }); attempt(function () { return v.ask.apply(null, 'ab'); }); attempt(function () { return v.ask.apply(null, 5); }); attempt(function () { return v.ask.apply(null, v); }); attempt(function () { return v.ask.apply(null, v.ask); }); out.join(', ');","grants":[{"name":"v","module":"victim"}]}],
"events":[{"call":"victim","key":"tries"}]}
⇒
group victim guest
load victim return record victim#3
load guest return "bad argument, bad argument, bad argument, bad argument, bad argument"
event 0 call victim "tries" return 0
html 0

end done
# methods of texts on other values
page
{"version":1,"modules":[
{"name":"victim","language":"cajita","source":"var pin = 1234, tries = 0; cajita.freeze({ask: function (p) { tries = tries + 1; return p === pin; }, list: cajita.freeze([1, 2]), tries: function () { return tries; }});"},
{"name":"guest","language":"cajita","source":"var out = []; function attempt(f) { try { out.push('' + f()); } catch (e) { out.push(e.message); } } attempt(function () { return ''.charAt.call(v, 0); }); attempt(function () { return ''.concat.call(v); }); attempt(function () { return ''.slice.call(v.list, 0); }); attempt(function () { return ''.indexOf.call(5, '5'); }); attempt(function () { return ''.split.call(v.ask, ''); }); attempt(function () { var m = 'a'.charAt; return m(0); }); out.join(', ');","grants":[{"name":"v","module":"victim"}]}],
"events":[{"call":"victim","key":"tries"}]}
⇒
group victim guest
load victim return record victim#3
load guest return "bad receiver, bad receiver, bad receiver, bad receiver, bad receiver, bad receiver"
event 0 call victim "tries" return 0
html 0

end done
# methods of arrays on other values
page
{"version":1,"modules":[
{"name":"victim","language":"cajita","source":"var pin = 1234, tries = 0; cajita.freeze({ask: function (p) { tries = tries + 1; return p === pin; }, list: cajita.freeze([1, 2]), tries: function () { return tries; }});"},
{"name":"guest","language":"cajita","source":"var out = []; function attempt(f) { try { out.push('' + f()); } catch (e) { out.push(e.message); } } attempt(function () { return [].join.call(v); }); attempt(function () { return [].slice.call({length: 2, 0: 'a'}); }); attempt(function () { return [].concat.call('ab'); }); attempt(function () { return [].push.call(v, 1); }); attempt(function () { return [].shift.call(arguments[0]); }); attempt(function () { return [].join.call(arguments); }); out.join(', ');","grants":[{"name":"v","module":"victim"}]}],
"events":[{"call":"victim","key":"tries"}]}
⇒
group victim guest
load victim return record victim#3
load guest return "bad receiver, bad receiver, bad receiver, bad receiver, bad receiver, "
event 0 call victim "tries" return 0
html 0

end done
# objects by new
page
{"version":1,"modules":[
{"name":"victim","language":"cajita","source":"var pin = 1234, tries = 0; cajita.freeze({ask: function (p) { tries = tries + 1; return p === pin; }, list: cajita.freeze([1, 2]), tries: function () { return tries; }});"},
{"name":"guest","language":"cajita","source":"var out = []; function attempt(f) { try { out.push('' + f()); } catch (e) { out.push(e.message); } } attempt(function () { return new v.ask(1); }); attempt(function () { return new v(); }); attempt(function () { return new say('forged'); }); attempt(function () { return new cajita.freeze({}); }); attempt(function () { return new v.ask.call(null); }); attempt(function () { return new 'a'.charAt(0); }); attempt(function () { return new Number(5); }); out.join(', ');","grants":[{"name":"v","module":"victim"}]}],
"events":[{"call":"victim","key":"tries"}]}
⇒
group victim guest
load victim return record victim#3
load guest return "not a constructor, not a constructor, not a constructor, not a constructor, not a constructor, not a constructor, not a constructor"
event 0 call victim "tries" return 0
html 0

end done
# an error that is none
page
{"version":1,"modules":[
{"name":"victim","language":"cajita","source":"var pin = 1234, tries = 0; cajita.freeze({ask: function (p) { tries = tries + 1; return p === pin; }, list: cajita.freeze([1, 2]), tries: function () { return tries; }});"},
{"name":"guest","language":"cajita","source":"var out = []; function attempt(f) { try { out.push('' + f()); } catch (e) { out.push(e.message); } } attempt(function () { return ({name: 'TypeError', message: 'm'}) instanceof TypeError; }); attempt(function () { return Error('m') instanceof TypeError; }); attempt(function () { return v instanceof Error; }); attempt(function () { return v instanceof v.ask; }); attempt(function () { return TypeError('m') instanceof Error; }); attempt(function () { return v instanceof v; }); attempt(function () { return new TypeError(v.ask).message; }); out.join(', ');","grants":[{"name":"v","module":"victim"}]}],
"events":[{"call":"victim","key":"tries"}]}
⇒
group victim guest
load victim return record victim#3
load guest return "false, false, false, false, true, not a function, [object Function]"
event 0 call victim "tries" return 0
html 0

end done
# a token that is forged
page
{"version":1,"modules":[
{"name":"victim","language":"cajita","source":"var mine = []; cajita.freeze({make: function () { var t = cajita.freeze({}); mine.push(t); return t; }, check: function (t) { for (var i = 0; i < mine.length; i++) { if (mine[i] === t) { return true; } } return false; }, made: function () { return mine.length; }});"},
{"name":"guest","language":"cajita","source":"var out = []; function attempt(f) { try { out.push('' + f()); } catch (e) { out.push(e.message); } } var t = v.make(); attempt(function () { return v.check({}); }); attempt(function () { return v.check(cajita.freeze({})); }); attempt(function () { return v.check(cajita.copy(t)); }); attempt(function () { return v.check(cajita.snapshot(t)); }); attempt(function () { return v.check(v); }); attempt(function () { return v.check('' + t); }); attempt(function () { return v.check(t); }); out.join(', ');","grants":[{"name":"v","module":"victim"}]}],
"events":[{"call":"victim","key":"made"}]}
⇒
group victim guest
load victim return record victim#4
load guest return "false, false, false, false, false, false, true"
event 0 call victim "made" return 1
html 0

end done
# arguments that are kept, and changed later
page
{"version":1,"modules":[
{"name":"victim","language":"cajita","source":"cajita.freeze({each: function (f) { var item = {n: 1}; f(item.n); item.n = 2; f(item.n); return item.n; }});"},
{"name":"guest","language":"cajita","source":"var out = []; function attempt(f) { try { out.push('' + f()); } catch (e) { out.push(e.message); } } var kept = []; var given = v.each(function (n) { kept.push(arguments); n = 9; }); attempt(function () { return given + ' ' + kept.length + ' ' + kept[0][0] + ' ' + kept[1][0]; }); attempt(function () { return kept[0] === kept[1]; }); attempt(function () { kept[0][0] = 5; }); attempt(function () { kept[0].push(5); }); attempt(function () { return kept[0].callee; }); attempt(function () { delete kept[0][0]; }); out.join(', ');","grants":[{"name":"v","module":"victim"}]}]}
⇒
group victim guest
load victim return record victim#1
load guest return "2 2 1 2, false, not writable, not writable, undefined, not deletable"
html 0

end done
# arguments that a victim hands out
page
{"version":1,"modules":[
{"name":"victim","language":"cajita","source":"cajita.freeze({pass: function (f) { f(arguments); return arguments[0] === f; }});"},
{"name":"guest","language":"cajita","source":"var out = []; function attempt(f) { try { out.push('' + f()); } catch (e) { out.push(e.message); } } attempt(function () { return v.pass(function (a) { a[0] = null; }); }); attempt(function () { return v.pass(function (a) { a.push(1); }); }); attempt(function () { return v.pass(function (a) { return a.callee; }); }); attempt(function () { return v.pass(function (a) { a.length = 0; }, 'second'); }); attempt(function () { return v.pass(function (a) { return a.reverse(); }); }); out.join(', ');","grants":[{"name":"v","module":"victim"}]}]}
⇒
group victim guest
load victim return record victim#1
load guest return "not writable, not writable, true, not writable, not writable"
html 0

end done
# a callback that throws
page
{"version":1,"modules":[
{"name":"victim","language":"cajita","source":"var busy = false, runs = 0; cajita.freeze({run: function (f) { if (busy) { throw new Error('busy'); } busy = true; try { runs++; return f(); } finally { busy = false; } }, runs: function () { return busy + ' ' + runs; }});"},
{"name":"guest","language":"cajita","source":"var out = []; function attempt(f) { try { out.push('' + f()); } catch (e) { out.push(e.message); } } attempt(function () { return v.run(function () { throw new Error('out'); }); }); attempt(function () { return v.run(function () { throw {message: 'forged'}; }); }); attempt(function () { return v.run(function () { null.x; }); }); attempt(function () { return v.run(5); }); out.join(', ');","grants":[{"name":"v","module":"victim"}]}],
"events":[{"call":"victim","key":"runs"}]}
⇒
group victim guest
load victim return record victim#2
load guest return "out, forged, no object, not a function"
event 0 call victim "runs" return "false 4"
html 0

end done
# a callback that comes back
page
{"version":1,"modules":[
{"name":"victim","language":"cajita","source":"var busy = false, runs = 0; cajita.freeze({run: function (f) { if (busy) { throw new Error('busy'); } busy = true; try { runs++; return f(); } finally { busy = false; } }, runs: function () { return busy + ' ' + runs; }});"},
{"name":"guest","language":"cajita","source":"var out = []; function attempt(f) { try { out.push('' + f()); } catch (e) { out.push(e.message); } } attempt(function () { return v.run(function () { return v.run(function () { return 'inner'; }); }); }); attempt(function () { return v.run(v.run); }); attempt(function () { return v.run(function () { later(v.run); return 'later'; }); }); out.join(', ');","grants":[{"name":"v","module":"victim"}]}],
"events":[{"tick":"victim"},{"tick":"guest"},{"call":"victim","key":"runs"}]}
⇒
group victim guest
load victim return record victim#2
load guest return "busy, busy, later"
event 0 tick victim none
event 1 tick guest throw error victim#5 TypeError "not a function"
event 2 call victim "runs" return "false 4"
html 0

end done
# a list that grows while it is walked
page
{"version":1,"modules":[
{"name":"victim","language":"cajita","source":"cajita.freeze({each: function (list, f) { list = cajita.snapshot(list); var i; for (i = 0; i < list.length; i++) { f(list[i]); } return list.length; }});"},
{"name":"guest","language":"cajita","source":"var out = []; function attempt(f) { try { out.push('' + f()); } catch (e) { out.push(e.message); } } var list = [1, 2]; attempt(function () { return v.each(list, function () { list.push(0); }); }); attempt(function () { return list.length; }); attempt(function () { return v.each([1], v.ask); }); attempt(function () { return v.each(5, attempt); }); attempt(function () { return v.each('ab', attempt); }); out.join(', ');","grants":[{"name":"v","module":"victim"}]}]}
⇒
group victim guest
load victim return record victim#1
load guest return "2, 4, not a function, bad argument, bad argument"
html 0

end done
# a key that looks like another
page
{"version":1,"modules":[
{"name":"victim","language":"cajita","source":"var store = {pin: 1234, open: 'yes'}; cajita.freeze({get: function (k) { k = String(k); if (k === 'pin') { throw new Error('denied'); } return store[k]; }});"},
{"name":"guest","language":"cajita","source":"var out = []; function attempt(f) { try { out.push('' + f()); } catch (e) { out.push(e.message); } } attempt(function () { return v.get('pin'); }); attempt(function () { return v.get(['pin']); }); attempt(function () { return v.get([['p' + 'in']]); }); attempt(function () { return v.get('pin '); }); attempt(function () { return v.get('__proto__'); }); attempt(function () { return v.get('constructor'); }); attempt(function () { return v.get('pin_canRead___'); }); attempt(function () { return v.get('open'); }); out.join(', ');","grants":[{"name":"v","module":"victim"}]}]}
⇒
group victim guest
load victim return record victim#2
load guest return "denied, denied, denied, undefined, undefined, undefined, undefined, yes"
html 0

end done
# a number that is another the second time
page
{"version":1,"modules":[
{"name":"victim","language":"cajita","source":"var sum = 0; cajita.freeze({add: function (n) { n = Number(n); if (n < 0) { throw new Error('below 0'); } sum = sum + n; return sum; }, sum: function () { return sum; }});"},
{"name":"guest","language":"cajita","source":"var out = []; function attempt(f) { try { out.push('' + f()); } catch (e) { out.push(e.message); } } attempt(function () { return v.add('5'); }); attempt(function () { return v.add(['6']); }); attempt(function () { return v.add(true); }); attempt(function () { return v.add(null); }); attempt(function () { return v.add([[7]]); }); attempt(function () { return v.sum(); }); out.join(', ');","grants":[{"name":"v","module":"victim"}]}],
"events":[{"call":"victim","key":"sum"}]}
⇒
group victim guest
load victim return record victim#2
load guest return "5, 11, 12, 12, 19, 19"
event 0 call victim "sum" return 19
html 0

end done
# lines of the victim's in the log
page
{"version":1,"modules":[
{"name":"victim","language":"cajita","source":"var pin = 1234, tries = 0; cajita.freeze({ask: function (p) { tries = tries + 1; return p === pin; }, list: cajita.freeze([1, 2]), tries: function () { return tries; }});"},
{"name":"guest","language":"cajita","source":"var out = []; function attempt(f) { try { out.push('' + f()); } catch (e) { out.push(e.message); } } attempt(function () { return v.say; }); attempt(function () { return say.call(v, 'as the victim'); }); attempt(function () { return say.apply(v.ask, ['as its function']); }); attempt(function () { say('x\"\\nload victim throw 1\\nend done'); }); attempt(function () { say('\\u2028</script>'); }); out.join(', ');","grants":[{"name":"v","module":"victim"}]}],
"events":[{"call":"victim","key":"tries"}]}
⇒
group victim guest
load victim return record victim#3
say guest "as the victim"
say guest "as its function"
say guest "x\"\nload victim throw 1\nend done"
say guest "\u2028\x3C/script\x3E"
load guest return "undefined, undefined, undefined, undefined, undefined"
event 0 call victim "tries" return 0
html 0

end done
# the victim's queue
page
{"version":1,"modules":[
{"name":"victim","language":"cajita","source":"var pin = 1234, tries = 0; cajita.freeze({ask: function (p) { tries = tries + 1; return p === pin; }, list: cajita.freeze([1, 2]), tries: function () { return tries; }});"},
{"name":"guest","language":"cajita","source":"var out = []; function attempt(f) { try { out.push('' + f()); } catch (e) { out.push(e.message); } } attempt(function () { return v.later; }); attempt(function () { return later.call(v, function () { return 'of the guest'; }); }); attempt(function () { return later(v.ask); }); attempt(function () { return later(say); }); out.join(', ');","grants":[{"name":"v","module":"victim"}]}],
"events":[{"tick":"victim"},{"tick":"guest"},{"tick":"guest"},{"tick":"guest"},{"call":"victim","key":"tries"}]}
⇒
group victim guest
load victim return record victim#3
load guest return "undefined, undefined, undefined, bad argument"
event 0 tick victim none
event 1 tick guest return "of the guest"
event 2 tick guest return false
event 3 tick guest none
event 4 call victim "tries" return 1
html 0

end done
# names of objects
page
{"version":1,"modules":[
{"name":"victim","language":"cajita","source":"var last = null; cajita.freeze({make: function () { last = cajita.freeze({n: 1}); return last; }, last: function () { return last; }});"},
{"name":"guest","language":"cajita","source":"var out = []; function attempt(f) { try { out.push('' + f()); } catch (e) { out.push(e.message); } } attempt(function () { return v.make().n; }); attempt(function () { var o = v.make(); o.n = 7; return v.last().n; }); attempt(function () { return v.last() === v.last(); }); ({mine: out.join(', ')});","grants":[{"name":"v","module":"victim"}]}],
"events":[{"call":"victim","key":"last"},{"call":"victim","key":"make"},{"call":"guest","key":"mine"}]}
⇒
group victim guest
load victim return record victim#2
load guest return record guest#6
event 0 call victim "last" return record victim#4
event 1 call victim "make" return record victim#5
event 2 call guest "mine" throw error guest#7 TypeError "not a function"
html 0

end done
# events that are called on the guest
page
{"version":1,"modules":[
{"name":"victim","language":"cajita","source":"var pin = 1234, tries = 0; cajita.freeze({ask: function (p) { tries = tries + 1; return p === pin; }, list: cajita.freeze([1, 2]), tries: function () { return tries; }});"},
{"name":"guest","language":"cajita","source":"({constructor: function () { return 'own constructor'; }, call: function () { return 'own call'; }, prototype: {}, ask: v.ask});","grants":[{"name":"v","module":"victim"}]}],
"events":[{"call":"guest","key":"constructor"},{"call":"guest","key":"call","args":[null]},{"call":"guest","key":"prototype"},{"call":"guest","key":"apply"},{"call":"guest","key":"__proto__"},{"call":"guest","key":"ask","args":[1]},{"call":"victim","key":"tries"}]}
⇒
group victim guest
load victim return record victim#3
load guest return record guest#3
event 0 call guest "constructor" return "own constructor"
event 1 call guest "call" return "own call"
event 2 call guest "prototype" throw error guest#4 TypeError "not a function"
event 3 call guest "apply" throw error guest#5 TypeError "not a function"
event 4 call guest "__proto__" throw error guest#6 TypeError "not a function"
event 5 call guest "ask" return false
event 6 call victim "tries" return 1
html 0

end done
"#;

#[test]
fn no_call_gives_more_than_was_meant(rt: HostRuntime) -> Result<(), Fail> {
    check_pages(rt.alloc(), CALLS)
}

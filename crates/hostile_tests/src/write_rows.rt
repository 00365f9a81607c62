//! Guests that write to what isn't theirs, each beside a victim whose log shows that it stayed as it was.

use command_runs::page_tables::check_pages;
use std::test::Fail;

/// A guest that is granted the result of a victim, and writes to it, to what everybody has, and to itself.
static WRITES: &str = r#"
# a frozen record
page
{"version":1,"modules":[
{"name":"victim","language":"cajita","source":"var pin = 1234, tries = 0; cajita.freeze({ask: function (p) { tries = tries + 1; return p === pin; }, list: cajita.freeze([1, 2]), tries: function () { return tries; }});"},
{"name":"guest","language":"cajita","source":"var out = []; function attempt(f) { try { out.push('' + f()); } catch (e) { out.push(e.message); } } attempt(function () { v.ask = function () { return true; }; }); attempt(function () { v.extra = 1; }); attempt(function () { delete v.ask; }); attempt(function () { delete v.extra; }); attempt(function () { v.ask += 1; }); attempt(function () { for (v.ask in {a: 1}) ; }); out.join(', ');","grants":[{"name":"v","module":"victim"}]}],
"events":[{"call":"victim","key":"tries"}]}
⇒
group victim guest
load victim return record victim#3
load guest return "not writable, not writable, not deletable, not deletable, not writable, not writable"
event 0 call victim "tries" return 0
html 0

end done
# a frozen array
page
{"version":1,"modules":[
{"name":"victim","language":"cajita","source":"var pin = 1234, tries = 0; cajita.freeze({ask: function (p) { tries = tries + 1; return p === pin; }, list: cajita.freeze([1, 2]), tries: function () { return tries; }});"},
{"name":"guest","language":"cajita","source":"var out = []; function attempt(f) { try { out.push('' + f()); } catch (e) { out.push(e.message); } } attempt(function () { v.list.push(3); }); attempt(function () { v.list[0] = 9; }); attempt(function () { v.list[2] = 9; }); attempt(function () { v.list.length = 0; }); attempt(function () { v.list.pop(); }); attempt(function () { v.list.shift(); }); attempt(function () { v.list.unshift(0); }); attempt(function () { v.list.reverse(); }); attempt(function () { delete v.list[0]; }); attempt(function () { return v.list; }); out.join(', ');","grants":[{"name":"v","module":"victim"}]}],
"events":[{"call":"victim","key":"tries"}]}
⇒
group victim guest
load victim return record victim#3
load guest return "not writable, not writable, not writable, not writable, not writable, not writable, not writable, not writable, not deletable, 1,2"
event 0 call victim "tries" return 0
html 0

end done
# a frozen array, by methods of another
page
{"version":1,"modules":[
{"name":"victim","language":"cajita","source":"var pin = 1234, tries = 0; cajita.freeze({ask: function (p) { tries = tries + 1; return p === pin; }, list: cajita.freeze([1, 2]), tries: function () { return tries; }});"},
{"name":"guest","language":"cajita","source":"var out = []; function attempt(f) { try { out.push('' + f()); } catch (e) { out.push(e.message); } } attempt(function () { [].push.call(v.list, 3); }); attempt(function () { [].push.apply(v.list, [3]); }); attempt(function () { [].reverse.call(v.list); }); attempt(function () { [].push.call.call([].push, v.list, 3); }); attempt(function () { [].pop.apply.apply([].pop, [v.list]); }); attempt(function () { return [].concat(v.list).push(3); }); attempt(function () { return v.list.slice(0).reverse(); }); attempt(function () { return v.list; }); out.join(', ');","grants":[{"name":"v","module":"victim"}]}],
"events":[{"call":"victim","key":"tries"}]}
⇒
group victim guest
load victim return record victim#3
load guest return "not writable, not writable, not writable, not writable, not writable, 3, 2,1, 1,2"
event 0 call victim "tries" return 0
html 0

end done
# a function
page
{"version":1,"modules":[
{"name":"victim","language":"cajita","source":"var pin = 1234, tries = 0; cajita.freeze({ask: function (p) { tries = tries + 1; return p === pin; }, list: cajita.freeze([1, 2]), tries: function () { return tries; }});"},
{"name":"guest","language":"cajita","source":"var out = []; function attempt(f) { try { out.push('' + f()); } catch (e) { out.push(e.message); } } attempt(function () { v.ask.call = attempt; }); attempt(function () { v.ask.apply = attempt; }); attempt(function () { v.ask.extra = 1; }); attempt(function () { delete v.ask.call; }); attempt(function () { v.ask['call_canCall___'] = true; }); attempt(function () { v.ask['prototype'] = {}; }); out.join(', ');","grants":[{"name":"v","module":"victim"}]}],
"events":[{"call":"victim","key":"tries"}]}
⇒
group victim guest
load victim return record victim#3
load guest return "not writable, not writable, not writable, not deletable, bad key, not writable"
event 0 call victim "tries" return 0
html 0

end done
# cajita and Math
page
{"version":1,"modules":[
{"name":"victim","language":"cajita","source":"cajita.freeze({max: function () { return Math.max(1, 2); }, seal: function () { return cajita.isFrozen(cajita.freeze({})); }});"},
{"name":"guest","language":"cajita","source":"var out = []; function attempt(f) { try { out.push('' + f()); } catch (e) { out.push(e.message); } } attempt(function () { cajita.freeze = function (x) { return x; }; }); attempt(function () { Math.max = function () { return 0; }; }); attempt(function () { delete cajita.freeze; }); attempt(function () { cajita.thaw = attempt; }); attempt(function () { Math['max_canSet' + '___'] = true; }); attempt(function () { cajita.isFrozen.call = attempt; }); out.join(', ');","grants":[{"name":"v","module":"victim"}]}],
"events":[{"call":"victim","key":"max"},{"call":"victim","key":"seal"}]}
⇒
group victim guest
load victim return record victim#2
load guest return "not writable, not writable, not deletable, not writable, bad key, not writable"
event 0 call victim "max" return 2
event 1 call victim "seal" return true
html 0

end done
# names of the same spelling hide cajita and Math from nobody else
page
{"version":1,"modules":[
{"name":"victim","language":"cajita","source":"cajita.freeze({max: function () { say('asked'); return Math.max(1, 2); }, seal: function () { return cajita.isFrozen(cajita.freeze({})) && Error('m') instanceof Error; }});"},
{"name":"guest","language":"cajita","source":"var cajita = {freeze: function (x) { return 'mine'; }}, Math = {max: function () { return 'mine'; }}, Error = null; function say(x) { return 'mine'; } [cajita.freeze(v), Math.max(1, 2), Error, say('x'), v.max(), v.seal()].join(', ');","grants":[{"name":"v","module":"victim"}]}],
"events":[{"call":"victim","key":"max"}]}
⇒
group victim guest
load victim return record victim#2
say victim "asked"
load guest return "mine, mine, , mine, 2, true"
say victim "asked"
event 0 call victim "max" return 2
html 0

end done
# constructors of errors and conversions
page
{"version":1,"modules":[
{"name":"victim","language":"cajita","source":"var pin = 1234, tries = 0; cajita.freeze({ask: function (p) { tries = tries + 1; return p === pin; }, list: cajita.freeze([1, 2]), tries: function () { return tries; }});"},
{"name":"guest","language":"cajita","source":"var out = []; function attempt(f) { try { out.push('' + f()); } catch (e) { out.push(e.message); } } attempt(function () { Error.prototype = {}; }); attempt(function () { TypeError.extra = 1; }); attempt(function () { Number.parse = attempt; }); attempt(function () { delete Error.prototype; }); attempt(function () { return new Error('m').extra; }); out.join(', ');","grants":[{"name":"v","module":"victim"}]}],
"events":[{"call":"victim","key":"tries"}]}
⇒
group victim guest
load victim return record victim#3
load guest return "not writable, not writable, not writable, not deletable, undefined"
event 0 call victim "tries" return 0
html 0

end done
# texts and numbers
page
{"version":1,"modules":[
{"name":"victim","language":"cajita","source":"var pin = 1234, tries = 0; cajita.freeze({ask: function (p) { tries = tries + 1; return p === pin; }, list: cajita.freeze([1, 2]), tries: function () { return tries; }});"},
{"name":"guest","language":"cajita","source":"var out = []; function attempt(f) { try { out.push('' + f()); } catch (e) { out.push(e.message); } } attempt(function () { 'a'.length = 5; }); attempt(function () { 'a'.charAt = attempt; }); attempt(function () { (5).extra = 1; }); attempt(function () { true.extra = 1; }); attempt(function () { delete 'a'.length; }); attempt(function () { return 'a'.charAt(0); }); out.join(', ');","grants":[{"name":"v","module":"victim"}]}],
"events":[{"call":"victim","key":"tries"}]}
⇒
group victim guest
load victim return record victim#3
load guest return "not writable, not writable, not writable, not writable, not deletable, a"
event 0 call victim "tries" return 0
html 0

end done
# what converts a record to a text or a number
page
{"version":1,"modules":[
{"name":"victim","language":"cajita","source":"var pin = 1234, tries = 0; cajita.freeze({ask: function (p) { tries = tries + 1; return p === pin; }, list: cajita.freeze([1, 2]), tries: function () { return tries; }});"},
{"name":"guest","language":"cajita","source":"var out = []; function attempt(f) { try { out.push('' + f()); } catch (e) { out.push(e.message); } } var o = {}; attempt(function () { o['to' + 'String'] = function () { return '1234'; }; }); attempt(function () { o['valueOf'] = function () { return 1234; }; }); attempt(function () { delete o['toString']; }); attempt(function () { return o + ''; }); attempt(function () { return v.ask(o); }); out.join(', ');","grants":[{"name":"v","module":"victim"}]}],
"events":[{"call":"victim","key":"tries"}]}
⇒
group victim guest
load victim return record victim#3
load guest return "bad key, bad key, bad key, [object Object], false"
event 0 call victim "tries" return 1
html 0

end done
# a copy is the guest's own
page
{"version":1,"modules":[
{"name":"victim","language":"cajita","source":"var pin = 1234, tries = 0; cajita.freeze({ask: function (p) { tries = tries + 1; return p === pin; }, list: cajita.freeze([1, 2]), tries: function () { return tries; }});"},
{"name":"guest","language":"cajita","source":"var out = []; function attempt(f) { try { out.push('' + f()); } catch (e) { out.push(e.message); } } var c = cajita.copy(v); c.ask = function () { return true; }; delete c.tries; attempt(function () { return c.ask(0); }); attempt(function () { return v.ask(0); }); attempt(function () { return c.ask === v.ask; }); attempt(function () { return cajita.isFrozen(v); }); attempt(function () { return cajita.copy(v.ask); }); attempt(function () { return cajita.snapshot(v).ask === v.ask; }); out.join(', ');","grants":[{"name":"v","module":"victim"}]}],
"events":[{"call":"victim","key":"tries"}]}
⇒
group victim guest
load victim return record victim#3
load guest return "true, false, false, true, bad argument, true"
event 0 call victim "tries" return 1
html 0

end done
# holes in an array
page
{"version":1,"modules":[
{"name":"victim","language":"cajita","source":"cajita.freeze({sum: function (list) { var n = 0; for (var i = 0; i < list.length; i++) { n += list[i]; } return n; }});"},
{"name":"guest","language":"cajita","source":"var out = []; function attempt(f) { try { out.push('' + f()); } catch (e) { out.push(e.message); } } var a = [1]; attempt(function () { a[2] = 3; }); attempt(function () { a['-1'] = 0; }); attempt(function () { a['1.5'] = 0; }); attempt(function () { a['01'] = 0; }); attempt(function () { delete a[0]; }); attempt(function () { a.length = 9; }); attempt(function () { a['push'] = attempt; }); attempt(function () { return v.sum(a); }); out.join(', ');","grants":[{"name":"v","module":"victim"}]}]}
⇒
group victim guest
load victim return record victim#1
load guest return "not writable, not writable, not writable, not writable, not deletable, not writable, not writable, 1"
html 0

end done
# the functions of a cell that both have
page
{"version":1,"cells":["k"],"modules":[
{"name":"victim","language":"cajita","source":"k.set('kept'); cajita.freeze({get: function () { return k.get(); }});","grants":[{"name":"k","cell":"k"}]},
{"name":"guest","language":"cajita","source":"var out = []; function attempt(f) { try { out.push('' + f()); } catch (e) { out.push(e.message); } } attempt(function () { k.get = function () { return 'forged'; }; }); attempt(function () { k.set = null; }); attempt(function () { delete k.get; }); attempt(function () { k.get.call = attempt; }); attempt(function () { k['get_canSet___'] = true; }); attempt(function () { new k.set(1); }); attempt(function () { return k.get(); }); out.join(', ');","grants":[{"name":"v","module":"victim"},{"name":"k","cell":"k"}]}],
"events":[{"call":"victim","key":"get"}]}
⇒
group victim guest
load victim return record victim#1
load guest return "not writable, not writable, not deletable, not writable, bad key, not a constructor, kept"
event 0 call victim "get" return "kept"
html 0

end done
"#;

#[test]
fn nothing_of_others_is_written(rt: HostRuntime) -> Result<(), Fail> {
    check_pages(rt.alloc(), WRITES)
}

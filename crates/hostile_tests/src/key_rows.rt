//! Guests that read keys which nobody gave them, each beside a victim whose log shows that it got nothing.

use command_runs::page_tables::check_pages;
use std::test::Fail;

/// A guest that is granted the result of a victim, and reads what isn't public.
static KEYS: &str = r#"
# the constructor of a record
page
{"version":1,"modules":[
{"name":"victim","language":"cajita","source":"var pin = 1234, tries = 0; cajita.freeze({ask: function (p) { tries = tries + 1; return p === pin; }, list: cajita.freeze([1, 2]), tries: function () { return tries; }});"},
{"name":"guest","language":"cajita","source":"var out = []; function attempt(f) { try { out.push('' + f()); } catch (e) { out.push(e.message); } } attempt(function () { return v.constructor; }); attempt(function () { return v['constructor']; }); attempt(function () { return v['con' + 'structor']; }); out.join(', ');","grants":[{"name":"v","module":"victim"}]}],
"events":[{"call":"victim","key":"tries"}]}
⇒
group victim guest
load victim return record victim#3
load guest return "undefined, undefined, undefined"
event 0 call victim "tries" return 0
html 0

end done
# the constructor of a function
page
{"version":1,"modules":[
{"name":"victim","language":"cajita","source":"var pin = 1234, tries = 0; cajita.freeze({ask: function (p) { tries = tries + 1; return p === pin; }, list: cajita.freeze([1, 2]), tries: function () { return tries; }});"},
{"name":"guest","language":"cajita","source":"var out = []; function attempt(f) { try { out.push('' + f()); } catch (e) { out.push(e.message); } } attempt(function () { return v.ask.constructor; }); attempt(function () { return v.ask['constr' + 'uctor']; }); attempt(function () { return v.ask.constructor('return this;')(); }); out.join(', ');","grants":[{"name":"v","module":"victim"}]}],
"events":[{"call":"victim","key":"tries"}]}
⇒
group victim guest
load victim return record victim#3
load guest return "undefined, undefined, not a function"
event 0 call victim "tries" return 0
html 0

end done
# the constructor of any other value
page
{"version":1,"modules":[
{"name":"victim","language":"cajita","source":"var pin = 1234, tries = 0; cajita.freeze({ask: function (p) { tries = tries + 1; return p === pin; }, list: cajita.freeze([1, 2]), tries: function () { return tries; }});"},
{"name":"guest","language":"cajita","source":"var out = []; function attempt(f) { try { out.push('' + f()); } catch (e) { out.push(e.message); } } attempt(function () { return v.list.constructor; }); attempt(function () { return 'a'.constructor; }); attempt(function () { return (5).constructor; }); attempt(function () { return true.constructor; }); attempt(function () { return Error('m').constructor; }); attempt(function () { return Math.constructor; }); attempt(function () { return say.constructor; }); out.join(', ');","grants":[{"name":"v","module":"victim"}]}],
"events":[{"call":"victim","key":"tries"}]}
⇒
group victim guest
load victim return record victim#3
load guest return "undefined, undefined, undefined, undefined, undefined, undefined, undefined"
event 0 call victim "tries" return 0
html 0

end done
# the prototype of a function
page
{"version":1,"modules":[
{"name":"victim","language":"cajita","source":"var pin = 1234, tries = 0; cajita.freeze({ask: function (p) { tries = tries + 1; return p === pin; }, list: cajita.freeze([1, 2]), tries: function () { return tries; }});"},
{"name":"guest","language":"cajita","source":"var out = []; function attempt(f) { try { out.push('' + f()); } catch (e) { out.push(e.message); } } attempt(function () { return v.ask.prototype; }); attempt(function () { return Error.prototype; }); attempt(function () { return Number.prototype; }); attempt(function () { return say.prototype; }); attempt(function () { Error.prototype.x = 1; }); out.join(', ');","grants":[{"name":"v","module":"victim"}]}],
"events":[{"call":"victim","key":"tries"}]}
⇒
group victim guest
load victim return record victim#3
load guest return "undefined, undefined, undefined, undefined, no object"
event 0 call victim "tries" return 0
html 0

end done
# a prototype by a key with underscores that is put together
page
{"version":1,"modules":[
{"name":"victim","language":"cajita","source":"var pin = 1234, tries = 0; cajita.freeze({ask: function (p) { tries = tries + 1; return p === pin; }, list: cajita.freeze([1, 2]), tries: function () { return tries; }});"},
{"name":"guest","language":"cajita","source":"var out = []; function attempt(f) { try { out.push('' + f()); } catch (e) { out.push(e.message); } } attempt(function () { return v['__' + 'proto__']; }); attempt(function () { return '__proto__' in v; }); attempt(function () { v['__proto' + '__'] = {}; }); attempt(function () { delete v['__proto__']; }); attempt(function () { return v.list['__proto__']; }); attempt(function () { return v.ask['__proto__']; }); out.join(', ');","grants":[{"name":"v","module":"victim"}]}],
"events":[{"call":"victim","key":"tries"}]}
⇒
group victim guest
load victim return record victim#3
load guest return "undefined, false, bad key, bad key, undefined, undefined"
event 0 call victim "tries" return 0
html 0

end done
# getters that are defined by a key with underscores
page
{"version":1,"modules":[
{"name":"victim","language":"cajita","source":"var pin = 1234, tries = 0; cajita.freeze({ask: function (p) { tries = tries + 1; return p === pin; }, list: cajita.freeze([1, 2]), tries: function () { return tries; }});"},
{"name":"guest","language":"cajita","source":"var out = []; function attempt(f) { try { out.push('' + f()); } catch (e) { out.push(e.message); } } attempt(function () { return v['__defineGetter__']; }); attempt(function () { return v['__lookupGetter__']('ask'); }); attempt(function () { v['__defineGetter__']('ask', attempt); }); out.join(', ');","grants":[{"name":"v","module":"victim"}]}],
"events":[{"call":"victim","key":"tries"}]}
⇒
group victim guest
load victim return record victim#3
load guest return "undefined, not a function, not a function"
event 0 call victim "tries" return 0
html 0

end done
# who called a function, and with what
page
{"version":1,"modules":[
{"name":"victim","language":"cajita","source":"var pin = 1234, tries = 0; cajita.freeze({ask: function (p) { tries = tries + 1; return p === pin; }, list: cajita.freeze([1, 2]), tries: function () { return tries; }});"},
{"name":"guest","language":"cajita","source":"var out = []; function attempt(f) { try { out.push('' + f()); } catch (e) { out.push(e.message); } } attempt(function () { return v.ask.caller; }); attempt(function () { return v.ask.callee; }); attempt(function () { return v.ask.arguments; }); attempt(function () { return attempt.caller; }); attempt(function () { return attempt.arguments; }); out.join(', ');","grants":[{"name":"v","module":"victim"}]}],
"events":[{"call":"victim","key":"tries"}]}
⇒
group victim guest
load victim return record victim#3
load guest return "undefined, undefined, undefined, undefined, undefined"
event 0 call victim "tries" return 0
html 0

end done
# the callee of arguments
page
{"version":1,"modules":[
{"name":"victim","language":"cajita","source":"var pin = 1234, tries = 0; cajita.freeze({ask: function (p) { tries = tries + 1; return p === pin; }, list: cajita.freeze([1, 2]), tries: function () { return tries; }});"},
{"name":"guest","language":"cajita","source":"var out = []; function attempt(f) { try { out.push('' + f()); } catch (e) { out.push(e.message); } } attempt(function () { return arguments.callee; }); attempt(function () { return arguments.caller; }); attempt(function () { return arguments['cal' + 'lee']; }); attempt(function () { return arguments['__parent__']; }); out.join(', ');","grants":[{"name":"v","module":"victim"}]}],
"events":[{"call":"victim","key":"tries"}]}
⇒
group victim guest
load victim return record victim#3
load guest return "undefined, undefined, undefined, undefined"
event 0 call victim "tries" return 0
html 0

end done
# the marks that guards leave
page
{"version":1,"modules":[
{"name":"victim","language":"cajita","source":"var pin = 1234, tries = 0; cajita.freeze({ask: function (p) { tries = tries + 1; return p === pin; }, list: cajita.freeze([1, 2]), tries: function () { return tries; }});"},
{"name":"guest","language":"cajita","source":"var out = []; function attempt(f) { try { out.push('' + f()); } catch (e) { out.push(e.message); } } attempt(function () { return v['ask_canRead' + '___']; }); attempt(function () { return v['ask_canCall___']; }); attempt(function () { return v['FROZEN___']; }); attempt(function () { return v.ask['SIMPLEFUNC___']; }); attempt(function () { return 'FROZEN___' in v; }); attempt(function () { return v.list['push_canCall___']; }); out.join(', ');","grants":[{"name":"v","module":"victim"}]}],
"events":[{"call":"victim","key":"tries"}]}
⇒
group victim guest
load victim return record victim#3
load guest return "undefined, undefined, undefined, undefined, false, undefined"
event 0 call victim "tries" return 0
html 0

end done
# a mark that is written
page
{"version":1,"modules":[
{"name":"victim","language":"cajita","source":"var pin = 1234, tries = 0; cajita.freeze({ask: function (p) { tries = tries + 1; return p === pin; }, list: cajita.freeze([1, 2]), tries: function () { return tries; }});"},
{"name":"guest","language":"cajita","source":"var out = []; function attempt(f) { try { out.push('' + f()); } catch (e) { out.push(e.message); } } attempt(function () { v['ask_canSet___'] = true; }); attempt(function () { v['FROZEN___'] = false; }); attempt(function () { delete v['FROZEN___']; }); attempt(function () { v.ask = null; }); attempt(function () { v['_'] = 1; }); out.join(', ');","grants":[{"name":"v","module":"victim"}]}],
"events":[{"call":"victim","key":"tries"}]}
⇒
group victim guest
load victim return record victim#3
load guest return "bad key, bad key, bad key, not writable, not writable"
event 0 call victim "tries" return 0
html 0

end done
# a key that is an array
page
{"version":1,"modules":[
{"name":"victim","language":"cajita","source":"var pin = 1234, tries = 0; cajita.freeze({ask: function (p) { tries = tries + 1; return p === pin; }, list: cajita.freeze([1, 2]), tries: function () { return tries; }});"},
{"name":"guest","language":"cajita","source":"var out = []; function attempt(f) { try { out.push('' + f()); } catch (e) { out.push(e.message); } } attempt(function () { return v[['__proto__']]; }); attempt(function () { return v[['constructor']]; }); attempt(function () { return v[[['pin']]]; }); attempt(function () { return v[['ask']] === v.ask; }); out.join(', ');","grants":[{"name":"v","module":"victim"}]}],
"events":[{"call":"victim","key":"tries"}]}
⇒
group victim guest
load victim return record victim#3
load guest return "undefined, undefined, undefined, true"
event 0 call victim "tries" return 0
html 0

end done
# a list of all keys
page
{"version":1,"modules":[
{"name":"victim","language":"cajita","source":"var pin = 1234, tries = 0; cajita.freeze({ask: function (p) { tries = tries + 1; return p === pin; }, list: cajita.freeze([1, 2]), tries: function () { return tries; }});"},
{"name":"guest","language":"cajita","source":"var out = []; function attempt(f) { try { out.push('' + f()); } catch (e) { out.push(e.message); } } attempt(function () { var text = ''; for (var k in v) { text += k + ' '; } return text; }); attempt(function () { v.ask(0); v.tries(); return cajita.keys(v); }); attempt(function () { return cajita.keys(v.ask).length; }); attempt(function () { var n = 0; for (var k in v.ask) { n++; } return n; }); attempt(function () { return cajita.keys(v.list); }); out.join(', ');","grants":[{"name":"v","module":"victim"}]}],
"events":[{"call":"victim","key":"tries"}]}
⇒
group victim guest
load victim return record victim#3
load guest return "ask list tries , ask,list,tries, 0, 0, 0,1"
event 0 call victim "tries" return 1
html 0

end done
# variables that a function keeps
page
{"version":1,"modules":[
{"name":"victim","language":"cajita","source":"var pin = 1234, tries = 0; cajita.freeze({ask: function (p) { tries = tries + 1; return p === pin; }, list: cajita.freeze([1, 2]), tries: function () { return tries; }});"},
{"name":"guest","language":"cajita","source":"var out = []; function attempt(f) { try { out.push('' + f()); } catch (e) { out.push(e.message); } } attempt(function () { return v.pin; }); attempt(function () { return v.ask.pin; }); attempt(function () { return v.tries.tries; }); attempt(function () { return v.ask.scope; }); attempt(function () { return v.ask['[[Scope]]']; }); out.join(', ');","grants":[{"name":"v","module":"victim"}]}],
"events":[{"call":"victim","key":"tries"}]}
⇒
group victim guest
load victim return record victim#3
load guest return "undefined, undefined, undefined, undefined, undefined"
event 0 call victim "tries" return 0
html 0

end done
# methods that nobody gave
page
{"version":1,"modules":[
{"name":"victim","language":"cajita","source":"var pin = 1234, tries = 0; cajita.freeze({ask: function (p) { tries = tries + 1; return p === pin; }, list: cajita.freeze([1, 2]), tries: function () { return tries; }});"},
{"name":"guest","language":"cajita","source":"var out = []; function attempt(f) { try { out.push('' + f()); } catch (e) { out.push(e.message); } } attempt(function () { return v.ask.bind; }); attempt(function () { return v.ask.toString; }); attempt(function () { return v.toString; }); attempt(function () { return v.valueOf; }); attempt(function () { return v.hasOwnProperty; }); attempt(function () { return v.watch; }); attempt(function () { return v.list.map; }); attempt(function () { return v.list.sort; }); attempt(function () { return 'a'.replace; }); attempt(function () { return v.ask.toSource(); }); out.join(', ');","grants":[{"name":"v","module":"victim"}]}],
"events":[{"call":"victim","key":"tries"}]}
⇒
group victim guest
load victim return record victim#3
load guest return "undefined, undefined, undefined, undefined, undefined, undefined, undefined, undefined, undefined, not a function"
event 0 call victim "tries" return 0
html 0

end done
# the members of an error that was thrown
page
{"version":1,"modules":[
{"name":"victim","language":"cajita","source":"var pin = 1234; cajita.freeze({fail: function () { throw new RangeError('denied'); }, pin: function () { return typeof pin; }});"},
{"name":"guest","language":"cajita","source":"var out = [], e; try { v.fail(); } catch (thrown) { e = thrown; } function attempt(f) { try { out.push('' + f()); } catch (e) { out.push(e.message); } } attempt(function () { return e.name + ' ' + e.message; }); attempt(function () { return e.stack; }); attempt(function () { return e.constructor; }); attempt(function () { return e.number; }); attempt(function () { return e.source; }); attempt(function () { e.message = 'granted'; }); attempt(function () { delete e.message; }); attempt(function () { e.extra = 1; }); attempt(function () { return cajita.keys(e).length; }); out.join(', ');","grants":[{"name":"v","module":"victim"}]}],
"events":[{"call":"victim","key":"pin"}]}
⇒
group victim guest
load victim return record victim#2
load guest return "RangeError denied, undefined, undefined, undefined, undefined, not writable, not deletable, not writable, 0"
event 0 call victim "pin" return "number"
html 0

end done
"#;

#[test]
fn no_key_leads_past_what_is_public(rt: HostRuntime) -> Result<(), Fail> {
    check_pages(rt.alloc(), KEYS)
}

//! Functions that wait: whose queue they are in, in which order they are called, and what a tick without one is.

use command_runs::page_tables::check_pages;
use std::test::Fail;

/// Queues of one module.
static ALONE: &str = r#"
# no function waits
page
{"version":1,"modules":[{"name":"m","language":"cajita","source":"1;"}],"events":[{"tick":"m"},{"tick":"m"}]}
⇒
group m
load m return 1
event 0 tick m none
event 1 tick m none
html 0

end done
# the first that waits is called first
page
{"version":1,"modules":[{"name":"m","language":"cajita","source":"later(function () { return 'first'; }); later(function () { return 'second'; }); later(function () { return 'third'; });"}],"events":[{"tick":"m"},{"tick":"m"},{"tick":"m"},{"tick":"m"}]}
⇒
group m
load m return undefined
event 0 tick m return "first"
event 1 tick m return "second"
event 2 tick m return "third"
event 3 tick m none
html 0

end done
# a function that is queued twice is called twice, each time without arguments
page
{"version":1,"modules":[{"name":"m","language":"cajita","source":"var n = 0; function f() { n++; say(arguments.length + ' at ' + n); } later(f); later(f); n;"}],"events":[{"tick":"m"},{"tick":"m"},{"tick":"m"}]}
⇒
group m
load m return 0
say m "0 at 1"
event 0 tick m return undefined
say m "0 at 2"
event 1 tick m return undefined
event 2 tick m none
html 0

end done
# a function that waits may throw, and the next one is called all the same
page
{"version":1,"modules":[{"name":"m","language":"cajita","source":"later(function () { throw 'a text'; }); later(function () { null.x; }); later(function () { return {}; });"}],"events":[{"tick":"m"},{"tick":"m"},{"tick":"m"}]}
⇒
group m
load m return undefined
event 0 tick m throw "a text"
event 1 tick m throw error m#3 TypeError "no object"
event 2 tick m return record m#4
html 0

end done
# a function that is called queues another, which stands behind those that wait
page
{"version":1,"modules":[{"name":"m","language":"cajita","source":"later(function () { later(function () { return 'inner'; }); return 'outer'; }); later(function () { return 'next'; });"}],"events":[{"tick":"m"},{"tick":"m"},{"tick":"m"},{"tick":"m"}]}
⇒
group m
load m return undefined
event 0 tick m return "outer"
event 1 tick m return "next"
event 2 tick m return "inner"
event 3 tick m none
html 0

end done
# a function that queues itself has one turn each tick
page
{"version":1,"modules":[{"name":"m","language":"cajita","source":"var n = 0; function again() { n++; later(again); return n; } later(again);"}],"events":[{"tick":"m"},{"tick":"m"},{"tick":"m"}]}
⇒
group m
load m return undefined
event 0 tick m return 1
event 1 tick m return 2
event 2 tick m return 3
html 0

end done
# what an event queues waits for the next tick
page
{"version":1,"modules":[{"name":"m","language":"cajita","source":"({ask: function (x) { later(function () { return 'asked ' + x; }); return 'noted'; }});"}],"events":[{"tick":"m"},{"call":"m","key":"ask","args":[1]},{"call":"m","key":"ask","args":[2]},{"tick":"m"},{"tick":"m"},{"tick":"m"}]}
⇒
group m
load m return record m#1
event 0 tick m none
event 1 call m "ask" return "noted"
event 2 call m "ask" return "noted"
event 3 tick m return "asked 1"
event 4 tick m return "asked 2"
event 5 tick m none
html 0

end done
# what a load queued before it threw waits all the same
page
{"version":1,"modules":[{"name":"m","language":"cajita","source":"later(function () { return 'waited'; }); throw 1;"}],"events":[{"tick":"m"},{"tick":"m"}]}
⇒
group m
load m throw 1
event 0 tick m return "waited"
event 1 tick m none
html 0

end done
# only a module's function waits
page
{"version":1,"modules":[{"name":"m","language":"cajita","source":"var out = []; function attempt(v) { try { out.push(later(v)); } catch (e) { out.push(e.message); } } attempt(); attempt(null); attempt(5); attempt('f'); attempt({}); attempt([]); attempt(say); attempt(later); attempt(Math.max); attempt(new Error('m')); attempt(attempt); out.join(', ');"}],"events":[{"tick":"m"},{"tick":"m"}]}
⇒
group m
load m return "bad argument, bad argument, bad argument, bad argument, bad argument, bad argument, bad argument, bad argument, bad argument, bad argument, "
event 0 tick m return undefined
event 1 tick m none
html 0

end done
# by call and apply, and with more than one argument
page
{"version":1,"modules":[{"name":"m","language":"cajita","source":"later.call(null, function () { return 'call'; }); later.apply(undefined, [function () { return 'apply'; }]); later(function () { return 'one'; }, function () { return 'two'; });"}],"events":[{"tick":"m"},{"tick":"m"},{"tick":"m"},{"tick":"m"}]}
⇒
group m
load m return undefined
event 0 tick m return "call"
event 1 tick m return "apply"
event 2 tick m return "one"
event 3 tick m none
html 0

end done
# a tick is a turn of its own: what threw before it is forgotten
page
{"version":1,"modules":[{"name":"m","language":"cajita","source":"({f: function () { try { throw 1; } finally { later(function () { return 'after'; }); } }});"}],"events":[{"call":"m","key":"f"},{"tick":"m"}]}
⇒
group m
load m return record m#1
event 0 call m "f" throw 1
event 1 tick m return "after"
html 0

end done
"#;

/// Queues of several modules.
static SEVERAL: &str = r#"
# each module has its own queue
page
{"version":1,"modules":[
{"name":"a","language":"cajita","source":"later(function () { return 'first of a'; }); later(function () { return 'second of a'; });"},
{"name":"b","language":"cajita","source":"later(function () { return 'of b'; });"},
{"name":"c","language":"cajita","source":"0;"}],
"events":[{"tick":"b"},{"tick":"a"},{"tick":"c"},{"tick":"b"},{"tick":"a"},{"tick":"a"}]}
⇒
group a
group b
group c
load a return undefined
load b return undefined
load c return 0
event 0 tick b return "of b"
event 1 tick a return "first of a"
event 2 tick c none
event 3 tick b none
event 4 tick a return "second of a"
event 5 tick a none
html 0

end done
# a function waits in the queue of the module whose later it was given to, and runs as its maker
page
{"version":1,"modules":[
{"name":"a","language":"cajita","source":"later;"},
{"name":"b","language":"cajita","source":"wait(function () { say('called'); return {}; });","grants":[{"name":"wait","module":"a"}]}],
"events":[{"tick":"b"},{"tick":"a"},{"tick":"a"}]}
⇒
group a b
load a return function a!later
load b return undefined
event 0 tick b none
say b "called"
event 1 tick a return record b#1
event 2 tick a none
html 0

end done
# a module queues another's function in its own queue
page
{"version":1,"modules":[
{"name":"a","language":"cajita","source":"({f: function () { say('as a'); return null.x; }});"},
{"name":"b","language":"cajita","source":"later(a.f); later(a.f);","grants":[{"name":"a","module":"a"}]}],
"events":[{"tick":"a"},{"tick":"b"},{"tick":"b"},{"tick":"b"}]}
⇒
group a b
load a return record a#1
load b return undefined
event 0 tick a none
say a "as a"
event 1 tick b throw error a#2 TypeError "no object"
say a "as a"
event 2 tick b throw error a#3 TypeError "no object"
event 3 tick b none
html 0

end done
# a function that queues for whoever calls it
page
{"version":1,"modules":[
{"name":"a","language":"cajita","source":"({soon: function (f) { later(f); return 'queued'; }});"},
{"name":"b","language":"cajita","source":"a.soon(function () { return 'of b'; }); later(function () { return 'own'; }); a.soon(5);","grants":[{"name":"a","module":"a"}]}],
"events":[{"tick":"b"},{"tick":"a"},{"tick":"b"},{"tick":"a"}]}
⇒
group a b
load a return record a#1
load b throw error a#2 TypeError "bad argument"
event 0 tick b return "own"
event 1 tick a return "of b"
event 2 tick b none
event 3 tick a none
html 0

end done
# two modules queue for each other
page
{"version":1,"cells":["k"],"modules":[
{"name":"a","language":"cajita","source":"var n = 0; function ping() { n++; say('ping ' + n); k.get()(ping); } k.set(later); ({go: function () { later(ping); }});","grants":[{"name":"k","cell":"k"}]},
{"name":"b","language":"cajita","source":"var theirs = k.get(); k.set(function (f) { later(function () { say('pong'); theirs(f); }); }); 0;","grants":[{"name":"k","cell":"k"}]}],
"events":[{"tick":"a"},{"call":"a","key":"go"},{"tick":"a"},{"tick":"a"},{"tick":"b"},{"tick":"a"},{"tick":"b"},{"tick":"b"}]}
⇒
group a b
load a return record a#2
load b return 0
event 0 tick a none
event 1 call a "go" return undefined
say a "ping 1"
event 2 tick a return undefined
event 3 tick a none
say b "pong"
event 4 tick b return undefined
say a "ping 2"
event 5 tick a return undefined
say b "pong"
event 6 tick b return undefined
event 7 tick b none
html 0

end done
"#;

#[test]
fn what_waits_is_called_in_order(rt: HostRuntime) -> Result<(), Fail> {
    check_pages(rt.alloc(), ALONE)
}

#[test]
fn each_module_has_its_own_queue(rt: HostRuntime) -> Result<(), Fail> {
    check_pages(rt.alloc(), SEVERAL)
}

//! Pairs of pages that nearly agree on a group, each in one thing that they don't: the group's lines of the one page, and those of the other.

use pair_runs::pair_tables::check_differing;
use std::test::Fail;

/// What the lines depend on.
static NEAR: &str = r#"
# a cell of another name
page --touch
a
{"version":1,"cells":["x","y"],"modules":[
{"name":"a","language":"cajita","source":"k.set(1);","grants":[{"name":"k","cell":"x"}]},
{"name":"b","language":"cajita","source":""}]}
↔
{"version":1,"cells":["x","y"],"modules":[
{"name":"a","language":"cajita","source":"k.set(1);","grants":[{"name":"k","cell":"y"}]},
{"name":"b","language":"cajita","source":""}]}
⇒
touch a get cell:x "set"
touch a call cell:x.set
load a return undefined
↔
touch a get cell:y "set"
touch a call cell:y.set
load a return undefined
# a cell that one of two has no more
page
a b
{"version":1,"cells":["x","y"],"modules":[
{"name":"a","language":"cajita","source":"k.set('from a');","grants":[{"name":"k","cell":"x"}]},
{"name":"b","language":"cajita","source":"k.get();","grants":[{"name":"k","cell":"x"}]}]}
↔
{"version":1,"cells":["x","y"],"modules":[
{"name":"a","language":"cajita","source":"k.set('from a');","grants":[{"name":"k","cell":"x"}]},
{"name":"b","language":"cajita","source":"k.get();","grants":[{"name":"k","cell":"y"}]}]}
⇒
load a return undefined
load b return "from a"
↔
load a return undefined
load b return undefined
# an event of a stranger more
page
a
{"version":1,"modules":[
{"name":"a","language":"cajita","source":"({f: function () { return 1; }});"},
{"name":"b","language":"cajita","source":""}],
"events":[{"call":"a","key":"f"}]}
↔
{"version":1,"modules":[
{"name":"a","language":"cajita","source":"({f: function () { return 1; }});"},
{"name":"b","language":"cajita","source":""}],
"events":[{"tick":"b"},{"call":"a","key":"f"}]}
⇒
load a return record a#1
event 0 call a "f" return 1
↔
load a return record a#1
event 1 call a "f" return 1
# an event of the group less
page
a
{"version":1,"modules":[
{"name":"a","language":"cajita","source":"var n = 0; ({up: function () { n++; return n; }});"},
{"name":"b","language":"cajita","source":""}],
"events":[{"call":"a","key":"up"},{"call":"b","key":"up"},{"call":"a","key":"up"}]}
↔
{"version":1,"modules":[
{"name":"a","language":"cajita","source":"var n = 0; ({up: function () { n++; return n; }});"},
{"name":"b","language":"cajita","source":""}],
"events":[{"call":"b","key":"up"},{"call":"b","key":"up"},{"call":"a","key":"up"}]}
⇒
load a return record a#1
event 0 call a "up" return 1
event 2 call a "up" return 2
↔
load a return record a#1
event 2 call a "up" return 1
# an event with another argument
page
a
{"version":1,"modules":[
{"name":"a","language":"cajita","source":"({twice: function (x) { return x + x; }});"},
{"name":"b","language":"cajita","source":"1;"}],
"events":[{"call":"a","key":"twice","args":[2]}]}
↔
{"version":1,"modules":[
{"name":"a","language":"cajita","source":"({twice: function (x) { return x + x; }});"},
{"name":"b","language":"cajita","source":"1;"}],
"events":[{"call":"a","key":"twice","args":["2"]}]}
⇒
load a return record a#1
event 0 call a "twice" return 4
↔
load a return record a#1
event 0 call a "twice" return "22"
# events in another order
page
a
{"version":1,"modules":[
{"name":"a","language":"cajita","source":"var t = ''; ({add: function (x) { t += x; return t; }}); later(function () { t += '!'; }); ({add: function (x) { t += x; return t; }});"},
{"name":"b","language":"cajita","source":"1;"}],
"events":[{"call":"a","key":"add","args":[1]},{"tick":"a"}]}
↔
{"version":1,"modules":[
{"name":"a","language":"cajita","source":"var t = ''; ({add: function (x) { t += x; return t; }}); later(function () { t += '!'; }); ({add: function (x) { t += x; return t; }});"},
{"name":"b","language":"cajita","source":"1;"}],
"events":[{"tick":"a"},{"call":"a","key":"add","args":[1]}]}
⇒
load a return record a#4
event 0 call a "add" return "1"
event 1 tick a return undefined
↔
load a return record a#4
event 0 tick a return undefined
event 1 call a "add" return "!1"
# a module that shares one more cell with the group
page
a b
{"version":1,"cells":["k"],"modules":[
{"name":"a","language":"cajita","source":"k.set(1);","grants":[{"name":"k","cell":"k"}]},
{"name":"c","language":"cajita","source":"1;"},
{"name":"b","language":"cajita","source":"k.get();","grants":[{"name":"k","cell":"k"}]}]}
↔
{"version":1,"cells":["k"],"modules":[
{"name":"a","language":"cajita","source":"k.set(1);","grants":[{"name":"k","cell":"k"}]},
{"name":"c","language":"cajita","source":"k.set(k.get() + 1);","grants":[{"name":"k","cell":"k"}]},
{"name":"b","language":"cajita","source":"k.get();","grants":[{"name":"k","cell":"k"}]}]}
⇒
load a return undefined
load b return 1
↔
load a return undefined
load b return 2
# a module that shares one cell more, and only touches what it finds there
page --touch
a
{"version":1,"cells":["k"],"modules":[
{"name":"a","language":"cajita","source":"k.set({n: 1}); ({n: function () { return k.get().n; }});","grants":[{"name":"k","cell":"k"}]},
{"name":"b","language":"cajita","source":""}],
"events":[{"call":"a","key":"n"}]}
↔
{"version":1,"cells":["k"],"modules":[
{"name":"a","language":"cajita","source":"k.set({n: 1}); ({n: function () { return k.get().n; }});","grants":[{"name":"k","cell":"k"}]},
{"name":"b","language":"cajita","source":"k.get().n = 2;","grants":[{"name":"k","cell":"k"}]}],
"events":[{"call":"a","key":"n"}]}
⇒
touch a get cell:k "set"
touch a call cell:k.set
load a return record a#2
touch a get cell:k "get"
touch a call cell:k.get
touch a get a#0 "n"
event 0 call a "n" return 1
↔
touch a get cell:k "set"
touch a call cell:k.set
load a return record a#2
touch a get cell:k "get"
touch a call cell:k.get
touch a get a#0 "n"
event 0 call a "n" return 2
# a module that is granted the result of the group's
page
a
{"version":1,"modules":[
{"name":"a","language":"cajita","source":"({open: true, ask: function () { say('asked'); }});"},
{"name":"b","language":"cajita","source":""}],
"events":[{"call":"a","key":"ask"}]}
↔
{"version":1,"modules":[
{"name":"a","language":"cajita","source":"({open: true, ask: function () { say('asked'); }});"},
{"name":"b","language":"cajita","source":"r.ask(); r.open = false;","grants":[{"name":"r","module":"a"}]}],
"events":[{"call":"a","key":"ask"}]}
⇒
load a return record a#1
say a "asked"
event 0 call a "ask" return undefined
↔
load a return record a#1
say a "asked"
say a "asked"
event 0 call a "ask" return undefined
# the result of another module
page
b c
{"version":1,"modules":[
{"name":"a","language":"cajita","source":"({n: 'of a'});"},
{"name":"b","language":"cajita","source":"({n: 'of b'});"},
{"name":"c","language":"cajita","source":"r.n;","grants":[{"name":"r","module":"b"}]}]}
↔
{"version":1,"modules":[
{"name":"a","language":"cajita","source":"({n: 'of a'});"},
{"name":"b","language":"cajita","source":"({n: 'of b'});"},
{"name":"c","language":"cajita","source":"r.n;","grants":[{"name":"r","module":"a"}]}]}
⇒
load b return record b#0
load c return "of b"
↔
load b return record b#0
load c return "of a"
# a granted value that differs
page
a
{"version":1,"modules":[
{"name":"a","language":"cajita","source":"v;","grants":[{"name":"v","value":5}]},
{"name":"b","language":"cajita","source":"2;"}]}
↔
{"version":1,"modules":[
{"name":"a","language":"cajita","source":"v;","grants":[{"name":"v","value":"5"}]},
{"name":"b","language":"cajita","source":"2;"}]}
⇒
load a return 5
↔
load a return "5"
# two granted cells whose names are exchanged
page
a b
{"version":1,"cells":["x","y"],"modules":[
{"name":"a","language":"cajita","source":"one.set(1); two.set(2);","grants":[{"name":"one","cell":"x"},{"name":"two","cell":"y"}]},
{"name":"b","language":"cajita","source":"one.get() + ' ' + two.get();","grants":[{"name":"one","cell":"x"},{"name":"two","cell":"y"}]}]}
↔
{"version":1,"cells":["x","y"],"modules":[
{"name":"a","language":"cajita","source":"one.set(1); two.set(2);","grants":[{"name":"one","cell":"x"},{"name":"two","cell":"y"}]},
{"name":"b","language":"cajita","source":"one.get() + ' ' + two.get();","grants":[{"name":"one","cell":"y"},{"name":"two","cell":"x"}]}]}
⇒
load a return undefined
load b return "1 2"
↔
load a return undefined
load b return "2 1"
# a source that differs in one name
page --touch
a
{"version":1,"modules":[
{"name":"a","language":"cajita","source":"var o = {p: 1, q: 1}; o.p;"},
{"name":"b","language":"cajita","source":"1;"}]}
↔
{"version":1,"modules":[
{"name":"a","language":"cajita","source":"var o = {p: 1, q: 1}; o.q;"},
{"name":"b","language":"cajita","source":"1;"}]}
⇒
touch a get a#0 "p"
load a return 1
↔
touch a get a#0 "q"
load a return 1
# the group's modules in another order
page
a b
{"version":1,"cells":["k"],"modules":[
{"name":"a","language":"cajita","source":"k.set('from a');","grants":[{"name":"k","cell":"k"}]},
{"name":"b","language":"cajita","source":"k.get();","grants":[{"name":"k","cell":"k"}]}]}
↔
{"version":1,"cells":["k"],"modules":[
{"name":"b","language":"cajita","source":"k.get();","grants":[{"name":"k","cell":"k"}]},
{"name":"a","language":"cajita","source":"k.set('from a');","grants":[{"name":"k","cell":"k"}]}]}
⇒
load a return undefined
load b return "from a"
↔
load b return undefined
load a return undefined
# a module of the group with another name
page
a b
{"version":1,"cells":["k"],"modules":[
{"name":"a","language":"cajita","source":"({});","grants":[{"name":"k","cell":"k"}]},
{"name":"b","language":"cajita","source":"k.get();","grants":[{"name":"k","cell":"k"}]}]}
↔
{"version":1,"cells":["k"],"modules":[
{"name":"a","language":"cajita","source":"({});","grants":[{"name":"k","cell":"k"}]},
{"name":"c","language":"cajita","source":"k.get();","grants":[{"name":"k","cell":"k"}]}]}
⇒
load a return record a#0
load b return undefined
↔
load a return record a#0
"#;

/// What ends the page of all.
static FAULTS: &str = r#"
# a stranger's number that isn't whole
page
a
{"version":1,"modules":[
{"name":"a","language":"cajita","source":"say('loaded'); ({f: function () { return 1; }});"},
{"name":"b","language":"cajita","source":"({g: function () { return 1; }});"}],
"events":[{"call":"a","key":"f"},{"call":"b","key":"g"},{"call":"a","key":"f"}]}
↔
{"version":1,"modules":[
{"name":"a","language":"cajita","source":"say('loaded'); ({f: function () { return 1; }});"},
{"name":"b","language":"cajita","source":"({g: function () { return 1 / 2; }});"}],
"events":[{"call":"a","key":"f"},{"call":"b","key":"g"},{"call":"a","key":"f"}]}
⇒
say a "loaded"
load a return record a#1
event 0 call a "f" return 1
event 2 call a "f" return 1
↔
say a "loaded"
load a return record a#1
event 0 call a "f" return 1
# a stranger's calls that nest too deep
page
a
{"version":1,"modules":[
{"name":"a","language":"cajita","source":"say('loaded'); ({f: function () { return 1; }});"},
{"name":"b","language":"cajita","source":""}],
"events":[{"call":"a","key":"f"},{"call":"b","key":"g"},{"call":"a","key":"f"}]}
↔
{"version":1,"modules":[
{"name":"a","language":"cajita","source":"say('loaded'); ({f: function () { return 1; }});"},
{"name":"b","language":"cajita","source":"function down() { return down(); } ({g: down});"}],
"events":[{"call":"a","key":"f"},{"call":"b","key":"g"},{"call":"a","key":"f"}]}
⇒
say a "loaded"
load a return record a#1
event 0 call a "f" return 1
event 2 call a "f" return 1
↔
say a "loaded"
load a return record a#1
event 0 call a "f" return 1
# a stranger that spends all steps
page --steps 100
a
{"version":1,"modules":[
{"name":"a","language":"cajita","source":"say('loaded'); ({f: function () { return 1; }});"},
{"name":"b","language":"cajita","source":""}],
"events":[{"call":"a","key":"f"},{"call":"b","key":"g"},{"call":"a","key":"f"}]}
↔
{"version":1,"modules":[
{"name":"a","language":"cajita","source":"say('loaded'); ({f: function () { return 1; }});"},
{"name":"b","language":"cajita","source":"({g: function () { while (true) { } }});"}],
"events":[{"call":"a","key":"f"},{"call":"b","key":"g"},{"call":"a","key":"f"}]}
⇒
say a "loaded"
load a return record a#1
event 0 call a "f" return 1
event 2 call a "f" return 1
↔
say a "loaded"
load a return record a#1
event 0 call a "f" return 1
"#;

#[test]
fn what_the_group_shares_is_seen(rt: HostRuntime) -> Result<(), Fail> {
    check_differing(rt.alloc(), NEAR)
}

#[test]
fn faults_and_spent_steps_end_the_page_for_all(rt: HostRuntime) -> Result<(), Fail> {
    check_differing(rt.alloc(), FAULTS)
}

//! Pairs of pages that agree on a group, each for something that a program could mix up between modules; the title tells what would be seen.

use pair_runs::pair_tables::check_agreeing;
use std::test::Fail;

/// What could be mixed up.
static MIXED: &str = r#"
# were there one queue for all modules, a tick of a would call what b left
page
a
{"version":1,"modules":[
{"name":"b","language":"cajita","source":""},
{"name":"a","language":"cajita","source":"later(function () { return 'of a'; });"}],
"events":[{"tick":"a"},{"tick":"a"},{"tick":"b"},{"tick":"a"}]}
↔
{"version":1,"modules":[
{"name":"b","language":"cajita","source":"later(function () { return 'of b'; }); later(function () { return 'of b again'; });"},
{"name":"a","language":"cajita","source":"later(function () { return 'of a'; });"}],
"events":[{"tick":"a"},{"tick":"a"},{"tick":"b"},{"tick":"a"}]}
⇒
load a return undefined
event 0 tick a return "of a"
event 1 tick a none
event 3 tick a none
# were waiting functions called by whose they are, b's would wait for a tick of b
page --touch
a b
{"version":1,"modules":[
{"name":"c","language":"cajita","source":""},
{"name":"a","language":"cajita","source":"({speak: say, wait: later});"},
{"name":"b","language":"cajita","source":"r.speak('for a'); r.wait(function () { return 'of b, in the queue of a'; });","grants":[{"name":"r","module":"a"}]}],
"events":[{"tick":"b"},{"tick":"a"},{"tick":"c"},{"tick":"a"}]}
↔
{"version":1,"modules":[
{"name":"c","language":"cajita","source":"later(function () { return 'of c'; }); later(function () { return 1; }); say('of c');"},
{"name":"a","language":"cajita","source":"({speak: say, wait: later});"},
{"name":"b","language":"cajita","source":"r.speak('for a'); r.wait(function () { return 'of b, in the queue of a'; });","grants":[{"name":"r","module":"a"}]}],
"events":[{"tick":"b"},{"tick":"a"},{"tick":"c"},{"tick":"a"}]}
⇒
load a return record a#0
touch b get a#0 "speak"
touch b call a!say
say a "for a"
touch b get a#0 "wait"
touch b call a!later
load b return undefined
event 0 tick b none
event 1 tick a return "of b, in the queue of a"
event 3 tick a none
# were names counted for the page, those of a would begin behind those of b
page
a
{"version":1,"modules":[
{"name":"b","language":"cajita","source":""},
{"name":"a","language":"cajita","source":"[{}, function () {}];"}],
"events":[{"call":"b","key":"concat"},{"call":"a","key":"concat"},{"call":"b","key":"concat"},{"call":"a","key":"slice"}]}
↔
{"version":1,"modules":[
{"name":"b","language":"cajita","source":"var list = []; for (var i = 0; i < 100; i++) { list.push({}); } list;"},
{"name":"a","language":"cajita","source":"[{}, function () {}];"}],
"events":[{"call":"b","key":"concat"},{"call":"a","key":"concat"},{"call":"b","key":"concat"},{"call":"a","key":"slice"}]}
⇒
load a return array a#2
event 1 call a "concat" return array a#3
event 3 call a "slice" return array a#4
# were errors named by a count for the page, a's would go on behind b's
page
a
{"version":1,"modules":[
{"name":"b","language":"cajita","source":""},
{"name":"a","language":"cajita","source":"({f: function () { throw new TypeError('mine'); }, g: function () { return null.x; }});"}],
"events":[{"call":"b","key":"f"},{"call":"a","key":"f"},{"call":"b","key":"g"},{"call":"a","key":"g"}]}
↔
{"version":1,"modules":[
{"name":"b","language":"cajita","source":"({f: function () { throw new TypeError('mine'); }, g: function () { return null.x; }});"},
{"name":"a","language":"cajita","source":"({f: function () { throw new TypeError('mine'); }, g: function () { return null.x; }});"}],
"events":[{"call":"b","key":"f"},{"call":"a","key":"f"},{"call":"b","key":"g"},{"call":"a","key":"g"}]}
⇒
load a return record a#2
event 1 call a "f" throw error a#3 TypeError "mine"
event 3 call a "g" throw error a#4 TypeError "no object"
# were cells found by their place in the list, b would have another one
page --touch
a b
{"version":1,"cells":["x","y"],"modules":[
{"name":"c","language":"cajita","source":"y.set('of c'); y.get();","grants":[{"name":"y","cell":"y"}]},
{"name":"a","language":"cajita","source":"k.set('x of a');","grants":[{"name":"k","cell":"x"}]},
{"name":"b","language":"cajita","source":"x.get();","grants":[{"name":"x","cell":"x"}]}]}
↔
{"version":1,"cells":["z","y","w","x"],"modules":[
{"name":"c","language":"cajita","source":"z.set(1); w.set(2); z.get() + w.get();","grants":[{"name":"z","cell":"z"},{"name":"w","cell":"w"}]},
{"name":"a","language":"cajita","source":"k.set('x of a');","grants":[{"name":"k","cell":"x"}]},
{"name":"b","language":"cajita","source":"x.get();","grants":[{"name":"x","cell":"x"}]}]}
⇒
touch a get cell:x "set"
touch a call cell:x.set
load a return undefined
touch b get cell:x "get"
touch b call cell:x.get
load b return "x of a"
# did say go by who calls it, b would say what the say of a is called with
page --touch
a b
{"version":1,"cells":["k"],"modules":[
{"name":"c","language":"cajita","source":"say('c');"},
{"name":"a","language":"cajita","source":"k.set(say); say('mine');","grants":[{"name":"k","cell":"k"}]},
{"name":"b","language":"cajita","source":"k.get()('through a'); say('own');","grants":[{"name":"k","cell":"k"}]}]}
↔
{"version":1,"cells":["k"],"modules":[
{"name":"c","language":"cajita","source":"say('through a');"},
{"name":"a","language":"cajita","source":"k.set(say); say('mine');","grants":[{"name":"k","cell":"k"}]},
{"name":"b","language":"cajita","source":"k.get()('through a'); say('own');","grants":[{"name":"k","cell":"k"}]}]}
⇒
touch a get cell:k "set"
touch a call cell:k.set
touch a call a!say
say a "mine"
load a return undefined
touch b get cell:k "get"
touch b call cell:k.get
touch b call a!say
say a "through a"
touch b call b!say
say b "own"
load b return undefined
# did a group leave out whose result is granted, a and c would be apart
page
a c
{"version":1,"modules":[
{"name":"a","language":"cajita","source":"var n = 0; ({set: function (m) { n = m; }, get: function () { return n; }});"},
{"name":"b","language":"cajita","source":""},
{"name":"c","language":"cajita","source":"a.set(6); a.get();","grants":[{"name":"a","module":"a"}]}],
"events":[{"call":"b","key":"set","args":[1]},{"call":"a","key":"get"},{"call":"b","key":"get"}]}
↔
{"version":1,"cells":["k"],"modules":[
{"name":"a","language":"cajita","source":"var n = 0; ({set: function (m) { n = m; }, get: function () { return n; }});"},
{"name":"b","language":"cajita","source":"k;","grants":[{"name":"k","cell":"k"}]},
{"name":"c","language":"cajita","source":"a.set(6); a.get();","grants":[{"name":"a","module":"a"}]}],
"events":[{"call":"b","key":"set","args":[1]},{"call":"a","key":"get"},{"call":"b","key":"get"}]}
⇒
load a return record a#2
load c return 6
event 1 call a "get" return 6
"#;

#[test]
fn nothing_is_mixed_up_between_modules(rt: HostRuntime) -> Result<(), Fail> {
    check_agreeing(rt.alloc(), MIXED)
}

//! Pairs of pages that agree on a group of modules and differ in all else: both give the group the same lines.

use pair_runs::pair_tables::check_agreeing;
use std::test::Fail;

/// Groups by cells, and groups of one.
static CELLS: &str = r#"
# one that shares nothing, beside one that does nothing and one that works
page --touch
a
{"version":1,"modules":[
{"name":"a","language":"cajita","source":"var o = {n: 1}; o.n += 1; ({read: function () { return o.n; }});"},
{"name":"b","language":"cajita","source":""}],
"events":[{"call":"b","key":"read"},{"call":"a","key":"read"}]}
↔
{"version":1,"modules":[
{"name":"a","language":"cajita","source":"var o = {n: 1}; o.n += 1; ({read: function () { return o.n; }});"},
{"name":"b","language":"cajita","source":"var sum = 0, list = []; for (var i = 0; i < 200; i++) { list.push({at: i}); sum += i; } say(sum); sum;"}],
"events":[{"call":"b","key":"read"},{"call":"a","key":"read"}]}
⇒
touch a get a#0 "n"
touch a set a#0 "n"
load a return record a#2
touch a get a#0 "n"
event 1 call a "read" return 2
# two that share a cell, and a third that throws or gives
page --touch
a b
{"version":1,"cells":["k"],"modules":[
{"name":"a","language":"cajita","source":"k.set({from: 'a'}); 'set';","grants":[{"name":"k","cell":"k"}]},
{"name":"b","language":"cajita","source":"var note = k.get(); say(note.from); note;","grants":[{"name":"k","cell":"k"}]},
{"name":"c","language":"cajita","source":"null.x;"}],
"events":[{"call":"c","key":"deep"},{"call":"a","key":"charAt","args":[1]}]}
↔
{"version":1,"cells":["k"],"modules":[
{"name":"a","language":"cajita","source":"k.set({from: 'a'}); 'set';","grants":[{"name":"k","cell":"k"}]},
{"name":"b","language":"cajita","source":"var note = k.get(); say(note.from); note;","grants":[{"name":"k","cell":"k"}]},
{"name":"c","language":"cajita","source":"({deep: [1, [2, [3]]]});"}],
"events":[{"call":"c","key":"deep"},{"call":"a","key":"charAt","args":[1]}]}
⇒
touch a get cell:k "set"
touch a call cell:k.set
load a return "set"
touch b get cell:k "get"
touch b call cell:k.get
touch b get a#0 "from"
touch b call b!say
say b "a"
load b return record a#0
event 1 call a "charAt" return "e"
# a stranger between two that share a cell, idle and with a long loop
page
a b
{"version":1,"cells":["k"],"modules":[
{"name":"a","language":"cajita","source":"k.set(7);","grants":[{"name":"k","cell":"k"}]},
{"name":"c","language":"cajita","source":""},
{"name":"b","language":"cajita","source":"k.get() + 1;","grants":[{"name":"k","cell":"k"}]}]}
↔
{"version":1,"cells":["k"],"modules":[
{"name":"a","language":"cajita","source":"k.set(7);","grants":[{"name":"k","cell":"k"}]},
{"name":"c","language":"cajita","source":"var n = 0; while (n < 3000) { n++; } n;"},
{"name":"b","language":"cajita","source":"k.get() + 1;","grants":[{"name":"k","cell":"k"}]}]}
⇒
load a return undefined
load b return 8
# a cell that one alone has, with and without cells of others before and behind it
page --touch
a
{"version":1,"cells":["x"],"modules":[
{"name":"a","language":"cajita","source":"k.set({n: 0}); ({next: function () { var o = k.get(); o.n++; return o.n; }});","grants":[{"name":"k","cell":"x"}]},
{"name":"b","language":"cajita","source":"1;"},
{"name":"c","language":"cajita","source":"2;"}],
"events":[{"call":"a","key":"next"},{"call":"c","key":"x"},{"call":"b","key":"y"},{"call":"a","key":"next"}]}
↔
{"version":1,"cells":["q","x","r"],"modules":[
{"name":"a","language":"cajita","source":"k.set({n: 0}); ({next: function () { var o = k.get(); o.n++; return o.n; }});","grants":[{"name":"k","cell":"x"}]},
{"name":"b","language":"cajita","source":"q.set(function () { return 'b'; });","grants":[{"name":"q","cell":"q"}]},
{"name":"c","language":"cajita","source":"r.set(q.get()); r.get()();","grants":[{"name":"q","cell":"q"},{"name":"r","cell":"r"}]}],
"events":[{"call":"a","key":"next"},{"call":"c","key":"x"},{"call":"b","key":"y"},{"call":"a","key":"next"}]}
⇒
touch a get cell:x "set"
touch a call cell:x.set
load a return record a#2
touch a get cell:x "get"
touch a call cell:x.get
touch a get a#0 "n"
touch a set a#0 "n"
touch a get a#0 "n"
event 0 call a "next" return 1
touch a get cell:x "get"
touch a call cell:x.get
touch a get a#0 "n"
touch a set a#0 "n"
touch a get a#0 "n"
event 3 call a "next" return 2
# three in a chain of cells, and a fourth with a cell of its own or none
page
a b c
{"version":1,"cells":["x","y"],"modules":[
{"name":"a","language":"cajita","source":"x.set([1]);","grants":[{"name":"x","cell":"x"}]},
{"name":"d","language":"cajita","source":""},
{"name":"b","language":"cajita","source":"y.set(x.get().concat([2]));","grants":[{"name":"x","cell":"x"},{"name":"y","cell":"y"}]},
{"name":"c","language":"cajita","source":"var l = y.get(); l.push(3); l.join('+');","grants":[{"name":"y","cell":"y"}]}]}
↔
{"version":1,"cells":["z","y","x"],"modules":[
{"name":"a","language":"cajita","source":"x.set([1]);","grants":[{"name":"x","cell":"x"}]},
{"name":"d","language":"cajita","source":"z.set(9); z.get();","grants":[{"name":"z","cell":"z"}]},
{"name":"b","language":"cajita","source":"y.set(x.get().concat([2]));","grants":[{"name":"x","cell":"x"},{"name":"y","cell":"y"}]},
{"name":"c","language":"cajita","source":"var l = y.get(); l.push(3); l.join('+');","grants":[{"name":"y","cell":"y"}]}]}
⇒
load a return undefined
load b return undefined
load c return "1+2+3"
# a twin with the same source and a cell of its own, and one without
page --touch
a
{"version":1,"cells":["x","y"],"modules":[
{"name":"b","language":"cajita","source":""},
{"name":"a","language":"cajita","source":"if (k.get() === undefined) { k.set('first'); } k.get();","grants":[{"name":"k","cell":"x"}]}]}
↔
{"version":1,"cells":["x","y"],"modules":[
{"name":"b","language":"cajita","source":"if (k.get() === undefined) { k.set('first'); } k.get();","grants":[{"name":"k","cell":"y"}]},
{"name":"a","language":"cajita","source":"if (k.get() === undefined) { k.set('first'); } k.get();","grants":[{"name":"k","cell":"x"}]}]}
⇒
touch a get cell:x "get"
touch a call cell:x.get
touch a get cell:x "set"
touch a call cell:x.set
touch a get cell:x "get"
touch a call cell:x.get
load a return "first"
# the name of the group's cell, which a stranger has for a value or declares
page
a b
{"version":1,"cells":["board"],"modules":[
{"name":"c","language":"cajita","source":"board;","grants":[{"name":"board","value":5}]},
{"name":"a","language":"cajita","source":"board.set('hello');","grants":[{"name":"board","cell":"board"}]},
{"name":"b","language":"cajita","source":"board.get();","grants":[{"name":"board","cell":"board"}]}],
"events":[{"call":"c","key":"set","args":[1]},{"call":"b","key":"length"},{"call":"c","key":"set","args":[2]}]}
↔
{"version":1,"cells":["board"],"modules":[
{"name":"c","language":"cajita","source":"var board = {set: function () { throw 'forged'; }}; board;"},
{"name":"a","language":"cajita","source":"board.set('hello');","grants":[{"name":"board","cell":"board"}]},
{"name":"b","language":"cajita","source":"board.get();","grants":[{"name":"board","cell":"board"}]}],
"events":[{"call":"c","key":"set","args":[1]},{"call":"b","key":"length"},{"call":"c","key":"set","args":[2]}]}
⇒
load a return undefined
load b return "hello"
event 1 call b "length" throw error b#0 TypeError "not a function"
# two groups by cells, of which the other one fills its cell or leaves it
page
a c
{"version":1,"cells":["x","y"],"modules":[
{"name":"a","language":"cajita","source":"x.set('of a and c'); ({see: function () { return x.get(); }});","grants":[{"name":"x","cell":"x"}]},
{"name":"b","language":"cajita","source":"y.set('of b and d');","grants":[{"name":"y","cell":"y"}]},
{"name":"c","language":"cajita","source":"x.get();","grants":[{"name":"x","cell":"x"}]},
{"name":"d","language":"cajita","source":"y.get();","grants":[{"name":"y","cell":"y"}]}],
"events":[{"call":"d","key":"charAt","args":[0]},{"call":"a","key":"see"}]}
↔
{"version":1,"cells":["x","y"],"modules":[
{"name":"a","language":"cajita","source":"x.set('of a and c'); ({see: function () { return x.get(); }});","grants":[{"name":"x","cell":"x"}]},
{"name":"b","language":"cajita","source":"","grants":[{"name":"x","cell":"y"}]},
{"name":"c","language":"cajita","source":"x.get();","grants":[{"name":"x","cell":"x"}]},
{"name":"d","language":"cajita","source":"y.set(y); y.get().get();","grants":[{"name":"y","cell":"y"}]}],
"events":[{"call":"d","key":"charAt","args":[0]},{"call":"a","key":"see"}]}
⇒
load a return record a#1
load c return "of a and c"
event 1 call a "see" return "of a and c"
"#;

/// Groups by results, and by how others are joined.
static RESULTS: &str = r#"
# a maker and its user, and a stranger between that throws
page --touch
a b
{"version":1,"modules":[
{"name":"a","language":"cajita","source":"({n: 1, add: function (m) { return m + 1; }});"},
{"name":"c","language":"cajita","source":"say('idle');"},
{"name":"b","language":"cajita","source":"r.add(r.n);","grants":[{"name":"r","module":"a"}]}],
"events":[{"call":"c","key":"add","args":[1]},{"call":"a","key":"add","args":[41]}]}
↔
{"version":1,"modules":[
{"name":"a","language":"cajita","source":"({n: 1, add: function (m) { return m + 1; }});"},
{"name":"c","language":"cajita","source":"var t = ''; for (var i = 0; i < 50; i++) { t += i; } say(t); throw new Error(t.length + '');"},
{"name":"b","language":"cajita","source":"r.add(r.n);","grants":[{"name":"r","module":"a"}]}],
"events":[{"call":"c","key":"add","args":[1]},{"call":"a","key":"add","args":[41]}]}
⇒
load a return record a#1
touch b get a#1 "n"
touch b get a#1 "add"
touch b call a#0
load b return 2
event 1 call a "add" return 42
# a result that each in a chain changes
page
a b c
{"version":1,"modules":[
{"name":"d","language":"cajita","source":""},
{"name":"a","language":"cajita","source":"[1];"},
{"name":"b","language":"cajita","source":"r.push(2); r;","grants":[{"name":"r","module":"a"}]},
{"name":"c","language":"cajita","source":"s.push(3); s.join('');","grants":[{"name":"s","module":"b"}]}],
"events":[{"call":"d","key":"push","args":[5]},{"call":"a","key":"push","args":[4]},{"call":"b","key":"join"}]}
↔
{"version":1,"modules":[
{"name":"d","language":"cajita","source":"var l = [1]; l.push(2); l;"},
{"name":"a","language":"cajita","source":"[1];"},
{"name":"b","language":"cajita","source":"r.push(2); r;","grants":[{"name":"r","module":"a"}]},
{"name":"c","language":"cajita","source":"s.push(3); s.join('');","grants":[{"name":"s","module":"b"}]}],
"events":[{"call":"d","key":"push","args":[5]},{"call":"a","key":"push","args":[4]},{"call":"b","key":"join"}]}
⇒
load a return array a#0
load b return array a#0
load c return "123"
event 1 call a "push" return 4
event 2 call b "join" return "1,2,3,4"
# the result of one that threw, and a stranger that catches the same
page
a b
{"version":1,"modules":[
{"name":"a","language":"cajita","source":"null.x;"},
{"name":"c","language":"cajita","source":""},
{"name":"b","language":"cajita","source":"typeof r;","grants":[{"name":"r","module":"a"}]}],
"events":[{"call":"a","key":"f"},{"call":"c","key":"f"}]}
↔
{"version":1,"modules":[
{"name":"a","language":"cajita","source":"null.x;"},
{"name":"c","language":"cajita","source":"try { null.x; } catch (e) { say(e.message); }"},
{"name":"b","language":"cajita","source":"typeof r;","grants":[{"name":"r","module":"a"}]}],
"events":[{"call":"a","key":"f"},{"call":"c","key":"f"}]}
⇒
load a throw error a#0 TypeError "no object"
load b return "undefined"
event 0 call a "f" throw error a#1 TypeError "no object"
# two users of two makers, joined to others by results and apart
page
a c
{"version":1,"modules":[
{"name":"a","language":"cajita","source":"var n = 0; ({up: function () { n++; return n; }});"},
{"name":"b","language":"cajita","source":"({});"},
{"name":"c","language":"cajita","source":"r.up(); r.up() + r.up();","grants":[{"name":"r","module":"a"}]},
{"name":"d","language":"cajita","source":"r.extra = 1; r;","grants":[{"name":"r","module":"b"}]}],
"events":[{"call":"b","key":"up"},{"call":"a","key":"up"},{"call":"d","key":"up"}]}
↔
{"version":1,"cells":["k"],"modules":[
{"name":"a","language":"cajita","source":"var n = 0; ({up: function () { n++; return n; }});"},
{"name":"b","language":"cajita","source":"k.set({}); 0;","grants":[{"name":"k","cell":"k"}]},
{"name":"c","language":"cajita","source":"r.up(); r.up() + r.up();","grants":[{"name":"r","module":"a"}]},
{"name":"d","language":"cajita","source":"[];"}],
"events":[{"call":"b","key":"up"},{"call":"a","key":"up"},{"call":"d","key":"up"}]}
⇒
load a return record a#1
load c return 5
event 1 call a "up" return 4
# values that others are granted too, and other values
page
a
{"version":1,"modules":[
{"name":"a","language":"cajita","source":"v + n;","grants":[{"name":"v","value":"same"},{"name":"n","value":-3}]},
{"name":"b","language":"cajita","source":"v;","grants":[{"name":"v","value":"same"}]}],
"events":[{"call":"a","key":"slice","args":[4]},{"call":"b","key":"slice","args":[4]}]}
↔
{"version":1,"modules":[
{"name":"a","language":"cajita","source":"v + n;","grants":[{"name":"v","value":"same"},{"name":"n","value":-3}]},
{"name":"b","language":"cajita","source":"n + v;","grants":[{"name":"n","value":"same"},{"name":"v","value":null}]}],
"events":[{"call":"a","key":"slice","args":[4]},{"call":"b","key":"slice","args":[4]}]}
⇒
load a return "same-3"
event 0 call a "slice" return "-3"
# the other modules apart, and all of them one group
page
a
{"version":1,"modules":[
{"name":"b","language":"cajita","source":"({f: function () { return 'b'; }});"},
{"name":"a","language":"cajita","source":"({f: function (x) { return x * 2; }});"},
{"name":"c","language":"cajita","source":""},
{"name":"d","language":"cajita","source":"throw 'd';"}],
"events":[{"call":"a","key":"f","args":[21]},{"call":"b","key":"f","args":[1]},{"call":"c","key":"f"},{"call":"d","key":"f"}]}
↔
{"version":1,"cells":["k"],"modules":[
{"name":"b","language":"cajita","source":"k.set({f: function () { return 'set'; }});","grants":[{"name":"k","cell":"k"}]},
{"name":"a","language":"cajita","source":"({f: function (x) { return x * 2; }});"},
{"name":"c","language":"cajita","source":"k.get();","grants":[{"name":"k","cell":"k"}]},
{"name":"d","language":"cajita","source":"r;","grants":[{"name":"r","module":"c"}]}],
"events":[{"call":"a","key":"f","args":[21]},{"call":"b","key":"f","args":[1]},{"call":"c","key":"f"},{"call":"d","key":"f"}]}
⇒
load a return record a#1
event 0 call a "f" return 42
# the other modules all one group, and joined otherwise
page
a d
{"version":1,"cells":["k"],"modules":[
{"name":"a","language":"cajita","source":"({list: [1, 2, 3]});"},
{"name":"b","language":"cajita","source":"k.set(1);","grants":[{"name":"k","cell":"k"}]},
{"name":"c","language":"cajita","source":"k.get();","grants":[{"name":"k","cell":"k"}]},
{"name":"d","language":"cajita","source":"var t = ''; for (var i in a.list) { t += i; } t + a.list.join('');","grants":[{"name":"a","module":"a"}]},
{"name":"e","language":"cajita","source":"c;","grants":[{"name":"c","module":"c"},{"name":"k","cell":"k"}]}],
"events":[{"call":"e","key":"f"},{"call":"d","key":"f"}]}
↔
{"version":1,"cells":["k"],"modules":[
{"name":"a","language":"cajita","source":"({list: [1, 2, 3]});"},
{"name":"b","language":"cajita","source":"say('b'); 1;"},
{"name":"c","language":"cajita","source":"k.get();","grants":[{"name":"k","cell":"k"}]},
{"name":"d","language":"cajita","source":"var t = ''; for (var i in a.list) { t += i; } t + a.list.join('');","grants":[{"name":"a","module":"a"}]},
{"name":"e","language":"cajita","source":"b;","grants":[{"name":"b","module":"b"}]}],
"events":[{"call":"e","key":"f"},{"call":"d","key":"f"}]}
⇒
load a return record a#1
load d return "012123"
event 1 call d "f" throw error d#0 TypeError "not a function"
"#;

/// Functions that wait.
static QUEUES: &str = r#"
# functions of others that wait before, between and behind
page --touch
a
{"version":1,"modules":[
{"name":"b","language":"cajita","source":""},
{"name":"a","language":"cajita","source":"later(function () { say('one'); }); later(function () { say('two'); later(function () { say('three'); }); });"},
{"name":"c","language":"cajita","source":"later(function () { throw 'c'; }); 1;"}],
"events":[{"tick":"b"},{"tick":"a"},{"tick":"c"},{"tick":"a"},{"tick":"b"},{"tick":"a"},{"tick":"a"}]}
↔
{"version":1,"modules":[
{"name":"b","language":"cajita","source":"later(function () { say('b'); later(function () {}); });"},
{"name":"a","language":"cajita","source":"later(function () { say('one'); }); later(function () { say('two'); later(function () { say('three'); }); });"},
{"name":"c","language":"cajita","source":""}],
"events":[{"tick":"b"},{"tick":"a"},{"tick":"c"},{"tick":"a"},{"tick":"b"},{"tick":"a"},{"tick":"a"}]}
⇒
touch a call a!later
touch a call a!later
load a return undefined
touch a call a!say
say a "one"
event 1 tick a return undefined
touch a call a!say
say a "two"
touch a call a!later
event 3 tick a return undefined
touch a call a!say
say a "three"
event 5 tick a return undefined
event 6 tick a none
# ticks of a stranger where nothing waits, and where it queues itself
page
a b
{"version":1,"cells":["k"],"modules":[
{"name":"a","language":"cajita","source":"later(function () { k.set('later'); });","grants":[{"name":"k","cell":"k"}]},
{"name":"b","language":"cajita","source":"({look: function () { return k.get(); }});","grants":[{"name":"k","cell":"k"}]},
{"name":"c","language":"cajita","source":""}],
"events":[{"tick":"c"},{"call":"b","key":"look"},{"tick":"c"},{"tick":"a"},{"tick":"c"},{"call":"b","key":"look"}]}
↔
{"version":1,"cells":["k"],"modules":[
{"name":"a","language":"cajita","source":"later(function () { k.set('later'); });","grants":[{"name":"k","cell":"k"}]},
{"name":"b","language":"cajita","source":"({look: function () { return k.get(); }});","grants":[{"name":"k","cell":"k"}]},
{"name":"c","language":"cajita","source":"var n = 0; function again() { n++; say('again ' + n); later(again); } later(again);"}],
"events":[{"tick":"c"},{"call":"b","key":"look"},{"tick":"c"},{"tick":"a"},{"tick":"c"},{"call":"b","key":"look"}]}
⇒
load a return undefined
load b return record b#1
event 1 call b "look" return undefined
event 3 tick a return undefined
event 5 call b "look" return "later"
# a function that throws in the queue of one, beside one that does so too
page
a
{"version":1,"modules":[
{"name":"b","language":"cajita","source":"later(function () { throw 'b'; });"},
{"name":"a","language":"cajita","source":"later(function () { throw 'gone'; }); later(function () { return [].length; });"}],
"events":[{"tick":"b"},{"tick":"a"},{"tick":"b"},{"tick":"a"}]}
↔
{"version":1,"modules":[
{"name":"b","language":"cajita","source":"later(later); 1;"},
{"name":"a","language":"cajita","source":"later(function () { throw 'gone'; }); later(function () { return [].length; });"}],
"events":[{"tick":"b"},{"tick":"a"},{"tick":"b"},{"tick":"a"}]}
⇒
load a return undefined
event 1 tick a throw "gone"
event 3 tick a return 0
# a stranger that leaves two hundred functions
page
a
{"version":1,"modules":[
{"name":"b","language":"cajita","source":""},
{"name":"a","language":"cajita","source":"var n = 0; ({wait: function () { later(function () { n++; return n; }); return n; }});"}],
"events":[{"call":"a","key":"wait"},{"tick":"b"},{"call":"a","key":"wait"},{"tick":"a"},{"tick":"a"},{"tick":"a"}]}
↔
{"version":1,"modules":[
{"name":"b","language":"cajita","source":"for (var i = 0; i < 200; i++) { later(function () { say(i); }); }"},
{"name":"a","language":"cajita","source":"var n = 0; ({wait: function () { later(function () { n++; return n; }); return n; }});"}],
"events":[{"call":"a","key":"wait"},{"tick":"b"},{"call":"a","key":"wait"},{"tick":"a"},{"tick":"a"},{"tick":"a"}]}
⇒
load a return record a#1
event 0 call a "wait" return 0
event 2 call a "wait" return 0
event 3 tick a return 1
event 4 tick a return 2
event 5 tick a none
"#;

/// What strangers do.
static STRANGERS: &str = r#"
# strangers that try what is refused
page
a
{"version":1,"modules":[
{"name":"b","language":"cajita","source":""},
{"name":"a","language":"cajita","source":"var o = {x: 1}, l = [3]; l.push(Math.abs(-4)); cajita.freeze(o); [o.x, l.length, l[1], cajita.isFrozen(o), ({}).constructor].join(' ');"}]}
↔
{"version":1,"modules":[
{"name":"b","language":"cajita","source":"var out = ''; function attempt(f) { try { f(); } catch (e) { out += e.message + '; '; } } attempt(function () { Math.abs = null; }); attempt(function () { ({})['x_canRead' + '___'] = 1; }); attempt(function () { [].push = 1; }); attempt(function () { cajita.freeze = null; }); attempt(function () { delete Error.prototype; }); attempt(function () { say.call = 1; }); out;"},
{"name":"a","language":"cajita","source":"var o = {x: 1}, l = [3]; l.push(Math.abs(-4)); cajita.freeze(o); [o.x, l.length, l[1], cajita.isFrozen(o), ({}).constructor].join(' ');"}]}
⇒
load a return "1 2 4 true "
# calls of a stranger that come to something, and calls in vain
page
a
{"version":1,"modules":[
{"name":"b","language":"cajita","source":""},
{"name":"a","language":"cajita","source":"({f: function () { return arguments.length; }});"}],
"events":[{"call":"b","key":"f"},{"call":"a","key":"f","args":[1,null,"x"]},{"call":"b","key":"g"},{"call":"b","key":"toString"},{"call":"a","key":"f"}]}
↔
{"version":1,"modules":[
{"name":"b","language":"cajita","source":"({f: function () { for (var i = 0; i < 20; i++) { say(i); } throw {}; }, g: [1, 2]});"},
{"name":"a","language":"cajita","source":"({f: function () { return arguments.length; }});"}],
"events":[{"call":"b","key":"f"},{"call":"a","key":"f","args":[1,null,"x"]},{"call":"b","key":"g"},{"call":"b","key":"toString"},{"call":"a","key":"f"}]}
⇒
load a return record a#1
event 1 call a "f" return 3
event 4 call a "f" return 0
# a deep call of one, beside one that goes as deep
page
a
{"version":1,"modules":[
{"name":"b","language":"cajita","source":""},
{"name":"a","language":"cajita","source":"function down(n) { return n === 0 ? 0 : 1 + down(n - 1); } ({go: down});"}],
"events":[{"call":"b","key":"go","args":[300]},{"call":"a","key":"go","args":[300]}]}
↔
{"version":1,"modules":[
{"name":"b","language":"cajita","source":"function down(n) { return n === 0 ? 0 : 1 + down(n - 1); } ({go: down});"},
{"name":"a","language":"cajita","source":"function down(n) { return n === 0 ? 0 : 1 + down(n - 1); } ({go: down});"}],
"events":[{"call":"b","key":"go","args":[300]},{"call":"a","key":"go","args":[300]}]}
⇒
load a return record a#1
event 1 call a "go" return 300
# a stranger that spends little, and one that spends most of the steps
page --steps 50
a
{"version":1,"modules":[
{"name":"b","language":"cajita","source":"1;"},
{"name":"a","language":"cajita","source":"var t = 0; for (var i = 1; i < 5; i++) { t += i; } t;"}]}
↔
{"version":1,"modules":[
{"name":"b","language":"cajita","source":"var n = 0; while (n < 400) { n++; } n;"},
{"name":"a","language":"cajita","source":"var t = 0; for (var i = 1; i < 5; i++) { t += i; } t;"}]}
⇒
load a return 10
# records with the same keys, which a stranger fills in another order
page --touch
a
{"version":1,"modules":[
{"name":"b","language":"cajita","source":"({b: 1, a: 2});"},
{"name":"a","language":"cajita","source":"var o = {b: 1, a: 2}; var t = ''; for (var k in o) { t += k; } t;"}],
"events":[{"call":"a","key":"length"},{"call":"b","key":"c"}]}
↔
{"version":1,"modules":[
{"name":"b","language":"cajita","source":"var o = {}; o.a = 1; o.c = 3; o.b = 2; for (var k in o) { delete o[k]; } o;"},
{"name":"a","language":"cajita","source":"var o = {b: 1, a: 2}; var t = ''; for (var k in o) { t += k; } t;"}],
"events":[{"call":"a","key":"length"},{"call":"b","key":"c"}]}
⇒
touch a keys a#0
touch a has a#0 "b"
touch a has a#0 "a"
load a return "ba"
event 0 call a "length" throw error a#1 TypeError "not a function"
# one among three that all throw or all give
page
c
{"version":1,"modules":[
{"name":"a","language":"cajita","source":"throw 1;"},
{"name":"b","language":"cajita","source":"throw new Error('b');"},
{"name":"c","language":"cajita","source":"var r; try { throw new RangeError('c'); } catch (e) { r = e; } r;"},
{"name":"d","language":"cajita","source":"throw say;"}],
"events":[{"call":"a","key":"f"},{"call":"b","key":"message"},{"call":"c","key":"message"},{"call":"d","key":"call","args":[1]}]}
↔
{"version":1,"modules":[
{"name":"a","language":"cajita","source":"1;"},
{"name":"b","language":"cajita","source":"new Error('b');"},
{"name":"c","language":"cajita","source":"var r; try { throw new RangeError('c'); } catch (e) { r = e; } r;"},
{"name":"d","language":"cajita","source":"say;"}],
"events":[{"call":"a","key":"f"},{"call":"b","key":"message"},{"call":"c","key":"message"},{"call":"d","key":"call","args":[1]}]}
⇒
load c return error c#0 RangeError "c"
event 2 call c "message" throw error c#1 TypeError "not a function"
# a group that throws as it is loaded, beside strangers that don't
page
a b
{"version":1,"cells":["k"],"modules":[
{"name":"c","language":"cajita","source":""},
{"name":"a","language":"cajita","source":"k.set('before'); throw 'a';","grants":[{"name":"k","cell":"k"}]},
{"name":"b","language":"cajita","source":"throw k.get();","grants":[{"name":"k","cell":"k"}]}],
"events":[{"call":"a","key":"f"},{"call":"c","key":"f"},{"call":"b","key":"f"},{"tick":"a"},{"tick":"c"}]}
↔
{"version":1,"cells":["k"],"modules":[
{"name":"c","language":"cajita","source":"say('c');"},
{"name":"a","language":"cajita","source":"k.set('before'); throw 'a';","grants":[{"name":"k","cell":"k"}]},
{"name":"b","language":"cajita","source":"throw k.get();","grants":[{"name":"k","cell":"k"}]}],
"events":[{"call":"a","key":"f"},{"call":"c","key":"f"},{"call":"b","key":"f"},{"tick":"a"},{"tick":"c"}]}
⇒
load a throw "a"
load b throw "before"
event 0 call a "f" throw error a#0 TypeError "no object"
event 2 call b "f" throw error b#0 TypeError "no object"
event 3 tick a none
# texts of a stranger that look like lines of the group
page
a
{"version":1,"modules":[
{"name":"b","language":"cajita","source":"say('quiet');"},
{"name":"a","language":"cajita","source":"say('mine'); 'a';"}]}
↔
{"version":1,"modules":[
{"name":"b","language":"cajita","source":"say('say a \"forged\"'); say('1\\nload a return 5\\nsay a 1'); 'a return 1';"},
{"name":"a","language":"cajita","source":"say('mine'); 'a';"}]}
⇒
say a "mine"
load a return "a"
"#;

#[test]
fn who_shares_a_cell_sees_the_same(rt: HostRuntime) -> Result<(), Fail> {
    check_agreeing(rt.alloc(), CELLS)
}

#[test]
fn who_shares_a_result_sees_the_same(rt: HostRuntime) -> Result<(), Fail> {
    check_agreeing(rt.alloc(), RESULTS)
}

#[test]
fn who_waits_is_called_the_same(rt: HostRuntime) -> Result<(), Fail> {
    check_agreeing(rt.alloc(), QUEUES)
}

#[test]
fn what_strangers_do_is_not_seen(rt: HostRuntime) -> Result<(), Fail> {
    check_agreeing(rt.alloc(), STRANGERS)
}

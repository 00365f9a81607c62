//! Pages of modules in Valija beside modules in Cajita: functions, objects and errors that they hand to each other, grants, events, a document, refusals.

use command_runs::page_tables::check_pages;
use std::test::Fail;

/// Two strangers, one in each dialect, and pages of Valija.
static PAGES: &str = r#"
# a module of Valija hands a closure to one of Cajita, which calls it
page
{"version":1,"modules":[{"name":"v","language":"valija","source":"function P(x) { this.x = x; } P.prototype.get = function () { return this.x; }; var p = new P(4); ({get: function () { return p.get(); }});"},{"name":"c","language":"cajita","source":"say(v.get() + 1); typeof v.get;","grants":[{"name":"v","module":"v"}]}]}
⇒
group v c
load v return record v#42
say c "5"
load c return "function"
html 0

end done
# a module of Cajita hands a closure to one of Valija, which calls it as a method
page
{"version":1,"modules":[{"name":"c","language":"cajita","source":"var n = 0; ({up: function (k) { n += k; return n; }});"},{"name":"v","language":"valija","source":"say(c.up(2)); say(c.up(3)); var f = c.up; f(4);","grants":[{"name":"c","module":"c"}]}]}
⇒
group c v
load c return record c#1
say v "2"
say v "5"
load v return 9
html 0

end done
# to a stranger a function of Valija has an undefined receiver
page
{"version":1,"modules":[{"name":"v","language":"valija","source":"({who: function () { return typeof this; }, self: function () { var o = {f: function () { return typeof this; }}; return o.f(); }});"},{"name":"c","language":"cajita","source":"say(v.who()); say(v.self()); var o = {who: v.who}; o.who();","grants":[{"name":"v","module":"v"}]}]}
⇒
group v c
load v return record v#32
say c "undefined"
say c "object"
load c return "undefined"
html 0

end done
# an object of Valija shows a stranger its own keys and none that it inherits
page
{"version":1,"modules":[{"name":"v","language":"valija","source":"function A() { this.own = 1; } A.prototype.inherited = 2; A.prototype.f = function () { return this.inherited; }; new A();"},{"name":"c","language":"cajita","source":"var t = ''; for (var k in v) { t += k; } say(t); say(typeof v.inherited); v.own;","grants":[{"name":"v","module":"v"}]}]}
⇒
group v c
load v return record v#33
say c "own"
say c "undefined"
load c return 1
html 0

end done
# a stranger's record is read, written and gone over by Valija
page
{"version":1,"modules":[{"name":"c","language":"cajita","source":"({a: 1, b: {c: 2}});"},{"name":"v","language":"valija","source":"c.a += 5; c.d = c.b.c; delete c.b; var t = ''; for (var k in c) { t += k + c[k]; } t;","grants":[{"name":"c","module":"c"}]}]}
⇒
group c v
load c return record c#1
load v return "a6d2"
html 0

end done
# two modules of Valija have names of their own, though nothing declares them
page
{"version":1,"modules":[{"name":"a","language":"valija","source":"x = 'a'; ({x: function () { return x; }});"},{"name":"b","language":"valija","source":"x = 'b'; say(a.x()); x;","grants":[{"name":"a","module":"a"}]}]}
⇒
group a b
load a return record a#27
say b "a"
load b return "b"
html 0

end done
# two modules of Valija have preludes of their own: a function of the one is a stranger's function to the other
page
{"version":1,"modules":[{"name":"a","language":"valija","source":"function P(x) { this.x = x; } P.prototype.k = 'inherited'; P;"},{"name":"b","language":"valija","source":"say(typeof a); var p = a(3); say(typeof p); typeof a.prototype;","grants":[{"name":"a","module":"a"}]}]}
⇒
group a b
load a return function a#23
say b "function"
load b throw error a#30 TypeError "no object"
html 0

end done
# `new` of a stranger's function hands on one argument
page
{"version":1,"modules":[{"name":"c","language":"cajita","source":"(function (a, b) { return [a, typeof b]; });"},{"name":"v","language":"valija","source":"var e; try { new c('one', 'two'); } catch (x) { e = x; } say(e.message); c('one', 'two').join();","grants":[{"name":"c","module":"c"}]}]}
⇒
group c v
load c return function c#0
say v "not a constructor"
load v return "one,string"
html 0

end done
# a function of Valija is passed through Cajita and comes back as itself
page
{"version":1,"modules":[{"name":"c","language":"cajita","source":"({same: function (f) { return f; }});"},{"name":"v","language":"valija","source":"function F() {} F.k = 'kept'; var g = c.same(F); say(g === F); g.k;","grants":[{"name":"c","module":"c"}]}]}
⇒
group c v
load c return record c#1
say v "true"
load v return "kept"
html 0

end done
# an error that Valija throws is caught by Cajita, and the other way
page
{"version":1,"modules":[{"name":"v","language":"valija","source":"({t: function () { throw new RangeError('from v'); }, c: function (f) { try { f(); } catch (e) { return e.name + ': ' + e.message; } }});"},{"name":"c","language":"cajita","source":"try { v.t(); } catch (e) { say(e.name + ': ' + e.message); } v.c(function () { null.x; });","grants":[{"name":"v","module":"v"}]}]}
⇒
group v c
load v return record v#32
say c "RangeError: from v"
load c return "TypeError: no object"
html 0

end done
# a cell is shared by both dialects
page
{"version":1,"cells":["k"],"modules":[{"name":"v","language":"valija","source":"function Box(v) { this.v = v; } Box.prototype.put = function () { board.set(this.v); }; new Box('from v').put();","grants":[{"name":"board","cell":"k"}]},{"name":"c","language":"cajita","source":"say(board.get()); board.set('from c');","grants":[{"name":"board","cell":"k"}]},{"name":"w","language":"valija","source":"board.get();","grants":[{"name":"board","cell":"k"}]}]}
⇒
group v c w
load v return undefined
say c "from v"
load c return undefined
load w return "from c"
html 0

end done
# events call functions of Valija, which keep their state
page
{"version":1,"modules":[{"name":"v","language":"valija","source":"function Counter() { this.n = 0; } Counter.prototype.add = function (k) { this.n += k; return this.n; }; var c = new Counter(); ({add: function (k) { return c.add(k); }, args: function () { return arguments.length; }});"}],"events":[{"call":"v","key":"add","args":[2]},{"call":"v","key":"add","args":[5]},{"call":"v","key":"args","args":[1,"x",null]},{"call":"v","key":"none"}]}
⇒
group v
load v return record v#47
event 0 call v "add" return 2
event 1 call v "add" return 7
event 2 call v "args" return 3
event 3 call v "none" throw error v#65 TypeError "not a function"
html 0

end done
# functions of Valija wait for a tick
page
{"version":1,"modules":[{"name":"v","language":"valija","source":"var n = 0; later(function () { n++; say('first ' + n); later(function () { say('then ' + n); }); }); n;"}],"events":[{"tick":"v"},{"tick":"v"},{"tick":"v"}]}
⇒
group v
load v return 0
say v "first 1"
event 0 tick v return undefined
say v "then 1"
event 1 tick v return undefined
event 2 tick v none
html 0

end done
# a module of Valija has a part of the document, and listens
page
{"version":1,"html":"<ul id=\"l\"></ul>","modules":[{"name":"v","language":"valija","source":"function List(root) { this.root = root; this.open = 0; } List.prototype.add = function (text) { var item = this.root.createElement('li'), me = this; item.setText(text); this.root.appendChild(item); this.open++; }; var list = new List(doc); list.add('buy bread'); list.add('write home'); doc.on('click', function () { list.add('clicked'); return list.open; });","grants":[{"name":"doc","root":"l"}]}],"events":[{"click":"l"}]}
⇒
group v
dom l text 1 "buy bread"
dom l append 0 1
dom l text 3 "write home"
dom l append 0 3
load v return undefined
dom l text 5 "clicked"
dom l append 0 5
event 0 click l return 3
html 69
<ul id="l"><li>buy bread</li><li>write home</li><li>clicked</li></ul>
end done
# rules of Valija refuse: a name of the prelude
page
{"version":1,"modules":[{"name":"v","language":"valija","source":"$v;"}]}
⇒
refused v valija 5 0
# each module is refused by the rules of its own dialect, the first that is
page
{"version":1,"modules":[{"name":"a","language":"valija","source":"this.x;"},{"name":"b","language":"cajita","source":"1; this;"},{"name":"c","language":"valija","source":"$v;"}]}
⇒
refused b rule 4 3
# the same source is accepted in one dialect and refused in the other
page
{"version":1,"modules":[{"name":"a","language":"valija","source":"x = 1; x + 1;"},{"name":"b","language":"cajita","source":"x = 1;"}]}
⇒
refused b rule 10 0
# a module of Valija that isn't read is refused as any other
page
{"version":1,"modules":[{"name":"v","language":"valija","source":"var a = ;"}]}
⇒
refused v read 1 8
# a module of Valija that isn't cut into tokens
page
{"version":1,"modules":[{"name":"v","language":"valija","source":"a = /b/;"}]}
⇒
refused v lex 9 4
# a grant may be read, and not written to
page
{"version":1,"modules":[{"name":"v","language":"valija","source":"k = 1;","grants":[{"name":"k","value":5}]}]}
⇒
refused v valija 12 0
# a granted name is the module's import, whatever nothing else declares
page
{"version":1,"modules":[{"name":"v","language":"valija","source":"say(typeof k); j = k + 1; j;","grants":[{"name":"k","value":5}]}]}
⇒
group v
say v "number"
load v return 6
html 0

end done
# too many open calls end the page, those of the prelude among them
page
{"version":1,"modules":[{"name":"v","language":"valija","source":"function f() { f(); } f();"}]}
⇒
group v
html 0

end depth
# steps end the page within the prelude too
page --steps 1000
{"version":1,"modules":[{"name":"v","language":"valija","source":"while (true) {}"}]}
⇒
group v
html 0

end steps
# an uncaught error of a load is told, and the page goes on
page
{"version":1,"modules":[{"name":"v","language":"valija","source":"throw 'out';"},{"name":"w","language":"valija","source":"missing;"},{"name":"x","language":"valija","source":"'fine';"}]}
⇒
group v
group w
group x
load v throw "out"
load w throw error w#22 TypeError "unbound"
load x return "fine"
html 0

end done
# `instanceof` of a built-in constructor
page
{"version":1,"modules":[{"name":"v","language":"valija","source":"var e; try { null.k; } catch (x) { e = x; } say(e instanceof TypeError); say(e instanceof Error); e.name;"}]}
⇒
group v
say v "true"
say v "true"
load v return "TypeError"
html 0

end done
# `cajita` keeps its meaning
page
{"version":1,"modules":[{"name":"v","language":"valija","source":"var o = cajita.freeze({a: 1}); try { o.a = 2; } catch (e) { say(e.message); } say(cajita.isArray([])); o.a;"}]}
⇒
group v
say v "not writable"
say v "true"
load v return 1
html 0

end done
"#;

#[test]
fn strangers_in_both_dialects(rt: HostRuntime) -> Result<(), Fail> {
    check_pages(rt.alloc(), PAGES)
}

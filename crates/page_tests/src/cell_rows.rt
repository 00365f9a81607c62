//! Cells: what they are, who shares them, and what they keep.

use command_runs::page_tables::check_pages;
use std::test::Fail;

/// One module and its cells.
static ALONE: &str = r#"
# a cell is undefined until it is set
page
{"version":1,"cells":["k"],"modules":[{"name":"a","language":"cajita","source":"k.get();","grants":[{"name":"k","cell":"k"}]}]}
⇒
group a
load a return undefined
html 0

end done
# a cell is a frozen record of two functions
page
{"version":1,"cells":["k"],"modules":[{"name":"a","language":"cajita","source":"[cajita.isFrozen(k), cajita.isRecord(k), cajita.keys(k).join(), typeof k.get, typeof k.set, '' + k].join(' ');","grants":[{"name":"k","cell":"k"}]}]}
⇒
group a
load a return "true true get,set function function [object Object]"
html 0

end done
# a cell has the name that the manifest gives it
page
{"version":1,"cells":["k7"],"modules":[{"name":"a","language":"cajita","source":"box;","grants":[{"name":"box","cell":"k7"}]}]}
⇒
group a
load a return record cell:k7
html 0

end done
# and so do its functions
page
{"version":1,"cells":["k"],"modules":[
{"name":"a","language":"cajita","source":"k.get;","grants":[{"name":"k","cell":"k"}]},
{"name":"b","language":"cajita","source":"k.set;","grants":[{"name":"k","cell":"k"}]}]}
⇒
group a b
load a return function cell:k.get
load b return function cell:k.set
html 0

end done
# a write answers undefined, and keeps its first argument
page
{"version":1,"cells":["k"],"modules":[{"name":"a","language":"cajita","source":"var out = [k.set(5), k.get()]; k.set(6, 7); out.push(k.get()); k.set(); out.push(k.get()); k.set(null); out.push(k.get() === null); out.join('|');","grants":[{"name":"k","cell":"k"}]}]}
⇒
group a
load a return "|5|6||true"
html 0

end done
# nobody changes a cell but by its function
page
{"version":1,"cells":["k"],"modules":[{"name":"a","language":"cajita","source":"var out = []; function attempt(f) { try { f(); out.push('done'); } catch (e) { out.push(e.message); } } attempt(function () { k.get = null; }); attempt(function () { delete k.set; }); attempt(function () { k.value = 1; }); attempt(function () { k['get_canSet__' + '_'] = true; }); attempt(function () { k.get.value = 1; }); attempt(function () { new k.get(); }); out.join(', ');","grants":[{"name":"k","cell":"k"}]}]}
⇒
group a
load a return "not writable, not deletable, not writable, bad key, not writable, not a constructor"
html 0

end done
# its functions are called without it
page
{"version":1,"cells":["k"],"modules":[{"name":"a","language":"cajita","source":"var g = k.get, s = k.set, out = []; s(1); out.push(g()); s.call(null, 2); out.push(g.call({get: 9})); s.apply(undefined, [3]); out.push(g.apply()); out.join();","grants":[{"name":"k","cell":"k"}]}]}
⇒
group a
load a return "1,2,3"
html 0

end done
# a cell keeps itself
page
{"version":1,"cells":["k"],"modules":[{"name":"a","language":"cajita","source":"k.set(k); k.get().get() === k;","grants":[{"name":"k","cell":"k"}]}]}
⇒
group a
load a return true
html 0

end done
# two cells are two
page
{"version":1,"cells":["j","k"],"modules":[{"name":"a","language":"cajita","source":"j.set(1); k.set(2); [j.get(), k.get(), j === k].join();","grants":[{"name":"j","cell":"j"},{"name":"k","cell":"k"}]}]}
⇒
group a
load a return "1,2,false"
html 0

end done
# one cell under two names is one
page
{"version":1,"cells":["j","k"],"modules":[{"name":"a","language":"cajita","source":"x.set(1); [y.get(), x === y, x.get === y.get].join();","grants":[{"name":"x","cell":"k"},{"name":"y","cell":"k"}]}]}
⇒
group a
load a return "1,true,true"
html 0

end done
# a copy of a cell's record has its functions, and may be changed
page
{"version":1,"cells":["k"],"modules":[{"name":"a","language":"cajita","source":"var c = cajita.copy(k); c.set(4); c.get = function () { return 'mine'; }; [c.get(), k.get()].join();","grants":[{"name":"k","cell":"k"}]}]}
⇒
group a
load a return "mine,4"
html 0

end done
# nobody is granted a cell
page
{"version":1,"cells":["j","k"],"modules":[{"name":"a","language":"cajita","source":"1;"}]}
⇒
group a
load a return 1
html 0

end done
# a cell and a module may have one name
page
{"version":1,"cells":["a"],"modules":[
{"name":"a","language":"cajita","source":"a.set('kept'); 1;","grants":[{"name":"a","cell":"a"}]},
{"name":"b","language":"cajita","source":"[a, c.get()].join();","grants":[{"name":"a","module":"a"},{"name":"c","cell":"a"}]}]}
⇒
group a b
load a return 1
load b return "1,kept"
html 0

end done
"#;

/// Several modules and a cell.
static SHARED: &str = r#"
# a cell is shared by three
page
{"version":1,"cells":["k"],"modules":[
{"name":"a","language":"cajita","source":"k.set([1]);","grants":[{"name":"k","cell":"k"}]},
{"name":"b","language":"cajita","source":"k.get().push(2); k.set({list: k.get()});","grants":[{"name":"k","cell":"k"}]},
{"name":"c","language":"cajita","source":"k.get().list.join();","grants":[{"name":"k","cell":"k"}]}]}
⇒
group a b c
load a return undefined
load b return undefined
load c return "1,2"
html 0

end done
# what one event writes another reads
page
{"version":1,"cells":["k"],"modules":[
{"name":"a","language":"cajita","source":"({put: function (v) { k.set(v); }});","grants":[{"name":"k","cell":"k"}]},
{"name":"b","language":"cajita","source":"({look: function () { return k.get(); }});","grants":[{"name":"k","cell":"k"}]},
{"name":"c","language":"cajita","source":"({wipe: function () { var v = k.get(); k.set(null); return v; }});","grants":[{"name":"k","cell":"k"}]}],
"events":[{"call":"b","key":"look"},{"call":"a","key":"put","args":["x"]},{"call":"b","key":"look"},{"call":"c","key":"wipe"},{"call":"b","key":"look"}]}
⇒
group a b c
load a return record a#1
load b return record b#1
load c return record c#1
event 0 call b "look" return undefined
event 1 call a "put" return undefined
event 2 call b "look" return "x"
event 3 call c "wipe" return "x"
event 4 call b "look" return null
html 0

end done
# a function that a cell keeps runs as the module that made it
page
{"version":1,"cells":["k"],"modules":[
{"name":"a","language":"cajita","source":"var n = 0; k.set(function (x) { say('asked ' + x); n = n + x; return {total: n}; });","grants":[{"name":"k","cell":"k"}]},
{"name":"b","language":"cajita","source":"k.get()(2); k.get()(3);","grants":[{"name":"k","cell":"k"}]}]}
⇒
group a b
load a return undefined
say a "asked 2"
say a "asked 3"
load b return record a#2
html 0

end done
# what was written before a load threw stays
page
{"version":1,"cells":["k"],"modules":[
{"name":"a","language":"cajita","source":"k.set('first'); throw k.get(); k.set('second');","grants":[{"name":"k","cell":"k"}]},
{"name":"b","language":"cajita","source":"k.get();","grants":[{"name":"k","cell":"k"}]}]}
⇒
group a b
load a throw "first"
load b return "first"
html 0

end done
# a module that never used its cell reads what others wrote
page
{"version":1,"cells":["k"],"modules":[
{"name":"a","language":"cajita","source":"({now: function () { return typeof k.get(); }});","grants":[{"name":"k","cell":"k"}]},
{"name":"b","language":"cajita","source":"k.set(function () {}); 0;","grants":[{"name":"k","cell":"k"}]}],
"events":[{"call":"a","key":"now"}]}
⇒
group a b
load a return record a#1
load b return 0
event 0 call a "now" return "function"
html 0

end done
# one module hands another its way to write
page
{"version":1,"cells":["k"],"modules":[
{"name":"a","language":"cajita","source":"cajita.freeze({write: k.set});","grants":[{"name":"k","cell":"k"}]},
{"name":"b","language":"cajita","source":"out.write('by b'); out.get;","grants":[{"name":"out","module":"a"}]},
{"name":"c","language":"cajita","source":"k.get();","grants":[{"name":"k","cell":"k"}]}]}
⇒
group a b c
load a return record a#0
load b return undefined
load c return "by b"
html 0

end done
"#;

#[test]
fn a_cell_keeps_what_is_written(rt: HostRuntime) -> Result<(), Fail> {
    check_pages(rt.alloc(), ALONE)
}

#[test]
fn modules_share_a_cell(rt: HostRuntime) -> Result<(), Fail> {
    check_pages(rt.alloc(), SHARED)
}

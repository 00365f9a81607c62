//! Pages of texts that run as they stand: one global object, the imports of each, and what has no name.

use command_runs::page_tables::check_pages;
use std::test::Fail;

/// What the texts of one page share.
static GLOBALS: &str = r#"
# a variable of one text is there for the next
run
{"version":1,"modules":[
{"name":"a","language":"es3","source":"var x = 1; function f() { return x; }"},
{"name":"b","language":"es3","source":"x = x + 1; f();"},
{"name":"c","language":"es3","source":"this.x;"}]}
⇒
group a
group b
group c
load a return undefined
load b return 2
load c return 2
html 0

end done
# and so is what was changed of prototypes and global names
run
{"version":1,"modules":[
{"name":"a","language":"es3","source":"Object.prototype.y = 5; delete Array;"},
{"name":"b","language":"es3","source":"[({}).y, typeof Array].join();"}]}
⇒
group a
group b
load a return true
load b return "5,undefined"
html 0

end done
# a text that throws leaves what it did
run
{"version":1,"modules":[
{"name":"a","language":"es3","source":"var x = 1; missing; x = 2;"},
{"name":"b","language":"es3","source":"x;"}]}
⇒
group a
group b
load a throw error ? TypeError "unbound"
load b return 1
html 0

end done
"#;

/// The imports of a text.
static IMPORTS: &str = r#"
# the fixed names, and then the grants as they are listed
run
{"version":1,"cells":["k"],"modules":[
{"name":"a","language":"es3","source":"7;"},
{"name":"b","language":"es3","source":"___.loadModule(function (___, IMPORTS___) { var names = []; for (var name in IMPORTS___) names.push(name); return names.join() + ' ' + [IMPORTS___.y, IMPORTS___.a, typeof IMPORTS___.k.get].join(); });","grants":[{"name":"y","value":null},{"name":"a","module":"a"},{"name":"k","cell":"k"}]}]}
⇒
group a b
load a return 7
load b return "undefined,cajita,Math,Error,TypeError,RangeError,Number,String,Boolean,say,later,y,a,k ,7,function"
html 0

end done
# one object of imports for each text
run
{"version":1,"modules":[
{"name":"a","language":"es3","source":"___.loadModule(function (___, IMPORTS___) { IMPORTS___.z = 5; }); ___.loadModule(function (___, IMPORTS___) { return IMPORTS___.z; });"},
{"name":"b","language":"es3","source":"___.loadModule(function (___, IMPORTS___) { return IMPORTS___.z; });"}]}
⇒
group a
group b
load a return 5
load b return undefined
html 0

end done
# each text has its own say
run
{"version":1,"modules":[
{"name":"a","language":"es3","source":"___.loadModule(function (___, IMPORTS___) { IMPORTS___.say('of a'); return IMPORTS___.say; });"},
{"name":"b","language":"es3","source":"___.loadModule(function (___, IMPORTS___) { IMPORTS___.say('of b'); IMPORTS___.tell('by b'); return IMPORTS___.later; });","grants":[{"name":"tell","module":"a"}]}]}
⇒
group a b
say a "of a"
load a return function a!say
say b "of b"
say a "by b"
load b return function b!later
html 0

end done
"#;

/// Results, events and ticks of texts.
static EVENTS: &str = r#"
# an object without a name, and functions that no module may use
run
{"version":1,"modules":[
{"name":"a","language":"es3","source":"({f: function () { return 1; }});"},
{"name":"b","language":"es3","source":"[1];"},
{"name":"c","language":"es3","source":"(function () { return 1; });"}],
"events":[{"call":"a","key":"f"},{"call":"b","key":"join"},{"call":"c","key":"call"}]}
⇒
group a
group b
group c
load a return record ?
load b return array ?
load c return function ?
event 0 call a "f" throw error a#0 TypeError "not a function"
event 1 call b "join" return "1"
event 2 call c "call" throw error c#0 TypeError "not a function"
html 0

end done
# a function that is marked is called as a method of the result
run
{"version":1,"modules":[{"name":"m","language":"es3","source":"var n = 'global'; ({n: 'own', f: ___.func(function (x) { return this.n + ' ' + x + ' ' + arguments.length; })});"}],
"events":[{"call":"m","key":"f","args":["x",2]},{"call":"m","key":"n"}]}
⇒
group m
load m return record ?
event 0 call m "f" return "own x 2"
event 1 call m "n" throw error m#1 TypeError "not a function"
html 0

end done
# a marked function waits, and another doesn't
run
{"version":1,"modules":[{"name":"m","language":"es3","source":"___.loadModule(function (___, IMPORTS___) { IMPORTS___.later(___.func(function () { return {}; })); try { IMPORTS___.later(function () {}); } catch (e) { return e.message; } });"}],
"events":[{"tick":"m"},{"tick":"m"}]}
⇒
group m
load m return "bad argument"
event 0 tick m return record ?
event 1 tick m none
html 0

end done
# what the interpreter throws has no name, and what a guard throws has one
run
{"version":1,"modules":[{"name":"m","language":"es3","source":"___.loadModule(function (___, IMPORTS___) { return ___.initializeMap(['f', ___.func(function () { missing; }), 'g', ___.func(function () { ___.readPub(null, 'x'); }), 'h', ___.func(function () { throw {}; })]); });"}],
"events":[{"call":"m","key":"f"},{"call":"m","key":"g"},{"call":"m","key":"h"},{"call":"m","key":"i"}]}
⇒
group m
load m return record m#3
event 0 call m "f" throw error ? TypeError "unbound"
event 1 call m "g" throw error m#4 TypeError "no object"
event 2 call m "h" throw record ?
event 3 call m "i" throw error m#5 TypeError "not a function"
html 0

end done
"#;

#[test]
fn the_texts_of_a_page_share_their_global_object(rt: HostRuntime) -> Result<(), Fail> {
    check_pages(rt.alloc(), GLOBALS)
}

#[test]
fn each_text_has_its_imports(rt: HostRuntime) -> Result<(), Fail> {
    check_pages(rt.alloc(), IMPORTS)
}

#[test]
fn events_call_what_is_marked(rt: HostRuntime) -> Result<(), Fail> {
    check_pages(rt.alloc(), EVENTS)
}

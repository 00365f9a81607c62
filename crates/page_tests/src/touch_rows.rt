//! What modules touch: a line for each operation where it is asked for, none where it isn't, before its outcome is known.

use caja_cli::Status;
use command_runs::page_tables::check_pages;
use command_runs::tables::check_logs;
use std::test::Fail;

/// Words, sources and logs: an operation on an object.
static OPERATIONS: &str = r#"
solo --touch ⇒ ({x: 1}).x; ⇒ touch main get main#0 "x"¦load main return 1¦end done
solo --touch ⇒ ({}).x; ⇒ touch main get main#0 "x"¦load main return undefined¦end done
solo --touch ⇒ ({x: 1}).x = 2; ⇒ touch main set main#0 "x"¦load main return 2¦end done
solo --touch ⇒ delete ({x: 1}).x; ⇒ touch main delete main#0 "x"¦load main return true¦end done
solo --touch ⇒ delete ({}).x; ⇒ touch main delete main#0 "x"¦load main return true¦end done
solo --touch ⇒ 'x' in {x: 1}; ⇒ touch main has main#0 "x"¦load main return true¦end done
solo --touch ⇒ for (var k in {x: 1, y: 2}) ; ⇒ touch main keys main#0¦touch main has main#0 "x"¦touch main has main#0 "y"¦load main return undefined¦end done
solo --touch ⇒ for (var k in {}) ; ⇒ touch main keys main#0¦load main return undefined¦end done
solo --touch ⇒ function f() {} f(); ⇒ touch main call main#0¦load main return undefined¦end done
solo --touch ⇒ new Error('m'); ⇒ touch main new !Error¦load main return error main#0 Error "m"¦end done
solo --touch ⇒ Error('m'); ⇒ touch main call !Error¦load main return error main#0 Error "m"¦end done
solo --touch ⇒ ({f: function () { return 5; }}).f(); ⇒ touch main get main#1 "f"¦touch main call main#0¦load main return 5¦end done
solo --touch ⇒ var o = {n: 1}; o.n += 2; ⇒ touch main get main#0 "n"¦touch main set main#0 "n"¦load main return 3¦end done
solo --touch ⇒ var o = {n: 1}; o.n++; ⇒ touch main get main#0 "n"¦touch main set main#0 "n"¦load main return 1¦end done
solo --touch ⇒ var o = {n: 1}; --o['n']; ⇒ touch main get main#0 "n"¦touch main set main#0 "n"¦load main return 0¦end done
solo --touch ⇒ [7][0]; ⇒ touch main get main#0 "0"¦load main return 7¦end done
solo --touch ⇒ [7].length; ⇒ touch main get main#0 "length"¦load main return 1¦end done
solo --touch ⇒ var a = []; a[0] = 7; ⇒ touch main set main#0 "0"¦load main return 7¦end done
solo --touch ⇒ [1, 2].join(); ⇒ touch main get main#0 "join"¦touch main call !array.join¦load main return "1,2"¦end done
solo --touch ⇒ for (var k in [7, 8]) ; ⇒ touch main keys main#0¦touch main has main#0 "0"¦touch main has main#0 "1"¦load main return undefined¦end done
solo --touch ⇒ Math.max(1, 2); ⇒ touch main get !Math "max"¦touch main call !Math.max¦load main return 2¦end done
solo --touch ⇒ Math.abs.x; ⇒ touch main get !Math "abs"¦touch main get !Math.abs "x"¦load main return undefined¦end done
solo --touch ⇒ for (var k in Math.abs) ; ⇒ touch main get !Math "abs"¦touch main keys !Math.abs¦load main return undefined¦end done
solo --touch ⇒ new Error('m').message; ⇒ touch main new !Error¦touch main get main#0 "message"¦load main return "m"¦end done
solo --touch ⇒ say('x'); ⇒ touch main call main!say¦say main "x"¦load main return undefined¦end done
solo --touch ⇒ later(function () {}); ⇒ touch main call main!later¦load main return undefined¦end done
solo --touch ⇒ ({})[[1, 2]]; ⇒ touch main get main#0 "1,2"¦load main return undefined¦end done
solo --touch ⇒ ({'<"': 1})['<"']; ⇒ touch main get main#0 "\x3C\""¦load main return 1¦end done
solo --touch ⇒ var o = {a: 1, b: 2}; for (var k in o) delete o.b; ⇒ touch main keys main#0¦touch main has main#0 "a"¦touch main delete main#0 "b"¦touch main has main#0 "b"¦load main return undefined¦end done
solo --touch ⇒ var o = {}; for (o.k in {a: 1}) ; ⇒ touch main keys main#1¦touch main has main#1 "a"¦touch main set main#0 "k"¦load main return undefined¦end done
solo --touch ⇒ (function f(n) { return n ? f(n - 1) : 0; })(1); ⇒ touch main call main#0¦touch main call main#0¦load main return 0¦end done
solo --touch ⇒ (function () { return arguments[0]; })(5); ⇒ touch main call main#0¦touch main get main#1 "0"¦load main return 5¦end done
"#;

/// Calls that functions make for a module, and what stands before a call.
static CALLS: &str = r#"
solo --touch ⇒ var f = function (x) { return x; }; f.call(null, 5); ⇒ touch main get main#0 "call"¦touch main call !function.call¦touch main call main#0¦load main return 5¦end done
solo --touch ⇒ var f = function (x) { return x; }; f.apply(null, [5]); ⇒ touch main get main#0 "apply"¦touch main call !function.apply¦touch main call main#0¦load main return 5¦end done
solo --touch ⇒ Math.max.apply(null, [1, 2]); ⇒ touch main get !Math "max"¦touch main get !Math.max "apply"¦touch main call !function.apply¦touch main call !Math.max¦load main return 2¦end done
solo --touch ⇒ say.call(null, 'x'); ⇒ touch main get main!say "call"¦touch main call !function.call¦touch main call main!say¦say main "x"¦load main return undefined¦end done
solo --touch ⇒ String(say('x')); ⇒ touch main call main!say¦say main "x"¦touch main call !String¦load main return "undefined"¦end done
solo --touch ⇒ new Error(say('x')); ⇒ touch main call main!say¦say main "x"¦touch main new !Error¦load main return error main#0 Error ""¦end done
solo --touch ⇒ ({f: say}).f(say('x')); ⇒ touch main call main!say¦say main "x"¦touch main get main#0 "f"¦touch main call main!say¦say main "undefined"¦load main return undefined¦end done
solo --touch ⇒ function f() { return g; } function g() { return 7; } f()(); ⇒ touch main call main#0¦touch main call main#1¦load main return 7¦end done
"#;

/// What is refused is touched before.
static REFUSED: &str = r#"
solo --touch ⇒ cajita.freeze({a: 1}).a = 2; ⇒ touch main get !cajita "freeze"¦touch main call !cajita.freeze¦touch main set main#0 "a"¦load main throw error main#1 TypeError "not writable"¦end done
solo --touch ⇒ delete Math.abs; ⇒ touch main delete !Math "abs"¦load main throw error main#0 TypeError "not deletable"¦end done
solo --touch ⇒ say.x = 1; ⇒ touch main set main!say "x"¦load main throw error main#0 TypeError "not writable"¦end done
solo --touch ⇒ ({})['a__']; ⇒ touch main get main#0 "a__"¦load main return undefined¦end done
solo --touch ⇒ ({})['a__'] = 1; ⇒ touch main set main#0 "a__"¦load main throw error main#1 TypeError "bad key"¦end done
solo --touch ⇒ delete ({})['a__']; ⇒ touch main delete main#0 "a__"¦load main throw error main#1 TypeError "bad key"¦end done
solo --touch ⇒ 'a__' in {}; ⇒ touch main has main#0 "a__"¦load main return false¦end done
solo --touch ⇒ ({at: 'a'.charAt}).at(0); ⇒ touch main get main#0 "at"¦touch main call !text.charAt¦load main throw error main#1 TypeError "bad receiver"¦end done
solo --touch ⇒ cajita.freeze([1]).push(2); ⇒ touch main get !cajita "freeze"¦touch main call !cajita.freeze¦touch main get main#0 "push"¦touch main call !array.push¦load main throw error main#1 TypeError "not writable"¦end done
solo --touch ⇒ var f = function () {}; new f(); ⇒ touch main new main#0¦load main throw error main#1 TypeError "not a constructor"¦end done
solo --touch ⇒ new Math.abs(1); ⇒ touch main get !Math "abs"¦touch main new !Math.abs¦load main throw error main#0 TypeError "not a constructor"¦end done
solo --touch ⇒ cajita.copy(5); ⇒ touch main get !cajita "copy"¦touch main call !cajita.copy¦load main throw error main#0 TypeError "bad argument"¦end done
"#;

/// Among them, what ends the page.
static ENDED: &str = r#"
solo --touch ⇒ Math.abs('a'); ⇒ touch main get !Math "abs"¦touch main call !Math.abs¦end number
solo --touch ⇒ var o = {}; o.n++; ⇒ touch main get main#0 "n"¦end number
"#;

/// What is no operation on an object.
static NONE: &str = r#"
solo --touch ⇒ 'ab'.length; ⇒ load main return 2¦end done
solo --touch ⇒ 'ab'.x; ⇒ load main return undefined¦end done
solo --touch ⇒ (5).x; ⇒ load main return undefined¦end done
solo --touch ⇒ null.x; ⇒ load main throw error main#0 TypeError "no object"¦end done
solo --touch ⇒ 'ab'.x = 1; ⇒ load main throw error main#0 TypeError "not writable"¦end done
solo --touch ⇒ 'x' in 5; ⇒ load main throw error main#0 TypeError "no object"¦end done
solo --touch ⇒ for (var k in 'ab') ; ⇒ load main return undefined¦end done
solo --touch ⇒ var x = 5; x(say('no')); ⇒ load main throw error main#0 TypeError "not a function"¦end done
solo --touch ⇒ var u; new u(); ⇒ load main throw error main#0 TypeError "not a constructor"¦end done
solo --touch ⇒ 'ab'.x(); ⇒ load main throw error main#0 TypeError "not a function"¦end done
solo --touch ⇒ var p = [].push; p(say('no')); ⇒ touch main get main#0 "push"¦load main throw error main#1 TypeError "bad receiver"¦end done
solo --touch ⇒ ({f: 5}).f(); ⇒ touch main get main#0 "f"¦load main throw error main#1 TypeError "not a function"¦end done
solo --touch ⇒ ({}).f(say('yes')); ⇒ touch main call main!say¦say main "yes"¦touch main get main#0 "f"¦load main throw error main#1 TypeError "not a function"¦end done
solo --touch ⇒ ({}) === {}; ⇒ load main return false¦end done
solo --touch ⇒ typeof []; ⇒ load main return "object"¦end done
solo --touch ⇒ '' + [[1], {}]; ⇒ load main return "1,[object Object]"¦end done
solo --touch ⇒ new Error('m') instanceof Error; ⇒ touch main new !Error¦load main return true¦end done
solo --touch ⇒ cajita.keys({a: 1}); ⇒ touch main get !cajita "keys"¦touch main call !cajita.keys¦load main return array main#1¦end done
solo --touch ⇒ [{}].concat([{}]); ⇒ touch main get main#1 "concat"¦touch main call !array.concat¦load main return array main#4¦end done
solo ⇒ var o = {f: function () {}}; o.f(); o.x = 1; delete o.x; 'x' in o; for (var k in o) ; ⇒ load main return false¦end done
"#;

/// Touches of several modules, in loads, events and ticks.
static PAGES: &str = r#"
# what an event looks up and calls is no touch, and what is touched within is the module's
page --touch
{"version":1,"modules":[{"name":"m","language":"cajita","source":"var o = {n: 0}; ({f: function (x) { o.n = x; return o.n; }});"}],
"events":[{"call":"m","key":"f","args":[1]},{"call":"m","key":"g"}]}
⇒
group m
load m return record m#2
touch m set m#0 "n"
touch m get m#0 "n"
event 0 call m "f" return 1
event 1 call m "g" throw error m#3 TypeError "not a function"
html 0

end done
# a built-in function that an event calls is no touch, and what it calls is one
page --touch
{"version":1,"modules":[
{"name":"m","language":"cajita","source":"({tell: say});"},
{"name":"n","language":"cajita","source":"(function (x) { return x; });"}],
"events":[{"call":"m","key":"tell","args":["x"]},{"call":"n","key":"call","args":[null,5]}]}
⇒
group m
group n
load m return record m#0
load n return function n#0
say m "x"
event 0 call m "tell" return undefined
touch n call n#0
event 1 call n "call" return 5
html 0

end done
# a tick is none
page --touch
{"version":1,"modules":[{"name":"m","language":"cajita","source":"var o = {}; later(function () { return o.x; });"}],"events":[{"tick":"m"},{"tick":"m"}]}
⇒
group m
touch m call m!later
load m return undefined
touch m get m#0 "x"
event 0 tick m return undefined
event 1 tick m none
html 0

end done
# each touch is of the module that runs
page --touch
{"version":1,"modules":[
{"name":"a","language":"cajita","source":"var o = {x: 1}; ({o: o, f: function (g) { return g(o.x); }});"},
{"name":"b","language":"cajita","source":"var r = a.f(function (x) { return [a.o.x, x]; }); r[1];","grants":[{"name":"a","module":"a"}]}]}
⇒
group a b
load a return record a#2
touch b get a#2 "f"
touch b call a#1
touch a get a#0 "x"
touch a call b#0
touch b get a#2 "o"
touch b get a#0 "x"
touch b get b#1 "1"
load b return 1
html 0

end done
# cells
page --touch
{"version":1,"cells":["k"],"modules":[{"name":"a","language":"cajita","source":"k.set(k); 'get' in k.get(); for (var n in k) ;","grants":[{"name":"k","cell":"k"}]}]}
⇒
group a
touch a get cell:k "set"
touch a call cell:k.set
touch a get cell:k "get"
touch a call cell:k.get
touch a has cell:k "get"
touch a keys cell:k
touch a has cell:k "get"
touch a has cell:k "set"
load a return true
html 0

end done
# a turn that its budget cuts shows what it touched
page --touch --steps 1
{"version":1,"modules":[{"name":"m","language":"cajita","source":"var o = {x: 1}; ({f: function () { while (true) { o.x; } }});"}],"events":[{"call":"m","key":"f"}]}
⇒
group m
load m return record m#2
touch m get m#0 "x"
touch m get m#0 "x"
touch m get m#0 "x"
html 0

end steps
# nothing is told where it isn't asked for
page
{"version":1,"cells":["k"],"modules":[{"name":"a","language":"cajita","source":"k.set({}); k.get().x = 1;","grants":[{"name":"k","cell":"k"}]}]}
⇒
group a
load a return 1
html 0

end done
"#;

/// Touches of texts that run as they stand: what a text reads, writes or calls by itself.
static TEXTS: &str = r#"
# named objects alone, and no hidden key
run --touch
{"version":1,"modules":[{"name":"m","language":"es3","source":"___.loadModule(function (___, IMPORTS___) { var o = ___.initializeMap([\"x\", 1]), p = {x: 1}; o.x; o.y = 2; o.x += 1; o.x___; o.x___ = 1; p.x; p.y = 2; return ___.readPub(o, \"y\"); });"}]}
⇒
group m
touch m get m#0 "x"
touch m set m#0 "y"
touch m get m#0 "x"
touch m set m#0 "x"
touch m get m#0 "y"
load m return 2
html 0

end done
# calls of named functions
run --touch
{"version":1,"modules":[{"name":"m","language":"es3","source":"___.loadModule(function (___, IMPORTS___) { var f = ___.func(function () { return 1; }), g = function () { return 2; }, a = ___.initializeArray([3]); f(); g(); new f(); new g(); a.push(4); return a.join(); });"}]}
⇒
group m
touch m call m#0
touch m new m#0
touch m get m#1 "push"
touch m call !array.push
touch m get m#1 "join"
touch m call !array.join
load m return "3,4"
html 0

end done
"#;

#[test]
fn each_operation_on_an_object_is_told(rt: HostRuntime) -> Result<(), Fail> {
    check_logs(rt.alloc(), OPERATIONS, Status::Done)?;
    check_logs(rt.alloc(), CALLS, Status::Done)
}

#[test]
fn a_touch_is_told_before_its_outcome(rt: HostRuntime) -> Result<(), Fail> {
    check_logs(rt.alloc(), REFUSED, Status::Done)?;
    check_logs(rt.alloc(), ENDED, Status::Number)
}

#[test]
fn nothing_else_is_told(rt: HostRuntime) -> Result<(), Fail> {
    check_logs(rt.alloc(), NONE, Status::Done)
}

#[test]
fn a_touch_names_the_module_that_runs(rt: HostRuntime) -> Result<(), Fail> {
    check_pages(rt.alloc(), PAGES)
}

#[test]
fn a_text_touches_what_has_a_name(rt: HostRuntime) -> Result<(), Fail> {
    check_pages(rt.alloc(), TEXTS)
}

//! How pages end: faults in loads, events and ticks; and steps that are spent within a turn, or exactly between two.

use command_runs::page_tables::check_pages;
use std::test::Fail;

/// Faults of numbers, which nobody catches.
static NUMBERS: &str = r#"
# in a load: what is behind it is not loaded
page
{"version":1,"modules":[
{"name":"a","language":"cajita","source":"1;"},
{"name":"b","language":"cajita","source":"say('before'); 1 / 0; say('behind');"},
{"name":"c","language":"cajita","source":"say('never');"}],
"events":[{"tick":"a"}]}
⇒
group a
group b
group c
load a return 1
say b "before"
html 0

end number
# in an event: what was said before stays
page
{"version":1,"modules":[{"name":"m","language":"cajita","source":"({f: function (x) { say('at ' + x); return 10 / x; }});"}],
"events":[{"call":"m","key":"f","args":[5]},{"call":"m","key":"f","args":[3]},{"call":"m","key":"f","args":[2]}]}
⇒
group m
load m return record m#1
say m "at 5"
event 0 call m "f" return 2
say m "at 3"
html 0

end number
# no catch and no finally runs
page
{"version":1,"modules":[{"name":"m","language":"cajita","source":"({f: function () { try { say('in'); return 9007199254740991 + 1; } catch (e) { say('caught'); } finally { say('finally'); } }});"}],
"events":[{"call":"m","key":"f"},{"tick":"m"}]}
⇒
group m
load m return record m#1
say m "in"
html 0

end number
# in a function that waited
page
{"version":1,"modules":[{"name":"m","language":"cajita","source":"later(function () { return 1; }); later(function () { return +'a'; }); later(function () { return 3; });"}],
"events":[{"tick":"m"},{"tick":"m"},{"tick":"m"}]}
⇒
group m
load m return undefined
event 0 tick m return 1
html 0

end number
# in a built-in function that an event calls
page
{"version":1,"modules":[{"name":"m","language":"cajita","source":"Math;"}],
"events":[{"call":"m","key":"max","args":[1]},{"call":"m","key":"max"}]}
⇒
group m
load m return record !Math
event 0 call m "max" return 1
html 0

end number
# of an argument that has no number
page
{"version":1,"modules":[{"name":"m","language":"cajita","source":"Math;"}],
"events":[{"call":"m","key":"abs","args":["a"]}]}
⇒
group m
load m return record !Math
html 0

end number
# one module's fault ends the others too
page
{"version":1,"modules":[
{"name":"a","language":"cajita","source":"({f: function () { return 1; }});"},
{"name":"b","language":"cajita","source":"({f: function () { return undefined + 1; }});"}],
"events":[{"call":"a","key":"f"},{"call":"b","key":"f"},{"call":"a","key":"f"}]}
⇒
group a
group b
load a return record a#1
load b return record b#1
event 0 call a "f" return 1
html 0

end number
"#;

/// Calls that nest, and arrays that nest in a conversion.
static DEPTHS: &str = r#"
# a thousand calls are open in an event, and one more ends the page
page
{"version":1,"modules":[{"name":"m","language":"cajita","source":"function f(n) { return n === 0 ? 0 : f(n - 1); } ({f: f});"}],
"events":[{"call":"m","key":"f","args":[999]},{"call":"m","key":"f","args":[1000]},{"call":"m","key":"f","args":[1]}]}
⇒
group m
load m return record m#1
event 0 call m "f" return 0
html 0

end depth
# the body of a module is one of them
page
{"version":1,"modules":[
{"name":"a","language":"cajita","source":"function f(n) { return n === 0 ? 0 : f(n - 1); } f(998);"},
{"name":"b","language":"cajita","source":"function f(n) { return n === 0 ? 0 : f(n - 1); } f(999);"}]}
⇒
group a
group b
load a return 0
html 0

end depth
# the calls of several modules count together
page
{"version":1,"modules":[
{"name":"a","language":"cajita","source":"var other = null; ({set: function (g) { other = g; }, f: function (n) { return n === 0 ? 0 : other(n - 1); }});"},
{"name":"b","language":"cajita","source":"var g = function (n) { return n === 0 ? 0 : a.f(n - 1); }; a.set(g); ({g: g});","grants":[{"name":"a","module":"a"}]}],
"events":[{"call":"b","key":"g","args":[999]},{"call":"b","key":"g","args":[1000]}]}
⇒
group a b
load a return record a#2
load b return record b#1
event 0 call b "g" return 0
html 0

end depth
# a function that waited is one of them
page
{"version":1,"modules":[{"name":"m","language":"cajita","source":"function f(n) { return n === 0 ? 0 : f(n - 1); } later(function () { return f(998); }); later(function () { return f(999); });"}],
"events":[{"tick":"m"},{"tick":"m"}]}
⇒
group m
load m return undefined
event 0 tick m return 0
html 0

end depth
# built-in functions are none of them
page
{"version":1,"modules":[{"name":"m","language":"cajita","source":"function f(n) { return n === 0 ? 0 : f.call(null, n - 1); } ({f: f});"}],
"events":[{"call":"m","key":"f","args":[999]},{"call":"m","key":"f","args":[1000]}]}
⇒
group m
load m return record m#1
event 0 call m "f" return 0
html 0

end depth
# what is thrown from a thousand calls is caught
page
{"version":1,"modules":[{"name":"m","language":"cajita","source":"function f(n) { if (n === 0) { throw 'deep'; } return f(n - 1); } ({f: function () { try { return f(998); } catch (e) { return e; } }, g: function () { try { return f(999); } catch (e) { return e; } }});"}],
"events":[{"call":"m","key":"f"},{"call":"m","key":"g"}]}
⇒
group m
load m return record m#3
event 0 call m "f" return "deep"
html 0

end depth
# arrays nested 32 deep have a text, and nested 33 deep end the page
page
{"version":1,"modules":[{"name":"m","language":"cajita","source":"var a = ['in']; for (var i = 0; i < 31; i++) { a = [a]; } ({f: function () { return '' + a; }, g: function () { return '' + [a]; }});"}],
"events":[{"call":"m","key":"f"},{"call":"m","key":"g"}]}
⇒
group m
load m return record m#34
event 0 call m "f" return "in"
html 0

end depth
# a cell in itself by way of an array
page
{"version":1,"cells":["k"],"modules":[
{"name":"a","language":"cajita","source":"var l = []; l.push(l); k.set(l);","grants":[{"name":"k","cell":"k"}]},
{"name":"b","language":"cajita","source":"say('asking'); say(k.get());","grants":[{"name":"k","cell":"k"}]}]}
⇒
group a b
load a return undefined
say b "asking"
html 0

end depth
"#;

/// Steps of whole pages. A module of `;` alone takes nine steps and one for each; `--steps 1` gives 64.
static STEPS: &str = r#"
# two loads that take 64 steps
page --steps 1
{"version":1,"modules":[
{"name":"a","language":"cajita","source":";;;;;;;;;;;;;;;;;;;;;;;"},
{"name":"b","language":"cajita","source":";;;;;;;;;;;;;;;;;;;;;;;"}]}
⇒
group a
group b
load a return undefined
load b return undefined
html 0

end done
# the second load is a step short
page --steps 1
{"version":1,"modules":[
{"name":"a","language":"cajita","source":";;;;;;;;;;;;;;;;;;;;;;;"},
{"name":"b","language":"cajita","source":";;;;;;;;;;;;;;;;;;;;;;;;"}]}
⇒
group a
group b
load a return undefined
html 0

end steps
# the first load takes all, and the second none
page --steps 1
{"version":1,"modules":[
{"name":"a","language":"cajita","source":";;;;;;;;;;;;;;;;;;;;;;;;;;;;;;;;;;;;;;;;;;;;;;;;;;;;;;;"},
{"name":"b","language":"cajita","source":""}]}
⇒
group a
group b
load a return undefined
html 0

end steps
# the first load is a step short
page --steps 1
{"version":1,"modules":[
{"name":"a","language":"cajita","source":";;;;;;;;;;;;;;;;;;;;;;;;;;;;;;;;;;;;;;;;;;;;;;;;;;;;;;;;"},
{"name":"b","language":"cajita","source":""}]}
⇒
group a
group b
html 0

end steps
# a load of 23 steps and an event of 41
page --steps 1
{"version":1,"modules":[{"name":"m","language":"cajita","source":"({f: function () { ;;;;;;;;;;;;;;;;;;;;;;;;;;;;;;;;;;;;;;;;; }});"}],"events":[{"call":"m","key":"f"}]}
⇒
group m
load m return record m#1
event 0 call m "f" return undefined
html 0

end done
# a load of 23 steps and an event of 42
page --steps 1
{"version":1,"modules":[{"name":"m","language":"cajita","source":"({f: function () { ;;;;;;;;;;;;;;;;;;;;;;;;;;;;;;;;;;;;;;;;;; }});"}],"events":[{"call":"m","key":"f"}]}
⇒
group m
load m return record m#1
html 0

end steps
# steps are not given anew to each event
page --steps 1
{"version":1,"modules":[{"name":"m","language":"cajita","source":"({f: function () { ;;;;;;;;;;;;;;;;;;;; }});"}],"events":[{"call":"m","key":"f"},{"call":"m","key":"f"},{"call":"m","key":"f"}]}
⇒
group m
load m return record m#1
event 0 call m "f" return undefined
event 1 call m "f" return undefined
html 0

end steps
# where no step is left, what takes none is done all the same
page --steps 1
{"version":1,"modules":[{"name":"m","language":"cajita","source":"({f: function () { ;;;;;;;;;;;;;;;;;;;;;;;;;;;;;;;;;;; }, e: function () {}});"}],
"events":[{"call":"m","key":"f"},{"tick":"m"},{"call":"m","key":"g"},{"call":"m","key":"e"},{"call":"m","key":"f"},{"call":"m","key":"e"}]}
⇒
group m
load m return record m#2
event 0 call m "f" return undefined
event 1 tick m none
event 2 call m "g" throw error m#3 TypeError "not a function"
event 3 call m "e" return undefined
html 0

end steps
# a function that waits is cut
page --steps 1
{"version":1,"modules":[{"name":"m","language":"cajita","source":"later(function () { while (true) {} });"}],"events":[{"tick":"m"},{"tick":"m"}]}
⇒
group m
load m return undefined
html 0

end steps
# what a cut turn said stays
page --steps 100
{"version":1,"modules":[{"name":"m","language":"cajita","source":"({f: function () { say('begun'); try { while (true) {} } finally { say('finally'); } }});"}],"events":[{"call":"m","key":"f"},{"tick":"m"}]}
⇒
group m
load m return record m#1
say m "begun"
html 0

end steps
"#;

/// Texts that run as they stand, where each step counts by itself.
static TEXT_STEPS: &str = r#"
# four steps for two texts of two
run --steps 4
{"version":1,"modules":[{"name":"a","language":"es3","source":"1;"},{"name":"b","language":"es3","source":"2;"}]}
⇒
group a
group b
load a return 1
load b return 2
html 0

end done
# three of them: the second text is cut
run --steps 3
{"version":1,"modules":[{"name":"a","language":"es3","source":"1;"},{"name":"b","language":"es3","source":"2;"}]}
⇒
group a
group b
load a return 1
html 0

end steps
# two of them: the second text doesn't begin
run --steps 2
{"version":1,"modules":[{"name":"a","language":"es3","source":"1;"},{"name":"b","language":"es3","source":"2;"}]}
⇒
group a
group b
load a return 1
html 0

end steps
# one of them: the first text is cut
run --steps 1
{"version":1,"modules":[{"name":"a","language":"es3","source":"1;"},{"name":"b","language":"es3","source":"2;"}]}
⇒
group a
group b
html 0

end steps
# a text without statements takes no step
run --steps 2
{"version":1,"modules":[{"name":"a","language":"es3","source":""},{"name":"b","language":"es3","source":"2;"},{"name":"c","language":"es3","source":""}]}
⇒
group a
group b
group c
load a return undefined
load b return 2
load c return undefined
html 0

end done
# a load of eighteen steps, and an event of two
run --steps 20
{"version":1,"modules":[{"name":"m","language":"es3","source":"___.loadModule(function (___, IMPORTS___) { return ___.initializeMap([\"f\", ___.func(function () { 1; })]); });"}],"events":[{"call":"m","key":"f"},{"tick":"m"}]}
⇒
group m
load m return record m#1
event 0 call m "f" return undefined
event 1 tick m none
html 0

end done
# one step less
run --steps 19
{"version":1,"modules":[{"name":"m","language":"es3","source":"___.loadModule(function (___, IMPORTS___) { return ___.initializeMap([\"f\", ___.func(function () { 1; })]); });"}],"events":[{"call":"m","key":"f"},{"tick":"m"}]}
⇒
group m
load m return record m#1
html 0

end steps
# none for the event
run --steps 18
{"version":1,"modules":[{"name":"m","language":"es3","source":"___.loadModule(function (___, IMPORTS___) { return ___.initializeMap([\"f\", ___.func(function () { 1; })]); });"}],"events":[{"call":"m","key":"f"},{"tick":"m"}]}
⇒
group m
load m return record m#1
html 0

end steps
# one short of the load
run --steps 17
{"version":1,"modules":[{"name":"m","language":"es3","source":"___.loadModule(function (___, IMPORTS___) { return ___.initializeMap([\"f\", ___.func(function () { 1; })]); });"}],"events":[{"call":"m","key":"f"},{"tick":"m"}]}
⇒
group m
html 0

end steps
# a conversion that would run code ends an event
run
{"version":1,"modules":[{"name":"m","language":"es3","source":"___.loadModule(function (___, IMPORTS___) { return ___.initializeMap([\"f\", ___.func(function (x) { return {valueOf: x} + \"\"; })]); });"}],"events":[{"call":"m","key":"f","args":[1]},{"tick":"m"}]}
⇒
group m
load m return record m#1
html 0

end convert
"#;

#[test]
fn a_fault_of_numbers_ends_the_page(rt: HostRuntime) -> Result<(), Fail> {
    check_pages(rt.alloc(), NUMBERS)
}

#[test]
fn what_nests_too_deep_ends_the_page(rt: HostRuntime) -> Result<(), Fail> {
    check_pages(rt.alloc(), DEPTHS)
}

#[test]
fn a_page_has_one_budget(rt: HostRuntime) -> Result<(), Fail> {
    check_pages(rt.alloc(), STEPS)
}

#[test]
fn each_step_of_a_text_counts(rt: HostRuntime) -> Result<(), Fail> {
    check_pages(rt.alloc(), TEXT_STEPS)
}

//! Pages as the language's own description tells of them: a cell that two modules share, the texts of a page, and what is refused.

use caja_cli::Status;
use command_runs::page_tables::{check_outputs, check_pages};
use command_runs::tables::check_logs;
use std::test::Fail;

/// Two modules that share a cell and a result, with the text of each and all that they touch.
static SHARED: &str = r#"
# a cell and a result are shared, and a function waits for its turn
page --touch
{"version":1,"cells":["k"],"modules":[
{"name":"a","language":"cajita","source":"k.set({v: 1}); ({f: function (x) { return x.v; }});","grants":[{"name":"k","cell":"k"}]},
{"name":"b","language":"cajita","source":"k.get().v = 2; later(function () { return a.f(k.get()); });","grants":[{"name":"k","cell":"k"},{"name":"a","module":"a"}]}],
"events":[{"tick":"b"},{"tick":"b"}]}
⇒
module a 280
___.loadModule(function(___,IMPORTS___){var moduleResult___;var k=___.readImport(IMPORTS___,"k");moduleResult___=___.callPub(k,"set",[___.initializeMap(["v",1])]);moduleResult___=___.initializeMap(["f",___.func(function(x){return ___.readPub(x,"v");})]);return moduleResult___;});
module b 379
___.loadModule(function(___,IMPORTS___){var moduleResult___;var k=___.readImport(IMPORTS___,"k");var later=___.readImport(IMPORTS___,"later");var a=___.readImport(IMPORTS___,"a");moduleResult___=___.setPub(___.callPub(k,"get",[]),"v",2);moduleResult___=___.asSimpleFunc(later)(___.func(function(){return ___.callPub(a,"f",[___.callPub(k,"get",[])]);}));return moduleResult___;});
group a b
touch a get cell:k "set"
touch a call cell:k.set
load a return record a#2
touch b get cell:k "get"
touch b call cell:k.get
touch b set a#0 "v"
touch b call b!later
load b return undefined
touch b get cell:k "get"
touch b call cell:k.get
touch b get a#2 "f"
touch b call a#1
touch a get a#0 "v"
event 0 tick b return 2
event 1 tick b none
html 0

end done
"#;

/// A page of three modules, and the page of their texts as they stand.
static TEXTS: &str = r#"
# a counter, a module that has it, and one by itself
page
{"version":1,"modules":[
{"name":"counter","language":"cajita","source":"var n = 0; ({incr: function () { n = n + 1; return n; }});"},
{"name":"ga","language":"cajita","source":"({press: function () { return c.incr(); }});","grants":[{"name":"c","module":"counter"}]},
{"name":"gb","language":"cajita","source":"({f: function () { later(function () { say('later'); }); return 5; }});"}],
"events":[{"call":"ga","key":"press"},{"call":"gb","key":"f"},{"tick":"gb"},{"tick":"gb"}]}
⇒
module counter 176
___.loadModule(function(___,IMPORTS___){var moduleResult___;var n=0;moduleResult___=___.initializeMap(["incr",___.func(function(){n=n+1;return n;})]);return moduleResult___;});
module ga 223
___.loadModule(function(___,IMPORTS___){var moduleResult___;var c=___.readImport(IMPORTS___,"c");moduleResult___=___.initializeMap(["press",___.func(function(){return ___.callPub(c,"incr",[]);})]);return moduleResult___;});
module gb 324
___.loadModule(function(___,IMPORTS___){var moduleResult___;var later=___.readImport(IMPORTS___,"later");var say=___.readImport(IMPORTS___,"say");moduleResult___=___.initializeMap(["f",___.func(function(){___.asSimpleFunc(later)(___.func(function(){___.asSimpleFunc(say)("later");}));return 5;})]);return moduleResult___;});
group counter ga
group gb
load counter return record counter#1
load ga return record ga#1
load gb return record gb#1
event 0 call ga "press" return 1
event 1 call gb "f" return 5
say gb "later"
event 2 tick gb return undefined
event 3 tick gb none
html 0

end done
# the texts of these modules, run as they stand
run
{"version":1,"modules":[
{"name":"counter","language":"es3","source":"___.loadModule(function(___,IMPORTS___){var moduleResult___;var n=0;moduleResult___=___.initializeMap([\"incr\",___.func(function(){n=n+1;return n;})]);return moduleResult___;});"},
{"name":"ga","language":"es3","source":"___.loadModule(function(___,IMPORTS___){var moduleResult___;var c=___.readImport(IMPORTS___,\"c\");moduleResult___=___.initializeMap([\"press\",___.func(function(){return ___.callPub(c,\"incr\",[]);})]);return moduleResult___;});","grants":[{"name":"c","module":"counter"}]},
{"name":"gb","language":"es3","source":"___.loadModule(function(___,IMPORTS___){var moduleResult___;var later=___.readImport(IMPORTS___,\"later\");var say=___.readImport(IMPORTS___,\"say\");moduleResult___=___.initializeMap([\"f\",___.func(function(){___.asSimpleFunc(later)(___.func(function(){___.asSimpleFunc(say)(\"later\");}));return 5;})]);return moduleResult___;});"}],
"events":[{"call":"ga","key":"press"},{"call":"gb","key":"f"},{"tick":"gb"},{"tick":"gb"}]}
⇒
group counter ga
group gb
load counter return record counter#1
load ga return record ga#1
load gb return record gb#1
event 0 call ga "press" return 1
event 1 call gb "f" return 5
say gb "later"
event 2 tick gb return undefined
event 3 tick gb none
html 0

end done
"#;

/// A text of one module that runs as it stands: what a guard leaves on a record, and a conversion that would run code.
static MARKS: &str = r#"
# a mark stands beside a key that was read
run
{"version":1,"modules":[{"name":"m","language":"es3","source":"___.loadModule(function (___, IMPORTS___) { var o = ___.initializeMap([\"x\", 1]); var b = o.x_canRead___; ___.readPub(o, \"x\"); return [b, o.x_canRead___].join(\" \"); });"}]}
⇒
group m
load m return " true"
html 0

end done
# a conversion that would run code ends the page
run
{"version":1,"modules":[{"name":"m","language":"es3","source":"___.loadModule(function (___, IMPORTS___) { return {toString: 1} + \"\"; });"}]}
⇒
group m
html 0

end convert
"#;

/// Manifests that are refused.
static REFUSED: &str = r#"
# a manifest that breaks off
page
{"version":1
⇒
refused - page 1 0
# lists nested 128 deep
page
[[[[[[[[[[[[[[[[[[[[[[[[[[[[[[[[[[[[[[[[[[[[[[[[[[[[[[[[[[[[[[[[[[[[[[[[[[[[[[[[[[[[[[[[[[[[[[[[[[[[[[[[[[[[[[[[[[[[[[[[[[[[[[[[]]]]]]]]]]]]]]]]]]]]]]]]]]]]]]]]]]]]]]]]]]]]]]]]]]]]]]]]]]]]]]]]]]]]]]]]]]]]]]]]]]]]]]]]]]]]]]]]]]]]]]]]]]]]]]]]]]]]]]]]]]]]]]]]
⇒
refused - page 1 0
# lists nested 127 deep are read, and are no page
page
[[[[[[[[[[[[[[[[[[[[[[[[[[[[[[[[[[[[[[[[[[[[[[[[[[[[[[[[[[[[[[[[[[[[[[[[[[[[[[[[[[[[[[[[[[[[[[[[[[[[[[[[[[[[[[[[[[[[[[[[[[[[[[[]]]]]]]]]]]]]]]]]]]]]]]]]]]]]]]]]]]]]]]]]]]]]]]]]]]]]]]]]]]]]]]]]]]]]]]]]]]]]]]]]]]]]]]]]]]]]]]]]]]]]]]]]]]]]]]]]]]]]]]]]]]]]]]
⇒
refused - page 3 0
# a module that is granted a later one
page
{"version":1,"modules":[
{"name":"a","language":"cajita","source":""},
{"name":"b","language":"cajita","source":"","grants":[{"name":"c","module":"c"}]},
{"name":"c","language":"cajita","source":""}]}
⇒
refused - page 8 1
# another version
page
{"version":3,"modules":[]}
⇒
refused - page 12 0
"#;

/// Words, sources and logs of one module.
static TOUCHES: &str = "
solo --touch ⇒ var o = {x: 1}; o.x + 2; ⇒ touch main get main#0 \"x\"¦load main return 3¦end done
solo --touch ⇒ 'ab'.slice(1); ⇒ touch main call !text.slice¦load main return \"b\"¦end done
solo ⇒ var o = {x: 1}; o.x + 2; ⇒ load main return 3¦end done
";

#[test]
fn two_modules_share_a_cell_and_a_result(rt: HostRuntime) -> Result<(), Fail> {
    check_outputs(rt.alloc(), SHARED)
}

#[test]
fn the_texts_of_a_page_run_as_its_sources_do(rt: HostRuntime) -> Result<(), Fail> {
    check_outputs(rt.alloc(), TEXTS)
}

#[test]
fn a_text_sees_the_marks_of_guards(rt: HostRuntime) -> Result<(), Fail> {
    check_pages(rt.alloc(), MARKS)
}

#[test]
fn a_manifest_with_a_fault_is_refused(rt: HostRuntime) -> Result<(), Fail> {
    check_outputs(rt.alloc(), REFUSED)
}

#[test]
fn a_module_by_itself_has_its_touches(rt: HostRuntime) -> Result<(), Fail> {
    check_logs(rt.alloc(), TOUCHES, Status::Done)
}

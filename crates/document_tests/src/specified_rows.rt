//! Pages with documents as the language's own description tells of them.

use command_runs::page_tables::check_pages;
use std::test::Fail;

/// A counter that one module has behind a button, and a module by itself.
static SPECIFIED: &str = r#"
# a counter behind a button, and a module with a root of its own
page
{"version":1,"html":"<div id=\"a\"><p id=\"out\">0</p></div><div id=\"b\"></div>","modules":[
{"name":"counter","language":"cajita","source":"var n = 0; ({incr: function () { n = n + 1; return n; }});"},
{"name":"ga","language":"cajita","source":"var out = doc.getElementById('out'); out.on('click', function (n) { out.setText(c.incr()); });","grants":[{"name":"c","module":"counter"},{"name":"doc","root":"a"}]},
{"name":"gb","language":"cajita","source":"doc.appendChild(doc.createElement('b')); ({f: function () { later(function () { say('later'); }); return 5; }});","grants":[{"name":"doc","root":"b"}]}],
"events":[{"click":"out"},{"call":"gb","key":"f"},{"tick":"gb"},{"tick":"gb"}]}
⇒
group counter ga
group gb
load counter return record counter#1
load ga return undefined
dom b append 0 1
load gb return record gb#1
dom a text 1 "1"
event 0 click out return undefined
event 1 call gb "f" return 5
say gb "later"
event 2 tick gb return undefined
event 3 tick gb none
html 60
<div id="a"><p id="out">1</p></div><div id="b"><b></b></div>
end done
# one of them only says something
page
{"version":1,"html":"<div id=\"a\"><p id=\"out\">0</p></div><div id=\"b\"></div>","modules":[
{"name":"counter","language":"cajita","source":"var n = 0; ({incr: function () { n = n + 1; return n; }});"},
{"name":"ga","language":"cajita","source":"var out = doc.getElementById('out'); out.on('click', function (n) { out.setText(c.incr()); });","grants":[{"name":"c","module":"counter"},{"name":"doc","root":"a"}]},
{"name":"gb","language":"cajita","source":"say('x');","grants":[{"name":"doc","root":"b"}]}],
"events":[{"click":"out"},{"call":"gb","key":"f"},{"tick":"gb"},{"tick":"gb"}]}
⇒
group counter ga
group gb
load counter return record counter#1
load ga return undefined
say gb "x"
load gb return undefined
dom a text 1 "1"
event 0 click out return undefined
event 1 call gb "f" throw error gb#0 TypeError "no object"
event 2 tick gb none
event 3 tick gb none
html 53
<div id="a"><p id="out">1</p></div><div id="b"></div>
end done
"#;

/// The same page, of the texts of its modules.
static TEXTS: &str = r#"
# the texts of these modules, run as they stand
run
{"version":1,"html":"<div id=\"a\"><p id=\"out\">0</p></div><div id=\"b\"></div>","modules":[
{"name":"counter","language":"es3","source":"___.loadModule(function(___,IMPORTS___){var moduleResult___;var n=0;moduleResult___=___.initializeMap([\"incr\",___.func(function(){n=n+1;return n;})]);return moduleResult___;});"},
{"name":"ga","language":"es3","source":"___.loadModule(function(___,IMPORTS___){var moduleResult___;var doc=___.readImport(IMPORTS___,\"doc\");var c=___.readImport(IMPORTS___,\"c\");var out=___.callPub(doc,\"getElementById\",[\"out\"]);moduleResult___=___.callPub(out,\"on\",[\"click\",___.func(function(n){___.callPub(out,\"setText\",[___.callPub(c,\"incr\",[])]);})]);return moduleResult___;});","grants":[{"name":"c","module":"counter"},{"name":"doc","root":"a"}]},
{"name":"gb","language":"es3","source":"___.loadModule(function(___,IMPORTS___){var moduleResult___;var doc=___.readImport(IMPORTS___,\"doc\");var later=___.readImport(IMPORTS___,\"later\");var say=___.readImport(IMPORTS___,\"say\");moduleResult___=___.callPub(doc,\"appendChild\",[___.callPub(doc,\"createElement\",[\"b\"])]);moduleResult___=___.initializeMap([\"f\",___.func(function(){___.asSimpleFunc(later)(___.func(function(){___.asSimpleFunc(say)(\"later\");}));return 5;})]);return moduleResult___;});","grants":[{"name":"doc","root":"b"}]}],
"events":[{"click":"out"},{"call":"gb","key":"f"},{"tick":"gb"},{"tick":"gb"}]}
⇒
group counter ga
group gb
load counter return record counter#1
load ga return undefined
dom b append 0 1
load gb return record gb#1
dom a text 1 "1"
event 0 click out return undefined
event 1 call gb "f" return 5
say gb "later"
event 2 tick gb return undefined
event 3 tick gb none
html 60
<div id="a"><p id="out">1</p></div><div id="b"><b></b></div>
end done
"#;

/// What a module touches of its nodes.
static TOUCHES: &str = r#"
# each touch of a node is told
page --touch
{"version":1,"html":"<div id=\"b\"></div>","modules":[
{"name":"gb","language":"cajita","source":"doc.appendChild(doc.createElement('b'));","grants":[{"name":"doc","root":"b"}]}]}
⇒
group gb
touch gb get node:b/0 "createElement"
touch gb call !node.createElement
touch gb get node:b/0 "appendChild"
touch gb call !node.appendChild
dom b append 0 1
load gb return node node:b/1
html 25
<div id="b"><b></b></div>
end done
"#;

/// Roots one inside the other.
static OVERLAPS: &str = r#"
# a root inside one that another module was granted
page
{"version":1,"html":"<div id=\"a\"><p id=\"b\"></p></div>","modules":[
{"name":"m","language":"cajita","source":"","grants":[{"name":"doc","root":"a"}]},
{"name":"n","language":"cajita","source":"","grants":[{"name":"doc","root":"b"}]}]}
⇒
refused - page 9 1
# a root around one that another module was granted
page
{"version":1,"html":"<div id=\"a\"><p id=\"b\"></p></div>","modules":[
{"name":"m","language":"cajita","source":"","grants":[{"name":"doc","root":"b"}]},
{"name":"n","language":"cajita","source":"","grants":[{"name":"doc","root":"a"}]}]}
⇒
refused - page 9 1
# two roots of one module, one inside the other
page
{"version":1,"html":"<div id=\"a\"><p id=\"b\"></p></div>","modules":[
{"name":"m","language":"cajita","source":"","grants":[{"name":"x","root":"a"},{"name":"y","root":"b"}]}]}
⇒
refused - page 9 0
"#;

/// A module with a root, or with two.
static SHORT: &str = r#"
# a granted root has no parent
page
{"version":1,"html":"<div><p id=\"a\"></p></div>","modules":[
{"name":"m","language":"cajita","source":"doc.getParentNode();","grants":[{"name":"doc","root":"a"}]}]}
⇒
group m
load m return null
html 25
<div><p id="a"></p></div>
end done
# an id is set by nobody
page
{"version":1,"html":"<p id=\"a\"></p>","modules":[
{"name":"m","language":"cajita","source":"doc.setAttribute('id', 'x');","grants":[{"name":"doc","root":"a"}]}]}
⇒
group m
load m throw error m#0 TypeError "not allowed"
html 14
<p id="a"></p>
end done
# no root goes into another one
page
{"version":1,"html":"<div id=\"a\"></div><div id=\"b\"></div>","modules":[
{"name":"m","language":"cajita","source":"a.appendChild(b);","grants":[{"name":"a","root":"a"},{"name":"b","root":"b"}]}]}
⇒
group m
load m throw error m#0 TypeError "other root"
html 36
<div id="a"></div><div id="b"></div>
end done
# references are read, and the characters written
page
{"version":1,"html":"&copy;&eacute;","modules":[
]}
⇒
html 4
©é
end done
"#;

#[test]
fn a_counter_is_clicked(rt: HostRuntime) -> Result<(), Fail> {
    check_pages(rt.alloc(), SPECIFIED)
}

#[test]
fn the_texts_of_a_page_with_a_document_run_as_its_sources_do(rt: HostRuntime) -> Result<(), Fail> {
    check_pages(rt.alloc(), TEXTS)
}

#[test]
fn touches_of_nodes_are_told(rt: HostRuntime) -> Result<(), Fail> {
    check_pages(rt.alloc(), TOUCHES)
}

#[test]
fn roots_are_apart(rt: HostRuntime) -> Result<(), Fail> {
    check_pages(rt.alloc(), OVERLAPS)
}

#[test]
fn a_root_is_as_it_is_specified(rt: HostRuntime) -> Result<(), Fail> {
    check_pages(rt.alloc(), SHORT)
}

//! Clicks on elements, and texts that are put into them.

use command_runs::page_tables::check_pages;
use std::test::Fail;

/// What is called, in which order, and what is written.
static EVENTS: &str = r#"
# no function listens
page
{"version":1,"html":"<div id=\"r\"><p id=\"p\">0</p><input id=\"i\" value=\"v\"><input id=\"j\"></div><p id=\"s\"></p>","modules":[
{"name":"m","language":"cajita","source":"","grants":[{"name":"doc","root":"r"}]}],
"events":[{"click":"p"},{"input":"i","text":"w"}]}
⇒
group m
load m return undefined
event 0 click p none
event 1 input i none
html 85
<div id="r"><p id="p">0</p><input id="i" value="w"><input id="j"></div><p id="s"></p>
end done
# functions are called in the order in which they were registered, with the node
page
{"version":1,"html":"<div id=\"r\"><p id=\"p\">0</p><input id=\"i\" value=\"v\"><input id=\"j\"></div><p id=\"s\"></p>","modules":[
{"name":"m","language":"cajita","source":"var p = doc.getElementById('p'); p.on('click', function (n) { say('a ' + (n === p) + ' ' + arguments.length); return 1; }); p.on('click', function () { say('b'); throw 2; }); p.on('click', function () { say('c'); });","grants":[{"name":"doc","root":"r"}]}],
"events":[{"click":"p"}]}
⇒
group m
load m return undefined
say m "a true 1"
event 0 click p return 1
say m "b"
event 0 click p throw 2
say m "c"
event 0 click p return undefined
html 85
<div id="r"><p id="p">0</p><input id="i" value="v"><input id="j"></div><p id="s"></p>
end done
# a function that is registered twice is called twice
page
{"version":1,"html":"<div id=\"r\"><p id=\"p\">0</p><input id=\"i\" value=\"v\"><input id=\"j\"></div><p id=\"s\"></p>","modules":[
{"name":"m","language":"cajita","source":"var f = function () { say('f'); }; doc.on('click', f); doc.on('click', f);","grants":[{"name":"doc","root":"r"}]}],
"events":[{"click":"r"}]}
⇒
group m
load m return undefined
say m "f"
event 0 click r return undefined
say m "f"
event 0 click r return undefined
html 85
<div id="r"><p id="p">0</p><input id="i" value="v"><input id="j"></div><p id="s"></p>
end done
# what a handler registers is called from the next event on
page
{"version":1,"html":"<div id=\"r\"><p id=\"p\">0</p><input id=\"i\" value=\"v\"><input id=\"j\"></div><p id=\"s\"></p>","modules":[
{"name":"m","language":"cajita","source":"var p = doc.getElementById('p'); p.on('click', function () { say('a'); p.on('click', function () { say('b'); }); });","grants":[{"name":"doc","root":"r"}]}],
"events":[{"click":"p"},{"click":"p"}]}
⇒
group m
load m return undefined
say m "a"
event 0 click p return undefined
say m "a"
event 1 click p return undefined
say m "b"
event 1 click p return undefined
html 85
<div id="r"><p id="p">0</p><input id="i" value="v"><input id="j"></div><p id="s"></p>
end done
# no node around is told
page
{"version":1,"html":"<div id=\"r\"><p id=\"p\">0</p><input id=\"i\" value=\"v\"><input id=\"j\"></div><p id=\"s\"></p>","modules":[
{"name":"m","language":"cajita","source":"doc.on('click', function () { say('r'); }); doc.getElementById('p').on('click', function () { say('p'); });","grants":[{"name":"doc","root":"r"}]}],
"events":[{"click":"p"},{"click":"r"}]}
⇒
group m
load m return undefined
say m "p"
event 0 click p return undefined
say m "r"
event 1 click r return undefined
html 85
<div id="r"><p id="p">0</p><input id="i" value="v"><input id="j"></div><p id="s"></p>
end done
# a removed node is told, and one that lost its text
page
{"version":1,"html":"<div id=\"r\"><p id=\"p\">0</p><input id=\"i\" value=\"v\"><input id=\"j\"></div><p id=\"s\"></p>","modules":[
{"name":"m","language":"cajita","source":"var p = doc.getElementById('p'); p.on('click', function (n) { say(n.getText()); }); doc.removeChild(p);","grants":[{"name":"doc","root":"r"}]}],
"events":[{"click":"p"}]}
⇒
group m
dom r remove 0 1
load m return node node:r/1
say m "0"
event 0 click p return undefined
html 70
<div id="r"><input id="i" value="v"><input id="j"></div><p id="s"></p>
end done
# a text is put into its own element, and written nowhere else
page
{"version":1,"html":"<div id=\"r\"><p id=\"p\">0</p><input id=\"i\" value=\"v\"><input id=\"j\"></div><p id=\"s\"></p>","modules":[
{"name":"m","language":"cajita","source":"var i = doc.getElementById('i'), j = doc.getElementById('j'); i.on('input', function (n) { say(n.getAttribute('value') + ' ' + j.getAttribute('value')); }); j.on('click', function () { say('j'); });","grants":[{"name":"doc","root":"r"}]}],
"events":[{"input":"i","text":"<\"&"},{"input":"j","text":"y"},{"click":"i"},{"click":"j"},{"input":"i","text":""}]}
⇒
group m
load m return undefined
say m "\x3C\"& null"
event 0 input i return undefined
event 1 input j none
event 2 click i none
say m "j"
event 3 click j return undefined
say m " y"
event 4 input i return undefined
html 94
<div id="r"><p id="p">0</p><input id="i" value=""><input id="j" value="y"></div><p id="s"></p>
end done
# two modules with one root are one group, and both are told
page
{"version":1,"html":"<div id=\"r\"><p id=\"p\">0</p><input id=\"i\" value=\"v\"><input id=\"j\"></div><p id=\"s\"></p>","modules":[
{"name":"m","language":"cajita","source":"doc.getElementById('p').on('click', function () { say('m'); });","grants":[{"name":"doc","root":"r"}]},
{"name":"n","language":"cajita","source":"d.getElementById('p').on('click', function () { say('n'); });","grants":[{"name":"d","root":"r"}]}],
"events":[{"click":"p"}]}
⇒
group m n
load m return undefined
load n return undefined
say m "m"
event 0 click p return undefined
say n "n"
event 0 click p return undefined
html 85
<div id="r"><p id="p">0</p><input id="i" value="v"><input id="j"></div><p id="s"></p>
end done
# a handler that another module registered acts for its own
page
{"version":1,"html":"<div id=\"r\"><p id=\"p\">0</p><input id=\"i\" value=\"v\"><input id=\"j\"></div><p id=\"s\"></p>","modules":[
{"name":"m","language":"cajita","source":"({f: function () { later(function () { say('waited'); }); }});","grants":[{"name":"doc","root":"r"}]},
{"name":"n","language":"cajita","source":"d.on('click', m.f);","grants":[{"name":"d","root":"s"},{"name":"m","module":"m"}]}],
"events":[{"click":"s"},{"tick":"m"},{"tick":"n"}]}
⇒
group m n
load m return record m#1
load n return undefined
event 0 click s return undefined
say m "waited"
event 1 tick m return undefined
event 2 tick n none
html 85
<div id="r"><p id="p">0</p><input id="i" value="v"><input id="j"></div><p id="s"></p>
end done
"#;

#[test]
fn each_event_is_told_to_those_that_listen(rt: HostRuntime) -> Result<(), Fail> {
    check_pages(rt.alloc(), EVENTS)
}

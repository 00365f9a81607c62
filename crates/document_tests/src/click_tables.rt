//! One use of clicks and inputs, and what comes of it.

use command_runs::page_tables::check_pages;
use std::test::Fail;

/// Clicks and inputs.
static EVENTS: &str = r##"
# functions are called in the order in which they were registered
page
{"version":1,"html":"<div id=\"r\" title=\"t\"><p id=\"p\" class=\"c\">one<b>two</b></p><input id=\"i\" value=\"v\"><br></div><div id=\"s\"><span id=\"q\">q</span></div>","modules":[
{"name":"m","language":"cajita","source":"var p = doc.getElementById('p'); p.on('click', function () { say(1); }); p.on('click', function () { say(2); });","grants":[{"name":"doc","root":"r"}]}],"events":[{"click":"p"}]}
⇒
group m
load m return undefined
say m "1"
event 0 click p return undefined
say m "2"
event 0 click p return undefined
html 132
<div id="r" title="t"><p id="p" class="c">one<b>two</b></p><input id="i" value="v"><br></div><div id="s"><span id="q">q</span></div>
end done
# a function that is registered twice is called twice
page
{"version":1,"html":"<div id=\"r\" title=\"t\"><p id=\"p\" class=\"c\">one<b>two</b></p><input id=\"i\" value=\"v\"><br></div><div id=\"s\"><span id=\"q\">q</span></div>","modules":[
{"name":"m","language":"cajita","source":"function f() { say('f'); } doc.on('click', f); doc.on('click', f);","grants":[{"name":"doc","root":"r"}]}],"events":[{"click":"r"}]}
⇒
group m
load m return undefined
say m "f"
event 0 click r return undefined
say m "f"
event 0 click r return undefined
html 132
<div id="r" title="t"><p id="p" class="c">one<b>two</b></p><input id="i" value="v"><br></div><div id="s"><span id="q">q</span></div>
end done
# a function is told its node
page
{"version":1,"html":"<div id=\"r\" title=\"t\"><p id=\"p\" class=\"c\">one<b>two</b></p><input id=\"i\" value=\"v\"><br></div><div id=\"s\"><span id=\"q\">q</span></div>","modules":[
{"name":"m","language":"cajita","source":"doc.on('click', function (n) { say(n === doc); });","grants":[{"name":"doc","root":"r"}]}],"events":[{"click":"r"}]}
⇒
group m
load m return undefined
say m "true"
event 0 click r return undefined
html 132
<div id="r" title="t"><p id="p" class="c">one<b>two</b></p><input id="i" value="v"><br></div><div id="s"><span id="q">q</span></div>
end done
# what is registered by a function is called from the next click on
page
{"version":1,"html":"<div id=\"r\" title=\"t\"><p id=\"p\" class=\"c\">one<b>two</b></p><input id=\"i\" value=\"v\"><br></div><div id=\"s\"><span id=\"q\">q</span></div>","modules":[
{"name":"m","language":"cajita","source":"doc.on('click', function () { say('a'); doc.on('click', function () { say('b'); }); });","grants":[{"name":"doc","root":"r"}]}],"events":[{"click":"r"},{"click":"r"}]}
⇒
group m
load m return undefined
say m "a"
event 0 click r return undefined
say m "a"
event 1 click r return undefined
say m "b"
event 1 click r return undefined
html 132
<div id="r" title="t"><p id="p" class="c">one<b>two</b></p><input id="i" value="v"><br></div><div id="s"><span id="q">q</span></div>
end done
# a click on a node isn't one on what is around it
page
{"version":1,"html":"<div id=\"r\" title=\"t\"><p id=\"p\" class=\"c\">one<b>two</b></p><input id=\"i\" value=\"v\"><br></div><div id=\"s\"><span id=\"q\">q</span></div>","modules":[
{"name":"m","language":"cajita","source":"doc.on('click', function () { say('r'); });","grants":[{"name":"doc","root":"r"}]}],"events":[{"click":"p"}]}
⇒
group m
load m return undefined
event 0 click p none
html 132
<div id="r" title="t"><p id="p" class="c">one<b>two</b></p><input id="i" value="v"><br></div><div id="s"><span id="q">q</span></div>
end done
# a click isn't an input
page
{"version":1,"html":"<div id=\"r\" title=\"t\"><p id=\"p\" class=\"c\">one<b>two</b></p><input id=\"i\" value=\"v\"><br></div><div id=\"s\"><span id=\"q\">q</span></div>","modules":[
{"name":"m","language":"cajita","source":"var i = doc.getElementById('i'); i.on('click', function () { say('click'); }); i.on('input', function () { say('input'); });","grants":[{"name":"doc","root":"r"}]}],"events":[{"click":"i"},{"input":"i","text":"w"}]}
⇒
group m
load m return undefined
say m "click"
event 0 click i return undefined
say m "input"
event 1 input i return undefined
html 132
<div id="r" title="t"><p id="p" class="c">one<b>two</b></p><input id="i" value="w"><br></div><div id="s"><span id="q">q</span></div>
end done
# a text that is put in is the value when the function is told
page
{"version":1,"html":"<div id=\"r\" title=\"t\"><p id=\"p\" class=\"c\">one<b>two</b></p><input id=\"i\" value=\"v\"><br></div><div id=\"s\"><span id=\"q\">q</span></div>","modules":[
{"name":"m","language":"cajita","source":"var i = doc.getElementById('i'); i.on('input', function (n) { say(n.getAttribute('value')); });","grants":[{"name":"doc","root":"r"}]}],"events":[{"input":"i","text":"w"},{"input":"i","text":""}]}
⇒
group m
load m return undefined
say m "w"
event 0 input i return undefined
say m ""
event 1 input i return undefined
html 131
<div id="r" title="t"><p id="p" class="c">one<b>two</b></p><input id="i" value=""><br></div><div id="s"><span id="q">q</span></div>
end done
# a text is put in where nobody listens
page
{"version":1,"html":"<div id=\"r\" title=\"t\"><p id=\"p\" class=\"c\">one<b>two</b></p><input id=\"i\" value=\"v\"><br></div><div id=\"s\"><span id=\"q\">q</span></div>","modules":[
{"name":"m","language":"cajita","source":"doc.getTagName();","grants":[{"name":"doc","root":"r"}]}],"events":[{"input":"i","text":"w"}]}
⇒
group m
load m return "div"
event 0 input i none
html 132
<div id="r" title="t"><p id="p" class="c">one<b>two</b></p><input id="i" value="w"><br></div><div id="s"><span id="q">q</span></div>
end done
# a node that was taken away is clicked still
page
{"version":1,"html":"<div id=\"r\" title=\"t\"><p id=\"p\" class=\"c\">one<b>two</b></p><input id=\"i\" value=\"v\"><br></div><div id=\"s\"><span id=\"q\">q</span></div>","modules":[
{"name":"m","language":"cajita","source":"var p = doc.getElementById('p'); p.on('click', function () { say('p'); }); doc.removeChild(p);","grants":[{"name":"doc","root":"r"}]}],"events":[{"click":"p"}]}
⇒
group m
dom r remove 0 1
load m return node node:r/1
say m "p"
event 0 click p return undefined
html 95
<div id="r" title="t"><input id="i" value="v"><br></div><div id="s"><span id="q">q</span></div>
end done
# a node that was moved is clicked
page
{"version":1,"html":"<div id=\"r\" title=\"t\"><p id=\"p\" class=\"c\">one<b>two</b></p><input id=\"i\" value=\"v\"><br></div><div id=\"s\"><span id=\"q\">q</span></div>","modules":[
{"name":"m","language":"cajita","source":"var p = doc.getElementById('p'); p.on('click', function () { say('p'); }); var d = doc.createElement('div'); doc.appendChild(d); d.appendChild(p);","grants":[{"name":"doc","root":"r"}]}],"events":[{"click":"p"}]}
⇒
group m
dom r append 0 7
dom r append 7 1
load m return node node:r/1
say m "p"
event 0 click p return undefined
html 143
<div id="r" title="t"><input id="i" value="v"><br><div><p id="p" class="c">one<b>two</b></p></div></div><div id="s"><span id="q">q</span></div>
end done
# what a function throws is told, and the next one is called
page
{"version":1,"html":"<div id=\"r\" title=\"t\"><p id=\"p\" class=\"c\">one<b>two</b></p><input id=\"i\" value=\"v\"><br></div><div id=\"s\"><span id=\"q\">q</span></div>","modules":[
{"name":"m","language":"cajita","source":"doc.on('click', function () { throw 'x'; }); doc.on('click', function () { say(2); });","grants":[{"name":"doc","root":"r"}]}],"events":[{"click":"r"}]}
⇒
group m
load m return undefined
event 0 click r throw "x"
say m "2"
event 0 click r return undefined
html 132
<div id="r" title="t"><p id="p" class="c">one<b>two</b></p><input id="i" value="v"><br></div><div id="s"><span id="q">q</span></div>
end done
# a function may take its own node away
page
{"version":1,"html":"<div id=\"r\" title=\"t\"><p id=\"p\" class=\"c\">one<b>two</b></p><input id=\"i\" value=\"v\"><br></div><div id=\"s\"><span id=\"q\">q</span></div>","modules":[
{"name":"m","language":"cajita","source":"var p = doc.getElementById('p'); p.on('click', function (n) { doc.removeChild(n); });","grants":[{"name":"doc","root":"r"}]}],"events":[{"click":"p"},{"click":"p"}]}
⇒
group m
load m return undefined
dom r remove 0 1
event 0 click p return undefined
event 1 click p throw error m#1 TypeError "bad argument"
html 95
<div id="r" title="t"><input id="i" value="v"><br></div><div id="s"><span id="q">q</span></div>
end done
# clicks count
page
{"version":1,"html":"<div id=\"r\" title=\"t\"><p id=\"p\" class=\"c\">one<b>two</b></p><input id=\"i\" value=\"v\"><br></div><div id=\"s\"><span id=\"q\">q</span></div>","modules":[
{"name":"m","language":"cajita","source":"var n = 0; doc.on('click', function () { n = n + 1; doc.setAttribute('title', n); });","grants":[{"name":"doc","root":"r"}]}],"events":[{"click":"r"},{"click":"r"},{"click":"r"}]}
⇒
group m
load m return undefined
dom r set 0 "title" "1"
event 0 click r return undefined
dom r set 0 "title" "2"
event 1 click r return undefined
dom r set 0 "title" "3"
event 2 click r return undefined
html 132
<div id="r" title="3"><p id="p" class="c">one<b>two</b></p><input id="i" value="v"><br></div><div id="s"><span id="q">q</span></div>
end done
# nobody listens
page
{"version":1,"html":"<div id=\"r\" title=\"t\"><p id=\"p\" class=\"c\">one<b>two</b></p><input id=\"i\" value=\"v\"><br></div><div id=\"s\"><span id=\"q\">q</span></div>","modules":[
{"name":"m","language":"cajita","source":"doc.getTagName();","grants":[{"name":"doc","root":"r"}]}],"events":[{"click":"r"},{"click":"p"}]}
⇒
group m
load m return "div"
event 0 click r none
event 1 click p none
html 132
<div id="r" title="t"><p id="p" class="c">one<b>two</b></p><input id="i" value="v"><br></div><div id="s"><span id="q">q</span></div>
end done
# a function is called later for its module
page
{"version":1,"html":"<div id=\"r\" title=\"t\"><p id=\"p\" class=\"c\">one<b>two</b></p><input id=\"i\" value=\"v\"><br></div><div id=\"s\"><span id=\"q\">q</span></div>","modules":[
{"name":"m","language":"cajita","source":"doc.on('click', function () { later(function () { say('later'); }); });","grants":[{"name":"doc","root":"r"}]}],"events":[{"click":"r"},{"tick":"m"}]}
⇒
group m
load m return undefined
event 0 click r return undefined
say m "later"
event 1 tick m return undefined
html 132
<div id="r" title="t"><p id="p" class="c">one<b>two</b></p><input id="i" value="v"><br></div><div id="s"><span id="q">q</span></div>
end done
# a function reads an unknown key of its node
page
{"version":1,"html":"<div id=\"r\" title=\"t\"><p id=\"p\" class=\"c\">one<b>two</b></p><input id=\"i\" value=\"v\"><br></div><div id=\"s\"><span id=\"q\">q</span></div>","modules":[
{"name":"m","language":"cajita","source":"doc.on('click', function (n) { return n.x; });","grants":[{"name":"doc","root":"r"}]}],"events":[{"click":"r"}]}
⇒
group m
load m return undefined
event 0 click r return undefined
html 132
<div id="r" title="t"><p id="p" class="c">one<b>two</b></p><input id="i" value="v"><br></div><div id="s"><span id="q">q</span></div>
end done
# a function answers
page
{"version":1,"html":"<div id=\"r\" title=\"t\"><p id=\"p\" class=\"c\">one<b>two</b></p><input id=\"i\" value=\"v\"><br></div><div id=\"s\"><span id=\"q\">q</span></div>","modules":[
{"name":"m","language":"cajita","source":"doc.on('click', function () { return 7; });","grants":[{"name":"doc","root":"r"}]}],"events":[{"click":"r"}]}
⇒
group m
load m return undefined
event 0 click r return 7
html 132
<div id="r" title="t"><p id="p" class="c">one<b>two</b></p><input id="i" value="v"><br></div><div id="s"><span id="q">q</span></div>
end done
# a handler changes what another reads
page
{"version":1,"html":"<div id=\"r\" title=\"t\"><p id=\"p\" class=\"c\">one<b>two</b></p><input id=\"i\" value=\"v\"><br></div><div id=\"s\"><span id=\"q\">q</span></div>","modules":[
{"name":"m","language":"cajita","source":"doc.on('click', function (n) { n.setAttribute('title', 'u'); }); doc.on('click', function (n) { say(n.getAttribute('title')); });","grants":[{"name":"doc","root":"r"}]}],"events":[{"click":"r"}]}
⇒
group m
load m return undefined
dom r set 0 "title" "u"
event 0 click r return undefined
say m "u"
event 0 click r return undefined
html 132
<div id="r" title="u"><p id="p" class="c">one<b>two</b></p><input id="i" value="v"><br></div><div id="s"><span id="q">q</span></div>
end done
"##;

#[test]
fn clicks_and_inputs_are_told(rt: HostRuntime) -> Result<(), Fail> {
    check_pages(rt.alloc(), EVENTS)
}

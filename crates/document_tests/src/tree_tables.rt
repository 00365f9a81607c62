//! One change of where nodes stand, and what comes of it.

use command_runs::page_tables::check_pages;
use std::test::Fail;

/// Nodes that are appended, or refused.
static APPENDED: &str = r##"
# a new node is appended
page
{"version":1,"html":"<div id=\"r\" title=\"t\"><p id=\"p\" class=\"c\">one<b>two</b></p><input id=\"i\" value=\"v\"><br></div><div id=\"s\"><span id=\"q\">q</span></div>","modules":[
{"name":"m","language":"cajita","source":"doc.appendChild(doc.createElement('b')); doc.getChildNodes().length;","grants":[{"name":"doc","root":"r"}]}]}
⇒
group m
dom r append 0 7
load m return 4
html 139
<div id="r" title="t"><p id="p" class="c">one<b>two</b></p><input id="i" value="v"><br><b></b></div><div id="s"><span id="q">q</span></div>
end done
# what is appended is answered
page
{"version":1,"html":"<div id=\"r\" title=\"t\"><p id=\"p\" class=\"c\">one<b>two</b></p><input id=\"i\" value=\"v\"><br></div><div id=\"s\"><span id=\"q\">q</span></div>","modules":[
{"name":"m","language":"cajita","source":"var b = doc.createElement('b'); doc.appendChild(b) === b;","grants":[{"name":"doc","root":"r"}]}]}
⇒
group m
dom r append 0 7
load m return true
html 139
<div id="r" title="t"><p id="p" class="c">one<b>two</b></p><input id="i" value="v"><br><b></b></div><div id="s"><span id="q">q</span></div>
end done
# a child that is appended again goes last
page
{"version":1,"html":"<div id=\"r\" title=\"t\"><p id=\"p\" class=\"c\">one<b>two</b></p><input id=\"i\" value=\"v\"><br></div><div id=\"s\"><span id=\"q\">q</span></div>","modules":[
{"name":"m","language":"cajita","source":"var p = doc.getElementById('p'); doc.appendChild(p); doc.getChildNodes()[2] === p;","grants":[{"name":"doc","root":"r"}]}]}
⇒
group m
dom r append 0 1
load m return true
html 132
<div id="r" title="t"><input id="i" value="v"><br><p id="p" class="c">one<b>two</b></p></div><div id="s"><span id="q">q</span></div>
end done
# a node moves to another parent
page
{"version":1,"html":"<div id=\"r\" title=\"t\"><p id=\"p\" class=\"c\">one<b>two</b></p><input id=\"i\" value=\"v\"><br></div><div id=\"s\"><span id=\"q\">q</span></div>","modules":[
{"name":"m","language":"cajita","source":"var p = doc.getElementById('p'); var b = p.getChildNodes()[1]; doc.appendChild(b); p.getChildNodes().length;","grants":[{"name":"doc","root":"r"}]}]}
⇒
group m
dom r append 0 3
load m return 1
html 132
<div id="r" title="t"><p id="p" class="c">one</p><input id="i" value="v"><br><b>two</b></div><div id="s"><span id="q">q</span></div>
end done
# a tree that was taken away is appended again, whole
page
{"version":1,"html":"<div id=\"r\" title=\"t\"><p id=\"p\" class=\"c\">one<b>two</b></p><input id=\"i\" value=\"v\"><br></div><div id=\"s\"><span id=\"q\">q</span></div>","modules":[
{"name":"m","language":"cajita","source":"var p = doc.getElementById('p'); doc.removeChild(p); var d = doc.createElement('div'); d.appendChild(p); doc.appendChild(d); doc.getText();","grants":[{"name":"doc","root":"r"}]}]}
⇒
group m
dom r remove 0 1
dom r append 7 1
dom r append 0 7
load m return "onetwo"
html 143
<div id="r" title="t"><input id="i" value="v"><br><div><p id="p" class="c">one<b>two</b></p></div></div><div id="s"><span id="q">q</span></div>
end done
# a node isn't appended to itself
page
{"version":1,"html":"<div id=\"r\" title=\"t\"><p id=\"p\" class=\"c\">one<b>two</b></p><input id=\"i\" value=\"v\"><br></div><div id=\"s\"><span id=\"q\">q</span></div>","modules":[
{"name":"m","language":"cajita","source":"var p = doc.getElementById('p'); p.appendChild(p);","grants":[{"name":"doc","root":"r"}]}]}
⇒
group m
load m throw error m#0 TypeError "cycle"
html 132
<div id="r" title="t"><p id="p" class="c">one<b>two</b></p><input id="i" value="v"><br></div><div id="s"><span id="q">q</span></div>
end done
# a node isn't appended below itself
page
{"version":1,"html":"<div id=\"r\" title=\"t\"><p id=\"p\" class=\"c\">one<b>two</b></p><input id=\"i\" value=\"v\"><br></div><div id=\"s\"><span id=\"q\">q</span></div>","modules":[
{"name":"m","language":"cajita","source":"var p = doc.getElementById('p'); p.getChildNodes()[1].appendChild(p);","grants":[{"name":"doc","root":"r"}]}]}
⇒
group m
load m throw error m#1 TypeError "cycle"
html 132
<div id="r" title="t"><p id="p" class="c">one<b>two</b></p><input id="i" value="v"><br></div><div id="s"><span id="q">q</span></div>
end done
# a root isn't appended
page
{"version":1,"html":"<div id=\"r\" title=\"t\"><p id=\"p\" class=\"c\">one<b>two</b></p><input id=\"i\" value=\"v\"><br></div><div id=\"s\"><span id=\"q\">q</span></div>","modules":[
{"name":"m","language":"cajita","source":"var p = doc.getElementById('p'); p.appendChild(doc);","grants":[{"name":"doc","root":"r"}]}]}
⇒
group m
load m throw error m#0 TypeError "not allowed"
html 132
<div id="r" title="t"><p id="p" class="c">one<b>two</b></p><input id="i" value="v"><br></div><div id="s"><span id="q">q</span></div>
end done
# nothing is appended to a text
page
{"version":1,"html":"<div id=\"r\" title=\"t\"><p id=\"p\" class=\"c\">one<b>two</b></p><input id=\"i\" value=\"v\"><br></div><div id=\"s\"><span id=\"q\">q</span></div>","modules":[
{"name":"m","language":"cajita","source":"var p = doc.getElementById('p'); p.getChildNodes()[0].appendChild(doc.createElement('b'));","grants":[{"name":"doc","root":"r"}]}]}
⇒
group m
load m throw error m#1 TypeError "not allowed"
html 132
<div id="r" title="t"><p id="p" class="c">one<b>two</b></p><input id="i" value="v"><br></div><div id="s"><span id="q">q</span></div>
end done
# nothing is appended to a tag without content
page
{"version":1,"html":"<div id=\"r\" title=\"t\"><p id=\"p\" class=\"c\">one<b>two</b></p><input id=\"i\" value=\"v\"><br></div><div id=\"s\"><span id=\"q\">q</span></div>","modules":[
{"name":"m","language":"cajita","source":"doc.getChildNodes()[2].appendChild(doc.createElement('b'));","grants":[{"name":"doc","root":"r"}]}]}
⇒
group m
load m throw error m#1 TypeError "not allowed"
html 132
<div id="r" title="t"><p id="p" class="c">one<b>two</b></p><input id="i" value="v"><br></div><div id="s"><span id="q">q</span></div>
end done
# what is no node isn't appended
page
{"version":1,"html":"<div id=\"r\" title=\"t\"><p id=\"p\" class=\"c\">one<b>two</b></p><input id=\"i\" value=\"v\"><br></div><div id=\"s\"><span id=\"q\">q</span></div>","modules":[
{"name":"m","language":"cajita","source":"doc.appendChild('b');","grants":[{"name":"doc","root":"r"}]}]}
⇒
group m
load m throw error m#0 TypeError "bad argument"
html 132
<div id="r" title="t"><p id="p" class="c">one<b>two</b></p><input id="i" value="v"><br></div><div id="s"><span id="q">q</span></div>
end done
# nothing isn't appended
page
{"version":1,"html":"<div id=\"r\" title=\"t\"><p id=\"p\" class=\"c\">one<b>two</b></p><input id=\"i\" value=\"v\"><br></div><div id=\"s\"><span id=\"q\">q</span></div>","modules":[
{"name":"m","language":"cajita","source":"doc.appendChild(null);","grants":[{"name":"doc","root":"r"}]}]}
⇒
group m
load m throw error m#0 TypeError "bad argument"
html 132
<div id="r" title="t"><p id="p" class="c">one<b>two</b></p><input id="i" value="v"><br></div><div id="s"><span id="q">q</span></div>
end done
# a record that looks like a node isn't appended
page
{"version":1,"html":"<div id=\"r\" title=\"t\"><p id=\"p\" class=\"c\">one<b>two</b></p><input id=\"i\" value=\"v\"><br></div><div id=\"s\"><span id=\"q\">q</span></div>","modules":[
{"name":"m","language":"cajita","source":"doc.appendChild({getTagName: function () { return 'b'; }});","grants":[{"name":"doc","root":"r"}]}]}
⇒
group m
load m throw error m#2 TypeError "bad argument"
html 132
<div id="r" title="t"><p id="p" class="c">one<b>two</b></p><input id="i" value="v"><br></div><div id="s"><span id="q">q</span></div>
end done
# a child is taken away, and answered
page
{"version":1,"html":"<div id=\"r\" title=\"t\"><p id=\"p\" class=\"c\">one<b>two</b></p><input id=\"i\" value=\"v\"><br></div><div id=\"s\"><span id=\"q\">q</span></div>","modules":[
{"name":"m","language":"cajita","source":"var p = doc.getElementById('p'); doc.removeChild(p) === p;","grants":[{"name":"doc","root":"r"}]}]}
⇒
group m
dom r remove 0 1
load m return true
html 95
<div id="r" title="t"><input id="i" value="v"><br></div><div id="s"><span id="q">q</span></div>
end done
"##;

/// Nodes that are taken away, or refused.
static TAKEN: &str = r##"
# what is no child isn't taken away
page
{"version":1,"html":"<div id=\"r\" title=\"t\"><p id=\"p\" class=\"c\">one<b>two</b></p><input id=\"i\" value=\"v\"><br></div><div id=\"s\"><span id=\"q\">q</span></div>","modules":[
{"name":"m","language":"cajita","source":"var p = doc.getElementById('p'); doc.removeChild(p.getChildNodes()[1]);","grants":[{"name":"doc","root":"r"}]}]}
⇒
group m
load m throw error m#1 TypeError "bad argument"
html 132
<div id="r" title="t"><p id="p" class="c">one<b>two</b></p><input id="i" value="v"><br></div><div id="s"><span id="q">q</span></div>
end done
# a node isn't taken from itself
page
{"version":1,"html":"<div id=\"r\" title=\"t\"><p id=\"p\" class=\"c\">one<b>two</b></p><input id=\"i\" value=\"v\"><br></div><div id=\"s\"><span id=\"q\">q</span></div>","modules":[
{"name":"m","language":"cajita","source":"doc.removeChild(doc);","grants":[{"name":"doc","root":"r"}]}]}
⇒
group m
load m throw error m#0 TypeError "bad argument"
html 132
<div id="r" title="t"><p id="p" class="c">one<b>two</b></p><input id="i" value="v"><br></div><div id="s"><span id="q">q</span></div>
end done
# a node isn't taken away twice
page
{"version":1,"html":"<div id=\"r\" title=\"t\"><p id=\"p\" class=\"c\">one<b>two</b></p><input id=\"i\" value=\"v\"><br></div><div id=\"s\"><span id=\"q\">q</span></div>","modules":[
{"name":"m","language":"cajita","source":"var p = doc.getElementById('p'); doc.removeChild(p); doc.removeChild(p);","grants":[{"name":"doc","root":"r"}]}]}
⇒
group m
dom r remove 0 1
load m throw error m#0 TypeError "bad argument"
html 95
<div id="r" title="t"><input id="i" value="v"><br></div><div id="s"><span id="q">q</span></div>
end done
# what is no node isn't taken away
page
{"version":1,"html":"<div id=\"r\" title=\"t\"><p id=\"p\" class=\"c\">one<b>two</b></p><input id=\"i\" value=\"v\"><br></div><div id=\"s\"><span id=\"q\">q</span></div>","modules":[
{"name":"m","language":"cajita","source":"doc.removeChild(1);","grants":[{"name":"doc","root":"r"}]}]}
⇒
group m
load m throw error m#0 TypeError "bad argument"
html 132
<div id="r" title="t"><p id="p" class="c">one<b>two</b></p><input id="i" value="v"><br></div><div id="s"><span id="q">q</span></div>
end done
# a click is listened to
page
{"version":1,"html":"<div id=\"r\" title=\"t\"><p id=\"p\" class=\"c\">one<b>two</b></p><input id=\"i\" value=\"v\"><br></div><div id=\"s\"><span id=\"q\">q</span></div>","modules":[
{"name":"m","language":"cajita","source":"doc.on('click', function () {});","grants":[{"name":"doc","root":"r"}]}]}
⇒
group m
load m return undefined
html 132
<div id="r" title="t"><p id="p" class="c">one<b>two</b></p><input id="i" value="v"><br></div><div id="s"><span id="q">q</span></div>
end done
"##;

/// Nodes as objects, and functions that listen.
static USED: &str = r##"
# no other event is listened to
page
{"version":1,"html":"<div id=\"r\" title=\"t\"><p id=\"p\" class=\"c\">one<b>two</b></p><input id=\"i\" value=\"v\"><br></div><div id=\"s\"><span id=\"q\">q</span></div>","modules":[
{"name":"m","language":"cajita","source":"doc.on('load', function () {});","grants":[{"name":"doc","root":"r"}]}]}
⇒
group m
load m throw error m#1 TypeError "bad argument"
html 132
<div id="r" title="t"><p id="p" class="c">one<b>two</b></p><input id="i" value="v"><br></div><div id="s"><span id="q">q</span></div>
end done
# what is no function doesn't listen
page
{"version":1,"html":"<div id=\"r\" title=\"t\"><p id=\"p\" class=\"c\">one<b>two</b></p><input id=\"i\" value=\"v\"><br></div><div id=\"s\"><span id=\"q\">q</span></div>","modules":[
{"name":"m","language":"cajita","source":"doc.on('click', {});","grants":[{"name":"doc","root":"r"}]}]}
⇒
group m
load m throw error m#1 TypeError "bad argument"
html 132
<div id="r" title="t"><p id="p" class="c">one<b>two</b></p><input id="i" value="v"><br></div><div id="s"><span id="q">q</span></div>
end done
# a built-in function doesn't listen
page
{"version":1,"html":"<div id=\"r\" title=\"t\"><p id=\"p\" class=\"c\">one<b>two</b></p><input id=\"i\" value=\"v\"><br></div><div id=\"s\"><span id=\"q\">q</span></div>","modules":[
{"name":"m","language":"cajita","source":"doc.on('click', say);","grants":[{"name":"doc","root":"r"}]}]}
⇒
group m
load m throw error m#0 TypeError "bad argument"
html 132
<div id="r" title="t"><p id="p" class="c">one<b>two</b></p><input id="i" value="v"><br></div><div id="s"><span id="q">q</span></div>
end done
# a method without its node
page
{"version":1,"html":"<div id=\"r\" title=\"t\"><p id=\"p\" class=\"c\">one<b>two</b></p><input id=\"i\" value=\"v\"><br></div><div id=\"s\"><span id=\"q\">q</span></div>","modules":[
{"name":"m","language":"cajita","source":"var f = doc.getText; f();","grants":[{"name":"doc","root":"r"}]}]}
⇒
group m
load m throw error m#0 TypeError "bad receiver"
html 132
<div id="r" title="t"><p id="p" class="c">one<b>two</b></p><input id="i" value="v"><br></div><div id="s"><span id="q">q</span></div>
end done
# a method that is called on a record
page
{"version":1,"html":"<div id=\"r\" title=\"t\"><p id=\"p\" class=\"c\">one<b>two</b></p><input id=\"i\" value=\"v\"><br></div><div id=\"s\"><span id=\"q\">q</span></div>","modules":[
{"name":"m","language":"cajita","source":"({m: doc.getText}).m();","grants":[{"name":"doc","root":"r"}]}]}
⇒
group m
load m throw error m#1 TypeError "bad receiver"
html 132
<div id="r" title="t"><p id="p" class="c">one<b>two</b></p><input id="i" value="v"><br></div><div id="s"><span id="q">q</span></div>
end done
# a node has no key of its own
page
{"version":1,"html":"<div id=\"r\" title=\"t\"><p id=\"p\" class=\"c\">one<b>two</b></p><input id=\"i\" value=\"v\"><br></div><div id=\"s\"><span id=\"q\">q</span></div>","modules":[
{"name":"m","language":"cajita","source":"var t = []; for (var k in doc) { t.push(k); } t.length;","grants":[{"name":"doc","root":"r"}]}]}
⇒
group m
load m return 0
html 132
<div id="r" title="t"><p id="p" class="c">one<b>two</b></p><input id="i" value="v"><br></div><div id="s"><span id="q">q</span></div>
end done
# no key of a node is written
page
{"version":1,"html":"<div id=\"r\" title=\"t\"><p id=\"p\" class=\"c\">one<b>two</b></p><input id=\"i\" value=\"v\"><br></div><div id=\"s\"><span id=\"q\">q</span></div>","modules":[
{"name":"m","language":"cajita","source":"doc.x = 1;","grants":[{"name":"doc","root":"r"}]}]}
⇒
group m
load m throw error m#0 TypeError "not writable"
html 132
<div id="r" title="t"><p id="p" class="c">one<b>two</b></p><input id="i" value="v"><br></div><div id="s"><span id="q">q</span></div>
end done
# no method of a node is replaced
page
{"version":1,"html":"<div id=\"r\" title=\"t\"><p id=\"p\" class=\"c\">one<b>two</b></p><input id=\"i\" value=\"v\"><br></div><div id=\"s\"><span id=\"q\">q</span></div>","modules":[
{"name":"m","language":"cajita","source":"doc.getText = function () { return 'x'; };","grants":[{"name":"doc","root":"r"}]}]}
⇒
group m
load m throw error m#1 TypeError "not writable"
html 132
<div id="r" title="t"><p id="p" class="c">one<b>two</b></p><input id="i" value="v"><br></div><div id="s"><span id="q">q</span></div>
end done
# a node has no constructor
page
{"version":1,"html":"<div id=\"r\" title=\"t\"><p id=\"p\" class=\"c\">one<b>two</b></p><input id=\"i\" value=\"v\"><br></div><div id=\"s\"><span id=\"q\">q</span></div>","modules":[
{"name":"m","language":"cajita","source":"doc.constructor;","grants":[{"name":"doc","root":"r"}]}]}
⇒
group m
load m return undefined
html 132
<div id="r" title="t"><p id="p" class="c">one<b>two</b></p><input id="i" value="v"><br></div><div id="s"><span id="q">q</span></div>
end done
# a key that isn't there
page
{"version":1,"html":"<div id=\"r\" title=\"t\"><p id=\"p\" class=\"c\">one<b>two</b></p><input id=\"i\" value=\"v\"><br></div><div id=\"s\"><span id=\"q\">q</span></div>","modules":[
{"name":"m","language":"cajita","source":"doc.innerHTML;","grants":[{"name":"doc","root":"r"}]}]}
⇒
group m
load m return undefined
html 132
<div id="r" title="t"><p id="p" class="c">one<b>two</b></p><input id="i" value="v"><br></div><div id="s"><span id="q">q</span></div>
end done
# a node is an object
page
{"version":1,"html":"<div id=\"r\" title=\"t\"><p id=\"p\" class=\"c\">one<b>two</b></p><input id=\"i\" value=\"v\"><br></div><div id=\"s\"><span id=\"q\">q</span></div>","modules":[
{"name":"m","language":"cajita","source":"typeof doc;","grants":[{"name":"doc","root":"r"}]}]}
⇒
group m
load m return "object"
html 132
<div id="r" title="t"><p id="p" class="c">one<b>two</b></p><input id="i" value="v"><br></div><div id="s"><span id="q">q</span></div>
end done
# two names of one node are one object
page
{"version":1,"html":"<div id=\"r\" title=\"t\"><p id=\"p\" class=\"c\">one<b>two</b></p><input id=\"i\" value=\"v\"><br></div><div id=\"s\"><span id=\"q\">q</span></div>","modules":[
{"name":"m","language":"cajita","source":"[doc, doc.getElementById('r')].length + ' ' + (doc === doc.getElementById('r'));","grants":[{"name":"doc","root":"r"}]}]}
⇒
group m
load m return "2 true"
html 132
<div id="r" title="t"><p id="p" class="c">one<b>two</b></p><input id="i" value="v"><br></div><div id="s"><span id="q">q</span></div>
end done
# no argument is undefined, which is set as its text
page
{"version":1,"html":"<div id=\"r\" title=\"t\"><p id=\"p\" class=\"c\">one<b>two</b></p><input id=\"i\" value=\"v\"><br></div><div id=\"s\"><span id=\"q\">q</span></div>","modules":[
{"name":"m","language":"cajita","source":"doc.setAttribute('title');","grants":[{"name":"doc","root":"r"}]}]}
⇒
group m
dom r set 0 "title" "undefined"
load m return undefined
html 140
<div id="r" title="undefined"><p id="p" class="c">one<b>two</b></p><input id="i" value="v"><br></div><div id="s"><span id="q">q</span></div>
end done
"##;

/// Nodes of two roots, which one module has.
static ROOTS: &str = r##"
# a node of another root isn't appended
page
{"version":1,"html":"<div id=\"r\" title=\"t\"><p id=\"p\" class=\"c\">one<b>two</b></p><input id=\"i\" value=\"v\"><br></div><div id=\"s\"><span id=\"q\">q</span></div>","modules":[
{"name":"m","language":"cajita","source":"doc.appendChild(other.getChildNodes()[0]);","grants":[{"name":"doc","root":"r"},{"name":"other","root":"s"}]}]}
⇒
group m
load m throw error m#1 TypeError "other root"
html 132
<div id="r" title="t"><p id="p" class="c">one<b>two</b></p><input id="i" value="v"><br></div><div id="s"><span id="q">q</span></div>
end done
# another root isn't appended
page
{"version":1,"html":"<div id=\"r\" title=\"t\"><p id=\"p\" class=\"c\">one<b>two</b></p><input id=\"i\" value=\"v\"><br></div><div id=\"s\"><span id=\"q\">q</span></div>","modules":[
{"name":"m","language":"cajita","source":"doc.appendChild(other);","grants":[{"name":"doc","root":"r"},{"name":"other","root":"s"}]}]}
⇒
group m
load m throw error m#0 TypeError "other root"
html 132
<div id="r" title="t"><p id="p" class="c">one<b>two</b></p><input id="i" value="v"><br></div><div id="s"><span id="q">q</span></div>
end done
# a new node of another root isn't appended
page
{"version":1,"html":"<div id=\"r\" title=\"t\"><p id=\"p\" class=\"c\">one<b>two</b></p><input id=\"i\" value=\"v\"><br></div><div id=\"s\"><span id=\"q\">q</span></div>","modules":[
{"name":"m","language":"cajita","source":"doc.appendChild(other.createElement('b'));","grants":[{"name":"doc","root":"r"},{"name":"other","root":"s"}]}]}
⇒
group m
load m throw error m#0 TypeError "other root"
html 132
<div id="r" title="t"><p id="p" class="c">one<b>two</b></p><input id="i" value="v"><br></div><div id="s"><span id="q">q</span></div>
end done
# a node of another root isn't taken away
page
{"version":1,"html":"<div id=\"r\" title=\"t\"><p id=\"p\" class=\"c\">one<b>two</b></p><input id=\"i\" value=\"v\"><br></div><div id=\"s\"><span id=\"q\">q</span></div>","modules":[
{"name":"m","language":"cajita","source":"doc.removeChild(other.getChildNodes()[0]);","grants":[{"name":"doc","root":"r"},{"name":"other","root":"s"}]}]}
⇒
group m
load m throw error m#1 TypeError "bad argument"
html 132
<div id="r" title="t"><p id="p" class="c">one<b>two</b></p><input id="i" value="v"><br></div><div id="s"><span id="q">q</span></div>
end done
# ids of the other root are its own
page
{"version":1,"html":"<div id=\"r\" title=\"t\"><p id=\"p\" class=\"c\">one<b>two</b></p><input id=\"i\" value=\"v\"><br></div><div id=\"s\"><span id=\"q\">q</span></div>","modules":[
{"name":"m","language":"cajita","source":"doc.getElementById('q') + ' ' + other.getElementById('q').getText();","grants":[{"name":"doc","root":"r"},{"name":"other","root":"s"}]}]}
⇒
group m
load m return "null q"
html 132
<div id="r" title="t"><p id="p" class="c">one<b>two</b></p><input id="i" value="v"><br></div><div id="s"><span id="q">q</span></div>
end done
# nodes of two roots are two objects
page
{"version":1,"html":"<div id=\"r\" title=\"t\"><p id=\"p\" class=\"c\">one<b>two</b></p><input id=\"i\" value=\"v\"><br></div><div id=\"s\"><span id=\"q\">q</span></div>","modules":[
{"name":"m","language":"cajita","source":"doc === other;","grants":[{"name":"doc","root":"r"},{"name":"other","root":"s"}]}]}
⇒
group m
load m return false
html 132
<div id="r" title="t"><p id="p" class="c">one<b>two</b></p><input id="i" value="v"><br></div><div id="s"><span id="q">q</span></div>
end done
"##;

#[test]
fn nodes_are_appended_or_refused(rt: HostRuntime) -> Result<(), Fail> {
    check_pages(rt.alloc(), APPENDED)
}

#[test]
fn nodes_are_taken_away_or_refused(rt: HostRuntime) -> Result<(), Fail> {
    check_pages(rt.alloc(), TAKEN)
}

#[test]
fn nodes_are_objects_without_keys_of_their_own(rt: HostRuntime) -> Result<(), Fail> {
    check_pages(rt.alloc(), USED)
}

#[test]
fn nodes_of_two_roots_stay_apart(rt: HostRuntime) -> Result<(), Fail> {
    check_pages(rt.alloc(), ROOTS)
}

//! One call of a method of a node, and what comes of it.

use command_runs::page_tables::check_pages;
use std::test::Fail;

/// What is read of nodes.
static READ: &str = r##"
# the tag of a root
page
{"version":1,"html":"<div id=\"r\" title=\"t\"><p id=\"p\" class=\"c\">one<b>two</b></p><input id=\"i\" value=\"v\"><br></div><div id=\"s\"><span id=\"q\">q</span></div>","modules":[
{"name":"m","language":"cajita","source":"doc.getTagName();","grants":[{"name":"doc","root":"r"}]}]}
⇒
group m
load m return "div"
html 132
<div id="r" title="t"><p id="p" class="c">one<b>two</b></p><input id="i" value="v"><br></div><div id="s"><span id="q">q</span></div>
end done
# the tag of a text
page
{"version":1,"html":"<div id=\"r\" title=\"t\"><p id=\"p\" class=\"c\">one<b>two</b></p><input id=\"i\" value=\"v\"><br></div><div id=\"s\"><span id=\"q\">q</span></div>","modules":[
{"name":"m","language":"cajita","source":"doc.getElementById('p').getChildNodes()[0].getTagName();","grants":[{"name":"doc","root":"r"}]}]}
⇒
group m
load m return "#text"
html 132
<div id="r" title="t"><p id="p" class="c">one<b>two</b></p><input id="i" value="v"><br></div><div id="s"><span id="q">q</span></div>
end done
# a tag in capitals isn't made
page
{"version":1,"html":"<div id=\"r\" title=\"t\"><p id=\"p\" class=\"c\">one<b>two</b></p><input id=\"i\" value=\"v\"><br></div><div id=\"s\"><span id=\"q\">q</span></div>","modules":[
{"name":"m","language":"cajita","source":"doc.createElement('B').getTagName();","grants":[{"name":"doc","root":"r"}]}]}
⇒
group m
load m throw error m#0 TypeError "not allowed"
html 132
<div id="r" title="t"><p id="p" class="c">one<b>two</b></p><input id="i" value="v"><br></div><div id="s"><span id="q">q</span></div>
end done
# nothing is around a root
page
{"version":1,"html":"<div id=\"r\" title=\"t\"><p id=\"p\" class=\"c\">one<b>two</b></p><input id=\"i\" value=\"v\"><br></div><div id=\"s\"><span id=\"q\">q</span></div>","modules":[
{"name":"m","language":"cajita","source":"doc.getParentNode();","grants":[{"name":"doc","root":"r"}]}]}
⇒
group m
load m return null
html 132
<div id="r" title="t"><p id="p" class="c">one<b>two</b></p><input id="i" value="v"><br></div><div id="s"><span id="q">q</span></div>
end done
# around a node is the one node, each time the same
page
{"version":1,"html":"<div id=\"r\" title=\"t\"><p id=\"p\" class=\"c\">one<b>two</b></p><input id=\"i\" value=\"v\"><br></div><div id=\"s\"><span id=\"q\">q</span></div>","modules":[
{"name":"m","language":"cajita","source":"doc.getElementById('p').getParentNode() === doc;","grants":[{"name":"doc","root":"r"}]}]}
⇒
group m
load m return true
html 132
<div id="r" title="t"><p id="p" class="c">one<b>two</b></p><input id="i" value="v"><br></div><div id="s"><span id="q">q</span></div>
end done
# nothing is around a new node
page
{"version":1,"html":"<div id=\"r\" title=\"t\"><p id=\"p\" class=\"c\">one<b>two</b></p><input id=\"i\" value=\"v\"><br></div><div id=\"s\"><span id=\"q\">q</span></div>","modules":[
{"name":"m","language":"cajita","source":"doc.createElement('b').getParentNode();","grants":[{"name":"doc","root":"r"}]}]}
⇒
group m
load m return null
html 132
<div id="r" title="t"><p id="p" class="c">one<b>two</b></p><input id="i" value="v"><br></div><div id="s"><span id="q">q</span></div>
end done
# nothing is around a node that was taken away
page
{"version":1,"html":"<div id=\"r\" title=\"t\"><p id=\"p\" class=\"c\">one<b>two</b></p><input id=\"i\" value=\"v\"><br></div><div id=\"s\"><span id=\"q\">q</span></div>","modules":[
{"name":"m","language":"cajita","source":"var p = doc.getElementById('p'); doc.removeChild(p); p.getParentNode();","grants":[{"name":"doc","root":"r"}]}]}
⇒
group m
dom r remove 0 1
load m return null
html 95
<div id="r" title="t"><input id="i" value="v"><br></div><div id="s"><span id="q">q</span></div>
end done
# children in their order
page
{"version":1,"html":"<div id=\"r\" title=\"t\"><p id=\"p\" class=\"c\">one<b>two</b></p><input id=\"i\" value=\"v\"><br></div><div id=\"s\"><span id=\"q\">q</span></div>","modules":[
{"name":"m","language":"cajita","source":"var t = [], c = doc.getChildNodes(), i; for (i = 0; i < c.length; i++) { t.push(c[i].getTagName()); } t.join(' ');","grants":[{"name":"doc","root":"r"}]}]}
⇒
group m
load m return "p input br"
html 132
<div id="r" title="t"><p id="p" class="c">one<b>two</b></p><input id="i" value="v"><br></div><div id="s"><span id="q">q</span></div>
end done
# a list of children is a new one each time
page
{"version":1,"html":"<div id=\"r\" title=\"t\"><p id=\"p\" class=\"c\">one<b>two</b></p><input id=\"i\" value=\"v\"><br></div><div id=\"s\"><span id=\"q\">q</span></div>","modules":[
{"name":"m","language":"cajita","source":"doc.getChildNodes() === doc.getChildNodes();","grants":[{"name":"doc","root":"r"}]}]}
⇒
group m
load m return false
html 132
<div id="r" title="t"><p id="p" class="c">one<b>two</b></p><input id="i" value="v"><br></div><div id="s"><span id="q">q</span></div>
end done
# a child is the same node in each list
page
{"version":1,"html":"<div id=\"r\" title=\"t\"><p id=\"p\" class=\"c\">one<b>two</b></p><input id=\"i\" value=\"v\"><br></div><div id=\"s\"><span id=\"q\">q</span></div>","modules":[
{"name":"m","language":"cajita","source":"doc.getChildNodes()[0] === doc.getChildNodes()[0];","grants":[{"name":"doc","root":"r"}]}]}
⇒
group m
load m return true
html 132
<div id="r" title="t"><p id="p" class="c">one<b>two</b></p><input id="i" value="v"><br></div><div id="s"><span id="q">q</span></div>
end done
# a list of children doesn't follow the document
page
{"version":1,"html":"<div id=\"r\" title=\"t\"><p id=\"p\" class=\"c\">one<b>two</b></p><input id=\"i\" value=\"v\"><br></div><div id=\"s\"><span id=\"q\">q</span></div>","modules":[
{"name":"m","language":"cajita","source":"var c = doc.getChildNodes(); doc.removeChild(c[0]); c.length + ' ' + doc.getChildNodes().length;","grants":[{"name":"doc","root":"r"}]}]}
⇒
group m
dom r remove 0 1
load m return "3 2"
html 95
<div id="r" title="t"><input id="i" value="v"><br></div><div id="s"><span id="q">q</span></div>
end done
# a list of children may be written to, and the document stays
page
{"version":1,"html":"<div id=\"r\" title=\"t\"><p id=\"p\" class=\"c\">one<b>two</b></p><input id=\"i\" value=\"v\"><br></div><div id=\"s\"><span id=\"q\">q</span></div>","modules":[
{"name":"m","language":"cajita","source":"var c = doc.getChildNodes(); c[0] = c[1]; doc.getChildNodes()[0].getTagName();","grants":[{"name":"doc","root":"r"}]}]}
⇒
group m
load m return "p"
html 132
<div id="r" title="t"><p id="p" class="c">one<b>two</b></p><input id="i" value="v"><br></div><div id="s"><span id="q">q</span></div>
end done
# a tag without content has no children
page
{"version":1,"html":"<div id=\"r\" title=\"t\"><p id=\"p\" class=\"c\">one<b>two</b></p><input id=\"i\" value=\"v\"><br></div><div id=\"s\"><span id=\"q\">q</span></div>","modules":[
{"name":"m","language":"cajita","source":"doc.getChildNodes()[2].getChildNodes().length;","grants":[{"name":"doc","root":"r"}]}]}
⇒
group m
load m return 0
html 132
<div id="r" title="t"><p id="p" class="c">one<b>two</b></p><input id="i" value="v"><br></div><div id="s"><span id="q">q</span></div>
end done
# the own id is found
page
{"version":1,"html":"<div id=\"r\" title=\"t\"><p id=\"p\" class=\"c\">one<b>two</b></p><input id=\"i\" value=\"v\"><br></div><div id=\"s\"><span id=\"q\">q</span></div>","modules":[
{"name":"m","language":"cajita","source":"doc.getElementById('r') === doc;","grants":[{"name":"doc","root":"r"}]}]}
⇒
group m
load m return true
html 132
<div id="r" title="t"><p id="p" class="c">one<b>two</b></p><input id="i" value="v"><br></div><div id="s"><span id="q">q</span></div>
end done
# an id of another root isn't found
page
{"version":1,"html":"<div id=\"r\" title=\"t\"><p id=\"p\" class=\"c\">one<b>two</b></p><input id=\"i\" value=\"v\"><br></div><div id=\"s\"><span id=\"q\">q</span></div>","modules":[
{"name":"m","language":"cajita","source":"doc.getElementById('q');","grants":[{"name":"doc","root":"r"}]}]}
⇒
group m
load m return null
html 132
<div id="r" title="t"><p id="p" class="c">one<b>two</b></p><input id="i" value="v"><br></div><div id="s"><span id="q">q</span></div>
end done
# an id outside of the receiver isn't found
page
{"version":1,"html":"<div id=\"r\" title=\"t\"><p id=\"p\" class=\"c\">one<b>two</b></p><input id=\"i\" value=\"v\"><br></div><div id=\"s\"><span id=\"q\">q</span></div>","modules":[
{"name":"m","language":"cajita","source":"doc.getElementById('p').getElementById('i');","grants":[{"name":"doc","root":"r"}]}]}
⇒
group m
load m return null
html 132
<div id="r" title="t"><p id="p" class="c">one<b>two</b></p><input id="i" value="v"><br></div><div id="s"><span id="q">q</span></div>
end done
# a number is looked for as its text
page
{"version":1,"html":"<div id=\"r\" title=\"t\"><p id=\"p\" class=\"c\">one<b>two</b></p><input id=\"i\" value=\"v\"><br></div><div id=\"s\"><span id=\"q\">q</span></div>","modules":[
{"name":"m","language":"cajita","source":"doc.getElementById(1);","grants":[{"name":"doc","root":"r"}]}]}
⇒
group m
load m return null
html 132
<div id="r" title="t"><p id="p" class="c">one<b>two</b></p><input id="i" value="v"><br></div><div id="s"><span id="q">q</span></div>
end done
# no argument is undefined, an id that no node has
page
{"version":1,"html":"<div id=\"r\" title=\"t\"><p id=\"p\" class=\"c\">one<b>two</b></p><input id=\"i\" value=\"v\"><br></div><div id=\"s\"><span id=\"q\">q</span></div>","modules":[
{"name":"m","language":"cajita","source":"doc.getElementById();","grants":[{"name":"doc","root":"r"}]}]}
⇒
group m
load m return null
html 132
<div id="r" title="t"><p id="p" class="c">one<b>two</b></p><input id="i" value="v"><br></div><div id="s"><span id="q">q</span></div>
end done
# the id of a node that was taken away isn't found
page
{"version":1,"html":"<div id=\"r\" title=\"t\"><p id=\"p\" class=\"c\">one<b>two</b></p><input id=\"i\" value=\"v\"><br></div><div id=\"s\"><span id=\"q\">q</span></div>","modules":[
{"name":"m","language":"cajita","source":"var p = doc.getElementById('p'); doc.removeChild(p); doc.getElementById('p');","grants":[{"name":"doc","root":"r"}]}]}
⇒
group m
dom r remove 0 1
load m return null
html 95
<div id="r" title="t"><input id="i" value="v"><br></div><div id="s"><span id="q">q</span></div>
end done
# it is found below that node itself
page
{"version":1,"html":"<div id=\"r\" title=\"t\"><p id=\"p\" class=\"c\">one<b>two</b></p><input id=\"i\" value=\"v\"><br></div><div id=\"s\"><span id=\"q\">q</span></div>","modules":[
{"name":"m","language":"cajita","source":"var p = doc.getElementById('p'); doc.removeChild(p); p.getElementById('p') === p;","grants":[{"name":"doc","root":"r"}]}]}
⇒
group m
dom r remove 0 1
load m return true
html 95
<div id="r" title="t"><input id="i" value="v"><br></div><div id="s"><span id="q">q</span></div>
end done
# an attribute
page
{"version":1,"html":"<div id=\"r\" title=\"t\"><p id=\"p\" class=\"c\">one<b>two</b></p><input id=\"i\" value=\"v\"><br></div><div id=\"s\"><span id=\"q\">q</span></div>","modules":[
{"name":"m","language":"cajita","source":"doc.getAttribute('title');","grants":[{"name":"doc","root":"r"}]}]}
⇒
group m
load m return "t"
html 132
<div id="r" title="t"><p id="p" class="c">one<b>two</b></p><input id="i" value="v"><br></div><div id="s"><span id="q">q</span></div>
end done
# an attribute that isn't there
page
{"version":1,"html":"<div id=\"r\" title=\"t\"><p id=\"p\" class=\"c\">one<b>two</b></p><input id=\"i\" value=\"v\"><br></div><div id=\"s\"><span id=\"q\">q</span></div>","modules":[
{"name":"m","language":"cajita","source":"doc.getAttribute('class');","grants":[{"name":"doc","root":"r"}]}]}
⇒
group m
load m return null
html 132
<div id="r" title="t"><p id="p" class="c">one<b>two</b></p><input id="i" value="v"><br></div><div id="s"><span id="q">q</span></div>
end done
# an attribute by its name in capitals isn't there
page
{"version":1,"html":"<div id=\"r\" title=\"t\"><p id=\"p\" class=\"c\">one<b>two</b></p><input id=\"i\" value=\"v\"><br></div><div id=\"s\"><span id=\"q\">q</span></div>","modules":[
{"name":"m","language":"cajita","source":"doc.getAttribute('TITLE');","grants":[{"name":"doc","root":"r"}]}]}
⇒
group m
load m return null
html 132
<div id="r" title="t"><p id="p" class="c">one<b>two</b></p><input id="i" value="v"><br></div><div id="s"><span id="q">q</span></div>
end done
# an attribute of a text
page
{"version":1,"html":"<div id=\"r\" title=\"t\"><p id=\"p\" class=\"c\">one<b>two</b></p><input id=\"i\" value=\"v\"><br></div><div id=\"s\"><span id=\"q\">q</span></div>","modules":[
{"name":"m","language":"cajita","source":"var p = doc.getElementById('p'); p.getChildNodes()[0].getAttribute('title');","grants":[{"name":"doc","root":"r"}]}]}
⇒
group m
load m return null
html 132
<div id="r" title="t"><p id="p" class="c">one<b>two</b></p><input id="i" value="v"><br></div><div id="s"><span id="q">q</span></div>
end done
"##;

/// Attributes that are set, or refused.
static ATTRIBUTES: &str = r##"
# an attribute is set
page
{"version":1,"html":"<div id=\"r\" title=\"t\"><p id=\"p\" class=\"c\">one<b>two</b></p><input id=\"i\" value=\"v\"><br></div><div id=\"s\"><span id=\"q\">q</span></div>","modules":[
{"name":"m","language":"cajita","source":"doc.setAttribute('title', 'u'); doc.getAttribute('title');","grants":[{"name":"doc","root":"r"}]}]}
⇒
group m
dom r set 0 "title" "u"
load m return "u"
html 132
<div id="r" title="u"><p id="p" class="c">one<b>two</b></p><input id="i" value="v"><br></div><div id="s"><span id="q">q</span></div>
end done
# a number is set as its text
page
{"version":1,"html":"<div id=\"r\" title=\"t\"><p id=\"p\" class=\"c\">one<b>two</b></p><input id=\"i\" value=\"v\"><br></div><div id=\"s\"><span id=\"q\">q</span></div>","modules":[
{"name":"m","language":"cajita","source":"doc.setAttribute('title', 12); doc.getAttribute('title') === '12';","grants":[{"name":"doc","root":"r"}]}]}
⇒
group m
dom r set 0 "title" "12"
load m return true
html 133
<div id="r" title="12"><p id="p" class="c">one<b>two</b></p><input id="i" value="v"><br></div><div id="s"><span id="q">q</span></div>
end done
# an attribute is set to nothing
page
{"version":1,"html":"<div id=\"r\" title=\"t\"><p id=\"p\" class=\"c\">one<b>two</b></p><input id=\"i\" value=\"v\"><br></div><div id=\"s\"><span id=\"q\">q</span></div>","modules":[
{"name":"m","language":"cajita","source":"doc.setAttribute('title', ''); doc.getAttribute('title') === '';","grants":[{"name":"doc","root":"r"}]}]}
⇒
group m
dom r set 0 "title" ""
load m return true
html 131
<div id="r" title=""><p id="p" class="c">one<b>two</b></p><input id="i" value="v"><br></div><div id="s"><span id="q">q</span></div>
end done
# a new attribute goes last
page
{"version":1,"html":"<div id=\"r\" title=\"t\"><p id=\"p\" class=\"c\">one<b>two</b></p><input id=\"i\" value=\"v\"><br></div><div id=\"s\"><span id=\"q\">q</span></div>","modules":[
{"name":"m","language":"cajita","source":"doc.setAttribute('class', 'c'); doc.setAttribute('title', 'u');","grants":[{"name":"doc","root":"r"}]}]}
⇒
group m
dom r set 0 "class" "c"
dom r set 0 "title" "u"
load m return undefined
html 142
<div id="r" title="u" class="c"><p id="p" class="c">one<b>two</b></p><input id="i" value="v"><br></div><div id="s"><span id="q">q</span></div>
end done
# an id isn't set
page
{"version":1,"html":"<div id=\"r\" title=\"t\"><p id=\"p\" class=\"c\">one<b>two</b></p><input id=\"i\" value=\"v\"><br></div><div id=\"s\"><span id=\"q\">q</span></div>","modules":[
{"name":"m","language":"cajita","source":"doc.setAttribute('id', 'x');","grants":[{"name":"doc","root":"r"}]}]}
⇒
group m
load m throw error m#0 TypeError "not allowed"
html 132
<div id="r" title="t"><p id="p" class="c">one<b>two</b></p><input id="i" value="v"><br></div><div id="s"><span id="q">q</span></div>
end done
# an id isn't set to what it is
page
{"version":1,"html":"<div id=\"r\" title=\"t\"><p id=\"p\" class=\"c\">one<b>two</b></p><input id=\"i\" value=\"v\"><br></div><div id=\"s\"><span id=\"q\">q</span></div>","modules":[
{"name":"m","language":"cajita","source":"doc.setAttribute('id', 'r');","grants":[{"name":"doc","root":"r"}]}]}
⇒
group m
load m throw error m#0 TypeError "not allowed"
html 132
<div id="r" title="t"><p id="p" class="c">one<b>two</b></p><input id="i" value="v"><br></div><div id="s"><span id="q">q</span></div>
end done
# a handler isn't set as an attribute
page
{"version":1,"html":"<div id=\"r\" title=\"t\"><p id=\"p\" class=\"c\">one<b>two</b></p><input id=\"i\" value=\"v\"><br></div><div id=\"s\"><span id=\"q\">q</span></div>","modules":[
{"name":"m","language":"cajita","source":"doc.setAttribute('onclick', 'x()');","grants":[{"name":"doc","root":"r"}]}]}
⇒
group m
load m throw error m#0 TypeError "not allowed"
html 132
<div id="r" title="t"><p id="p" class="c">one<b>two</b></p><input id="i" value="v"><br></div><div id="s"><span id="q">q</span></div>
end done
# a style isn't set
page
{"version":1,"html":"<div id=\"r\" title=\"t\"><p id=\"p\" class=\"c\">one<b>two</b></p><input id=\"i\" value=\"v\"><br></div><div id=\"s\"><span id=\"q\">q</span></div>","modules":[
{"name":"m","language":"cajita","source":"doc.setAttribute('style', 'color:red');","grants":[{"name":"doc","root":"r"}]}]}
⇒
group m
load m throw error m#0 TypeError "not allowed"
html 132
<div id="r" title="t"><p id="p" class="c">one<b>two</b></p><input id="i" value="v"><br></div><div id="s"><span id="q">q</span></div>
end done
# the name of an attribute in capitals isn't set
page
{"version":1,"html":"<div id=\"r\" title=\"t\"><p id=\"p\" class=\"c\">one<b>two</b></p><input id=\"i\" value=\"v\"><br></div><div id=\"s\"><span id=\"q\">q</span></div>","modules":[
{"name":"m","language":"cajita","source":"doc.setAttribute('Title', 'u');","grants":[{"name":"doc","root":"r"}]}]}
⇒
group m
load m throw error m#0 TypeError "not allowed"
html 132
<div id="r" title="t"><p id="p" class="c">one<b>two</b></p><input id="i" value="v"><br></div><div id="s"><span id="q">q</span></div>
end done
# an attribute of another tag isn't set
page
{"version":1,"html":"<div id=\"r\" title=\"t\"><p id=\"p\" class=\"c\">one<b>two</b></p><input id=\"i\" value=\"v\"><br></div><div id=\"s\"><span id=\"q\">q</span></div>","modules":[
{"name":"m","language":"cajita","source":"doc.setAttribute('value', 'u');","grants":[{"name":"doc","root":"r"}]}]}
⇒
group m
load m throw error m#0 TypeError "not allowed"
html 132
<div id="r" title="t"><p id="p" class="c">one<b>two</b></p><input id="i" value="v"><br></div><div id="s"><span id="q">q</span></div>
end done
# the value of an input is set
page
{"version":1,"html":"<div id=\"r\" title=\"t\"><p id=\"p\" class=\"c\">one<b>two</b></p><input id=\"i\" value=\"v\"><br></div><div id=\"s\"><span id=\"q\">q</span></div>","modules":[
{"name":"m","language":"cajita","source":"var i = doc.getElementById('i'); i.setAttribute('value', 'w'); i.getAttribute('value');","grants":[{"name":"doc","root":"r"}]}]}
⇒
group m
dom r set 5 "value" "w"
load m return "w"
html 132
<div id="r" title="t"><p id="p" class="c">one<b>two</b></p><input id="i" value="w"><br></div><div id="s"><span id="q">q</span></div>
end done
# the type of an input is one of three
page
{"version":1,"html":"<div id=\"r\" title=\"t\"><p id=\"p\" class=\"c\">one<b>two</b></p><input id=\"i\" value=\"v\"><br></div><div id=\"s\"><span id=\"q\">q</span></div>","modules":[
{"name":"m","language":"cajita","source":"doc.getElementById('i').setAttribute('type', 'image');","grants":[{"name":"doc","root":"r"}]}]}
⇒
group m
load m throw error m#0 TypeError "not allowed"
html 132
<div id="r" title="t"><p id="p" class="c">one<b>two</b></p><input id="i" value="v"><br></div><div id="s"><span id="q">q</span></div>
end done
# no attribute of a text is set
page
{"version":1,"html":"<div id=\"r\" title=\"t\"><p id=\"p\" class=\"c\">one<b>two</b></p><input id=\"i\" value=\"v\"><br></div><div id=\"s\"><span id=\"q\">q</span></div>","modules":[
{"name":"m","language":"cajita","source":"var p = doc.getElementById('p'); p.getChildNodes()[0].setAttribute('title', 'u');","grants":[{"name":"doc","root":"r"}]}]}
⇒
group m
load m throw error m#1 TypeError "not allowed"
html 132
<div id="r" title="t"><p id="p" class="c">one<b>two</b></p><input id="i" value="v"><br></div><div id="s"><span id="q">q</span></div>
end done
# an address by https is set
page
{"version":1,"html":"<div id=\"r\" title=\"t\"><p id=\"p\" class=\"c\">one<b>two</b></p><input id=\"i\" value=\"v\"><br></div><div id=\"s\"><span id=\"q\">q</span></div>","modules":[
{"name":"m","language":"cajita","source":"var a = doc.createElement('a'); a.setAttribute('href', 'https://e.example/'); a.getAttribute('href');","grants":[{"name":"doc","root":"r"}]}]}
⇒
group m
dom r set 7 "href" "https://e.example/"
load m return "https://e.example/"
html 132
<div id="r" title="t"><p id="p" class="c">one<b>two</b></p><input id="i" value="v"><br></div><div id="s"><span id="q">q</span></div>
end done
# an address by http isn't set
page
{"version":1,"html":"<div id=\"r\" title=\"t\"><p id=\"p\" class=\"c\">one<b>two</b></p><input id=\"i\" value=\"v\"><br></div><div id=\"s\"><span id=\"q\">q</span></div>","modules":[
{"name":"m","language":"cajita","source":"var a = doc.createElement('a'); a.setAttribute('href', 'http://e.example/');","grants":[{"name":"doc","root":"r"}]}]}
⇒
group m
load m throw error m#0 TypeError "not allowed"
html 132
<div id="r" title="t"><p id="p" class="c">one<b>two</b></p><input id="i" value="v"><br></div><div id="s"><span id="q">q</span></div>
end done
# code as an address isn't set
page
{"version":1,"html":"<div id=\"r\" title=\"t\"><p id=\"p\" class=\"c\">one<b>two</b></p><input id=\"i\" value=\"v\"><br></div><div id=\"s\"><span id=\"q\">q</span></div>","modules":[
{"name":"m","language":"cajita","source":"var a = doc.createElement('a'); a.setAttribute('href', 'java\\tscript:x()');","grants":[{"name":"doc","root":"r"}]}]}
⇒
group m
load m throw error m#0 TypeError "not allowed"
html 132
<div id="r" title="t"><p id="p" class="c">one<b>two</b></p><input id="i" value="v"><br></div><div id="s"><span id="q">q</span></div>
end done
# a place in the same document is set
page
{"version":1,"html":"<div id=\"r\" title=\"t\"><p id=\"p\" class=\"c\">one<b>two</b></p><input id=\"i\" value=\"v\"><br></div><div id=\"s\"><span id=\"q\">q</span></div>","modules":[
{"name":"m","language":"cajita","source":"var a = doc.createElement('a'); a.setAttribute('href', '#p'); a.getAttribute('href');","grants":[{"name":"doc","root":"r"}]}]}
⇒
group m
dom r set 7 "href" "#p"
load m return "#p"
html 132
<div id="r" title="t"><p id="p" class="c">one<b>two</b></p><input id="i" value="v"><br></div><div id="s"><span id="q">q</span></div>
end done
# the address of an image isn't set
page
{"version":1,"html":"<div id=\"r\" title=\"t\"><p id=\"p\" class=\"c\">one<b>two</b></p><input id=\"i\" value=\"v\"><br></div><div id=\"s\"><span id=\"q\">q</span></div>","modules":[
{"name":"m","language":"cajita","source":"var a = doc.createElement('img'); a.setAttribute('src', '#p');","grants":[{"name":"doc","root":"r"}]}]}
⇒
group m
load m throw error m#0 TypeError "not allowed"
html 132
<div id="r" title="t"><p id="p" class="c">one<b>two</b></p><input id="i" value="v"><br></div><div id="s"><span id="q">q</span></div>
end done
"##;

/// Texts of nodes.
static TEXTS: &str = r##"
# the text of a root
page
{"version":1,"html":"<div id=\"r\" title=\"t\"><p id=\"p\" class=\"c\">one<b>two</b></p><input id=\"i\" value=\"v\"><br></div><div id=\"s\"><span id=\"q\">q</span></div>","modules":[
{"name":"m","language":"cajita","source":"doc.getText();","grants":[{"name":"doc","root":"r"}]}]}
⇒
group m
load m return "onetwo"
html 132
<div id="r" title="t"><p id="p" class="c">one<b>two</b></p><input id="i" value="v"><br></div><div id="s"><span id="q">q</span></div>
end done
# the text of a text
page
{"version":1,"html":"<div id=\"r\" title=\"t\"><p id=\"p\" class=\"c\">one<b>two</b></p><input id=\"i\" value=\"v\"><br></div><div id=\"s\"><span id=\"q\">q</span></div>","modules":[
{"name":"m","language":"cajita","source":"var p = doc.getElementById('p'); p.getChildNodes()[0].getText();","grants":[{"name":"doc","root":"r"}]}]}
⇒
group m
load m return "one"
html 132
<div id="r" title="t"><p id="p" class="c">one<b>two</b></p><input id="i" value="v"><br></div><div id="s"><span id="q">q</span></div>
end done
# the text of an input is empty
page
{"version":1,"html":"<div id=\"r\" title=\"t\"><p id=\"p\" class=\"c\">one<b>two</b></p><input id=\"i\" value=\"v\"><br></div><div id=\"s\"><span id=\"q\">q</span></div>","modules":[
{"name":"m","language":"cajita","source":"doc.getElementById('i').getText() === '';","grants":[{"name":"doc","root":"r"}]}]}
⇒
group m
load m return true
html 132
<div id="r" title="t"><p id="p" class="c">one<b>two</b></p><input id="i" value="v"><br></div><div id="s"><span id="q">q</span></div>
end done
# a text takes the place of what is in an element
page
{"version":1,"html":"<div id=\"r\" title=\"t\"><p id=\"p\" class=\"c\">one<b>two</b></p><input id=\"i\" value=\"v\"><br></div><div id=\"s\"><span id=\"q\">q</span></div>","modules":[
{"name":"m","language":"cajita","source":"var p = doc.getElementById('p'); p.setText('x<b>'); p.getChildNodes().length + p.getText();","grants":[{"name":"doc","root":"r"}]}]}
⇒
group m
dom r text 1 "x\x3Cb\x3E"
load m return "1x\x3Cb\x3E"
html 129
<div id="r" title="t"><p id="p" class="c">x&lt;b&gt;</p><input id="i" value="v"><br></div><div id="s"><span id="q">q</span></div>
end done
# what stood there is detached, and is as it was
page
{"version":1,"html":"<div id=\"r\" title=\"t\"><p id=\"p\" class=\"c\">one<b>two</b></p><input id=\"i\" value=\"v\"><br></div><div id=\"s\"><span id=\"q\">q</span></div>","modules":[
{"name":"m","language":"cajita","source":"var p = doc.getElementById('p'); var b = p.getChildNodes()[1]; p.setText(''); b.getParentNode() + b.getText();","grants":[{"name":"doc","root":"r"}]}]}
⇒
group m
dom r text 1 ""
load m return "nulltwo"
html 119
<div id="r" title="t"><p id="p" class="c"></p><input id="i" value="v"><br></div><div id="s"><span id="q">q</span></div>
end done
# the text of a text is set
page
{"version":1,"html":"<div id=\"r\" title=\"t\"><p id=\"p\" class=\"c\">one<b>two</b></p><input id=\"i\" value=\"v\"><br></div><div id=\"s\"><span id=\"q\">q</span></div>","modules":[
{"name":"m","language":"cajita","source":"var p = doc.getElementById('p'); var t = p.getChildNodes()[0]; t.setText('1'); p.getText();","grants":[{"name":"doc","root":"r"}]}]}
⇒
group m
dom r text 2 "1"
load m return "1two"
html 130
<div id="r" title="t"><p id="p" class="c">1<b>two</b></p><input id="i" value="v"><br></div><div id="s"><span id="q">q</span></div>
end done
# a number is set as a text
page
{"version":1,"html":"<div id=\"r\" title=\"t\"><p id=\"p\" class=\"c\">one<b>two</b></p><input id=\"i\" value=\"v\"><br></div><div id=\"s\"><span id=\"q\">q</span></div>","modules":[
{"name":"m","language":"cajita","source":"var p = doc.getElementById('p'); p.setText(7); p.getText() === '7';","grants":[{"name":"doc","root":"r"}]}]}
⇒
group m
dom r text 1 "7"
load m return true
html 120
<div id="r" title="t"><p id="p" class="c">7</p><input id="i" value="v"><br></div><div id="s"><span id="q">q</span></div>
end done
# no text is set into a tag without content
page
{"version":1,"html":"<div id=\"r\" title=\"t\"><p id=\"p\" class=\"c\">one<b>two</b></p><input id=\"i\" value=\"v\"><br></div><div id=\"s\"><span id=\"q\">q</span></div>","modules":[
{"name":"m","language":"cajita","source":"doc.getChildNodes()[2].setText('x');","grants":[{"name":"doc","root":"r"}]}]}
⇒
group m
load m throw error m#1 TypeError "not allowed"
html 132
<div id="r" title="t"><p id="p" class="c">one<b>two</b></p><input id="i" value="v"><br></div><div id="s"><span id="q">q</span></div>
end done
# no text is set into an input
page
{"version":1,"html":"<div id=\"r\" title=\"t\"><p id=\"p\" class=\"c\">one<b>two</b></p><input id=\"i\" value=\"v\"><br></div><div id=\"s\"><span id=\"q\">q</span></div>","modules":[
{"name":"m","language":"cajita","source":"doc.getElementById('i').setText('x');","grants":[{"name":"doc","root":"r"}]}]}
⇒
group m
load m throw error m#0 TypeError "not allowed"
html 132
<div id="r" title="t"><p id="p" class="c">one<b>two</b></p><input id="i" value="v"><br></div><div id="s"><span id="q">q</span></div>
end done
# an empty text is a node
page
{"version":1,"html":"<div id=\"r\" title=\"t\"><p id=\"p\" class=\"c\">one<b>two</b></p><input id=\"i\" value=\"v\"><br></div><div id=\"s\"><span id=\"q\">q</span></div>","modules":[
{"name":"m","language":"cajita","source":"doc.getElementById('p').setText(''); doc.getElementById('p').getChildNodes().length;","grants":[{"name":"doc","root":"r"}]}]}
⇒
group m
dom r text 1 ""
load m return 1
html 119
<div id="r" title="t"><p id="p" class="c"></p><input id="i" value="v"><br></div><div id="s"><span id="q">q</span></div>
end done
"##;

/// Nodes that are made, or refused.
static MADE: &str = r##"
# a script isn't made
page
{"version":1,"html":"<div id=\"r\" title=\"t\"><p id=\"p\" class=\"c\">one<b>two</b></p><input id=\"i\" value=\"v\"><br></div><div id=\"s\"><span id=\"q\">q</span></div>","modules":[
{"name":"m","language":"cajita","source":"doc.createElement('script');","grants":[{"name":"doc","root":"r"}]}]}
⇒
group m
load m throw error m#0 TypeError "not allowed"
html 132
<div id="r" title="t"><p id="p" class="c">one<b>two</b></p><input id="i" value="v"><br></div><div id="s"><span id="q">q</span></div>
end done
# a style isn't made
page
{"version":1,"html":"<div id=\"r\" title=\"t\"><p id=\"p\" class=\"c\">one<b>two</b></p><input id=\"i\" value=\"v\"><br></div><div id=\"s\"><span id=\"q\">q</span></div>","modules":[
{"name":"m","language":"cajita","source":"doc.createElement('style');","grants":[{"name":"doc","root":"r"}]}]}
⇒
group m
load m throw error m#0 TypeError "not allowed"
html 132
<div id="r" title="t"><p id="p" class="c">one<b>two</b></p><input id="i" value="v"><br></div><div id="s"><span id="q">q</span></div>
end done
# a frame isn't made
page
{"version":1,"html":"<div id=\"r\" title=\"t\"><p id=\"p\" class=\"c\">one<b>two</b></p><input id=\"i\" value=\"v\"><br></div><div id=\"s\"><span id=\"q\">q</span></div>","modules":[
{"name":"m","language":"cajita","source":"doc.createElement('iframe');","grants":[{"name":"doc","root":"r"}]}]}
⇒
group m
load m throw error m#0 TypeError "not allowed"
html 132
<div id="r" title="t"><p id="p" class="c">one<b>two</b></p><input id="i" value="v"><br></div><div id="s"><span id="q">q</span></div>
end done
# a tag that isn't listed isn't made
page
{"version":1,"html":"<div id=\"r\" title=\"t\"><p id=\"p\" class=\"c\">one<b>two</b></p><input id=\"i\" value=\"v\"><br></div><div id=\"s\"><span id=\"q\">q</span></div>","modules":[
{"name":"m","language":"cajita","source":"doc.createElement('blink');","grants":[{"name":"doc","root":"r"}]}]}
⇒
group m
load m throw error m#0 TypeError "not allowed"
html 132
<div id="r" title="t"><p id="p" class="c">one<b>two</b></p><input id="i" value="v"><br></div><div id="s"><span id="q">q</span></div>
end done
# a tag of nothing isn't made
page
{"version":1,"html":"<div id=\"r\" title=\"t\"><p id=\"p\" class=\"c\">one<b>two</b></p><input id=\"i\" value=\"v\"><br></div><div id=\"s\"><span id=\"q\">q</span></div>","modules":[
{"name":"m","language":"cajita","source":"doc.createElement('');","grants":[{"name":"doc","root":"r"}]}]}
⇒
group m
load m throw error m#0 TypeError "not allowed"
html 132
<div id="r" title="t"><p id="p" class="c">one<b>two</b></p><input id="i" value="v"><br></div><div id="s"><span id="q">q</span></div>
end done
# a text is made of a number
page
{"version":1,"html":"<div id=\"r\" title=\"t\"><p id=\"p\" class=\"c\">one<b>two</b></p><input id=\"i\" value=\"v\"><br></div><div id=\"s\"><span id=\"q\">q</span></div>","modules":[
{"name":"m","language":"cajita","source":"doc.createTextNode(12).getText();","grants":[{"name":"doc","root":"r"}]}]}
⇒
group m
load m return "12"
html 132
<div id="r" title="t"><p id="p" class="c">one<b>two</b></p><input id="i" value="v"><br></div><div id="s"><span id="q">q</span></div>
end done
"##;

#[test]
fn what_is_read_of_nodes(rt: HostRuntime) -> Result<(), Fail> {
    check_pages(rt.alloc(), READ)
}

#[test]
fn attributes_are_set_or_refused(rt: HostRuntime) -> Result<(), Fail> {
    check_pages(rt.alloc(), ATTRIBUTES)
}

#[test]
fn texts_are_read_and_set(rt: HostRuntime) -> Result<(), Fail> {
    check_pages(rt.alloc(), TEXTS)
}

#[test]
fn nodes_are_made_or_refused(rt: HostRuntime) -> Result<(), Fail> {
    check_pages(rt.alloc(), MADE)
}

//! One attempt of a guest to reach beyond its root, beside the module whose root the other one is.

use command_runs::page_tables::check_pages;
use std::test::Fail;

/// Attempts of a guest.
static GUESTS: &str = r##"
# a guest looks up
page
{"version":1,"html":"<div id=\"r\" title=\"t\"><p id=\"p\" class=\"c\">one<b>two</b></p><input id=\"i\" value=\"v\"><br></div><div id=\"s\"><span id=\"q\">q</span></div>","modules":[
{"name":"owner","language":"cajita","source":"doc.getElementById('p').getText();","grants":[{"name":"doc","root":"r"}]},
{"name":"guest","language":"cajita","source":"doc.getParentNode();","grants":[{"name":"doc","root":"s"}]}]}
⇒
group owner
group guest
load owner return "onetwo"
load guest return null
html 132
<div id="r" title="t"><p id="p" class="c">one<b>two</b></p><input id="i" value="v"><br></div><div id="s"><span id="q">q</span></div>
end done
# a guest looks up from below
page
{"version":1,"html":"<div id=\"r\" title=\"t\"><p id=\"p\" class=\"c\">one<b>two</b></p><input id=\"i\" value=\"v\"><br></div><div id=\"s\"><span id=\"q\">q</span></div>","modules":[
{"name":"owner","language":"cajita","source":"doc.getElementById('p').getText();","grants":[{"name":"doc","root":"r"}]},
{"name":"guest","language":"cajita","source":"doc.getElementById('q').getParentNode().getParentNode();","grants":[{"name":"doc","root":"s"}]}]}
⇒
group owner
group guest
load owner return "onetwo"
load guest return null
html 132
<div id="r" title="t"><p id="p" class="c">one<b>two</b></p><input id="i" value="v"><br></div><div id="s"><span id="q">q</span></div>
end done
# a guest asks for the other's ids
page
{"version":1,"html":"<div id=\"r\" title=\"t\"><p id=\"p\" class=\"c\">one<b>two</b></p><input id=\"i\" value=\"v\"><br></div><div id=\"s\"><span id=\"q\">q</span></div>","modules":[
{"name":"owner","language":"cajita","source":"doc.getElementById('p').getText();","grants":[{"name":"doc","root":"r"}]},
{"name":"guest","language":"cajita","source":"doc.getElementById('p');","grants":[{"name":"doc","root":"s"}]}]}
⇒
group owner
group guest
load owner return "onetwo"
load guest return null
html 132
<div id="r" title="t"><p id="p" class="c">one<b>two</b></p><input id="i" value="v"><br></div><div id="s"><span id="q">q</span></div>
end done
# a guest asks for the other's root
page
{"version":1,"html":"<div id=\"r\" title=\"t\"><p id=\"p\" class=\"c\">one<b>two</b></p><input id=\"i\" value=\"v\"><br></div><div id=\"s\"><span id=\"q\">q</span></div>","modules":[
{"name":"owner","language":"cajita","source":"doc.getElementById('p').getText();","grants":[{"name":"doc","root":"r"}]},
{"name":"guest","language":"cajita","source":"doc.getElementById('r');","grants":[{"name":"doc","root":"s"}]}]}
⇒
group owner
group guest
load owner return "onetwo"
load guest return null
html 132
<div id="r" title="t"><p id="p" class="c">one<b>two</b></p><input id="i" value="v"><br></div><div id="s"><span id="q">q</span></div>
end done
# a guest makes a script
page
{"version":1,"html":"<div id=\"r\" title=\"t\"><p id=\"p\" class=\"c\">one<b>two</b></p><input id=\"i\" value=\"v\"><br></div><div id=\"s\"><span id=\"q\">q</span></div>","modules":[
{"name":"owner","language":"cajita","source":"doc.getElementById('p').getText();","grants":[{"name":"doc","root":"r"}]},
{"name":"guest","language":"cajita","source":"doc.appendChild(doc.createElement('SCRIPT'));","grants":[{"name":"doc","root":"s"}]}]}
⇒
group owner
group guest
load owner return "onetwo"
load guest throw error guest#0 TypeError "not allowed"
html 132
<div id="r" title="t"><p id="p" class="c">one<b>two</b></p><input id="i" value="v"><br></div><div id="s"><span id="q">q</span></div>
end done
# a guest makes an object
page
{"version":1,"html":"<div id=\"r\" title=\"t\"><p id=\"p\" class=\"c\">one<b>two</b></p><input id=\"i\" value=\"v\"><br></div><div id=\"s\"><span id=\"q\">q</span></div>","modules":[
{"name":"owner","language":"cajita","source":"doc.getElementById('p').getText();","grants":[{"name":"doc","root":"r"}]},
{"name":"guest","language":"cajita","source":"doc.appendChild(doc.createElement('object'));","grants":[{"name":"doc","root":"s"}]}]}
⇒
group owner
group guest
load owner return "onetwo"
load guest throw error guest#0 TypeError "not allowed"
html 132
<div id="r" title="t"><p id="p" class="c">one<b>two</b></p><input id="i" value="v"><br></div><div id="s"><span id="q">q</span></div>
end done
# a guest makes a form
page
{"version":1,"html":"<div id=\"r\" title=\"t\"><p id=\"p\" class=\"c\">one<b>two</b></p><input id=\"i\" value=\"v\"><br></div><div id=\"s\"><span id=\"q\">q</span></div>","modules":[
{"name":"owner","language":"cajita","source":"doc.getElementById('p').getText();","grants":[{"name":"doc","root":"r"}]},
{"name":"guest","language":"cajita","source":"doc.appendChild(doc.createElement('form'));","grants":[{"name":"doc","root":"s"}]}]}
⇒
group owner
group guest
load owner return "onetwo"
load guest throw error guest#0 TypeError "not allowed"
html 132
<div id="r" title="t"><p id="p" class="c">one<b>two</b></p><input id="i" value="v"><br></div><div id="s"><span id="q">q</span></div>
end done
# a guest writes tags into a text
page
{"version":1,"html":"<div id=\"r\" title=\"t\"><p id=\"p\" class=\"c\">one<b>two</b></p><input id=\"i\" value=\"v\"><br></div><div id=\"s\"><span id=\"q\">q</span></div>","modules":[
{"name":"owner","language":"cajita","source":"doc.getElementById('p').getText();","grants":[{"name":"doc","root":"r"}]},
{"name":"guest","language":"cajita","source":"doc.setText('</div><script>x()</script>');","grants":[{"name":"doc","root":"s"}]}]}
⇒
group owner
group guest
load owner return "onetwo"
dom s text 0 "\x3C/div\x3E\x3Cscript\x3Ex()\x3C/script\x3E"
load guest return undefined
html 155
<div id="r" title="t"><p id="p" class="c">one<b>two</b></p><input id="i" value="v"><br></div><div id="s">&lt;/div&gt;&lt;script&gt;x()&lt;/script&gt;</div>
end done
# a guest writes tags into an attribute
page
{"version":1,"html":"<div id=\"r\" title=\"t\"><p id=\"p\" class=\"c\">one<b>two</b></p><input id=\"i\" value=\"v\"><br></div><div id=\"s\"><span id=\"q\">q</span></div>","modules":[
{"name":"owner","language":"cajita","source":"doc.getElementById('p').getText();","grants":[{"name":"doc","root":"r"}]},
{"name":"guest","language":"cajita","source":"doc.setAttribute('title', '\"><script>x()</script>');","grants":[{"name":"doc","root":"s"}]}]}
⇒
group owner
group guest
load owner return "onetwo"
dom s set 0 "title" "\"\x3E\x3Cscript\x3Ex()\x3C/script\x3E"
load guest return undefined
html 183
<div id="r" title="t"><p id="p" class="c">one<b>two</b></p><input id="i" value="v"><br></div><div id="s" title="&quot;&gt;&lt;script&gt;x()&lt;/script&gt;"><span id="q">q</span></div>
end done
# a guest writes an entity
page
{"version":1,"html":"<div id=\"r\" title=\"t\"><p id=\"p\" class=\"c\">one<b>two</b></p><input id=\"i\" value=\"v\"><br></div><div id=\"s\"><span id=\"q\">q</span></div>","modules":[
{"name":"owner","language":"cajita","source":"doc.getElementById('p').getText();","grants":[{"name":"doc","root":"r"}]},
{"name":"guest","language":"cajita","source":"doc.setText('&lt;b&gt;');","grants":[{"name":"doc","root":"s"}]}]}
⇒
group owner
group guest
load owner return "onetwo"
dom s text 0 "&lt;b&gt;"
load guest return undefined
html 128
<div id="r" title="t"><p id="p" class="c">one<b>two</b></p><input id="i" value="v"><br></div><div id="s">&amp;lt;b&amp;gt;</div>
end done
# a guest sets a handler
page
{"version":1,"html":"<div id=\"r\" title=\"t\"><p id=\"p\" class=\"c\">one<b>two</b></p><input id=\"i\" value=\"v\"><br></div><div id=\"s\"><span id=\"q\">q</span></div>","modules":[
{"name":"owner","language":"cajita","source":"doc.getElementById('p').getText();","grants":[{"name":"doc","root":"r"}]},
{"name":"guest","language":"cajita","source":"doc.setAttribute('onmouseover', 'x()');","grants":[{"name":"doc","root":"s"}]}]}
⇒
group owner
group guest
load owner return "onetwo"
load guest throw error guest#0 TypeError "not allowed"
html 132
<div id="r" title="t"><p id="p" class="c">one<b>two</b></p><input id="i" value="v"><br></div><div id="s"><span id="q">q</span></div>
end done
# a guest sets a handler in other letters
page
{"version":1,"html":"<div id=\"r\" title=\"t\"><p id=\"p\" class=\"c\">one<b>two</b></p><input id=\"i\" value=\"v\"><br></div><div id=\"s\"><span id=\"q\">q</span></div>","modules":[
{"name":"owner","language":"cajita","source":"doc.getElementById('p').getText();","grants":[{"name":"doc","root":"r"}]},
{"name":"guest","language":"cajita","source":"doc.setAttribute('ONCLICK', 'x()');","grants":[{"name":"doc","root":"s"}]}]}
⇒
group owner
group guest
load owner return "onetwo"
load guest throw error guest#0 TypeError "not allowed"
html 132
<div id="r" title="t"><p id="p" class="c">one<b>two</b></p><input id="i" value="v"><br></div><div id="s"><span id="q">q</span></div>
end done
# a guest takes the id of the other
page
{"version":1,"html":"<div id=\"r\" title=\"t\"><p id=\"p\" class=\"c\">one<b>two</b></p><input id=\"i\" value=\"v\"><br></div><div id=\"s\"><span id=\"q\">q</span></div>","modules":[
{"name":"owner","language":"cajita","source":"doc.getElementById('p').getText();","grants":[{"name":"doc","root":"r"}]},
{"name":"guest","language":"cajita","source":"doc.getElementById('q').setAttribute('id', 'p');","grants":[{"name":"doc","root":"s"}]}]}
⇒
group owner
group guest
load owner return "onetwo"
load guest throw error guest#0 TypeError "not allowed"
html 132
<div id="r" title="t"><p id="p" class="c">one<b>two</b></p><input id="i" value="v"><br></div><div id="s"><span id="q">q</span></div>
end done
# a guest sets a frame's source
page
{"version":1,"html":"<div id=\"r\" title=\"t\"><p id=\"p\" class=\"c\">one<b>two</b></p><input id=\"i\" value=\"v\"><br></div><div id=\"s\"><span id=\"q\">q</span></div>","modules":[
{"name":"owner","language":"cajita","source":"doc.getElementById('p').getText();","grants":[{"name":"doc","root":"r"}]},
{"name":"guest","language":"cajita","source":"doc.setAttribute('src', 'https://e.example/');","grants":[{"name":"doc","root":"s"}]}]}
⇒
group owner
group guest
load owner return "onetwo"
load guest throw error guest#0 TypeError "not allowed"
html 132
<div id="r" title="t"><p id="p" class="c">one<b>two</b></p><input id="i" value="v"><br></div><div id="s"><span id="q">q</span></div>
end done
# a guest sets a style
page
{"version":1,"html":"<div id=\"r\" title=\"t\"><p id=\"p\" class=\"c\">one<b>two</b></p><input id=\"i\" value=\"v\"><br></div><div id=\"s\"><span id=\"q\">q</span></div>","modules":[
{"name":"owner","language":"cajita","source":"doc.getElementById('p').getText();","grants":[{"name":"doc","root":"r"}]},
{"name":"guest","language":"cajita","source":"doc.setAttribute('style', 'position:fixed');","grants":[{"name":"doc","root":"s"}]}]}
⇒
group owner
group guest
load owner return "onetwo"
load guest throw error guest#0 TypeError "not allowed"
html 132
<div id="r" title="t"><p id="p" class="c">one<b>two</b></p><input id="i" value="v"><br></div><div id="s"><span id="q">q</span></div>
end done
# a guest leads to code
page
{"version":1,"html":"<div id=\"r\" title=\"t\"><p id=\"p\" class=\"c\">one<b>two</b></p><input id=\"i\" value=\"v\"><br></div><div id=\"s\"><span id=\"q\">q</span></div>","modules":[
{"name":"owner","language":"cajita","source":"doc.getElementById('p').getText();","grants":[{"name":"doc","root":"r"}]},
{"name":"guest","language":"cajita","source":"var a = doc.createElement('a'); a.setAttribute('href', ' jAvAsCrIpT:x()');","grants":[{"name":"doc","root":"s"}]}]}
⇒
group owner
group guest
load owner return "onetwo"
load guest throw error guest#0 TypeError "not allowed"
html 132
<div id="r" title="t"><p id="p" class="c">one<b>two</b></p><input id="i" value="v"><br></div><div id="s"><span id="q">q</span></div>
end done
# a guest leads to code by a reference
page
{"version":1,"html":"<div id=\"r\" title=\"t\"><p id=\"p\" class=\"c\">one<b>two</b></p><input id=\"i\" value=\"v\"><br></div><div id=\"s\"><span id=\"q\">q</span></div>","modules":[
{"name":"owner","language":"cajita","source":"doc.getElementById('p').getText();","grants":[{"name":"doc","root":"r"}]},
{"name":"guest","language":"cajita","source":"var a = doc.createElement('a'); a.setAttribute('href', '&#106;avascript:x()');","grants":[{"name":"doc","root":"s"}]}]}
⇒
group owner
group guest
load owner return "onetwo"
load guest throw error guest#0 TypeError "not allowed"
html 132
<div id="r" title="t"><p id="p" class="c">one<b>two</b></p><input id="i" value="v"><br></div><div id="s"><span id="q">q</span></div>
end done
# a guest asks for the window
page
{"version":1,"html":"<div id=\"r\" title=\"t\"><p id=\"p\" class=\"c\">one<b>two</b></p><input id=\"i\" value=\"v\"><br></div><div id=\"s\"><span id=\"q\">q</span></div>","modules":[
{"name":"owner","language":"cajita","source":"doc.getElementById('p').getText();","grants":[{"name":"doc","root":"r"}]},
{"name":"guest","language":"cajita","source":"doc.ownerDocument;","grants":[{"name":"doc","root":"s"}]}]}
⇒
group owner
group guest
load owner return "onetwo"
load guest return undefined
html 132
<div id="r" title="t"><p id="p" class="c">one<b>two</b></p><input id="i" value="v"><br></div><div id="s"><span id="q">q</span></div>
end done
# a guest asks for the markup
page
{"version":1,"html":"<div id=\"r\" title=\"t\"><p id=\"p\" class=\"c\">one<b>two</b></p><input id=\"i\" value=\"v\"><br></div><div id=\"s\"><span id=\"q\">q</span></div>","modules":[
{"name":"owner","language":"cajita","source":"doc.getElementById('p').getText();","grants":[{"name":"doc","root":"r"}]},
{"name":"guest","language":"cajita","source":"doc.outerHTML;","grants":[{"name":"doc","root":"s"}]}]}
⇒
group owner
group guest
load owner return "onetwo"
load guest return undefined
html 132
<div id="r" title="t"><p id="p" class="c">one<b>two</b></p><input id="i" value="v"><br></div><div id="s"><span id="q">q</span></div>
end done
# a guest reads a hidden key
page
{"version":1,"html":"<div id=\"r\" title=\"t\"><p id=\"p\" class=\"c\">one<b>two</b></p><input id=\"i\" value=\"v\"><br></div><div id=\"s\"><span id=\"q\">q</span></div>","modules":[
{"name":"owner","language":"cajita","source":"doc.getElementById('p').getText();","grants":[{"name":"doc","root":"r"}]},
{"name":"guest","language":"cajita","source":"doc['node___'];","grants":[{"name":"doc","root":"s"}]}]}
⇒
group owner
group guest
load owner return "onetwo"
load guest return undefined
html 132
<div id="r" title="t"><p id="p" class="c">one<b>two</b></p><input id="i" value="v"><br></div><div id="s"><span id="q">q</span></div>
end done
# a guest asks for the prototype
page
{"version":1,"html":"<div id=\"r\" title=\"t\"><p id=\"p\" class=\"c\">one<b>two</b></p><input id=\"i\" value=\"v\"><br></div><div id=\"s\"><span id=\"q\">q</span></div>","modules":[
{"name":"owner","language":"cajita","source":"doc.getElementById('p').getText();","grants":[{"name":"doc","root":"r"}]},
{"name":"guest","language":"cajita","source":"doc['__proto__'];","grants":[{"name":"doc","root":"s"}]}]}
⇒
group owner
group guest
load owner return "onetwo"
load guest return undefined
html 132
<div id="r" title="t"><p id="p" class="c">one<b>two</b></p><input id="i" value="v"><br></div><div id="s"><span id="q">q</span></div>
end done
# a guest borrows a method of its node for a record
page
{"version":1,"html":"<div id=\"r\" title=\"t\"><p id=\"p\" class=\"c\">one<b>two</b></p><input id=\"i\" value=\"v\"><br></div><div id=\"s\"><span id=\"q\">q</span></div>","modules":[
{"name":"owner","language":"cajita","source":"doc.getElementById('p').getText();","grants":[{"name":"doc","root":"r"}]},
{"name":"guest","language":"cajita","source":"doc.getParentNode.call({});","grants":[{"name":"doc","root":"s"}]}]}
⇒
group owner
group guest
load owner return "onetwo"
load guest throw error guest#1 TypeError "bad receiver"
html 132
<div id="r" title="t"><p id="p" class="c">one<b>two</b></p><input id="i" value="v"><br></div><div id="s"><span id="q">q</span></div>
end done
# a guest borrows a method by `apply`
page
{"version":1,"html":"<div id=\"r\" title=\"t\"><p id=\"p\" class=\"c\">one<b>two</b></p><input id=\"i\" value=\"v\"><br></div><div id=\"s\"><span id=\"q\">q</span></div>","modules":[
{"name":"owner","language":"cajita","source":"doc.getElementById('p').getText();","grants":[{"name":"doc","root":"r"}]},
{"name":"guest","language":"cajita","source":"doc.getParentNode.apply(cajita, []);","grants":[{"name":"doc","root":"s"}]}]}
⇒
group owner
group guest
load owner return "onetwo"
load guest throw error guest#1 TypeError "bad receiver"
html 132
<div id="r" title="t"><p id="p" class="c">one<b>two</b></p><input id="i" value="v"><br></div><div id="s"><span id="q">q</span></div>
end done
# a guest freezes its node
page
{"version":1,"html":"<div id=\"r\" title=\"t\"><p id=\"p\" class=\"c\">one<b>two</b></p><input id=\"i\" value=\"v\"><br></div><div id=\"s\"><span id=\"q\">q</span></div>","modules":[
{"name":"owner","language":"cajita","source":"doc.getElementById('p').getText();","grants":[{"name":"doc","root":"r"}]},
{"name":"guest","language":"cajita","source":"cajita.freeze(doc);","grants":[{"name":"doc","root":"s"}]}]}
⇒
group owner
group guest
load owner return "onetwo"
load guest return node node:s/0
html 132
<div id="r" title="t"><p id="p" class="c">one<b>two</b></p><input id="i" value="v"><br></div><div id="s"><span id="q">q</span></div>
end done
# a guest copies its node
page
{"version":1,"html":"<div id=\"r\" title=\"t\"><p id=\"p\" class=\"c\">one<b>two</b></p><input id=\"i\" value=\"v\"><br></div><div id=\"s\"><span id=\"q\">q</span></div>","modules":[
{"name":"owner","language":"cajita","source":"doc.getElementById('p').getText();","grants":[{"name":"doc","root":"r"}]},
{"name":"guest","language":"cajita","source":"cajita.copy(doc);","grants":[{"name":"doc","root":"s"}]}]}
⇒
group owner
group guest
load owner return "onetwo"
load guest throw error guest#0 TypeError "bad argument"
html 132
<div id="r" title="t"><p id="p" class="c">one<b>two</b></p><input id="i" value="v"><br></div><div id="s"><span id="q">q</span></div>
end done
# a guest listens for all
page
{"version":1,"html":"<div id=\"r\" title=\"t\"><p id=\"p\" class=\"c\">one<b>two</b></p><input id=\"i\" value=\"v\"><br></div><div id=\"s\"><span id=\"q\">q</span></div>","modules":[
{"name":"owner","language":"cajita","source":"doc.getElementById('p').getText();","grants":[{"name":"doc","root":"r"}]},
{"name":"guest","language":"cajita","source":"doc.on('*', function () {});","grants":[{"name":"doc","root":"s"}]}]}
⇒
group owner
group guest
load owner return "onetwo"
load guest throw error guest#1 TypeError "bad argument"
html 132
<div id="r" title="t"><p id="p" class="c">one<b>two</b></p><input id="i" value="v"><br></div><div id="s"><span id="q">q</span></div>
end done
# a guest listens with what is no function of its own
page
{"version":1,"html":"<div id=\"r\" title=\"t\"><p id=\"p\" class=\"c\">one<b>two</b></p><input id=\"i\" value=\"v\"><br></div><div id=\"s\"><span id=\"q\">q</span></div>","modules":[
{"name":"owner","language":"cajita","source":"doc.getElementById('p').getText();","grants":[{"name":"doc","root":"r"}]},
{"name":"guest","language":"cajita","source":"doc.on('click', Math.max);","grants":[{"name":"doc","root":"s"}]}]}
⇒
group owner
group guest
load owner return "onetwo"
load guest throw error guest#0 TypeError "bad argument"
html 132
<div id="r" title="t"><p id="p" class="c">one<b>two</b></p><input id="i" value="v"><br></div><div id="s"><span id="q">q</span></div>
end done
# a guest appends its root to a new node
page
{"version":1,"html":"<div id=\"r\" title=\"t\"><p id=\"p\" class=\"c\">one<b>two</b></p><input id=\"i\" value=\"v\"><br></div><div id=\"s\"><span id=\"q\">q</span></div>","modules":[
{"name":"owner","language":"cajita","source":"doc.getElementById('p').getText();","grants":[{"name":"doc","root":"r"}]},
{"name":"guest","language":"cajita","source":"doc.createElement('div').appendChild(doc);","grants":[{"name":"doc","root":"s"}]}]}
⇒
group owner
group guest
load owner return "onetwo"
load guest throw error guest#0 TypeError "not allowed"
html 132
<div id="r" title="t"><p id="p" class="c">one<b>two</b></p><input id="i" value="v"><br></div><div id="s"><span id="q">q</span></div>
end done
# a guest empties its root, and no other
page
{"version":1,"html":"<div id=\"r\" title=\"t\"><p id=\"p\" class=\"c\">one<b>two</b></p><input id=\"i\" value=\"v\"><br></div><div id=\"s\"><span id=\"q\">q</span></div>","modules":[
{"name":"owner","language":"cajita","source":"doc.getElementById('p').getText();","grants":[{"name":"doc","root":"r"}]},
{"name":"guest","language":"cajita","source":"doc.setText('');","grants":[{"name":"doc","root":"s"}]}]}
⇒
group owner
group guest
load owner return "onetwo"
dom s text 0 ""
load guest return undefined
html 111
<div id="r" title="t"><p id="p" class="c">one<b>two</b></p><input id="i" value="v"><br></div><div id="s"></div>
end done
# a guest deletes a method
page
{"version":1,"html":"<div id=\"r\" title=\"t\"><p id=\"p\" class=\"c\">one<b>two</b></p><input id=\"i\" value=\"v\"><br></div><div id=\"s\"><span id=\"q\">q</span></div>","modules":[
{"name":"owner","language":"cajita","source":"doc.getElementById('p').getText();","grants":[{"name":"doc","root":"r"}]},
{"name":"guest","language":"cajita","source":"delete doc.getText;","grants":[{"name":"doc","root":"s"}]}]}
⇒
group owner
group guest
load owner return "onetwo"
load guest throw error guest#0 TypeError "not deletable"
html 132
<div id="r" title="t"><p id="p" class="c">one<b>two</b></p><input id="i" value="v"><br></div><div id="s"><span id="q">q</span></div>
end done
"##;

#[test]
fn a_guest_stays_within_its_root(rt: HostRuntime) -> Result<(), Fail> {
    check_pages(rt.alloc(), GUESTS)
}

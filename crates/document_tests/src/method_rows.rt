//! A module that is granted a root, and what its nodes answer.

use command_runs::page_tables::check_pages;
use std::test::Fail;

/// Each method, at ordinary and edge cases.
static NODES: &str = r#"
# tags, parents and children
page
{"version":1,"html":"<div id=\"r\" title=\"t\"><p id=\"p\" class=\"c\">one<b>two</b></p><input id=\"i\" value=\"v\"><br></div>","modules":[
{"name":"m","language":"cajita","source":"var out = []; function attempt(f) { try { out.push('' + f()); } catch (e) { out.push(e.message); } } var p = doc.getElementById('p'), b = p.getChildNodes()[1], one = p.getChildNodes()[0], i = doc.getElementById('i'), br = doc.getChildNodes()[2]; attempt(function () { return doc.getTagName(); }); attempt(function () { return one.getTagName(); }); attempt(function () { return p.getParentNode() === doc; }); attempt(function () { return doc.getParentNode(); }); attempt(function () { return one.getParentNode() === p; }); attempt(function () { return doc.getChildNodes().length; }); attempt(function () { return one.getChildNodes().length; }); attempt(function () { return p.getChildNodes()[0] === one; }); out.join(', ');","grants":[{"name":"doc","root":"r"}]}]}
⇒
group m
load m return "div, #text, true, null, true, 3, 0, true"
html 93
<div id="r" title="t"><p id="p" class="c">one<b>two</b></p><input id="i" value="v"><br></div>
end done
# elements by their ids, at and below the receiver alone
page
{"version":1,"html":"<div id=\"r\" title=\"t\"><p id=\"p\" class=\"c\">one<b>two</b></p><input id=\"i\" value=\"v\"><br></div>","modules":[
{"name":"m","language":"cajita","source":"var out = []; function attempt(f) { try { out.push('' + f()); } catch (e) { out.push(e.message); } } var p = doc.getElementById('p'), b = p.getChildNodes()[1], one = p.getChildNodes()[0], i = doc.getElementById('i'), br = doc.getChildNodes()[2]; attempt(function () { return doc.getElementById('r') === doc; }); attempt(function () { return doc.getElementById('p') === p; }); attempt(function () { return p.getElementById('i'); }); attempt(function () { return doc.getElementById('x'); }); attempt(function () { return b.getElementById('p'); }); attempt(function () { return one.getElementById('p'); }); out.join(', ');","grants":[{"name":"doc","root":"r"}]}]}
⇒
group m
load m return "true, true, null, null, null, null"
html 93
<div id="r" title="t"><p id="p" class="c">one<b>two</b></p><input id="i" value="v"><br></div>
end done
# attributes
page
{"version":1,"html":"<div id=\"r\" title=\"t\"><p id=\"p\" class=\"c\">one<b>two</b></p><input id=\"i\" value=\"v\"><br></div>","modules":[
{"name":"m","language":"cajita","source":"var out = []; function attempt(f) { try { out.push('' + f()); } catch (e) { out.push(e.message); } } var p = doc.getElementById('p'), b = p.getChildNodes()[1], one = p.getChildNodes()[0], i = doc.getElementById('i'), br = doc.getChildNodes()[2]; attempt(function () { return doc.getAttribute('title'); }); attempt(function () { return doc.getAttribute('id'); }); attempt(function () { return p.getAttribute('class'); }); attempt(function () { return p.getAttribute('x'); }); attempt(function () { return one.getAttribute('class'); }); attempt(function () { return i.getAttribute('value'); }); out.join(', ');","grants":[{"name":"doc","root":"r"}]}]}
⇒
group m
load m return "t, r, c, null, null, v"
html 93
<div id="r" title="t"><p id="p" class="c">one<b>two</b></p><input id="i" value="v"><br></div>
end done
# texts
page
{"version":1,"html":"<div id=\"r\" title=\"t\"><p id=\"p\" class=\"c\">one<b>two</b></p><input id=\"i\" value=\"v\"><br></div>","modules":[
{"name":"m","language":"cajita","source":"var out = []; function attempt(f) { try { out.push('' + f()); } catch (e) { out.push(e.message); } } var p = doc.getElementById('p'), b = p.getChildNodes()[1], one = p.getChildNodes()[0], i = doc.getElementById('i'), br = doc.getChildNodes()[2]; attempt(function () { return doc.getText(); }); attempt(function () { return p.getText(); }); attempt(function () { return one.getText(); }); attempt(function () { return b.getText(); }); attempt(function () { return i.getText(); }); out.join(', ');","grants":[{"name":"doc","root":"r"}]}]}
⇒
group m
load m return "onetwo, onetwo, one, two, "
html 93
<div id="r" title="t"><p id="p" class="c">one<b>two</b></p><input id="i" value="v"><br></div>
end done
# attributes that are set: what the table keeps
page
{"version":1,"html":"<div id=\"r\" title=\"t\"><p id=\"p\" class=\"c\">one<b>two</b></p><input id=\"i\" value=\"v\"><br></div>","modules":[
{"name":"m","language":"cajita","source":"var out = []; function attempt(f) { try { out.push('' + f()); } catch (e) { out.push(e.message); } } var p = doc.getElementById('p'), b = p.getChildNodes()[1], one = p.getChildNodes()[0], i = doc.getElementById('i'), br = doc.getChildNodes()[2]; attempt(function () { return p.setAttribute('title', '<\"&>'); }); attempt(function () { return p.setAttribute('class', 'a b'); }); attempt(function () { return p.setAttribute('class', ' a'); }); attempt(function () { return p.setAttribute('onclick', 'x()'); }); attempt(function () { return p.setAttribute('style', 'x'); }); attempt(function () { return p.setAttribute('alt', 'x'); }); attempt(function () { return p.setAttribute('id', 'q'); }); attempt(function () { return one.setAttribute('title', 'x'); }); attempt(function () { return p.getAttribute('title'); }); out.join(', ');","grants":[{"name":"doc","root":"r"}]}]}
⇒
group m
dom r set 1 "title" "\x3C\"&\x3E"
dom r set 1 "class" "a b"
load m return "undefined, undefined, not allowed, not allowed, not allowed, not allowed, not allowed, not allowed, \x3C\"&\x3E"
html 123
<div id="r" title="t"><p id="p" class="a b" title="&lt;&quot;&amp;&gt;">one<b>two</b></p><input id="i" value="v"><br></div>
end done
# a text over a tree: what stood there is detached, and may be appended again
page
{"version":1,"html":"<div id=\"r\" title=\"t\"><p id=\"p\" class=\"c\">one<b>two</b></p><input id=\"i\" value=\"v\"><br></div>","modules":[
{"name":"m","language":"cajita","source":"var out = []; function attempt(f) { try { out.push('' + f()); } catch (e) { out.push(e.message); } } var p = doc.getElementById('p'), b = p.getChildNodes()[1], one = p.getChildNodes()[0], i = doc.getElementById('i'), br = doc.getChildNodes()[2]; p.setText('new'); attempt(function () { return b.getParentNode(); }); attempt(function () { return p.getChildNodes().length; }); attempt(function () { return b.getText(); }); attempt(function () { return doc.appendChild(b) === b; }); one.setText('1'); attempt(function () { return one.getText(); }); out.join(', ');","grants":[{"name":"doc","root":"r"}]}]}
⇒
group m
dom r text 1 "new"
dom r append 0 3
dom r text 2 "1"
load m return "null, 1, two, true, 1"
html 93
<div id="r" title="t"><p id="p" class="c">new</p><input id="i" value="v"><br><b>two</b></div>
end done
# tags without content hold nothing
page
{"version":1,"html":"<div id=\"r\" title=\"t\"><p id=\"p\" class=\"c\">one<b>two</b></p><input id=\"i\" value=\"v\"><br></div>","modules":[
{"name":"m","language":"cajita","source":"var out = []; function attempt(f) { try { out.push('' + f()); } catch (e) { out.push(e.message); } } var p = doc.getElementById('p'), b = p.getChildNodes()[1], one = p.getChildNodes()[0], i = doc.getElementById('i'), br = doc.getChildNodes()[2]; attempt(function () { return br.setText('x'); }); attempt(function () { return br.appendChild(one); }); attempt(function () { return i.appendChild(b); }); attempt(function () { return br.getChildNodes().length; }); attempt(function () { return one.appendChild(b); }); out.join(', ');","grants":[{"name":"doc","root":"r"}]}]}
⇒
group m
load m return "not allowed, not allowed, not allowed, 0, not allowed"
html 93
<div id="r" title="t"><p id="p" class="c">one<b>two</b></p><input id="i" value="v"><br></div>
end done
# new nodes are detached, and take the next numbers
page
{"version":1,"html":"<div id=\"r\" title=\"t\"><p id=\"p\" class=\"c\">one<b>two</b></p><input id=\"i\" value=\"v\"><br></div>","modules":[
{"name":"m","language":"cajita","source":"var out = []; function attempt(f) { try { out.push('' + f()); } catch (e) { out.push(e.message); } } var p = doc.getElementById('p'), b = p.getChildNodes()[1], one = p.getChildNodes()[0], i = doc.getElementById('i'), br = doc.getChildNodes()[2]; var e = doc.createElement('em'), t = doc.createTextNode('<t>'); attempt(function () { return e.getParentNode(); }); attempt(function () { return doc.getElementById('em'); }); e.appendChild(t); p.appendChild(e); attempt(function () { return p.getText(); }); attempt(function () { return doc.createElement('script'); }); attempt(function () { return doc.createElement('DIV'); }); out.join(', ');","grants":[{"name":"doc","root":"r"}]}]}
⇒
group m
dom r append 7 8
dom r append 1 7
load m return "null, null, onetwo\x3Ct\x3E, not allowed, not allowed"
html 111
<div id="r" title="t"><p id="p" class="c">one<b>two</b><em>&lt;t&gt;</em></p><input id="i" value="v"><br></div>
end done
# a node is moved within its parent and between parents
page
{"version":1,"html":"<div id=\"r\" title=\"t\"><p id=\"p\" class=\"c\">one<b>two</b></p><input id=\"i\" value=\"v\"><br></div>","modules":[
{"name":"m","language":"cajita","source":"var out = []; function attempt(f) { try { out.push('' + f()); } catch (e) { out.push(e.message); } } var p = doc.getElementById('p'), b = p.getChildNodes()[1], one = p.getChildNodes()[0], i = doc.getElementById('i'), br = doc.getChildNodes()[2]; p.appendChild(one); doc.appendChild(b); p.getText();","grants":[{"name":"doc","root":"r"}]}]}
⇒
group m
dom r append 1 2
dom r append 0 3
load m return "one"
html 93
<div id="r" title="t"><p id="p" class="c">one</p><input id="i" value="v"><br><b>two</b></div>
end done
# no node goes into itself or below
page
{"version":1,"html":"<div id=\"r\" title=\"t\"><p id=\"p\" class=\"c\">one<b>two</b></p><input id=\"i\" value=\"v\"><br></div>","modules":[
{"name":"m","language":"cajita","source":"var out = []; function attempt(f) { try { out.push('' + f()); } catch (e) { out.push(e.message); } } var p = doc.getElementById('p'), b = p.getChildNodes()[1], one = p.getChildNodes()[0], i = doc.getElementById('i'), br = doc.getChildNodes()[2]; attempt(function () { return p.appendChild(p); }); attempt(function () { return b.appendChild(p); }); attempt(function () { return p.appendChild(doc); }); attempt(function () { return b.appendChild(doc); }); attempt(function () { return doc.appendChild(doc); }); out.join(', ');","grants":[{"name":"doc","root":"r"}]}]}
⇒
group m
load m return "cycle, cycle, not allowed, not allowed, not allowed"
html 93
<div id="r" title="t"><p id="p" class="c">one<b>two</b></p><input id="i" value="v"><br></div>
end done
# children are removed from their own parent alone
page
{"version":1,"html":"<div id=\"r\" title=\"t\"><p id=\"p\" class=\"c\">one<b>two</b></p><input id=\"i\" value=\"v\"><br></div>","modules":[
{"name":"m","language":"cajita","source":"var out = []; function attempt(f) { try { out.push('' + f()); } catch (e) { out.push(e.message); } } var p = doc.getElementById('p'), b = p.getChildNodes()[1], one = p.getChildNodes()[0], i = doc.getElementById('i'), br = doc.getChildNodes()[2]; attempt(function () { return doc.removeChild(b); }); attempt(function () { return p.removeChild(b) === b; }); attempt(function () { return p.removeChild(b); }); attempt(function () { return b.getParentNode(); }); attempt(function () { return p.removeChild(p); }); attempt(function () { return doc.removeChild(doc); }); out.join(', ');","grants":[{"name":"doc","root":"r"}]}]}
⇒
group m
dom r remove 1 3
load m return "bad argument, true, bad argument, null, bad argument, bad argument"
html 83
<div id="r" title="t"><p id="p" class="c">one</p><input id="i" value="v"><br></div>
end done
# what is to be a node and is none
page
{"version":1,"html":"<div id=\"r\" title=\"t\"><p id=\"p\" class=\"c\">one<b>two</b></p><input id=\"i\" value=\"v\"><br></div>","modules":[
{"name":"m","language":"cajita","source":"var out = []; function attempt(f) { try { out.push('' + f()); } catch (e) { out.push(e.message); } } var p = doc.getElementById('p'), b = p.getChildNodes()[1], one = p.getChildNodes()[0], i = doc.getElementById('i'), br = doc.getChildNodes()[2]; attempt(function () { return doc.appendChild(null); }); attempt(function () { return doc.appendChild('p'); }); attempt(function () { return doc.appendChild({}); }); attempt(function () { return doc.removeChild(); }); attempt(function () { return doc.on('click', 5); }); attempt(function () { return doc.on('focus', function () {}); }); attempt(function () { return doc.on('click', say); }); attempt(function () { return doc.on('click', function () {}); }); out.join(', ');","grants":[{"name":"doc","root":"r"}]}]}
⇒
group m
load m return "bad argument, bad argument, bad argument, bad argument, bad argument, bad argument, bad argument, undefined"
html 93
<div id="r" title="t"><p id="p" class="c">one<b>two</b></p><input id="i" value="v"><br></div>
end done
# any value is a text
page
{"version":1,"html":"<div id=\"r\" title=\"t\"><p id=\"p\" class=\"c\">one<b>two</b></p><input id=\"i\" value=\"v\"><br></div>","modules":[
{"name":"m","language":"cajita","source":"var out = []; function attempt(f) { try { out.push('' + f()); } catch (e) { out.push(e.message); } } var p = doc.getElementById('p'), b = p.getChildNodes()[1], one = p.getChildNodes()[0], i = doc.getElementById('i'), br = doc.getChildNodes()[2]; attempt(function () { return p.setAttribute('title', 5); }); attempt(function () { return p.getAttribute('title'); }); attempt(function () { return p.setAttribute('title'); }); attempt(function () { return p.getAttribute('title'); }); attempt(function () { return p.setText(null); }); attempt(function () { return p.getText(); }); attempt(function () { return doc.getElementById(); }); out.join(', ');","grants":[{"name":"doc","root":"r"}]}]}
⇒
group m
dom r set 1 "title" "5"
dom r set 1 "title" "undefined"
dom r text 1 "null"
load m return "undefined, 5, undefined, undefined, undefined, null, null"
html 102
<div id="r" title="t"><p id="p" class="c" title="undefined">null</p><input id="i" value="v"><br></div>
end done
# a node has no property, and is frozen
page
{"version":1,"html":"<div id=\"r\" title=\"t\"><p id=\"p\" class=\"c\">one<b>two</b></p><input id=\"i\" value=\"v\"><br></div>","modules":[
{"name":"m","language":"cajita","source":"var out = []; function attempt(f) { try { out.push('' + f()); } catch (e) { out.push(e.message); } } var p = doc.getElementById('p'), b = p.getChildNodes()[1], one = p.getChildNodes()[0], i = doc.getElementById('i'), br = doc.getChildNodes()[2]; attempt(function () { return doc.x; }); attempt(function () { return (doc.x = 1); }); attempt(function () { return delete doc.x; }); attempt(function () { return 'x' in doc; }); attempt(function () { return cajita.keys(doc).length; }); attempt(function () { return cajita.isFrozen(doc); }); attempt(function () { return cajita.isRecord(doc); }); attempt(function () { return cajita.copy(doc); }); attempt(function () { return typeof doc; }); attempt(function () { return doc.getText === b.getText; }); out.join(', ');","grants":[{"name":"doc","root":"r"}]}]}
⇒
group m
load m return "undefined, not writable, not deletable, false, 0, true, false, bad argument, object, true"
html 93
<div id="r" title="t"><p id="p" class="c">one<b>two</b></p><input id="i" value="v"><br></div>
end done
"#;

#[test]
fn each_method_of_a_node_is_as_specified(rt: HostRuntime) -> Result<(), Fail> {
    check_pages(rt.alloc(), NODES)
}

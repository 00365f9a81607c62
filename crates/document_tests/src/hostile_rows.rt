//! Guests that try to leave the root which they were granted, each beside a victim with a root of its own.

use command_runs::page_tables::check_pages;
use std::test::Fail;

/// What each try comes to.
static GUESTS: &str = r#"
# a root has no way up, and finds no id of another root
page
{"version":1,"html":"<div id=\"out\"><p id=\"a\"><b>mine</b></p><p id=\"b\"><i id=\"s\">secret</i></p></div>","modules":[
{"name":"victim","language":"cajita","source":"doc.getText();","grants":[{"name":"doc","root":"b"}]},
{"name":"guest","language":"cajita","source":"var out = []; function attempt(f) { try { out.push('' + f()); } catch (e) { out.push(e.message); } } attempt(function () { return doc.getParentNode(); }); attempt(function () { return doc.getElementById('s'); }); attempt(function () { return doc.getElementById('out'); }); attempt(function () { return doc.getElementById('b'); }); attempt(function () { return doc.parentNode; }); attempt(function () { return doc.ownerDocument; }); out.join(', ');","grants":[{"name":"doc","root":"a"}]}]}
⇒
group victim
group guest
load victim return "secret"
load guest return "null, null, null, null, undefined, undefined"
html 79
<div id="out"><p id="a"><b>mine</b></p><p id="b"><i id="s">secret</i></p></div>
end done
# hidden names of nodes
page
{"version":1,"html":"<div id=\"out\"><p id=\"a\"><b>mine</b></p><p id=\"b\"><i id=\"s\">secret</i></p></div>","modules":[
{"name":"victim","language":"cajita","source":"doc.getText();","grants":[{"name":"doc","root":"b"}]},
{"name":"guest","language":"cajita","source":"var out = []; function attempt(f) { try { out.push('' + f()); } catch (e) { out.push(e.message); } } attempt(function () { return doc['node___']; }); attempt(function () { return doc['__proto__']; }); attempt(function () { doc['getText'] = null; }); attempt(function () { return doc.constructor; }); out.join(', ');","grants":[{"name":"doc","root":"a"}]}]}
⇒
group victim
group guest
load victim return "secret"
load guest return "undefined, undefined, not writable, undefined"
html 79
<div id="out"><p id="a"><b>mine</b></p><p id="b"><i id="s">secret</i></p></div>
end done
# methods on receivers that are no nodes
page
{"version":1,"html":"<div id=\"out\"><p id=\"a\"><b>mine</b></p><p id=\"b\"><i id=\"s\">secret</i></p></div>","modules":[
{"name":"victim","language":"cajita","source":"doc.getText();","grants":[{"name":"doc","root":"b"}]},
{"name":"guest","language":"cajita","source":"var out = []; function attempt(f) { try { out.push('' + f()); } catch (e) { out.push(e.message); } } attempt(function () { return doc.getText.call({}); }); attempt(function () { return doc.appendChild.call(doc, doc); }); attempt(function () { return doc.getParentNode.apply(null); }); attempt(function () { var f = doc.getText; return f(); }); attempt(function () { return ({getText: doc.getText}).getText(); }); attempt(function () { return new doc.getText(); }); attempt(function () { return doc.getText.call(doc); }); out.join(', ');","grants":[{"name":"doc","root":"a"}]}]}
⇒
group victim
group guest
load victim return "secret"
load guest return "bad receiver, not allowed, bad receiver, bad receiver, bad receiver, not a constructor, mine"
html 79
<div id="out"><p id="a"><b>mine</b></p><p id="b"><i id="s">secret</i></p></div>
end done
# markup in texts and values stays text
page
{"version":1,"html":"<div id=\"out\"><p id=\"a\"><b>mine</b></p><p id=\"b\"><i id=\"s\">secret</i></p></div>","modules":[
{"name":"victim","language":"cajita","source":"doc.getText();","grants":[{"name":"doc","root":"b"}]},
{"name":"guest","language":"cajita","source":"var out = []; function attempt(f) { try { out.push('' + f()); } catch (e) { out.push(e.message); } } doc.setText('<script>x</script>'); doc.setAttribute('title', '\"><img src=x onerror=y>'); attempt(function () { return doc.setAttribute('href', 'javascript:x'); }); attempt(function () { return doc.createElement('iframe'); }); attempt(function () { return doc.createElement('a onclick=x'); }); out.join(', ');","grants":[{"name":"doc","root":"a"}]}]}
⇒
group victim
group guest
load victim return "secret"
dom a text 0 "\x3Cscript\x3Ex\x3C/script\x3E"
dom a set 0 "title" "\"\x3E\x3Cimg src=x onerror=y\x3E"
load guest return "not allowed, not allowed, not allowed"
html 144
<div id="out"><p id="a" title="&quot;&gt;&lt;img src=x onerror=y&gt;">&lt;script&gt;x&lt;/script&gt;</p><p id="b"><i id="s">secret</i></p></div>
end done
# an id that is forged by a new element
page
{"version":1,"html":"<div id=\"out\"><p id=\"a\"><b>mine</b></p><p id=\"b\"><i id=\"s\">secret</i></p></div>","modules":[
{"name":"victim","language":"cajita","source":"doc.getText();","grants":[{"name":"doc","root":"b"}]},
{"name":"guest","language":"cajita","source":"var out = []; function attempt(f) { try { out.push('' + f()); } catch (e) { out.push(e.message); } } var e = doc.createElement('i'); attempt(function () { e.setAttribute('id', 's'); }); attempt(function () { e.setAttribute('ID', 's'); }); doc.appendChild(e); attempt(function () { return doc.getElementById('s'); }); out.join(', ');","grants":[{"name":"doc","root":"a"}]}]}
⇒
group victim
group guest
load victim return "secret"
dom a append 0 3
load guest return "not allowed, not allowed, null"
html 86
<div id="out"><p id="a"><b>mine</b><i></i></p><p id="b"><i id="s">secret</i></p></div>
end done
"#;

#[test]
fn no_guest_leaves_its_root(rt: HostRuntime) -> Result<(), Fail> {
    check_pages(rt.alloc(), GUESTS)
}

//! Pages with bases and sheets.

use command_runs::page_tables::check_pages;
use std::test::Fail;

/// What is kept of sheets, which URLs stay, and what is refused, in its order.
static SHEETS: &str = r##"
# a sheet without rules
page
{"version":1,"html":"<p id='a'></p>","styles":[{"root":"a","css":""}],"modules":[{"name":"a","language":"cajita","source":""}]}
⇒
style a 0

group a
load a return undefined
html 14
<p id="a"></p>
end done
# each selector stands behind the scope
page
{"version":1,"html":"<p id='a'></p>","styles":[{"root":"a","css":"p,div > b{color:red}"}],"modules":[{"name":"a","language":"cajita","source":""}]}
⇒
style a 24
#a p,#a div>b{color:red}
group a
load a return undefined
html 14
<p id="a"></p>
end done
# a value that isn't listed is dropped with its declaration
page
{"version":1,"html":"<p id='a'></p>","styles":[{"root":"a","css":"p{font-family:Arial, sans-serif;color:red;}h1+p{color:red}"}],"modules":[{"name":"a","language":"cajita","source":""}]}
⇒
style a 15
#a p{color:red}
group a
load a return undefined
html 14
<p id="a"></p>
end done
# a rule of which nothing is kept is dropped
page
{"version":1,"html":"<p id='a'></p>","styles":[{"root":"a","css":"p{position:fixed}b{color:red}"}],"modules":[{"name":"a","language":"cajita","source":""}]}
⇒
style a 15
#a b{color:red}
group a
load a return undefined
html 14
<p id="a"></p>
end done
# white space and case
page
{"version":1,"html":"<p id='a'></p>","styles":[{"root":"a","css":" P , DIV  >  b { COLOR : RED ; margin : 1px  2px } "}],"modules":[{"name":"a","language":"cajita","source":""}]}
⇒
style a 39
#a p,#a div>b{color:red;margin:1px 2px}
group a
load a return undefined
html 14
<p id="a"></p>
end done
# two sheets for one element, in their order
page
{"version":1,"html":"<p id='a'></p>","styles":[{"root":"a","css":"p{color:red}"},{"root":"a","css":"b{color:blue}"}],"modules":[{"name":"a","language":"cajita","source":""}]}
⇒
style a 15
#a p{color:red}
style a 16
#a b{color:blue}
group a
load a return undefined
html 14
<p id="a"></p>
end done
# sheets for two elements, one inside the other
page
{"version":1,"html":"<div id='a'><b id='b'></b></div>","styles":[{"root":"b","css":"i{color:red}"},{"root":"a","css":"b{color:blue}"}],"modules":[{"name":"a","language":"cajita","source":"","grants":[{"name":"doc","root":"a"}]}]}
⇒
style b 15
#b i{color:red}
style a 16
#a b{color:blue}
group a
load a return undefined
html 32
<div id="a"><b id="b"></b></div>
end done
# a sheet for an element that nobody is granted
page
{"version":1,"html":"<div id='a'><b id='b'></b></div>","styles":[{"root":"b","css":"i{color:red}"}],"modules":[{"name":"a","language":"cajita","source":""}]}
⇒
style b 15
#b i{color:red}
group a
load a return undefined
html 32
<div id="a"><b id="b"></b></div>
end done
# a sheet before groups, log and document
page
{"version":1,"html":"<div id='a'><b id='b'></b></div>","styles":[{"root":"a","css":"i{color:red}"}],"modules":[{"name":"a","language":"cajita","source":"say('x');","grants":[{"name":"doc","root":"a"}]},{"name":"c","language":"cajita","source":"say('y');"}]}
⇒
style a 15
#a i{color:red}
group a
group c
say a "x"
load a return undefined
say c "y"
load c return undefined
html 32
<div id="a"><b id="b"></b></div>
end done
# two pages in one: sheets stand also by run
run
{"version":1,"html":"<p id='a'></p>","styles":[{"root":"a","css":"i{color:red}"}],"modules":[{"name":"a","language":"es3","source":"1;"}]}
⇒
style a 15
#a i{color:red}
group a
load a return 1
html 14
<p id="a"></p>
end done
# a module that writes what a sheet is for
page
{"version":1,"html":"<div id='a'><b id='b'></b></div>","styles":[{"root":"b","css":"i{color:red}"}],"modules":[{"name":"a","language":"cajita","source":"var b = doc.getElementById('b'); doc.removeChild(b);","grants":[{"name":"doc","root":"a"}]}]}
⇒
style b 15
#b i{color:red}
group a
dom a remove 0 1
load a return node node:a/1
html 18
<div id="a"></div>
end done
# an image by https stays
page
{"version":1,"html":"<p id='a'></p>","styles":[{"root":"a","css":"p{background-image:url(https://e.example/x.png)}"}],"modules":[{"name":"a","language":"cajita","source":""}]}
⇒
style a 53
#a p{background-image:url("https://e.example/x.png")}
group a
load a return undefined
html 14
<p id="a"></p>
end done
# an image by http is dropped
page
{"version":1,"html":"<p id='a'></p>","styles":[{"root":"a","css":"p{background-image:url(http://e.example/x.png)}"}],"modules":[{"name":"a","language":"cajita","source":""}]}
⇒
style a 0

group a
load a return undefined
html 14
<p id="a"></p>
end done
# a relative image without a base is dropped
page
{"version":1,"html":"<p id='a'></p>","styles":[{"root":"a","css":"p{background-image:url(x.png);color:red}"}],"modules":[{"name":"a","language":"cajita","source":""}]}
⇒
style a 15
#a p{color:red}
group a
load a return undefined
html 14
<p id="a"></p>
end done
# a relative image is joined to the base
page
{"version":1,"html":"<p id='a'></p>","base":"https://e.example/a/b?c#d","styles":[{"root":"a","css":"p{background-image:url( '../x.png' )}"}],"modules":[{"name":"a","language":"cajita","source":""}]}
⇒
style a 53
#a p{background-image:url("https://e.example/x.png")}
group a
load a return undefined
html 14
<p id="a"></p>
end done
# an image is joined to a base by http and dropped
page
{"version":1,"html":"<p id='a'></p>","base":"http://e.example/","styles":[{"root":"a","css":"p{background-image:url(x.png);color:red}"}],"modules":[{"name":"a","language":"cajita","source":""}]}
⇒
style a 15
#a p{color:red}
group a
load a return undefined
html 14
<p id="a"></p>
end done
# an image of another host, without a scheme
page
{"version":1,"html":"<p id='a'></p>","base":"https://e.example/","styles":[{"root":"a","css":"p{background-image:url(//h.example/x)}"}],"modules":[{"name":"a","language":"cajita","source":""}]}
⇒
style a 49
#a p{background-image:url("https://h.example/x")}
group a
load a return undefined
html 14
<p id="a"></p>
end done
# a place in the same document is no image
page
{"version":1,"html":"<p id='a'></p>","base":"https://e.example/a","styles":[{"root":"a","css":"p{background-image:url(#top)}"}],"modules":[{"name":"a","language":"cajita","source":""}]}
⇒
style a 53
#a p{background-image:url("https://e.example/a#top")}
group a
load a return undefined
html 14
<p id="a"></p>
end done
# a backslash within quotes is an escape
page
{"version":1,"html":"<p id='a'></p>","base":"https://e.example/","styles":[{"root":"a","css":"p{background-image:url('a\\b')}"}],"modules":[{"name":"a","language":"cajita","source":""}]}
⇒
refused - css 2 25
# a query with a quote
page
{"version":1,"html":"<p id='a'></p>","styles":[{"root":"a","css":"p{background-image:url(https://e.example/?a'b)}"}],"modules":[{"name":"a","language":"cajita","source":""}]}
⇒
refused - css 1 47
# a link is joined to the base
page
{"version":1,"html":"<a id='a' href='b'>x</a>","base":"https://e.example/a/","modules":[{"name":"a","language":"cajita","source":""}]}
⇒
group a
load a return undefined
html 44
<a id="a" href="https://e.example/a/b">x</a>
end done
# a link without a base is dropped
page
{"version":1,"html":"<a id='a' href='b'>x</a>","modules":[{"name":"a","language":"cajita","source":""}]}
⇒
group a
load a return undefined
html 15
<a id="a">x</a>
end done
# a place in the same document stays
page
{"version":1,"html":"<a id='a' href='#top'>x</a>","base":"https://e.example/a/","modules":[{"name":"a","language":"cajita","source":""}]}
⇒
group a
load a return undefined
html 27
<a id="a" href="#top">x</a>
end done
# a place in the same document stays without a base
page
{"version":1,"html":"<a id='a' href='#top'>x</a>","modules":[{"name":"a","language":"cajita","source":""}]}
⇒
group a
load a return undefined
html 27
<a id="a" href="#top">x</a>
end done
# an image is joined to the base
page
{"version":1,"html":"<img id='a' src='b.png'>","base":"https://e.example/a/","modules":[{"name":"a","language":"cajita","source":""}]}
⇒
group a
load a return undefined
html 44
<img id="a" src="https://e.example/a/b.png">
end done
# a link by http is dropped
page
{"version":1,"html":"<a id='a' href='http://e.example/'>x</a>","modules":[{"name":"a","language":"cajita","source":""}]}
⇒
group a
load a return undefined
html 15
<a id="a">x</a>
end done
# a link that leaves the host
page
{"version":1,"html":"<a id='a' href='/\\h.example'>x</a>","base":"https://e.example/a/","modules":[{"name":"a","language":"cajita","source":""}]}
⇒
group a
load a return undefined
html 41
<a id="a" href="https://h.example/">x</a>
end done
# other schemes are dropped in any disguise
page
{"version":1,"html":"<a href='javascript:x'>1</a><a href=' JAVA&#9;script:x'>2</a><a href='java&#10;script:x'>3</a><a href='data:text/html,x'>4</a><a href='vbscript:x'>5</a>","base":"https://e.example/","modules":[{"name":"a","language":"cajita","source":""}]}
⇒
group a
load a return undefined
html 40
<a>1</a><a>2</a><a>3</a><a>4</a><a>5</a>
end done
# the text of a URL is the rule's
page
{"version":1,"html":"<a href='HTTPS://E.example:443/a/../b c'>x</a>","modules":[{"name":"a","language":"cajita","source":""}]}
⇒
group a
load a return undefined
html 39
<a href="https://e.example/b%20c">x</a>
end done
# a base in capitals, with spaces
page
{"version":1,"html":"<a id='a' href='b'>x</a>","base":" HTTPS://E.example/A/ ","modules":[{"name":"a","language":"cajita","source":""}]}
⇒
group a
load a return undefined
html 44
<a id="a" href="https://e.example/A/b">x</a>
end done
# a base by http with a link by https
page
{"version":1,"html":"<a id='a' href='//h.example/'>x</a><a href='https://h.example/'>y</a>","base":"http://e.example/","modules":[{"name":"a","language":"cajita","source":""}]}
⇒
group a
load a return undefined
html 49
<a id="a">x</a><a href="https://h.example/">y</a>
end done
# a module sets a link
page
{"version":1,"html":"<a id='a'>x</a>","base":"https://e.example/a/","modules":[{"name":"a","language":"cajita","source":"function s(n, k, v) { try { n.setAttribute(k, v); say(n.getAttribute(k)); } catch (e) { say(e.message); } } s(doc, 'href', 'b'); s(doc, 'href', '#t'); s(doc, 'href', 'http://e.example/'); s(doc, 'HREF', 'c');","grants":[{"name":"doc","root":"a"}]}]}
⇒
group a
dom a set 0 "href" "https://e.example/a/b"
say a "https://e.example/a/b"
dom a set 0 "href" "#t"
say a "#t"
say a "not allowed"
say a "not allowed"
load a return undefined
html 25
<a id="a" href="#t">x</a>
end done
# a module sets a link without a base
page
{"version":1,"html":"<a id='a'>x</a>","modules":[{"name":"a","language":"cajita","source":"function s(n, k, v) { try { n.setAttribute(k, v); say(n.getAttribute(k)); } catch (e) { say(e.message); } } s(doc, 'href', 'b'); s(doc, 'href', 'https://e.example/b'); s(doc, 'href', 'javascript:x');","grants":[{"name":"doc","root":"a"}]}]}
⇒
group a
say a "not allowed"
dom a set 0 "href" "https://e.example/b"
say a "https://e.example/b"
say a "not allowed"
load a return undefined
html 42
<a id="a" href="https://e.example/b">x</a>
end done
# a module sets an image
page
{"version":1,"html":"<img id='a'>","base":"https://e.example/a/","modules":[{"name":"a","language":"cajita","source":"function s(n, k, v) { try { n.setAttribute(k, v); say(n.getAttribute(k)); } catch (e) { say(e.message); } } s(doc, 'src', 'b'); s(doc, 'src', '#t'); s(doc, 'src', 'ftp://e.example/');","grants":[{"name":"doc","root":"a"}]}]}
⇒
group a
dom a set 0 "src" "https://e.example/a/b"
say a "https://e.example/a/b"
dom a set 0 "src" "https://e.example/a/#t"
say a "https://e.example/a/#t"
say a "not allowed"
load a return undefined
html 41
<img id="a" src="https://e.example/a/#t">
end done
# a module sets a style
page
{"version":1,"html":"<p id='a'></p>","base":"https://e.example/a/","modules":[{"name":"a","language":"cajita","source":"function s(n, k, v) { try { n.setAttribute(k, v); say(n.getAttribute(k)); } catch (e) { say(e.message); } } s(doc, 'style', 'color:red'); s(doc, 'onclick', 'x()');","grants":[{"name":"doc","root":"a"}]}]}
⇒
group a
say a "not allowed"
say a "not allowed"
load a return undefined
html 14
<p id="a"></p>
end done
# a sheet that breaks off
page
{"version":1,"html":"<p id='a'></p>","styles":[{"root":"a","css":"p{"}],"modules":[{"name":"a","language":"cajita","source":""}]}
⇒
refused - css 1 2
# a sheet with an escape
page
{"version":1,"html":"<p id='a'></p>","styles":[{"root":"a","css":"p{\\63olor:red}"}],"modules":[{"name":"a","language":"cajita","source":""}]}
⇒
refused - css 2 2
# a sheet with an at-rule
page
{"version":1,"html":"<p id='a'></p>","styles":[{"root":"a","css":"@import 'x';"}],"modules":[{"name":"a","language":"cajita","source":""}]}
⇒
refused - css 3 0
# the first sheet that is refused
page
{"version":1,"html":"<p id='a'></p>","styles":[{"root":"a","css":"p{}"},{"root":"a","css":"p{@"},{"root":"a","css":"p{\\"}],"modules":[{"name":"a","language":"cajita","source":""}]}
⇒
refused - css 3 2
# a place behind letters of two bytes
page
{"version":1,"html":"<p id='a'></p>","styles":[{"root":"a","css":"/* é€ */ p{"}],"modules":[{"name":"a","language":"cajita","source":""}]}
⇒
refused - css 1 14
# HTML before a sheet
page
{"version":1,"html":"<p","styles":[{"root":"a","css":"p{"}],"modules":[{"name":"a","language":"cajita","source":""}]}
⇒
refused - html 2 0
# a sheet before an id that stands twice
page
{"version":1,"html":"<p id='a'></p><p id='a'></p>","styles":[{"root":"a","css":"p{"}],"modules":[{"name":"a","language":"cajita","source":""}]}
⇒
refused - css 1 2
# a sheet before the element of one
page
{"version":1,"html":"<p id='a'></p>","styles":[{"root":"x","css":"p{"}],"modules":[{"name":"a","language":"cajita","source":""}]}
⇒
refused - css 1 2
# a sheet for no element
page
{"version":1,"html":"<p id='a'></p>","styles":[{"root":"a","css":""},{"root":"x","css":"p{}"}],"modules":[{"name":"a","language":"cajita","source":""}]}
⇒
refused - page 7 1
# a sheet's element before roots that overlap
page
{"version":1,"html":"<div id='a'><b id='b'></b></div>","styles":[{"root":"x","css":""}],"modules":[{"name":"a","language":"cajita","source":"","grants":[{"name":"doc","root":"a"}]},{"name":"c","language":"cajita","source":"","grants":[{"name":"doc","root":"b"}]}]}
⇒
refused - page 7 0
# a sheet's element behind a root that isn't there
page
{"version":1,"html":"<div id='a'><b id='b'></b></div>","styles":[{"root":"x","css":""}],"modules":[{"name":"a","language":"cajita","source":"","grants":[{"name":"doc","root":"y"}]}]}
⇒
refused - page 7 0
# a sheet before a module
page
{"version":1,"html":"<p id='a'></p>","styles":[{"root":"a","css":"p{"}],"modules":[{"name":"a","language":"cajita","source":"x;"}]}
⇒
refused - css 1 2
# a base before a sheet
page
{"version":1,"html":"<p id='a'></p>","base":"ftp://e.example/","styles":[{"root":"a"}],"modules":[{"name":"a","language":"cajita","source":""}]}
⇒
refused - page 5 0
# a base that is no URL
page
{"version":1,"html":"<p id='a'></p>","base":"e.example","modules":[{"name":"a","language":"cajita","source":""}]}
⇒
refused - page 5 0
# a sheet that is refused by run
run
{"version":1,"html":"<p id='a'></p>","styles":[{"root":"a","css":"p{"}],"modules":[{"name":"a","language":"es3","source":"1;"}]}
⇒
refused - css 1 2
"##;

#[test]
fn sheets_and_urls_are_kept_or_refused(rt: HostRuntime) -> Result<(), Fail> {
    check_pages(rt.alloc(), SHEETS)
}

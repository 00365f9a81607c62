//! Guests who write in a sheet what they may not.

use command_runs::page_tables::check_pages;
use std::test::Fail;

/// One text in each page, and what is left of it.
static GUESTS: &str = r##"
# a guest writes `p{width:expression(steal())}`
page
{"version":1,"html":"<p id='a'></p>","base":"https://b.example/","styles":[{"root":"a","css":"p{width:expression(steal())}"}],"modules":[{"name":"a","language":"cajita","source":""}]}
⇒
style a 0

group a
load a return undefined
html 14
<p id="a"></p>
end done
# a guest writes `p{behavior:url(x.htc)}`
page
{"version":1,"html":"<p id='a'></p>","base":"https://b.example/","styles":[{"root":"a","css":"p{behavior:url(x.htc)}"}],"modules":[{"name":"a","language":"cajita","source":""}]}
⇒
style a 0

group a
load a return undefined
html 14
<p id="a"></p>
end done
# a guest writes `p{-moz-binding:url(https://e.example/x.xml)}`
page
{"version":1,"html":"<p id='a'></p>","base":"https://b.example/","styles":[{"root":"a","css":"p{-moz-binding:url(https://e.example/x.xml)}"}],"modules":[{"name":"a","language":"cajita","source":""}]}
⇒
style a 0

group a
load a return undefined
html 14
<p id="a"></p>
end done
# a guest writes `p{color:red;}</style><script>x()</script>`
page
{"version":1,"html":"<p id='a'></p>","base":"https://b.example/","styles":[{"root":"a","css":"p{color:red;}</style><script>x()</script>"}],"modules":[{"name":"a","language":"cajita","source":""}]}
⇒
refused - css 1 13
# a guest writes `p{background-image:url(javascript:x())}`
page
{"version":1,"html":"<p id='a'></p>","base":"https://b.example/","styles":[{"root":"a","css":"p{background-image:url(javascript:x())}"}],"modules":[{"name":"a","language":"cajita","source":""}]}
⇒
style a 0

group a
load a return undefined
html 14
<p id="a"></p>
end done
# a guest writes `p{background-image:url('https://e.example/x');x:url(javascript:y())}`
page
{"version":1,"html":"<p id='a'></p>","base":"https://b.example/","styles":[{"root":"a","css":"p{background-image:url('https://e.example/x');x:url(javascript:y())}"}],"modules":[{"name":"a","language":"cajita","source":""}]}
⇒
style a 49
#a p{background-image:url("https://e.example/x")}
group a
load a return undefined
html 14
<p id="a"></p>
end done
# a guest writes `a[href^='https']{color:red}`
page
{"version":1,"html":"<p id='a'></p>","base":"https://b.example/","styles":[{"root":"a","css":"a[href^='https']{color:red}"}],"modules":[{"name":"a","language":"cajita","source":""}]}
⇒
style a 0

group a
load a return undefined
html 14
<p id="a"></p>
end done
# a guest writes `input[value='a']{background-image:url(https://e.example/a)}`
page
{"version":1,"html":"<p id='a'></p>","base":"https://b.example/","styles":[{"root":"a","css":"input[value='a']{background-image:url(https://e.example/a)}"}],"modules":[{"name":"a","language":"cajita","source":""}]}
⇒
style a 0

group a
load a return undefined
html 14
<p id="a"></p>
end done
# a guest writes `p:before{content:'x'}`
page
{"version":1,"html":"<p id='a'></p>","base":"https://b.example/","styles":[{"root":"a","css":"p:before{content:'x'}"}],"modules":[{"name":"a","language":"cajita","source":""}]}
⇒
style a 0

group a
load a return undefined
html 14
<p id="a"></p>
end done
# a guest writes `p::first-line{color:red}`
page
{"version":1,"html":"<p id='a'></p>","base":"https://b.example/","styles":[{"root":"a","css":"p::first-line{color:red}"}],"modules":[{"name":"a","language":"cajita","source":""}]}
⇒
style a 0

group a
load a return undefined
html 14
<p id="a"></p>
end done
# a guest writes `p:not(b){color:red}`
page
{"version":1,"html":"<p id='a'></p>","base":"https://b.example/","styles":[{"root":"a","css":"p:not(b){color:red}"}],"modules":[{"name":"a","language":"cajita","source":""}]}
⇒
style a 0

group a
load a return undefined
html 14
<p id="a"></p>
end done
# a guest writes `* html p{color:red}`
page
{"version":1,"html":"<p id='a'></p>","base":"https://b.example/","styles":[{"root":"a","css":"* html p{color:red}"}],"modules":[{"name":"a","language":"cajita","source":""}]}
⇒
style a 22
#a * html p{color:red}
group a
load a return undefined
html 14
<p id="a"></p>
end done
# a guest writes `body{color:red}`
page
{"version":1,"html":"<p id='a'></p>","base":"https://b.example/","styles":[{"root":"a","css":"body{color:red}"}],"modules":[{"name":"a","language":"cajita","source":""}]}
⇒
style a 18
#a body{color:red}
group a
load a return undefined
html 14
<p id="a"></p>
end done
# a guest writes `html,#x{color:red}`
page
{"version":1,"html":"<p id='a'></p>","base":"https://b.example/","styles":[{"root":"a","css":"html,#x{color:red}"}],"modules":[{"name":"a","language":"cajita","source":""}]}
⇒
style a 24
#a html,#a #x{color:red}
group a
load a return undefined
html 14
<p id="a"></p>
end done
# a guest writes `p~b{color:red}`
page
{"version":1,"html":"<p id='a'></p>","base":"https://b.example/","styles":[{"root":"a","css":"p~b{color:red}"}],"modules":[{"name":"a","language":"cajita","source":""}]}
⇒
style a 0

group a
load a return undefined
html 14
<p id="a"></p>
end done
# a guest writes `p+b{color:red}`
page
{"version":1,"html":"<p id='a'></p>","base":"https://b.example/","styles":[{"root":"a","css":"p+b{color:red}"}],"modules":[{"name":"a","language":"cajita","source":""}]}
⇒
style a 0

group a
load a return undefined
html 14
<p id="a"></p>
end done
# a guest writes `p{color:red!important}`
page
{"version":1,"html":"<p id='a'></p>","base":"https://b.example/","styles":[{"root":"a","css":"p{color:red!important}"}],"modules":[{"name":"a","language":"cajita","source":""}]}
⇒
style a 0

group a
load a return undefined
html 14
<p id="a"></p>
end done
# a guest writes `p{/**/color/**/:/**/red}`
page
{"version":1,"html":"<p id='a'></p>","base":"https://b.example/","styles":[{"root":"a","css":"p{/**/color/**/:/**/red}"}],"modules":[{"name":"a","language":"cajita","source":""}]}
⇒
style a 15
#a p{color:red}
group a
load a return undefined
html 14
<p id="a"></p>
end done
# a guest writes `p{co/**/lor:red}`
page
{"version":1,"html":"<p id='a'></p>","base":"https://b.example/","styles":[{"root":"a","css":"p{co/**/lor:red}"}],"modules":[{"name":"a","language":"cajita","source":""}]}
⇒
refused - css 1 8
# a guest writes `p{background-image:url("https://e.example/a"b)}`
page
{"version":1,"html":"<p id='a'></p>","base":"https://b.example/","styles":[{"root":"a","css":"p{background-image:url(\"https://e.example/a\"b)}"}],"modules":[{"name":"a","language":"cajita","source":""}]}
⇒
style a 74
#a p{background-image:url("https://b.example/%22https://e.example/a%22b")}
group a
load a return undefined
html 14
<p id="a"></p>
end done
# a guest writes `p{position:fixed;display:none}`
page
{"version":1,"html":"<p id='a'></p>","base":"https://b.example/","styles":[{"root":"a","css":"p{position:fixed;display:none}"}],"modules":[{"name":"a","language":"cajita","source":""}]}
⇒
style a 18
#a p{display:none}
group a
load a return undefined
html 14
<p id="a"></p>
end done
# a guest writes `p{z-index:9;opacity:0}`
page
{"version":1,"html":"<p id='a'></p>","base":"https://b.example/","styles":[{"root":"a","css":"p{z-index:9;opacity:0}"}],"modules":[{"name":"a","language":"cajita","source":""}]}
⇒
style a 0

group a
load a return undefined
html 14
<p id="a"></p>
end done
# a guest writes `p{background:url(https://e.example/x)}`
page
{"version":1,"html":"<p id='a'></p>","base":"https://b.example/","styles":[{"root":"a","css":"p{background:url(https://e.example/x)}"}],"modules":[{"name":"a","language":"cajita","source":""}]}
⇒
style a 0

group a
load a return undefined
html 14
<p id="a"></p>
end done
# a guest writes `p{background-image:url(https://e.example/a),url(https://e.example/b)}`
page
{"version":1,"html":"<p id='a'></p>","base":"https://b.example/","styles":[{"root":"a","css":"p{background-image:url(https://e.example/a),url(https://e.example/b)}"}],"modules":[{"name":"a","language":"cajita","source":""}]}
⇒
style a 0

group a
load a return undefined
html 14
<p id="a"></p>
end done
# a guest writes `p{background-image:URL(https://e.example/a)}`
page
{"version":1,"html":"<p id='a'></p>","base":"https://b.example/","styles":[{"root":"a","css":"p{background-image:URL(https://e.example/a)}"}],"modules":[{"name":"a","language":"cajita","source":""}]}
⇒
style a 49
#a p{background-image:url("https://e.example/a")}
group a
load a return undefined
html 14
<p id="a"></p>
end done
# a guest writes `p{background-image:url(https://e.example/)a}`
page
{"version":1,"html":"<p id='a'></p>","base":"https://b.example/","styles":[{"root":"a","css":"p{background-image:url(https://e.example/)a}"}],"modules":[{"name":"a","language":"cajita","source":""}]}
⇒
style a 0

group a
load a return undefined
html 14
<p id="a"></p>
end done
# a guest writes `p{background-image:url(data:image/png;base64,AA)}`
page
{"version":1,"html":"<p id='a'></p>","base":"https://b.example/","styles":[{"root":"a","css":"p{background-image:url(data:image/png;base64,AA)}"}],"modules":[{"name":"a","language":"cajita","source":""}]}
⇒
style a 0

group a
load a return undefined
html 14
<p id="a"></p>
end done
# a guest writes `p{background-image:url(https://user:pw@e.example:8443/x?y#z)}`
page
{"version":1,"html":"<p id='a'></p>","base":"https://b.example/","styles":[{"root":"a","css":"p{background-image:url(https://user:pw@e.example:8443/x?y#z)}"}],"modules":[{"name":"a","language":"cajita","source":""}]}
⇒
style a 66
#a p{background-image:url("https://user:pw@e.example:8443/x?y#z")}
group a
load a return undefined
html 14
<p id="a"></p>
end done
# a guest writes `p{background-image:url( https://e.example/x )}`
page
{"version":1,"html":"<p id='a'></p>","base":"https://b.example/","styles":[{"root":"a","css":"p{background-image:url(\thttps://e.example/x )}"}],"modules":[{"name":"a","language":"cajita","source":""}]}
⇒
style a 49
#a p{background-image:url("https://e.example/x")}
group a
load a return undefined
html 14
<p id="a"></p>
end done
# a guest writes `p{background-image:url(https://e.example/(x))}`
page
{"version":1,"html":"<p id='a'></p>","base":"https://b.example/","styles":[{"root":"a","css":"p{background-image:url(https://e.example/(x))}"}],"modules":[{"name":"a","language":"cajita","source":""}]}
⇒
style a 51
#a p{background-image:url("https://e.example/(x)")}
group a
load a return undefined
html 14
<p id="a"></p>
end done
# a guest writes `p{margin:-1px}`
page
{"version":1,"html":"<p id='a'></p>","base":"https://b.example/","styles":[{"root":"a","css":"p{margin:-1px}"}],"modules":[{"name":"a","language":"cajita","source":""}]}
⇒
style a 0

group a
load a return undefined
html 14
<p id="a"></p>
end done
# a guest writes `p{margin:1px 2px 3px 4px 5px}`
page
{"version":1,"html":"<p id='a'></p>","base":"https://b.example/","styles":[{"root":"a","css":"p{margin:1px 2px 3px 4px 5px}"}],"modules":[{"name":"a","language":"cajita","source":""}]}
⇒
style a 0

group a
load a return undefined
html 14
<p id="a"></p>
end done
# a guest writes `p{width:calc(1px)}`
page
{"version":1,"html":"<p id='a'></p>","base":"https://b.example/","styles":[{"root":"a","css":"p{width:calc(1px)}"}],"modules":[{"name":"a","language":"cajita","source":""}]}
⇒
style a 0

group a
load a return undefined
html 14
<p id="a"></p>
end done
# a guest writes `p{width:1e3px}`
page
{"version":1,"html":"<p id='a'></p>","base":"https://b.example/","styles":[{"root":"a","css":"p{width:1e3px}"}],"modules":[{"name":"a","language":"cajita","source":""}]}
⇒
style a 0

group a
load a return undefined
html 14
<p id="a"></p>
end done
# a guest writes `p{color:rgb(1,2,3)}`
page
{"version":1,"html":"<p id='a'></p>","base":"https://b.example/","styles":[{"root":"a","css":"p{color:rgb(1,2,3)}"}],"modules":[{"name":"a","language":"cajita","source":""}]}
⇒
style a 0

group a
load a return undefined
html 14
<p id="a"></p>
end done
# a guest writes `p{color:#12}`
page
{"version":1,"html":"<p id='a'></p>","base":"https://b.example/","styles":[{"root":"a","css":"p{color:#12}"}],"modules":[{"name":"a","language":"cajita","source":""}]}
⇒
style a 0

group a
load a return undefined
html 14
<p id="a"></p>
end done
# a guest writes `p{color:#123}`
page
{"version":1,"html":"<p id='a'></p>","base":"https://b.example/","styles":[{"root":"a","css":"p{color:#123}"}],"modules":[{"name":"a","language":"cajita","source":""}]}
⇒
style a 16
#a p{color:#123}
group a
load a return undefined
html 14
<p id="a"></p>
end done
# a guest writes `p{font-size:9px;font-size:8PX}`
page
{"version":1,"html":"<p id='a'></p>","base":"https://b.example/","styles":[{"root":"a","css":"p{font-size:9px;font-size:8PX}"}],"modules":[{"name":"a","language":"cajita","source":""}]}
⇒
style a 33
#a p{font-size:9px;font-size:8px}
group a
load a return undefined
html 14
<p id="a"></p>
end done
# a guest writes `#a p{color:red}`
page
{"version":1,"html":"<p id='a'></p>","base":"https://b.example/","styles":[{"root":"a","css":"#a p{color:red}"}],"modules":[{"name":"a","language":"cajita","source":""}]}
⇒
style a 18
#a #a p{color:red}
group a
load a return undefined
html 14
<p id="a"></p>
end done
# a guest writes `.x.y{color:red}`
page
{"version":1,"html":"<p id='a'></p>","base":"https://b.example/","styles":[{"root":"a","css":".x.y{color:red}"}],"modules":[{"name":"a","language":"cajita","source":""}]}
⇒
style a 18
#a .x.y{color:red}
group a
load a return undefined
html 14
<p id="a"></p>
end done
# a guest writes `p:hover{color:red}`
page
{"version":1,"html":"<p id='a'></p>","base":"https://b.example/","styles":[{"root":"a","css":"p:hover{color:red}"}],"modules":[{"name":"a","language":"cajita","source":""}]}
⇒
style a 21
#a p:hover{color:red}
group a
load a return undefined
html 14
<p id="a"></p>
end done
# a guest writes `p:HOVER{color:red}`
page
{"version":1,"html":"<p id='a'></p>","base":"https://b.example/","styles":[{"root":"a","css":"p:HOVER{color:red}"}],"modules":[{"name":"a","language":"cajita","source":""}]}
⇒
style a 21
#a p:hover{color:red}
group a
load a return undefined
html 14
<p id="a"></p>
end done
# a guest writes `p:visited{color:red}`
page
{"version":1,"html":"<p id='a'></p>","base":"https://b.example/","styles":[{"root":"a","css":"p:visited{color:red}"}],"modules":[{"name":"a","language":"cajita","source":""}]}
⇒
style a 0

group a
load a return undefined
html 14
<p id="a"></p>
end done
# a guest writes `{color:red}`
page
{"version":1,"html":"<p id='a'></p>","base":"https://b.example/","styles":[{"root":"a","css":"{color:red}"}],"modules":[{"name":"a","language":"cajita","source":""}]}
⇒
refused - css 1 0
# a guest writes `p{color:red}}`
page
{"version":1,"html":"<p id='a'></p>","base":"https://b.example/","styles":[{"root":"a","css":"p{color:red}}"}],"modules":[{"name":"a","language":"cajita","source":""}]}
⇒
refused - css 1 12
# a guest writes `p{color:"red"}`
page
{"version":1,"html":"<p id='a'></p>","base":"https://b.example/","styles":[{"root":"a","css":"p{color:\"red\"}"}],"modules":[{"name":"a","language":"cajita","source":""}]}
⇒
style a 0

group a
load a return undefined
html 14
<p id="a"></p>
end done
# a guest writes `p{'color':red}`
page
{"version":1,"html":"<p id='a'></p>","base":"https://b.example/","styles":[{"root":"a","css":"p{'color':red}"}],"modules":[{"name":"a","language":"cajita","source":""}]}
⇒
refused - css 1 2
# a guest writes `<!-- p{color:red} -->`
page
{"version":1,"html":"<p id='a'></p>","base":"https://b.example/","styles":[{"root":"a","css":"<!-- p{color:red} -->"}],"modules":[{"name":"a","language":"cajita","source":""}]}
⇒
refused - css 1 0
# a guest writes `p{color:red;;width:1px}`
page
{"version":1,"html":"<p id='a'></p>","base":"https://b.example/","styles":[{"root":"a","css":"p{color:red;;width:1px}"}],"modules":[{"name":"a","language":"cajita","source":""}]}
⇒
style a 25
#a p{color:red;width:1px}
group a
load a return undefined
html 14
<p id="a"></p>
end done
# a guest writes `p{;color:red}`
page
{"version":1,"html":"<p id='a'></p>","base":"https://b.example/","styles":[{"root":"a","css":"p{;color:red}"}],"modules":[{"name":"a","language":"cajita","source":""}]}
⇒
refused - css 1 2
"##;

#[test]
fn guests_style_what_is_theirs(rt: HostRuntime) -> Result<(), Fail> {
    check_pages(rt.alloc(), GUESTS)
}

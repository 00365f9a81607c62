//! Pages that are refused for their HTML or for the ids that they speak of, each with the first fault.

use command_runs::page_tables::check_outputs;
use std::test::Fail;

/// HTML that is refused.
static HTML: &str = r#"
# a tag that is not closed
page
{"version":1,"html":"<p","modules":[
{"name":"m","language":"cajita","source":""}]}
⇒
refused - html 2 0
# a comment that is not closed
page
{"version":1,"html":"a<!-- b","modules":[
{"name":"m","language":"cajita","source":""}]}
⇒
refused - html 2 1
# an element that is not closed
page
{"version":1,"html":"<p>","modules":[
{"name":"m","language":"cajita","source":""}]}
⇒
refused - html 3 3
# an end tag that closes another element
page
{"version":1,"html":"<p></b>","modules":[
{"name":"m","language":"cajita","source":""}]}
⇒
refused - html 3 3
# a reference that names no character
page
{"version":1,"html":"&foo;","modules":[
{"name":"m","language":"cajita","source":""}]}
⇒
refused - html 4 0
# an attribute twice
page
{"version":1,"html":"<a b b></a>","modules":[
{"name":"m","language":"cajita","source":""}]}
⇒
refused - html 5 5
# 129 elements, one in another
page
{"version":1,"html":"<b><b><b><b><b><b><b><b><b><b><b><b><b><b><b><b><b><b><b><b><b><b><b><b><b><b><b><b><b><b><b><b><b><b><b><b><b><b><b><b><b><b><b><b><b><b><b><b><b><b><b><b><b><b><b><b><b><b><b><b><b><b><b><b><b><b><b><b><b><b><b><b><b><b><b><b><b><b><b><b><b><b><b><b><b><b><b><b><b><b><b><b><b><b><b><b><b><b><b><b><b><b><b><b><b><b><b><b><b><b><b><b><b><b><b><b><b><b><b><b><b><b><b><b><b><b><b><b><b></b></b></b></b></b></b></b></b></b></b></b></b></b></b></b></b></b></b></b></b></b></b></b></b></b></b></b></b></b></b></b></b></b></b></b></b></b></b></b></b></b></b></b></b></b></b></b></b></b></b></b></b></b></b></b></b></b></b></b></b></b></b></b></b></b></b></b></b></b></b></b></b></b></b></b></b></b></b></b></b></b></b></b></b></b></b></b></b></b></b></b></b></b></b></b></b></b></b></b></b></b></b></b></b></b></b></b></b></b></b></b></b></b></b></b></b></b></b></b></b></b></b></b></b></b></b></b></b></b>","modules":[
{"name":"m","language":"cajita","source":""}]}
⇒
refused - html 6 384
# places are counted in bytes
page
{"version":1,"html":"é€<p","modules":[
{"name":"m","language":"cajita","source":""}]}
⇒
refused - html 2 5
# HTML before the sources
page
{"version":1,"html":"<p","modules":[
{"name":"m","language":"cajita","source":"foo__;"}]}
⇒
refused - html 2 0
# HTML before the ids
page
{"version":1,"html":"<p","modules":[
{"name":"m","language":"cajita","source":"","grants":[{"name":"doc","root":"x"}]}]}
⇒
refused - html 2 0
# a fault of the manifest before the HTML
page
{"version":1,"html":"<p","modules":[{"name":"M","language":"cajita","source":""}]}
⇒
refused - page 5 0
"#;

/// Ids that are refused.
static IDS: &str = r#"
# an id twice
page
{"version":1,"html":"<p id=\"a\"></p><b id=\"a\"></b>","modules":[
{"name":"m","language":"cajita","source":""}]}
⇒
refused - page 6 0
# a granted id that no element has
page
{"version":1,"html":"<p id=\"a\"></p>","modules":[
{"name":"m","language":"cajita","source":"","grants":[{"name":"doc","root":"a"}]},
{"name":"n","language":"cajita","source":"","grants":[{"name":"doc","root":"b"}]}]}
⇒
refused - page 7 1
# a granted id that was dropped with its element
page
{"version":1,"html":"<title id=\"a\"></title>","modules":[
{"name":"m","language":"cajita","source":"","grants":[{"name":"doc","root":"a"}]}]}
⇒
refused - page 7 0
# a click where no element has the id
page
{"version":1,"html":"<p id=\"a\"></p>","modules":[
{"name":"m","language":"cajita","source":"","grants":[{"name":"doc","root":"a"}]}],
"events":[{"click":"a"},{"click":"b"}]}
⇒
refused - page 10 1
# a click outside of the granted roots
page
{"version":1,"html":"<p id=\"a\"></p><p id=\"b\"></p>","modules":[
{"name":"m","language":"cajita","source":"","grants":[{"name":"doc","root":"a"}]}],
"events":[{"click":"b"}]}
⇒
refused - page 10 0
# an input into what takes no text
page
{"version":1,"html":"<p id=\"a\"><b id=\"b\"></b></p>","modules":[
{"name":"m","language":"cajita","source":"","grants":[{"name":"doc","root":"a"}]}],
"events":[{"input":"b","text":"t"}]}
⇒
refused - page 10 0
# an id twice before a root that is not there
page
{"version":1,"html":"<p id=\"a\"></p><b id=\"a\"></b>","modules":[
{"name":"m","language":"cajita","source":"","grants":[{"name":"doc","root":"x"}]}]}
⇒
refused - page 6 0
# a root that is not there before one inside another
page
{"version":1,"html":"<p id=\"a\"><b id=\"b\"></b></p>","modules":[
{"name":"m","language":"cajita","source":"","grants":[{"name":"doc","root":"a"}]},
{"name":"n","language":"cajita","source":"","grants":[{"name":"doc","root":"b"}]},
{"name":"o","language":"cajita","source":"","grants":[{"name":"doc","root":"x"}]}]}
⇒
refused - page 7 2
# a root inside another before an event
page
{"version":1,"html":"<p id=\"a\"><b id=\"b\"></b></p>","modules":[
{"name":"m","language":"cajita","source":"","grants":[{"name":"doc","root":"a"}]},
{"name":"n","language":"cajita","source":"","grants":[{"name":"doc","root":"b"}]}],
"events":[{"click":"x"}]}
⇒
refused - page 9 1
# ids before the sources
page
{"version":1,"html":"<p id=\"a\"></p>","modules":[
{"name":"m","language":"cajita","source":"foo__;","grants":[{"name":"doc","root":"x"}]}]}
⇒
refused - page 7 0
# the sources last
page
{"version":1,"html":"<p id=\"a\"></p>","modules":[
{"name":"m","language":"cajita","source":"foo__;","grants":[{"name":"doc","root":"a"}]}],
"events":[{"click":"a"}]}
⇒
refused m rule 1 0
"#;

/// Pages of texts.
static TEXTS: &str = r#"
# texts: HTML that is refused
run
{"version":1,"html":"<p","modules":[{"name":"m","language":"es3","source":"x("}]}
⇒
refused - html 2 0
# texts: a root that is not there
run
{"version":1,"html":"","modules":[{"name":"m","language":"es3","source":"x(","grants":[{"name":"doc","root":"a"}]}]}
⇒
refused - page 7 0
"#;

#[test]
fn html_is_refused_first(rt: HostRuntime) -> Result<(), Fail> {
    check_outputs(rt.alloc(), HTML)
}

#[test]
fn ids_are_refused_then(rt: HostRuntime) -> Result<(), Fail> {
    check_outputs(rt.alloc(), IDS)
}

#[test]
fn pages_of_texts_are_refused_alike(rt: HostRuntime) -> Result<(), Fail> {
    check_outputs(rt.alloc(), TEXTS)
}

//! Pages that the portal runs.

use crate::rule::portal_rule;
use caja_cli::{Status, caja};
use caja_units::Memory;
use command_runs::page_tables::behind_texts;
use command_runs::runs::{ROOM, no_services, sink, source, words};
use std::alloc::Global;
use std::str;
use std::test::Fail;

/// What the portal is answered for a page, and what is written for it behind the texts of its modules.
fn shown(alloc: Global, manifest: &str) -> Result<(Status, String), Fail> {
    let mut source = source(alloc, manifest.as_bytes())?;
    let mut sink = sink(alloc, ROOM)?;
    let status = caja(
        &words(alloc, "page")?,
        &mut source,
        &mut sink,
        &portal_rule(alloc)?,
        &no_services(alloc),
        alloc,
    );
    let text = str::from_utf8(sink.written())?;
    Ok((
        status,
        String::from_str(alloc, behind_texts(text).unwrap_or(""))?,
    ))
}

/// A guest with a link, an image and a sheet.
static GUEST: &str =
    r#"{"version":1,"html":"<div id=\"g\"><a href=\"https://e.example/a\">x</a><img src=\"https://e.example/a.png\"><a href=\"http://e.example/\">y</a></div>","styles":[{"root":"g","css":"p{color:red;background-image:url(https://e.example/b.png)}"}],"modules":[{"name":"g","language":"cajita","grants":[{"name":"doc","root":"g"}],"source":"var a = doc.getChildNodes()[0]; a.setAttribute('href', 'https://f.example/'); try { a.setAttribute('href', 'ftp://f.example/'); } catch (e) { say(e.message); }"}]}"#;

#[test]
fn a_guest_names_what_the_portal_allows(rt: HostRuntime) -> Result<(), Fail> {
    let (status, text) = shown(rt.alloc(), GUEST)?;
    assert_eq!(rt; status, Status::Done);
    assert_eq!(rt; text.as_str(), WRITTEN);
    Ok(())
}

/// What is written for it: links by `https` stay, and no image does.
static WRITTEN: &str = r#"style g 15
#g p{color:red}
group g
dom g set 1 "href" "https://f.example/"
say g "not allowed"
load g return undefined
html 65
<div id="g"><a href="https://f.example/">x</a><img><a>y</a></div>
end done
"#;

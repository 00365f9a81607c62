//! Long pages, whose manifests are made here: ten thousand events, and as many modules, cells and grants as there may be.

use caja_cli::Status;
use caja_units::Memory;
use command_runs::page_tables::behind_texts;
use command_runs::runs::{outcome, sink, source};
use std::alloc::Global;
use std::str;
use std::test::Fail;

/// The room for an output, in bytes.
const ROOM: usize = 1_048_576;

/// A text, and a piece that stands behind it as often as the page counts. A `#` in the piece is its number, from 0, and a `%` the number behind that.
type Part = (&'static str, &'static str);

/// A page: how often its pieces stand, its manifest, and what is written behind the texts of its modules.
struct Long {
    title: &'static str,
    count: u32,
    manifest: &'static [Part],
    written: &'static [Part],
}

static EVENTS: [Long; 3] = [
    Long {
        title: "a function that queues itself is called by each tick",
        count: 9_999,
        manifest: &[
            (
                r#"{"version":1,"modules":[{"name":"m","language":"cajita","source":"var n = 0; function f() { n = n + 1; later(f); return n; } later(f);"}],"events":["#,
                r#"{"tick":"m"},"#,
            ),
            (r#"{"tick":"m"}]}"#, ""),
        ],
        written: &[
            (
                "group m\nload m return undefined\n",
                "event # tick m return %\n",
            ),
            ("event 9999 tick m return 10000\nhtml 0\n\nend done\n", ""),
        ],
    },
    Long {
        title: "no function waits",
        count: 9_999,
        manifest: &[
            (
                r#"{"version":1,"modules":[{"name":"m","language":"cajita","source":"1;"}],"events":["#,
                r#"{"tick":"m"},"#,
            ),
            (r#"{"tick":"m"}]}"#, ""),
        ],
        written: &[
            ("group m\nload m return 1\n", "event # tick m none\n"),
            ("event 9999 tick m none\nhtml 0\n\nend done\n", ""),
        ],
    },
    Long {
        title: "a number is said and returned by each call",
        count: 9_999,
        manifest: &[
            (
                r#"{"version":1,"modules":[{"name":"m","language":"cajita","source":"var n = 0; ({add: function (x) { n = n + x; say(n); return n; }});"}],"events":["#,
                r#"{"call":"m","key":"add","args":[1]},"#,
            ),
            (r#"{"tick":"m"}]}"#, ""),
        ],
        written: &[
            (
                "group m\nload m return record m#1\n",
                "say m \"%\"\nevent # call m \"add\" return %\n",
            ),
            ("event 9999 tick m none\nhtml 0\n\nend done\n", ""),
        ],
    },
];

static WIDE: [Long; 3] = [
    Long {
        title: "64 modules, each with the result of the one before",
        count: 63,
        manifest: &[
            (
                r#"{"version":1,"modules":[{"name":"m0","language":"cajita","source":"0;"}"#,
                r#",{"name":"m%","language":"cajita","source":"before + 1;","grants":[{"name":"before","module":"m#"}]}"#,
            ),
            ("]}", ""),
        ],
        written: &[
            ("group m0", " m%"),
            ("\nload m0 return 0\n", "load m% return %\n"),
            ("html 0\n\nend done\n", ""),
        ],
    },
    Long {
        title: "64 modules share a cell",
        count: 63,
        manifest: &[
            (
                r#"{"version":1,"cells":["k"],"modules":[{"name":"first","language":"cajita","source":"k.set(0);","grants":[{"name":"k","cell":"k"}]}"#,
                r#",{"name":"m#","language":"cajita","source":"k.set(k.get() + 1); k.get();","grants":[{"name":"k","cell":"k"}]}"#,
            ),
            ("]}", ""),
        ],
        written: &[
            ("group first", " m#"),
            ("\nload first return undefined\n", "load m# return %\n"),
            ("html 0\n\nend done\n", ""),
        ],
    },
    Long {
        title: "64 cells are granted to one module",
        count: 63,
        manifest: &[
            (r#"{"version":1,"cells":["z""#, r#","c#""#),
            (
                r#"],"modules":[{"name":"m","language":"cajita","source":"var n = 0;"#,
                " c#.set(#); n = n + c#.get();",
            ),
            (
                r#" n;","grants":[{"name":"z","cell":"z"}"#,
                r#",{"name":"c#","cell":"c#"}"#,
            ),
            ("]}]}", ""),
        ],
        written: &[("group m\nload m return 1953\nhtml 0\n\nend done\n", "")],
    },
];

/// The text of a list of parts, with each piece so often.
fn spelled(alloc: Global, parts: &[Part], count: u32) -> Result<String, Fail> {
    let mut text = String::new(alloc);
    for (front, piece) in parts {
        text.push_str(front)?;
        if !piece.is_empty() {
            push_pieces(alloc, &mut text, piece, count)?;
        }
    }
    Ok(text)
}

/// Appends a piece so often, with its numbers.
fn push_pieces(alloc: Global, text: &mut String, piece: &str, count: u32) -> Result<(), Fail> {
    for i in 0..count {
        let number = format!(in alloc; "{i}")?;
        let behind = i + 1;
        let behind = format!(in alloc; "{behind}")?;
        let piece = piece.replace(alloc, "#", &number)?;
        text.push_str(piece.replace(alloc, "%", &behind)?.as_str())?;
    }
    Ok(())
}

/// What a manifest writes behind the texts of its modules, where it comes to its end.
fn written(alloc: Global, manifest: &str) -> Result<String, Memory> {
    let (status, output) = outcome(
        alloc,
        "page",
        source(alloc, manifest.as_bytes())?,
        sink(alloc, ROOM)?,
    )?;
    let Ok(text) = str::from_utf8(&output) else {
        return Ok(String::new(alloc));
    };
    match behind_texts(text) {
        Some(log) if status == Status::Done => Ok(String::from_str(alloc, log)?),
        _other => Ok(String::new(alloc)),
    }
}

/// The first page that writes something else is the failure.
fn check_long(alloc: Global, pages: &[Long]) -> Result<(), Fail> {
    for page in pages {
        let manifest = spelled(alloc, page.manifest, page.count)?;
        let wanted = spelled(alloc, page.written, page.count)?;
        if written(alloc, &manifest)?.as_str() != wanted.as_str() {
            return Err(page.title.into());
        }
    }
    Ok(())
}

#[test]
fn a_function_that_queues_itself_has_ten_thousand_turns(rt: HostRuntime) -> Result<(), Fail> {
    check_long(rt.alloc(), &EVENTS[..1])
}

#[test]
fn ten_thousand_ticks_find_no_function(rt: HostRuntime) -> Result<(), Fail> {
    check_long(rt.alloc(), &EVENTS[1..2])
}

#[test]
fn ten_thousand_events_are_done_in_order(rt: HostRuntime) -> Result<(), Fail> {
    check_long(rt.alloc(), &EVENTS[2..])
}

#[test]
fn a_page_has_as_many_modules_and_cells_as_it_may(rt: HostRuntime) -> Result<(), Fail> {
    check_long(rt.alloc(), &WIDE)
}

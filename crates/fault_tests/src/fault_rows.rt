//! Each fault of the input and of the output in turn: nothing is written after a failing read, and a front of the output before a failing write.

use caja_cli::Status;
use caja_io::{MemSink, MemSource};
use caja_units::Memory;
use command_runs::runs::{ROOM, outcome, refuses, run, sink, source};
use std::alloc::Global;
use std::test::Fail;

/// A counter that a guest counts up at each click, and another guest whose function waits for its turn.
static PAGE: &str =
    r#"{"version":1,"html":"<div id=\"a\"><p id=\"out\">0</p></div><div id=\"b\"></div>","modules":[
{"name":"counter","language":"cajita","source":"var n = 0; ({incr: function () { n = n + 1; return n; }});"},
{"name":"ga","language":"cajita","source":"var out = doc.getElementById('out'); out.on('click', function (n) { out.setText(c.incr()); });","grants":[{"name":"c","module":"counter"},{"name":"doc","root":"a"}]},
{"name":"gb","language":"cajita","source":"doc.appendChild(doc.createElement('b')); ({f: function () { later(function () { say('later'); }); return 5; }});","grants":[{"name":"doc","root":"b"}]}],
"events":[{"click":"out"},{"call":"gb","key":"f"},{"tick":"gb"},{"tick":"gb"}]}"#;

/// The bytes that a write takes.
const WRITTEN: usize = 10;

/// The bytes that a read gives, and how many reads there are, the last of which finds the end.
static READS: [(usize, u32); 3] = [(1_000, 2), (100, 8), (7, 100)];

// What a command answers and writes for the page in pieces of so many bytes, where this read fails.
fn with_failing_read(
    alloc: Global,
    piece: usize,
    number: u32,
) -> Result<(Status, Vec<u8>), Memory> {
    let input = PAGE.as_bytes().to_vec(alloc)?;
    let source = MemSource::new(input, piece.max(1), [number].to_vec(alloc)?);
    outcome(alloc, "page", source, sink(alloc, ROOM)?)
}

// What a command answers and writes for the page, where this write fails.
fn with_failing_write(alloc: Global, number: u32) -> Result<(Status, Vec<u8>), Memory> {
    let room = vec![in alloc; 0; ROOM]?;
    let sink = MemSink::new(WRITTEN, room, [number].to_vec(alloc)?);
    outcome(alloc, "page", source(alloc, PAGE.as_bytes())?, sink)
}

#[test]
fn a_manifest_that_ends_too_early_is_refused(rt: HostRuntime) -> Result<(), Fail> {
    let page = PAGE.as_bytes();
    for end in 0..page.len() {
        assert!(rt;
            refuses(rt.alloc(), "page", &page[..end], "refused - page 1 0")?,
            "{end}"
        );
    }
    Ok(())
}

#[test]
fn nothing_is_written_after_any_failing_read(rt: HostRuntime) -> Result<(), Fail> {
    for (piece, reads) in READS {
        for number in 0..reads {
            let (status, output) = with_failing_read(rt.alloc(), piece, number)?;
            assert_eq!(rt; status, Status::ReadFault, "{piece} {number}");
            assert_eq!(rt; output.len(), 0, "{piece} {number}");
        }
    }
    Ok(())
}

#[test]
fn a_read_that_is_not_asked_for_fails_nothing(rt: HostRuntime) -> Result<(), Fail> {
    let (_, whole) = run(rt.alloc(), "page", PAGE.as_bytes())?;
    for (piece, reads) in READS {
        let (status, output) = with_failing_read(rt.alloc(), piece, reads)?;
        assert_eq!(rt; status, Status::Done, "{piece}");
        assert_eq!(rt; output.as_slice(), whole.as_slice(), "{piece}");
    }
    Ok(())
}

#[test]
fn each_piece_before_a_failing_write_is_kept(rt: HostRuntime) -> Result<(), Fail> {
    let (status, whole) = run(rt.alloc(), "page", PAGE.as_bytes())?;
    assert_eq!(rt; status, Status::Done);
    let mut number = 0u32;
    let mut written = 0usize;
    for piece in whole.chunks(WRITTEN) {
        let (status, output) = with_failing_write(rt.alloc(), number)?;
        assert_eq!(rt; status, Status::WriteFault, "{number}");
        assert_eq!(rt; output.len(), written, "{number}");
        assert!(rt; whole.starts_with(&output), "{number}");
        number = number.saturating_add(1);
        written = written.saturating_add(piece.len());
    }
    Ok(())
}

//! Sources that are cajoled, and some that are refused.

use caja_cli::Status;
use caja_units::Memory;
use command_runs::runs::run;
use command_runs::tables::check_ends;
use page_cajole::{Answer, Dialect, cajole};
use std::alloc::Global;
use std::test::Fail;

/// What becomes of a source: the length of its cajoled text, in bytes, or the stage that refuses it, the number of the refusal
/// and the byte where it is.
fn answer(alloc: Global, source: &str) -> Result<(usize, &'static str, u8, u32), Memory> {
    Ok(
        match cajole(alloc, Dialect::Cajita, source.as_bytes(), &[])? {
            Answer::Module(module) => (module.text.len(), "", 0, 0),
            Answer::Uncut(number, at) => (0, "lex", number, at),
            Answer::Unread(number, at) => (0, "read", number, at),
            Answer::Broken(number, at) => (0, "rule", number, at),
        },
    )
}

/// A source and what becomes of it.
type Row = (&'static str, (usize, &'static str, u8, u32));

static ROWS: [Row; 7] = [
    ("", (86, "", 0, 0)),
    ("for (var k in {}) ;", (251, "", 0, 0)),
    ("if (a) b;", (0, "rule", 10, 4)),
    ("1; foo_;", (0, "rule", 10, 3)),
    ("1; foo__;", (0, "rule", 1, 3)),
    ("1; 2.3;", (0, "lex", 6, 3)),
    ("1; 2 3;", (0, "read", 1, 5)),
];

#[test]
fn a_module_has_a_text_and_another_source_a_stage(rt: HostRuntime) -> Result<(), Fail> {
    for (source, wanted) in ROWS.iter() {
        let found = answer(rt.alloc(), source)?;
        assert!(rt; found == *wanted, "{source}");
    }
    Ok(())
}

/// Sources, and the line that `cajole` writes.
static CAJOLED: &str = "
cajole ⇒  ⇒ ___.loadModule(function(___,IMPORTS___){var moduleResult___;return moduleResult___;});
cajole ⇒ var o = {x: 1}; o.x + 2; ⇒ ___.loadModule(function(___,IMPORTS___){var moduleResult___;var o=___.initializeMap([\"x\",1]);moduleResult___=___.readPub(o,\"x\")+2;return moduleResult___;});
";

static REFUSED: &str = "
cajole ⇒ arguments; ⇒ refused main rule 10 0
cajole ⇒ delete x; ⇒ refused main rule 12 0
cajole ⇒ foo__; ⇒ refused main rule 1 0
cajole ⇒ a = /b/; ⇒ refused main lex 9 4
cajole ⇒ 2 3; ⇒ refused main read 1 2
";

#[test]
fn cajole_writes_the_cajoled_text_and_a_line_end(rt: HostRuntime) -> Result<(), Fail> {
    check_ends(rt.alloc(), CAJOLED, Status::Done)?;
    check_ends(rt.alloc(), REFUSED, Status::Refused)
}

/// The text of thirteen such statements takes 61 steps of ECMAScript 3, four for each and nine for the module; that of fourteen takes 65.
static WITHIN: &str = "1;1;1;1;1;1;1;1;1;1;1;1;1;";

static BEYOND: &str = "1;1;1;1;1;1;1;1;1;1;1;1;1;1;";

#[test]
fn a_module_has_64_steps_for_each_of_its_budget(rt: HostRuntime) -> Result<(), Fail> {
    let (within, log) = run(rt.alloc(), "solo --steps 1", WITHIN.as_bytes())?;
    let (beyond, cut) = run(rt.alloc(), "solo --steps=1", BEYOND.as_bytes())?;
    assert!(rt; within == Status::Done && log.ends_with(b"load main return 1\nend done\n"));
    assert!(rt;
        beyond == Status::Steps && cut.ends_with(b"return moduleResult___;});\nend steps\n")
    );
    Ok(())
}

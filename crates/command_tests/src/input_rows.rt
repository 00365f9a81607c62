//! Inputs of the top call, and what becomes of each; words; faults of the input and of the output.

use caja_cli::{Status, caja};
use caja_io::{MemSink, MemSource, read_all};
use caja_units::Memory;
use command_runs::page_tables::check_outputs;
use command_runs::runs::{
    ROOM, check_refusals, no_services, outcome, refuses, run, secure, sink, source, words,
};
use command_runs::tables::check_ends;
use std::alloc::Global;
use std::test::Fail;

/// The longest input, in bytes: 4 MiB.
const LONGEST_INPUT: usize = 4_194_304;

/// The longest input of `run`, in bytes: 64 MiB.
const LONGEST_TEXTS: usize = 67_108_864;

// The bytes before the first end of a line.
fn first_line(output: &[u8]) -> &[u8] {
    for (end, byte) in output.iter().enumerate() {
        if *byte == b'\n' {
            return &output[..end];
        }
    }
    output
}

// The last `n` bytes.
fn tail(output: &[u8], n: usize) -> &[u8] {
    &output[output.len().saturating_sub(n)..]
}

/// An input, its first line, the length of its text, what stands behind the text, and the status.
type Row = (&'static str, &'static str, usize, &'static str, Status);

static MODULES: [Row; 5] = [
    (
        "",
        "module main 86",
        86,
        "\nload main return undefined\nend done\n",
        Status::Done,
    ),
    (
        "var o = {x: 1}; o.x + 2;",
        "module main 156",
        156,
        "\nload main return 3\nend done\n",
        Status::Done,
    ),
    (
        "'a' + {};",
        "module main 128",
        128,
        "\nload main return \"a[object Object]\"\nend done\n",
        Status::Done,
    ),
    (
        "var a; a.x;",
        "module main 127",
        127,
        "\nload main throw error main#0 TypeError \"no object\"\nend done\n",
        Status::Done,
    ),
    (
        "9007199254740991 + 1;",
        "module main 121",
        121,
        "\nend number\n",
        Status::Number,
    ),
];

fn is_module(output: &[u8], first: &str, text: usize, end: &str) -> bool {
    let length = (first.len() + 1 + end.len()).checked_add(text);
    first_line(output) == first.as_bytes()
        && tail(output, end.len()) == end.as_bytes()
        && length == Some(output.len())
}

fn holds(alloc: Global, row: &Row) -> Result<bool, Memory> {
    let (input, first, text, end, wanted) = *row;
    let (status, output) = run(alloc, "solo", input.as_bytes())?;
    Ok(status == wanted && is_module(&output, first, text, end))
}

#[test]
fn a_module_is_answered_by_its_text_and_its_log(rt: HostRuntime) -> Result<(), Fail> {
    for row in MODULES.iter() {
        assert!(rt; holds(rt.alloc(), row)?, "{}", row.0);
    }
    Ok(())
}

/// Inputs, and the lines that refuse them.
static REFUSALS: &str = "
foo__; ⇒ refused main rule 1 0
foo_; ⇒ refused main rule 10 0
var o = {x: y}; ⇒ refused main rule 10 12
";

#[test]
fn an_input_that_is_no_module_is_refused(rt: HostRuntime) -> Result<(), Fail> {
    check_refusals(rt.alloc(), "solo", REFUSALS)
}

#[test]
fn bytes_that_are_no_source_are_refused(rt: HostRuntime) -> Result<(), Fail> {
    let spaces = vec![in rt.alloc(); b' '; 512 * 1024 + 1]?;
    assert!(rt; refuses(rt.alloc(), "solo", &spaces, "refused main lex 10 0")?);
    assert!(rt; refuses(rt.alloc(), "solo", b"\xFF", "refused main lex 1 0")?);
    Ok(())
}

// A source whose third read fails.
fn failing_source(alloc: Global) -> Result<MemSource, Memory> {
    let input = b"var o = {x: 1}; o.x + 2;".to_vec(alloc)?;
    Ok(MemSource::new(input, 1, [2].to_vec(alloc)?))
}

#[test]
fn nothing_is_written_after_a_failing_read(rt: HostRuntime) -> Result<(), Fail> {
    let source = failing_source(rt.alloc())?;
    let (status, output) = outcome(rt.alloc(), "solo", source, sink(rt.alloc(), ROOM)?)?;
    assert_eq!(rt; status, Status::ReadFault);
    assert_eq!(rt; output.len(), 0);
    Ok(())
}

// A sink whose second write fails.
fn failing_sink(alloc: Global) -> Result<MemSink, Memory> {
    let room = vec![in alloc; 0; ROOM]?;
    Ok(MemSink::new(10, room, [1].to_vec(alloc)?))
}

#[test]
fn a_failing_second_write_keeps_the_first(rt: HostRuntime) -> Result<(), Fail> {
    let source = source(rt.alloc(), b"")?;
    let (status, output) = outcome(rt.alloc(), "solo", source, failing_sink(rt.alloc())?)?;
    assert_eq!(rt; status, Status::WriteFault);
    assert_eq!(rt; output.as_slice(), b"module mai".as_slice());
    Ok(())
}

// A sink that takes no byte.
fn full_sink(alloc: Global) -> Result<MemSink, Memory> {
    let room = vec![in alloc; 0; ROOM]?;
    Ok(MemSink::new(0, room, Vec::new(alloc)))
}

#[test]
fn a_sink_that_takes_nothing_has_no_room(rt: HostRuntime) -> Result<(), Fail> {
    let source = source(rt.alloc(), b"")?;
    let (status, output) = outcome(rt.alloc(), "solo", source, full_sink(rt.alloc())?)?;
    assert_eq!(rt; status, Status::NoRoom);
    assert_eq!(rt; output.len(), 0);
    Ok(())
}

// Whether wrong words are answered.
fn is_answered(alloc: Global, source: &mut MemSource) -> Result<bool, Memory> {
    let words = words(alloc, "walk")?;
    let mut sink = sink(alloc, ROOM)?;
    let status = caja(
        &words,
        source,
        &mut sink,
        &secure(alloc)?,
        &no_services(alloc),
        alloc,
    );
    Ok(status == Status::Usage && sink.written() == b"usage\n".as_slice())
}

#[test]
fn a_wrong_word_is_answered_before_the_input_is_read(rt: HostRuntime) -> Result<(), Fail> {
    let mut source = source(rt.alloc(), b"var a; a.x;")?;
    assert!(rt; is_answered(rt.alloc(), &mut source)?);
    let left = read_all(rt.alloc(), &mut source, 64)?;
    assert_eq!(rt; left.as_slice(), b"var a; a.x;".as_slice());
    Ok(())
}

#[test]
fn an_input_of_a_byte_too_many_is_refused(rt: HostRuntime) -> Result<(), Fail> {
    let input = vec![in rt.alloc(); b' '; LONGEST_INPUT + 1]?;
    assert!(rt; refuses(rt.alloc(), "solo", &input, "refused main input 1 0")?);
    assert!(rt; refuses(rt.alloc(), "cajole", &input, "refused main input 1 0")?);
    assert!(rt; refuses(rt.alloc(), "page", &input, "refused - input 1 0")?);
    assert!(rt; refuses(rt.alloc(), "run", &input, "refused - page 1 0")?);
    Ok(())
}

#[test]
fn texts_of_a_byte_too_many_are_refused(rt: HostRuntime) -> Result<(), Fail> {
    let input = vec![in rt.alloc(); b' '; LONGEST_TEXTS + 1]?;
    assert!(rt; refuses(rt.alloc(), "run", &input, "refused - input 1 0")?);
    Ok(())
}

#[test]
fn bytes_that_are_no_manifest_are_refused(rt: HostRuntime) -> Result<(), Fail> {
    for command in ["page", "run", "page --touch", "run --steps 5"] {
        assert!(rt;
            refuses(rt.alloc(), command, b"\xFF", "refused - page 1 0")?,
            "{command}"
        );
        assert!(rt;
            refuses(rt.alloc(), command, b"", "refused - page 1 0")?,
            "{command}"
        );
        assert!(rt;
            refuses(rt.alloc(), command, b"\xEF\xBB\xBF{}", "refused - page 1 0")?,
            "{command}"
        );
        assert!(rt;
            refuses(rt.alloc(), command, b"{}", "refused - page 2 0")?,
            "{command}"
        );
    }
    Ok(())
}

/// Words, an input, and the one line that is written.
static USAGE: &str = "
walk ⇒ 1; ⇒ usage
gen ⇒ 1; ⇒ usage
gen 0 ⇒ 1; ⇒ usage
check ⇒ 1; ⇒ usage
gadget ⇒ 1; ⇒ usage
--touch page ⇒ {} ⇒ usage
--steps 5 page ⇒ {} ⇒ usage
page page ⇒ {} ⇒ usage
page 5 ⇒ {} ⇒ usage
page -- ⇒ {} ⇒ usage
page --help ⇒ {} ⇒ usage
page --version ⇒ {} ⇒ usage
page --touch --touch ⇒ {} ⇒ usage
page --touch --steps 5 --touch ⇒ {} ⇒ usage
page --touch=1 ⇒ {} ⇒ usage
page --touched ⇒ {} ⇒ usage
page --steps ⇒ {} ⇒ usage
page --steps --touch ⇒ {} ⇒ usage
page --steps 0 ⇒ {} ⇒ usage
page --steps 10000001 ⇒ {} ⇒ usage
page --steps 5 --steps=5 ⇒ {} ⇒ usage
solo --touch --touch ⇒ 1; ⇒ usage
solo --touch 5 ⇒ 1; ⇒ usage
format --touch ⇒ 1; ⇒ usage
cajole --touch ⇒ 1; ⇒ usage
";

#[test]
fn other_words_are_usage(rt: HostRuntime) -> Result<(), Fail> {
    check_ends(rt.alloc(), USAGE, Status::Usage)
}

/// The options of a page in each order.
static OPTIONS: &str = r#"
# none
page
{"version":1,"modules":[{"name":"a","language":"cajita","source":"({}).x;"}]}
⇒
module a 141
___.loadModule(function(___,IMPORTS___){var moduleResult___;moduleResult___=___.readPub(___.initializeMap([]),"x");return moduleResult___;});
group a
load a return undefined
html 0

end done
# touches
page --touch
{"version":1,"modules":[{"name":"a","language":"cajita","source":"({}).x;"}]}
⇒
module a 141
___.loadModule(function(___,IMPORTS___){var moduleResult___;moduleResult___=___.readPub(___.initializeMap([]),"x");return moduleResult___;});
group a
touch a get a#0 "x"
load a return undefined
html 0

end done
# touches before steps
page --touch --steps 1
{"version":1,"modules":[{"name":"a","language":"cajita","source":"({}).x; while (true) {}"}]}
⇒
module a 154
___.loadModule(function(___,IMPORTS___){var moduleResult___;moduleResult___=___.readPub(___.initializeMap([]),"x");while(true){}return moduleResult___;});
group a
touch a get a#0 "x"
html 0

end steps
# steps before touches
page --steps=00000001 --touch
{"version":1,"modules":[{"name":"a","language":"cajita","source":"({}).x; while (true) {}"}]}
⇒
module a 154
___.loadModule(function(___,IMPORTS___){var moduleResult___;moduleResult___=___.readPub(___.initializeMap([]),"x");while(true){}return moduleResult___;});
group a
touch a get a#0 "x"
html 0

end steps
# a module by itself
solo --steps 1 --touch
({}).x; while (true) {}
⇒
module main 154
___.loadModule(function(___,IMPORTS___){var moduleResult___;moduleResult___=___.readPub(___.initializeMap([]),"x");while(true){}return moduleResult___;});
touch main get main#0 "x"
end steps
# texts
run --touch --steps=10
{"version":1,"modules":[{"name":"a","language":"es3","source":"while (true) {}"}]}
⇒
group a
html 0

end steps
"#;

#[test]
fn options_stand_in_any_order(rt: HostRuntime) -> Result<(), Fail> {
    check_outputs(rt.alloc(), OPTIONS)
}

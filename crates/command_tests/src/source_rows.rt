//! Sources at the edges of the language, each with the exact output.

use caja_cli::Status;
use caja_units::Memory;
use command_runs::runs::{check_refusals, refuses, run};
use std::alloc::Global;
use std::test::Fail;

/// What stands before the statements of a module in its cajoled text.
const BEFORE: &str = "___.loadModule(function(___,IMPORTS___){var moduleResult___;";

/// What stands behind them.
const BEHIND: &str = "return moduleResult___;});";

/// Sources, their cajoled statements, and the lines of their logs before the last.
static MODULES: &str = "
'a' + {}; ⇒ moduleResult___=\"a\"+___.initializeMap([]); ⇒ load main return \"a[object Object]\"
\"a\"; ⇒ moduleResult___=\"a\"; ⇒ load main return \"a\"
''; ⇒ moduleResult___=\"\"; ⇒ load main return \"\"
\"it's\"; ⇒ moduleResult___=\"it's\"; ⇒ load main return \"it's\"
'a \"b\"'; ⇒ moduleResult___=\"a \\\"b\\\"\"; ⇒ load main return \"a \\\"b\\\"\"
'<~ >'; ⇒ moduleResult___=\"\\x3C~ \\x3E\"; ⇒ load main return \"\\x3C~ \\x3E\"
1 + 'a' + 2; ⇒ moduleResult___=1+\"a\"+2; ⇒ load main return \"1a2\"
var a; 'a' + a; ⇒ var a;moduleResult___=\"a\"+a; ⇒ load main return \"aundefined\"
'a'.x; ⇒ moduleResult___=___.readPub(\"a\",\"x\"); ⇒ load main return undefined
({x: 'y'}).x; ⇒ moduleResult___=___.readPub(___.initializeMap([\"x\",\"y\"]),\"x\"); ⇒ load main return \"y\"
'a__' + \"undefined\"; ⇒ moduleResult___=\"a__\"+\"undefined\"; ⇒ load main return \"a__undefined\"
'\\n'; ⇒ moduleResult___=\"\\n\"; ⇒ load main return \"\\n\"
'\t'; ⇒ moduleResult___=\"\\t\"; ⇒ load main return \"\\t\"
'\x7F'; ⇒ moduleResult___=\"\\x7F\"; ⇒ load main return \"\\x7F\"
({'a': 1}); ⇒ moduleResult___=___.initializeMap([\"a\",1]); ⇒ load main return record main#0
9007199254740991; ⇒ moduleResult___=9007199254740991; ⇒ load main return 9007199254740991
1 .x; ⇒ moduleResult___=___.readPub(1,\"x\"); ⇒ load main return undefined
((((((((((((((((((((((((((((((((((((((((((((((((((((((((((((((((((((((((((((((((((((((((((((((((((((((((((((((((((((((((((((((((((((((((((((((((((((((((((((((((((((((((((((((((((((((((((((((((((((((((((((((((((((((((((((((((((((((((((((((((((((((((((((((((1)))))))))))))))))))))))))))))))))))))))))))))))))))))))))))))))))))))))))))))))))))))))))))))))))))))))))))))))))))))))))))))))))))))))))))))))))))))))))))))))))))))))))))))))))))))))))))))))))))))))))))))))))))))))))))))))))))))))))))))))))))))))))))))))); ⇒ moduleResult___=1; ⇒ load main return 1
1+1+1+1+1+1+1+1+1+1+1+1+1+1+1+1+1+1+1+1+1+1+1+1+1+1+1+1+1+1+1+1+1+1+1+1+1+1+1+1+1+1+1+1+1+1+1+1+1+1+1+1+1+1+1+1+1+1+1+1+1+1+1+1+1+1+1+1+1+1+1+1+1+1+1+1+1+1+1+1+1+1+1+1+1+1+1+1+1+1+1+1+1+1+1+1+1+1+1+1+1+1+1+1+1+1+1+1+1+1+1+1+1+1+1+1+1+1+1+1+1+1+1+1+1+1+1; ⇒ moduleResult___=1+1+1+1+1+1+1+1+1+1+1+1+1+1+1+1+1+1+1+1+1+1+1+1+1+1+1+1+1+1+1+1+1+1+1+1+1+1+1+1+1+1+1+1+1+1+1+1+1+1+1+1+1+1+1+1+1+1+1+1+1+1+1+1+1+1+1+1+1+1+1+1+1+1+1+1+1+1+1+1+1+1+1+1+1+1+1+1+1+1+1+1+1+1+1+1+1+1+1+1+1+1+1+1+1+1+1+1+1+1+1+1+1+1+1+1+1+1+1+1+1+1+1+1+1+1+1; ⇒ load main return 127
var aaaaaaaaaaaaaaaaaaaaaaaaaaaaaaaaaaaaaaaaaaaaaaaaaaaaaaaaaaaaaaaaaaaaaaaaaaaaaaaaaaaaaaaaaaaaaaaaaaaaaaaaaaaaaaaaaaaaaaaaaaaaaaaaaaaaaaaaaaaaaaaaaaaaaaaaaaaaaaaaaaaaaaaaaaaaaaaaaaaaaaaaaaaaaaaaaaaaaaaa; aaaaaaaaaaaaaaaaaaaaaaaaaaaaaaaaaaaaaaaaaaaaaaaaaaaaaaaaaaaaaaaaaaaaaaaaaaaaaaaaaaaaaaaaaaaaaaaaaaaaaaaaaaaaaaaaaaaaaaaaaaaaaaaaaaaaaaaaaaaaaaaaaaaaaaaaaaaaaaaaaaaaaaaaaaaaaaaaaaaaaaaaaaaaaaaaaaaaaaaa; ⇒ var aaaaaaaaaaaaaaaaaaaaaaaaaaaaaaaaaaaaaaaaaaaaaaaaaaaaaaaaaaaaaaaaaaaaaaaaaaaaaaaaaaaaaaaaaaaaaaaaaaaaaaaaaaaaaaaaaaaaaaaaaaaaaaaaaaaaaaaaaaaaaaaaaaaaaaaaaaaaaaaaaaaaaaaaaaaaaaaaaaaaaaaaaaaaaaaaaaaaaaaa;moduleResult___=aaaaaaaaaaaaaaaaaaaaaaaaaaaaaaaaaaaaaaaaaaaaaaaaaaaaaaaaaaaaaaaaaaaaaaaaaaaaaaaaaaaaaaaaaaaaaaaaaaaaaaaaaaaaaaaaaaaaaaaaaaaaaaaaaaaaaaaaaaaaaaaaaaaaaaaaaaaaaaaaaaaaaaaaaaaaaaaaaaaaaaaaaaaaaaaaaaaaaaaa; ⇒ load main return undefined
while (0) ; ⇒ while(0); ⇒ load main return undefined
{}; ⇒ {}; ⇒ load main return undefined
; ⇒ ; ⇒ load main return undefined
throw 1; ⇒ throw 1; ⇒ load main throw 1
for (;;) break; ⇒ for(;;)break; ⇒ load main return undefined
{} ⇒ {} ⇒ load main return undefined
var length; length; ⇒ var length;moduleResult___=length; ⇒ load main return undefined
a; var a; var a; ⇒ moduleResult___=a;var a;var a; ⇒ load main return undefined
'abc'.charAt; ⇒ moduleResult___=___.readPub(\"abc\",\"charAt\"); ⇒ load main return function !text.charAt
''.charAt.call; ⇒ moduleResult___=___.readPub(___.readPub(\"\",\"charAt\"),\"call\"); ⇒ load main return function !function.call
'abc'.length; ⇒ moduleResult___=___.readPub(\"abc\",\"length\"); ⇒ load main return 3
var r = {x: 'a'.split}; r.x; ⇒ var r=___.initializeMap([\"x\",___.readPub(\"a\",\"split\")]);moduleResult___=___.readPub(r,\"x\"); ⇒ load main return function !text.split
var r = {x: 'a'.split}; r.x + ''; ⇒ var r=___.initializeMap([\"x\",___.readPub(\"a\",\"split\")]);moduleResult___=___.readPub(r,\"x\")+\"\"; ⇒ load main return \"[object Function]\"
'a'.nothing; ⇒ moduleResult___=___.readPub(\"a\",\"nothing\"); ⇒ load main return undefined
var a; a.length; ⇒ var a;moduleResult___=___.readPub(a,\"length\"); ⇒ load main throw error main#0 TypeError \"no object\"
({}).charAt; ⇒ moduleResult___=___.readPub(___.initializeMap([]),\"charAt\"); ⇒ load main return undefined
({length: 1, say: 2}).say; ⇒ moduleResult___=___.readPub(___.initializeMap([\"length\",1,\"say\",2]),\"say\"); ⇒ load main return 2
({_: {}}); ⇒ moduleResult___=___.initializeMap([\"_\",___.initializeMap([])]); ⇒ load main return record main#1
var a; a.say; ⇒ var a;moduleResult___=___.readPub(a,\"say\"); ⇒ load main throw error main#0 TypeError \"no object\"
/* a */ var o = {'x': 0x10}; o.x; ⇒ var o=___.initializeMap([\"x\",16]);moduleResult___=___.readPub(o,\"x\"); ⇒ load main return 16
'\\x41\u{E9}';\r ⇒ moduleResult___=\"A\\xE9\"; ⇒ load main return \"A\\xE9\"
";

/// Sources, and the lines that refuse them.
static REFUSALS: &str = "
'a\"; ⇒ refused main lex 3 0
'a ⇒ refused main lex 3 0
' ⇒ refused main lex 3 0
9007199254740992; ⇒ refused main lex 7 0
01; ⇒ refused main lex 6 0
1.x; ⇒ refused main lex 6 0
(((((((((((((((((((((((((((((((((((((((((((((((((((((((((((((((((((((((((((((((((((((((((((((((((((((((((((((((((((((((((((((((((((((((((((((((((((((((((((((((((((((((((((((((((((((((((((((((((((((((((((((((((((((((((((((((((((((((((((((((((((((((((((((((((1))))))))))))))))))))))))))))))))))))))))))))))))))))))))))))))))))))))))))))))))))))))))))))))))))))))))))))))))))))))))))))))))))))))))))))))))))))))))))))))))))))))))))))))))))))))))))))))))))))))))))))))))))))))))))))))))))))))))))))))))))))))))))))))))); ⇒ refused main read 2 0
1+1+1+1+1+1+1+1+1+1+1+1+1+1+1+1+1+1+1+1+1+1+1+1+1+1+1+1+1+1+1+1+1+1+1+1+1+1+1+1+1+1+1+1+1+1+1+1+1+1+1+1+1+1+1+1+1+1+1+1+1+1+1+1+1+1+1+1+1+1+1+1+1+1+1+1+1+1+1+1+1+1+1+1+1+1+1+1+1+1+1+1+1+1+1+1+1+1+1+1+1+1+1+1+1+1+1+1+1+1+1+1+1+1+1+1+1+1+1+1+1+1+1+1+1+1+1+1; ⇒ refused main read 2 0
({x: 1, x: 2}); ⇒ refused main rule 9 8
({x: a, x__: 1, x: 2}); ⇒ refused main rule 10 5
var if; ⇒ refused main read 1 4
var arguments; ⇒ refused main rule 13 4
a ⇒ refused main read 1 1
({x: 1,}); ⇒ refused main read 1 7
a = 1; ⇒ refused main rule 10 0
a['x']; ⇒ refused main rule 10 0
'\\u00e9' + '\u{1F600}' // the end ⇒ refused main read 1 28
foo\\u005f_; ⇒ refused main lex 8 3
a = /b/; ⇒ refused main lex 9 4
'\\x4'; ⇒ refused main lex 5 0
1; /* a ⇒ refused main lex 4 3
1; \u{E9}; ⇒ refused main lex 2 3
if ( ⇒ refused main read 1 4
a + b = c; ⇒ refused main read 1 6
var a = ; ⇒ refused main read 1 8
a b; ⇒ refused main read 1 2
x = 1 ⇒ refused main read 1 5
{ ⇒ refused main read 1 1
{{{{{{{{{{{{{{{{{{{{{{{{{{{{{{{{{{{{{{{{{{{{{{{{{{{{{{{{{{{{{{{{{{{{{{{{{{{{{{{{{{{{{{{{{{{{{{{{{{{{{{{{{{{{{{{{{{{{{{{{{{{{{{{{ ⇒ refused main read 1 128
{{{{{{{{{{{{{{{{{{{{{{{{{{{{{{{{{{{{{{{{{{{{{{{{{{{{{{{{{{{{{{{{{{{{{{{{{{{{{{{{{{{{{{{{{{{{{{{{{{{{{{{{{{{{{{{{{{{{{{{{{{{{{{{{{ ⇒ refused main read 2 0
({'x__': 1}); ⇒ refused main rule 1 2
foo__; ⇒ refused main rule 1 0
'a'.x__; ⇒ refused main rule 1 4
__; ⇒ refused main rule 1 0
var foo__; ⇒ refused main rule 1 4
var a; a.b__; ⇒ refused main rule 1 9
({a__: 1}); ⇒ refused main rule 1 2
var a = {x: {y__: 1}}; ⇒ refused main rule 1 13
foo_; ⇒ refused main rule 10 0
length; ⇒ refused main rule 10 0
({x: y}); ⇒ refused main rule 10 5
var o = {x: {y: z}}; ⇒ refused main rule 10 16
var a = b; ⇒ refused main rule 10 8
1 + (a); ⇒ refused main rule 10 5
b; c__; ⇒ refused main rule 10 0
c__; b; ⇒ refused main rule 1 0
x__ + y; ⇒ refused main rule 1 0
({a: b, c__: 1}); ⇒ refused main rule 10 5
a.b__; ⇒ refused main rule 10 0
";

/// The whole output of a module.
fn wanted(alloc: Global, statements: &str, log: &str) -> Result<String, Memory> {
    let text = format!(in alloc; "{BEFORE}{statements}{BEHIND}")?;
    let length = text.len();
    Ok(format!(in alloc; "module main {length}\n{text}\n{log}\nend done\n")?)
}

/// Whether the source is a module with this output.
fn gives(alloc: Global, source: &str, statements: &str, log: &str) -> Result<bool, Memory> {
    let wanted = wanted(alloc, statements, log)?;
    let (status, output) = run(alloc, "solo", source.as_bytes())?;
    Ok(status != Status::Refused && output.as_slice() == wanted.as_bytes())
}

fn holds(alloc: Global, row: &str) -> Result<bool, Memory> {
    let Some((source, output)) = row.split_once(" ⇒ ") else {
        return Ok(row.is_empty());
    };
    match output.split_once(" ⇒ ") {
        Some((statements, log)) => gives(alloc, source, statements, log),
        None => Ok(false),
    }
}

#[test]
fn each_module_has_its_output(rt: HostRuntime) -> Result<(), Fail> {
    for row in MODULES.lines() {
        assert!(rt; holds(rt.alloc(), row)?, "{row}");
    }
    Ok(())
}

#[test]
fn each_refusal_has_its_line(rt: HostRuntime) -> Result<(), Fail> {
    check_refusals(rt.alloc(), "solo", REFUSALS)?;
    assert!(rt; refuses(rt.alloc(), "solo", b"\n a.x;", "refused main rule 10 2")?);
    Ok(())
}

/// Modules that break a rule, and the whole output for each.
static PAGES: &str = "
var a; a.b__; ⇒ refused main rule 1 9
with ({}) ; ⇒ refused main rule 2 0
eval; ⇒ refused main rule 3 0
this; ⇒ refused main rule 4 0
function f() {} var f; ⇒ refused main rule 5 20
try {} catch (e) { var e; } ⇒ refused main rule 6 14
function f() {} f = 1; ⇒ refused main rule 7 16
({toString: 1}); ⇒ refused main rule 8 2
({a: 1, a: 2}); ⇒ refused main rule 9 8
x; ⇒ refused main rule 10 0
break; ⇒ refused main rule 11 0
var x; delete x; ⇒ refused main rule 12 7
function f() { arguments = 1; } ⇒ refused main rule 13 15
";

#[test]
fn each_rule_refuses_a_page(rt: HostRuntime) -> Result<(), Fail> {
    check_refusals(rt.alloc(), "solo", PAGES)
}

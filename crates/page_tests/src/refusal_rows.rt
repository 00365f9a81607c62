//! Pages that are refused: by their manifest, or by a module's source; and what is written then.

use command_runs::page_tables::check_outputs;
use std::test::Fail;

/// A fault of each number in a manifest, and its place: the module, the cell or the event where it stands.
static MANIFESTS: &str = r#"
# 1: no JSON
page
this is no manifest
⇒
refused - page 1 0
# 1: nothing
page

⇒
refused - page 1 0
# 2: a module without a source
page
{"version":1,"modules":[{"name":"a","language":"cajita","source":""},{"name":"b","language":"cajita"}]}
⇒
refused - page 2 1
# 2: an event of no form
page
{"version":1,"modules":[{"name":"a","language":"cajita","source":""}],"events":[{"tick":"a"},{"tick":"a"},{}]}
⇒
refused - page 2 2
# 2: a grant of no form
page
{"version":1,"modules":[{"name":"a","language":"cajita","source":"","grants":[{"name":"g"}]}]}
⇒
refused - page 2 0
# 3: a source that is no text
page
{"version":1,"modules":[{"name":"a","language":"cajita","source":["1;"]}]}
⇒
refused - page 3 0
# 3: another language
page
{"version":1,"modules":[{"name":"a","language":"cajita","source":""},{"name":"b","language":"javascript","source":""}]}
⇒
refused - page 3 1
# 3: a text that runs as it stands is no module of a page
page
{"version":1,"modules":[{"name":"a","language":"es3","source":"1;"}]}
⇒
refused - page 3 0
# 3: a value that is no plain one
page
{"version":1,"modules":[{"name":"a","language":"cajita","source":"","grants":[{"name":"g","value":{"x":1}}]}]}
⇒
refused - page 3 0
# 3: a fraction among the arguments
page
{"version":1,"modules":[{"name":"a","language":"cajita","source":""}],"events":[{"tick":"a"},{"call":"a","key":"f","args":[1,1.5]}]}
⇒
refused - page 3 1
# 3: a version that is no integer
page
{"version":1.0,"modules":[]}
⇒
refused - page 3 0
# 4: a sheet with a field too many
page
{"version":1,"styles":[{"root":"r","css":"","media":"print"}],"modules":[]}
⇒
refused - page 4 0
# 4: an event with a field too many
page
{"version":1,"modules":[{"name":"a","language":"cajita","source":""}],"events":[{"tick":"a"},{"tick":"a","args":[]}]}
⇒
refused - page 4 1
# 4: a grant of two forms
page
{"version":1,"cells":["k"],"modules":[{"name":"a","language":"cajita","source":"","grants":[{"name":"g","cell":"k","value":1}]}]}
⇒
refused - page 4 0
# 5: a module's name with a capital
page
{"version":1,"modules":[{"name":"a","language":"cajita","source":""},{"name":"B","language":"cajita","source":""}]}
⇒
refused - page 5 1
# 5: a cell's name that begins with a digit
page
{"version":1,"cells":["a","2b"],"modules":[]}
⇒
refused - page 5 1
# 5: a grant by the name of a hidden key
page
{"version":1,"modules":[{"name":"a","language":"cajita","source":"","grants":[{"name":"g__","value":1}]}]}
⇒
refused - page 5 0
# 5: a grant by a fixed name
page
{"version":1,"modules":[{"name":"a","language":"cajita","source":"","grants":[{"name":"say","value":1}]}]}
⇒
refused - page 5 0
# 5: a grant by a word of the language
page
{"version":1,"modules":[{"name":"a","language":"cajita","source":"","grants":[{"name":"this","value":1}]}]}
⇒
refused - page 5 0
# 6: a cell twice
page
{"version":1,"cells":["a","b","a"],"modules":[]}
⇒
refused - page 6 2
# 6: a module twice
page
{"version":1,"modules":[{"name":"a","language":"cajita","source":""},{"name":"a","language":"cajita","source":""}]}
⇒
refused - page 6 1
# 6: a grant twice
page
{"version":1,"modules":[{"name":"a","language":"cajita","source":""},{"name":"b","language":"cajita","source":"","grants":[{"name":"g","value":1},{"name":"g","value":1}]}]}
⇒
refused - page 6 1
# 7: a cell that isn't there
page
{"version":1,"cells":["k"],"modules":[{"name":"a","language":"cajita","source":"","grants":[{"name":"g","cell":"l"}]}]}
⇒
refused - page 7 0
# 7: a module that isn't there
page
{"version":1,"cells":["b"],"modules":[{"name":"a","language":"cajita","source":"","grants":[{"name":"g","module":"b"}]}]}
⇒
refused - page 7 0
# 8: a module that is granted its own result
page
{"version":1,"modules":[{"name":"a","language":"cajita","source":""},{"name":"b","language":"cajita","source":"","grants":[{"name":"g","module":"b"}]}]}
⇒
refused - page 8 1
# 8: two modules that are granted each other's results
page
{"version":1,"modules":[{"name":"a","language":"cajita","source":"","grants":[{"name":"b","module":"b"}]},{"name":"b","language":"cajita","source":"","grants":[{"name":"a","module":"a"}]}]}
⇒
refused - page 8 0
# 10: an event of a module that isn't there
page
{"version":1,"cells":["k"],"modules":[{"name":"a","language":"cajita","source":""}],"events":[{"tick":"a"},{"tick":"k"}]}
⇒
refused - page 10 1
# 12: another version
page
{"version":2,"modules":[]}
⇒
refused - page 12 0
# 12: a version below 1
page
{"version":-1,"modules":[]}
⇒
refused - page 12 0
"#;

/// Sources that are refused: the module, the stage, the number and the byte of the source.
static SOURCES: &str = r#"
# a source that isn't cut into tokens
page
{"version":1,"modules":[{"name":"a","language":"cajita","source":"1;"},{"name":"b","language":"cajita","source":"a = /b/;"}]}
⇒
refused b lex 9 4
# a source that spells no program
page
{"version":1,"modules":[{"name":"a","language":"cajita","source":"1;"},{"name":"b","language":"cajita","source":"1; 2 3;"}]}
⇒
refused b read 1 5
# a source that breaks a rule
page
{"version":1,"modules":[{"name":"a","language":"cajita","source":"1;"},{"name":"b","language":"cajita","source":"2; this;"}]}
⇒
refused b rule 4 3
# the first module that is refused is told, whatever its stage
page
{"version":1,"modules":[{"name":"a","language":"cajita","source":"x;"},{"name":"b","language":"cajita","source":"a = /b/;"}]}
⇒
refused a rule 10 0
# a module with two faults is refused by the first stage
page
{"version":1,"modules":[{"name":"a","language":"cajita","source":"1;"},{"name":"bee","language":"cajita","source":"this; 2 3; 'open"},{"name":"c","language":"cajita","source":"'open"}]}
⇒
refused bee lex 3 11
# a manifest's fault comes before a source's
page
{"version":1,"modules":[{"name":"a","language":"cajita","source":"this;"}],"events":[{"tick":"b"}]}
⇒
refused - page 10 0
# the byte is one of the source, not of the manifest
page
{"version":1,"modules":[{"name":"a","language":"cajita","source":"\u0027\u00e9\u0027; \"\\x41\"; x;"}]}
⇒
refused a rule 10 14
# a byte order mark before a source counts
page
{"version":1,"modules":[{"name":"a","language":"cajita","source":"\ufeffx;"}]}
⇒
refused a rule 10 3
# a source that nests too deep
page
{"version":1,"modules":[{"name":"a","language":"cajita","source":"{{{{{{{{{{{{{{{{{{{{{{{{{{{{{{{{{{{{{{{{{{{{{{{{{{{{{{{{{{{{{{{{{{{{{{{{{{{{{{{{{{{{{{{{{{{{{{{{{{{{{{{{{{{{{{{{{{{{{{{{{{{{{{{{{}}}}}}}}}}}}}}}}}}}}}}}}}}}}}}}}}}}}}}}}}}}}}}}}}}}}}}}}}}}}}}}}}}}}}}}}}}}}}}}}}}}}}}}}}}}}}}}}}}}}}}}}}}}}}}}}}}}}}}}}}}}}}}}}}"}]}
⇒
refused a read 2 0
# nothing is run where the last module is refused
page --touch
{"version":1,"modules":[{"name":"a","language":"cajita","source":"say('loaded');"},{"name":"b","language":"cajita","source":"say('loaded');"},{"name":"c","language":"cajita","source":"say("}]}
⇒
refused c read 1 4
"#;

/// Manifests of texts that run as they stand.
static TEXTS: &str = r#"
# a text without a manifest
run
1;
⇒
refused - page 1 0
# a number is JSON, and no page
run
1
⇒
refused - page 3 0
# a module of a page is no text that runs as it stands
run
{"version":1,"modules":[{"name":"a","language":"es3","source":"1;"},{"name":"b","language":"cajita","source":"1;"}]}
⇒
refused - page 3 1
# a jump without its target
run
{"version":1,"modules":[{"name":"a","language":"es3","source":"1;"},{"name":"b","language":"es3","source":"1; break;"}]}
⇒
refused b label 1 3
# the first text that is refused is told, whatever its stage
run
{"version":1,"modules":[{"name":"a","language":"es3","source":"break;"},{"name":"b","language":"es3","source":"a = /b/;"}]}
⇒
refused a label 1 0
# a text that spells no program
run
{"version":1,"modules":[{"name":"a","language":"es3","source":"a + b = c;"}]}
⇒
refused a read 1 6
# a grant of a later text
run
{"version":1,"modules":[{"name":"a","language":"es3","source":"1;","grants":[{"name":"g","module":"b"}]},{"name":"b","language":"es3","source":"break;"}]}
⇒
refused - page 8 0
"#;

#[test]
fn a_manifest_is_refused_by_its_first_fault(rt: HostRuntime) -> Result<(), Fail> {
    check_outputs(rt.alloc(), MANIFESTS)
}

#[test]
fn a_page_is_refused_by_its_first_source_with_a_fault(rt: HostRuntime) -> Result<(), Fail> {
    check_outputs(rt.alloc(), SOURCES)
}

#[test]
fn texts_are_refused_in_the_same_order(rt: HostRuntime) -> Result<(), Fail> {
    check_outputs(rt.alloc(), TEXTS)
}

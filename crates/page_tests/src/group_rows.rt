//! Groups: which modules are together, and in which order they are listed.

use command_runs::page_tables::check_pages;
use std::test::Fail;

/// Groups by cells.
static CELLS: &str = r#"
# no modules, no groups
page
{"version":1,"modules":[]}
⇒
html 0

end done
# modules without grants are apart
page
{"version":1,"modules":[{"name":"c","language":"cajita","source":""},{"name":"a","language":"cajita","source":""},{"name":"b","language":"cajita","source":""}]}
⇒
group c
group a
group b
load c return undefined
load a return undefined
load b return undefined
html 0

end done
# two that share a cell, and one between them
page
{"version":1,"cells":["k"],"modules":[
{"name":"a","language":"cajita","source":"","grants":[{"name":"k","cell":"k"}]},
{"name":"b","language":"cajita","source":""},
{"name":"c","language":"cajita","source":"","grants":[{"name":"x","cell":"k"}]}]}
⇒
group a c
group b
load a return undefined
load b return undefined
load c return undefined
html 0

end done
# cells that nobody shares join nobody
page
{"version":1,"cells":["j","k"],"modules":[
{"name":"a","language":"cajita","source":"","grants":[{"name":"j","cell":"j"}]},
{"name":"b","language":"cajita","source":"","grants":[{"name":"j","cell":"k"}]}]}
⇒
group a
group b
load a return undefined
load b return undefined
html 0

end done
# a chain of cells: each shares one with the next
page
{"version":1,"cells":["x","y","z"],"modules":[
{"name":"a","language":"cajita","source":"","grants":[{"name":"x","cell":"x"}]},
{"name":"b","language":"cajita","source":"","grants":[{"name":"x","cell":"x"},{"name":"y","cell":"y"}]},
{"name":"c","language":"cajita","source":"","grants":[{"name":"y","cell":"y"},{"name":"z","cell":"z"}]},
{"name":"d","language":"cajita","source":"","grants":[{"name":"z","cell":"z"}]}]}
⇒
group a b c d
load a return undefined
load b return undefined
load c return undefined
load d return undefined
html 0

end done
# the last module joins two groups
page
{"version":1,"cells":["x","y"],"modules":[
{"name":"a","language":"cajita","source":"","grants":[{"name":"x","cell":"x"}]},
{"name":"b","language":"cajita","source":"","grants":[{"name":"y","cell":"y"}]},
{"name":"c","language":"cajita","source":""},
{"name":"d","language":"cajita","source":"","grants":[{"name":"y","cell":"y"},{"name":"x","cell":"x"}]}]}
⇒
group a b d
group c
load a return undefined
load b return undefined
load c return undefined
load d return undefined
html 0

end done
# two pairs crosswise
page
{"version":1,"cells":["x","y"],"modules":[
{"name":"a","language":"cajita","source":"","grants":[{"name":"x","cell":"x"}]},
{"name":"b","language":"cajita","source":"","grants":[{"name":"y","cell":"y"}]},
{"name":"c","language":"cajita","source":"","grants":[{"name":"x","cell":"x"}]},
{"name":"d","language":"cajita","source":"","grants":[{"name":"y","cell":"y"}]}]}
⇒
group a c
group b d
load a return undefined
load b return undefined
load c return undefined
load d return undefined
html 0

end done
"#;

/// Groups by results.
static RESULTS: &str = r#"
# who is granted a result is with the module whose it is
page
{"version":1,"modules":[
{"name":"a","language":"cajita","source":""},
{"name":"b","language":"cajita","source":""},
{"name":"c","language":"cajita","source":"","grants":[{"name":"a","module":"a"}]}]}
⇒
group a c
group b
load a return undefined
load b return undefined
load c return undefined
html 0

end done
# also where the result is no object, and isn't used
page
{"version":1,"modules":[
{"name":"a","language":"cajita","source":"5;"},
{"name":"b","language":"cajita","source":"6;","grants":[{"name":"n","module":"a"}]}]}
⇒
group a b
load a return 5
load b return 6
html 0

end done
# a chain of results: each has that of the one before
page
{"version":1,"modules":[
{"name":"a","language":"cajita","source":"1;"},
{"name":"b","language":"cajita","source":"a + 1;","grants":[{"name":"a","module":"a"}]},
{"name":"c","language":"cajita","source":"b + 1;","grants":[{"name":"b","module":"b"}]},
{"name":"d","language":"cajita","source":"c + 1;","grants":[{"name":"c","module":"c"}]}]}
⇒
group a b c d
load a return 1
load b return 2
load c return 3
load d return 4
html 0

end done
# two that have the result of a third
page
{"version":1,"modules":[
{"name":"a","language":"cajita","source":"1;"},
{"name":"b","language":"cajita","source":"2;"},
{"name":"c","language":"cajita","source":"a;","grants":[{"name":"a","module":"a"}]},
{"name":"d","language":"cajita","source":"a;","grants":[{"name":"a","module":"a"}]},
{"name":"e","language":"cajita","source":"b;","grants":[{"name":"b","module":"b"}]}]}
⇒
group a c d
group b e
load a return 1
load b return 2
load c return 1
load d return 1
load e return 2
html 0

end done
# a result joins what cells had joined
page
{"version":1,"cells":["x","y"],"modules":[
{"name":"a","language":"cajita","source":"","grants":[{"name":"x","cell":"x"}]},
{"name":"b","language":"cajita","source":"","grants":[{"name":"x","cell":"x"}]},
{"name":"c","language":"cajita","source":"","grants":[{"name":"y","cell":"y"}]},
{"name":"d","language":"cajita","source":"","grants":[{"name":"y","cell":"y"},{"name":"b","module":"b"}]},
{"name":"e","language":"cajita","source":""}]}
⇒
group a b c d
group e
load a return undefined
load b return undefined
load c return undefined
load d return undefined
load e return undefined
html 0

end done
# equal values join nobody
page
{"version":1,"modules":[
{"name":"a","language":"cajita","source":"g;","grants":[{"name":"g","value":"same"}]},
{"name":"b","language":"cajita","source":"g;","grants":[{"name":"g","value":"same"}]}]}
⇒
group a
group b
load a return "same"
load b return "same"
html 0

end done
# events join nobody
page
{"version":1,"modules":[
{"name":"a","language":"cajita","source":"({f: function () { return 1; }});"},
{"name":"b","language":"cajita","source":"({f: function () { return 2; }});"}],
"events":[{"call":"b","key":"f"},{"call":"a","key":"f"}]}
⇒
group a
group b
load a return record a#1
load b return record b#1
event 0 call b "f" return 2
event 1 call a "f" return 1
html 0

end done
# texts have groups too
run
{"version":1,"cells":["k"],"modules":[
{"name":"a","language":"es3","source":"1;","grants":[{"name":"k","cell":"k"}]},
{"name":"b","language":"es3","source":"2;"},
{"name":"c","language":"es3","source":"3;","grants":[{"name":"k","cell":"k"}]}]}
⇒
group a c
group b
load a return 1
load b return 2
load c return 3
html 0

end done
"#;

#[test]
fn who_shares_a_cell_is_together(rt: HostRuntime) -> Result<(), Fail> {
    check_pages(rt.alloc(), CELLS)
}

#[test]
fn who_has_a_result_is_with_its_module(rt: HostRuntime) -> Result<(), Fail> {
    check_pages(rt.alloc(), RESULTS)
}

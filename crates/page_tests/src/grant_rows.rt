//! What a module is granted: plain values, results of modules that were loaded before, and names.

use command_runs::page_tables::{check_outputs, check_pages};
use std::test::Fail;

/// A plain value of each kind, as the module has it.
static PLAIN: &str = r#"
# null
page
{"version":1,"modules":[{"name":"a","language":"cajita","source":"g;","grants":[{"name":"g","value":null}]}]}
⇒
group a
load a return null
html 0

end done
# true
page
{"version":1,"modules":[{"name":"a","language":"cajita","source":"g;","grants":[{"name":"g","value":true}]}]}
⇒
group a
load a return true
html 0

end done
# false
page
{"version":1,"modules":[{"name":"a","language":"cajita","source":"g;","grants":[{"name":"g","value":false}]}]}
⇒
group a
load a return false
html 0

end done
# zero
page
{"version":1,"modules":[{"name":"a","language":"cajita","source":"g;","grants":[{"name":"g","value":0}]}]}
⇒
group a
load a return 0
html 0

end done
# the greatest number
page
{"version":1,"modules":[{"name":"a","language":"cajita","source":"g;","grants":[{"name":"g","value":9007199254740991}]}]}
⇒
group a
load a return 9007199254740991
html 0

end done
# the least number
page
{"version":1,"modules":[{"name":"a","language":"cajita","source":"g;","grants":[{"name":"g","value":-9007199254740991}]}]}
⇒
group a
load a return -9007199254740991
html 0

end done
# the empty text
page
{"version":1,"modules":[{"name":"a","language":"cajita","source":"g;","grants":[{"name":"g","value":""}]}]}
⇒
group a
load a return ""
html 0

end done
# a text of units of all kinds
page
{"version":1,"modules":[{"name":"a","language":"cajita","source":"g;","grants":[{"name":"g","value":"a\"\\\/\b\t\n\u000b\f\r<b>\u0000\u007f\u00e9é\u2028\ud83d\ude00😀"}]}]}
⇒
group a
load a return "a\"\\/\b\t\n\v\f\r\x3Cb\x3E\x00\x7F\xE9\xE9\u2028\uD83D\uDE00\uD83D\uDE00"
html 0

end done
# each has its type
page
{"version":1,"modules":[{"name":"a","language":"cajita","source":"[typeof n, typeof t, typeof i, typeof s].join();","grants":[{"name":"n","value":null},{"name":"t","value":true},{"name":"i","value":-7},{"name":"s","value":"x"}]}]}
⇒
group a
load a return "object,boolean,number,string"
html 0

end done
# a number is one, and a text of digits is none
page
{"version":1,"modules":[{"name":"a","language":"cajita","source":"[i + 1, s + 1].join(' ');","grants":[{"name":"i","value":41},{"name":"s","value":"41"}]}]}
⇒
group a
load a return "42 411"
html 0

end done
# nobody writes to a text
page
{"version":1,"modules":[{"name":"a","language":"cajita","source":"g.x = 1;","grants":[{"name":"g","value":"ab"}]}]}
⇒
group a
load a throw error a#0 TypeError "not writable"
html 0

end done
# a value comes to those alone that are granted it
page
{"version":1,"modules":[
{"name":"a","language":"cajita","source":"g;","grants":[{"name":"g","value":1}]},
{"name":"b","language":"cajita","source":"g;","grants":[{"name":"g","value":2}]}]}
⇒
group a
group b
load a return 1
load b return 2
html 0

end done
"#;

/// Results of modules that were loaded before.
static RESULTS: &str = r#"
# a record
page
{"version":1,"modules":[
{"name":"a","language":"cajita","source":"({x: 1});"},
{"name":"b","language":"cajita","source":"a.x = a.x + 1; a;","grants":[{"name":"a","module":"a"}]},
{"name":"c","language":"cajita","source":"a.x;","grants":[{"name":"a","module":"a"}]}]}
⇒
group a b c
load a return record a#0
load b return record a#0
load c return 2
html 0

end done
# an array
page
{"version":1,"modules":[
{"name":"a","language":"cajita","source":"[1, 2];"},
{"name":"b","language":"cajita","source":"list.push(3); list.join('-');","grants":[{"name":"list","module":"a"}]}]}
⇒
group a b
load a return array a#0
load b return "1-2-3"
html 0

end done
# a function
page
{"version":1,"modules":[
{"name":"a","language":"cajita","source":"var n = 0; var f = function (x) { n = n + x; return n; }; f;"},
{"name":"b","language":"cajita","source":"f(2); f(3);","grants":[{"name":"f","module":"a"}]}]}
⇒
group a b
load a return function a#0
load b return 5
html 0

end done
# an error
page
{"version":1,"modules":[
{"name":"a","language":"cajita","source":"new RangeError('far');"},
{"name":"b","language":"cajita","source":"throw e;","grants":[{"name":"e","module":"a"}]}]}
⇒
group a b
load a return error a#0 RangeError "far"
load b throw error a#0 RangeError "far"
html 0

end done
# null
page
{"version":1,"modules":[
{"name":"a","language":"cajita","source":"null;"},
{"name":"b","language":"cajita","source":"a === null;","grants":[{"name":"a","module":"a"}]}]}
⇒
group a b
load a return null
load b return true
html 0

end done
# a text
page
{"version":1,"modules":[
{"name":"a","language":"cajita","source":"'left';"},
{"name":"b","language":"cajita","source":"a + ' right';","grants":[{"name":"a","module":"a"}]}]}
⇒
group a b
load a return "left"
load b return "left right"
html 0

end done
# a number
page
{"version":1,"modules":[
{"name":"a","language":"cajita","source":"6 * 7;"},
{"name":"b","language":"cajita","source":"a + 1;","grants":[{"name":"a","module":"a"}]}]}
⇒
group a b
load a return 42
load b return 43
html 0

end done
# no value at all
page
{"version":1,"modules":[
{"name":"a","language":"cajita","source":"var x = 5;"},
{"name":"b","language":"cajita","source":"typeof a;","grants":[{"name":"a","module":"a"}]}]}
⇒
group a b
load a return undefined
load b return "undefined"
html 0

end done
# a module whose load throws has the result undefined
page
{"version":1,"modules":[
{"name":"a","language":"cajita","source":"({x: 1}); throw 'gone';"},
{"name":"b","language":"cajita","source":"typeof a;","grants":[{"name":"a","module":"a"}]},
{"name":"c","language":"cajita","source":"a.x;","grants":[{"name":"a","module":"a"}]}]}
⇒
group a b c
load a throw "gone"
load b return "undefined"
load c throw error c#0 TypeError "no object"
html 0

end done
# a built-in function
page
{"version":1,"modules":[
{"name":"a","language":"cajita","source":"Math.max;"},
{"name":"b","language":"cajita","source":"m(3, 9, 4);","grants":[{"name":"m","module":"a"}]}]}
⇒
group a b
load a return function !Math.max
load b return 9
html 0

end done
# another module's say writes that module's lines
page
{"version":1,"modules":[
{"name":"a","language":"cajita","source":"say;"},
{"name":"b","language":"cajita","source":"tell('from b'); say('by b'); tell === say;","grants":[{"name":"tell","module":"a"}]}]}
⇒
group a b
load a return function a!say
say a "from b"
say b "by b"
load b return false
html 0

end done
# a cell that a module hands out
page
{"version":1,"cells":["k"],"modules":[
{"name":"a","language":"cajita","source":"k.set('kept'); k;","grants":[{"name":"k","cell":"k"}]},
{"name":"b","language":"cajita","source":"box.get();","grants":[{"name":"box","module":"a"}]}]}
⇒
group a b
load a return record cell:k
load b return "kept"
html 0

end done
# a result under two names is one thing
page
{"version":1,"modules":[
{"name":"a","language":"cajita","source":"({});"},
{"name":"b","language":"cajita","source":"x === y;","grants":[{"name":"x","module":"a"},{"name":"y","module":"a"}]}]}
⇒
group a b
load a return record a#0
load b return true
html 0

end done
# a result that is handed on
page
{"version":1,"modules":[
{"name":"a","language":"cajita","source":"({x: 1});"},
{"name":"b","language":"cajita","source":"a;","grants":[{"name":"a","module":"a"}]},
{"name":"c","language":"cajita","source":"b.x = 7; b;","grants":[{"name":"b","module":"b"}]},
{"name":"d","language":"cajita","source":"a.x;","grants":[{"name":"a","module":"a"}]}]}
⇒
group a b c d
load a return record a#0
load b return record a#0
load c return record a#0
load d return 7
html 0

end done
# a result stays what it was as the module was loaded
page
{"version":1,"modules":[
{"name":"a","language":"cajita","source":"var n = 1; n; var f = function () { n = 2; };"},
{"name":"b","language":"cajita","source":"a;","grants":[{"name":"a","module":"a"}]}]}
⇒
group a b
load a return 1
load b return 1
html 0

end done
"#;

/// Names of grants.
static NAMES: &str = r#"
# a grant that isn't used leaves no word in the text
page
{"version":1,"modules":[{"name":"a","language":"cajita","source":"1;","grants":[{"name":"g","value":5}]}]}
⇒
module a 104
___.loadModule(function(___,IMPORTS___){var moduleResult___;moduleResult___=1;return moduleResult___;});
group a
load a return 1
html 0

end done
# imports stand in the order of their first use
page
{"version":1,"modules":[{"name":"a","language":"cajita","source":"[y, x, y];","grants":[{"name":"x","value":1},{"name":"y","value":2}]}]}
⇒
module a 205
___.loadModule(function(___,IMPORTS___){var moduleResult___;var y=___.readImport(IMPORTS___,"y");var x=___.readImport(IMPORTS___,"x");moduleResult___=___.initializeArray([y,x,y]);return moduleResult___;});
group a
load a return array a#0
html 0

end done
# another value under the same name has the same text
page
{"version":1,"cells":["k"],"modules":[
{"name":"a","language":"cajita","source":"typeof g;","grants":[{"name":"g","value":5}]},
{"name":"b","language":"cajita","source":"typeof g;","grants":[{"name":"g","cell":"k"}]},
{"name":"c","language":"cajita","source":"typeof g;","grants":[{"name":"g","module":"a"}]}]}
⇒
module a 148
___.loadModule(function(___,IMPORTS___){var moduleResult___;var g=___.readImport(IMPORTS___,"g");moduleResult___=typeof g;return moduleResult___;});
module b 148
___.loadModule(function(___,IMPORTS___){var moduleResult___;var g=___.readImport(IMPORTS___,"g");moduleResult___=typeof g;return moduleResult___;});
module c 148
___.loadModule(function(___,IMPORTS___){var moduleResult___;var g=___.readImport(IMPORTS___,"g");moduleResult___=typeof g;return moduleResult___;});
group a c
group b
load a return "number"
load b return "object"
load c return "string"
html 0

end done
# a module's own name hides a grant
page
{"version":1,"modules":[{"name":"a","language":"cajita","source":"var g = 1; g = g + 1; g;","grants":[{"name":"g","value":5}]}]}
⇒
module a 134
___.loadModule(function(___,IMPORTS___){var moduleResult___;var g=1;moduleResult___=g=g+1;moduleResult___=g;return moduleResult___;});
group a
load a return 2
html 0

end done
# a parameter hides a grant in its function alone
page
{"version":1,"modules":[{"name":"a","language":"cajita","source":"var f = function (g) { g = g + 1; return g; }; [f(1), g].join();","grants":[{"name":"g","value":5}]}]}
⇒
module a 255
___.loadModule(function(___,IMPORTS___){var moduleResult___;var g=___.readImport(IMPORTS___,"g");var f=___.func(function(g){g=g+1;return g;});moduleResult___=___.callPub(___.initializeArray([___.asSimpleFunc(f)(1),g]),"join",[]);return moduleResult___;});
group a
load a return "2,5"
html 0

end done
# names with an underscore and a dollar sign
page
{"version":1,"modules":[{"name":"a","language":"cajita","source":"[_a, b_, c$, D9].join();","grants":[{"name":"_a","value":1},{"name":"b_","value":2},{"name":"c$","value":3},{"name":"D9","value":4}]}]}
⇒
module a 316
___.loadModule(function(___,IMPORTS___){var moduleResult___;var _a=___.readImport(IMPORTS___,"_a");var b_=___.readImport(IMPORTS___,"b_");var c$=___.readImport(IMPORTS___,"c$");var D9=___.readImport(IMPORTS___,"D9");moduleResult___=___.callPub(___.initializeArray([_a,b_,c$,D9]),"join",[]);return moduleResult___;});
group a
load a return "1,2,3,4"
html 0

end done
# a module may be granted what has its own name
page
{"version":1,"modules":[
{"name":"a","language":"cajita","source":"b;","grants":[{"name":"b","value":1}]},
{"name":"b","language":"cajita","source":"b;","grants":[{"name":"b","module":"a"}]}]}
⇒
module a 141
___.loadModule(function(___,IMPORTS___){var moduleResult___;var b=___.readImport(IMPORTS___,"b");moduleResult___=b;return moduleResult___;});
module b 141
___.loadModule(function(___,IMPORTS___){var moduleResult___;var b=___.readImport(IMPORTS___,"b");moduleResult___=b;return moduleResult___;});
group a b
load a return 1
load b return 1
html 0

end done
# a grant is not written to
page
{"version":1,"modules":[{"name":"a","language":"cajita","source":"1; g = 2;","grants":[{"name":"g","value":5}]}]}
⇒
refused a rule 7 3
# a grant of one module is no name of another
page
{"version":1,"modules":[
{"name":"a","language":"cajita","source":"g;","grants":[{"name":"g","value":1}]},
{"name":"b","language":"cajita","source":"[g];"}]}
⇒
refused b rule 10 1
# a module's name is no name within another
page
{"version":1,"modules":[
{"name":"a","language":"cajita","source":"1;"},
{"name":"b","language":"cajita","source":"a;"}]}
⇒
refused b rule 10 0
# a cell's name is none either
page
{"version":1,"cells":["k"],"modules":[{"name":"a","language":"cajita","source":"k;"}]}
⇒
refused a rule 10 0
"#;

#[test]
fn a_plain_value_comes_as_it_stands(rt: HostRuntime) -> Result<(), Fail> {
    check_pages(rt.alloc(), PLAIN)
}

#[test]
fn a_result_is_granted_as_it_is(rt: HostRuntime) -> Result<(), Fail> {
    check_pages(rt.alloc(), RESULTS)
}

#[test]
fn the_text_has_the_names_of_grants_and_nothing_else_of_them(rt: HostRuntime) -> Result<(), Fail> {
    check_outputs(rt.alloc(), NAMES)
}

//! Events that call a key of a module's result: records, other results, and those of other modules.

use command_runs::page_tables::check_pages;
use std::test::Fail;

/// Events on a record.
static RECORDS: &str = r#"
# the arguments are plain values
page
{"version":1,"modules":[{"name":"m","language":"cajita","source":"({f: function (a, b, c, d, e) { return [a, b, c, d, typeof e].join('|'); }});"}],
"events":[{"call":"m","key":"f","args":[null,true,-3,"x"]}]}
⇒
group m
load m return record m#1
event 0 call m "f" return "|true|-3|x|undefined"
html 0

end done
# as many arguments as the event has
page
{"version":1,"modules":[{"name":"m","language":"cajita","source":"({f: function () { return arguments.length; }});"}],
"events":[{"call":"m","key":"f","args":[1,2,3]},{"call":"m","key":"f","args":[]},{"call":"m","key":"f"}]}
⇒
group m
load m return record m#1
event 0 call m "f" return 3
event 1 call m "f" return 0
event 2 call m "f" return 0
html 0

end done
# each kind of value is returned
page
{"version":1,"modules":[{"name":"m","language":"cajita","source":"({r: function () { return {}; }, a: function () { return []; }, f: function () { return function () {}; }, e: function () { return Error('m'); }, u: function () {}, n: function () { return null; }, b: function () { return false; }, t: function () { return '<'; }});"}],
"events":[{"call":"m","key":"r"},{"call":"m","key":"a"},{"call":"m","key":"f"},{"call":"m","key":"e"},{"call":"m","key":"u"},{"call":"m","key":"n"},{"call":"m","key":"b"},{"call":"m","key":"t"}]}
⇒
group m
load m return record m#8
event 0 call m "r" return record m#9
event 1 call m "a" return array m#10
event 2 call m "f" return function m#11
event 3 call m "e" return error m#12 Error "m"
event 4 call m "u" return undefined
event 5 call m "n" return null
event 6 call m "b" return false
event 7 call m "t" return "\x3C"
html 0

end done
# whatever is thrown is told, and the page goes on
page
{"version":1,"modules":[{"name":"m","language":"cajita","source":"({f: function (x) { throw x; }, g: function () { throw new RangeError('no'); }, h: function () { null.x; }});"}],
"events":[{"call":"m","key":"f","args":["t"]},{"call":"m","key":"g"},{"call":"m","key":"h"},{"call":"m","key":"f"}]}
⇒
group m
load m return record m#3
event 0 call m "f" throw "t"
event 1 call m "g" throw error m#4 RangeError "no"
event 2 call m "h" throw error m#5 TypeError "no object"
event 3 call m "f" throw undefined
html 0

end done
# a key that isn't there, and one that is no function
page
{"version":1,"modules":[{"name":"m","language":"cajita","source":"({n: 1, t: 'x'});"}],
"events":[{"call":"m","key":"f"},{"call":"m","key":"n"},{"call":"m","key":"t"}]}
⇒
group m
load m return record m#0
event 0 call m "f" throw error m#1 TypeError "not a function"
event 1 call m "n" throw error m#2 TypeError "not a function"
event 2 call m "t" throw error m#3 TypeError "not a function"
html 0

end done
# no record has keys of a prototype, nor hidden ones
page
{"version":1,"modules":[{"name":"m","language":"cajita","source":"({});"}],
"events":[{"call":"m","key":"constructor"},{"call":"m","key":"toString"},{"call":"m","key":"valueOf"},{"call":"m","key":"hasOwnProperty"},{"call":"m","key":"__proto__"},{"call":"m","key":"FROZEN___"}]}
⇒
group m
load m return record m#0
event 0 call m "constructor" throw error m#1 TypeError "not a function"
event 1 call m "toString" throw error m#2 TypeError "not a function"
event 2 call m "valueOf" throw error m#3 TypeError "not a function"
event 3 call m "hasOwnProperty" throw error m#4 TypeError "not a function"
event 4 call m "__proto__" throw error m#5 TypeError "not a function"
event 5 call m "FROZEN___" throw error m#6 TypeError "not a function"
html 0

end done
# a key is any text
page
{"version":1,"modules":[{"name":"m","language":"cajita","source":"({'': function () { return 'empty'; }, 'a\"b': function () { return 'quoted'; }, 'é': function () { return 'letter'; }, 'if': function () { return 'word'; }, 7: function () { return 'number'; }});"}],
"events":[{"call":"m","key":""},{"call":"m","key":"a\"b"},{"call":"m","key":"\u00e9"},{"call":"m","key":"if"},{"call":"m","key":"7"},{"call":"m","key":"07"}]}
⇒
group m
load m return record m#5
event 0 call m "" return "empty"
event 1 call m "a\"b" return "quoted"
event 2 call m "\xE9" return "letter"
event 3 call m "if" return "word"
event 4 call m "7" return "number"
event 5 call m "07" throw error m#6 TypeError "not a function"
html 0

end done
# a key has the value of its turn
page
{"version":1,"modules":[{"name":"m","language":"cajita","source":"var r = {f: function () { r.f = function () { delete r.f; return 'second'; }; return 'first'; }}; r;"}],
"events":[{"call":"m","key":"f"},{"call":"m","key":"f"},{"call":"m","key":"f"}]}
⇒
group m
load m return record m#1
event 0 call m "f" return "first"
event 1 call m "f" return "second"
event 2 call m "f" throw error m#3 TypeError "not a function"
html 0

end done
# what a turn throws undoes nothing
page
{"version":1,"modules":[{"name":"m","language":"cajita","source":"var n = 0; ({up: function () { n++; throw n; }, n: function () { return n; }});"}],
"events":[{"call":"m","key":"up"},{"call":"m","key":"up"},{"call":"m","key":"n"}]}
⇒
group m
load m return record m#2
event 0 call m "up" throw 1
event 1 call m "up" throw 2
event 2 call m "n" return 2
html 0

end done
# built-in functions as keys of a record
page
{"version":1,"modules":[{"name":"m","language":"cajita","source":"({max: Math.max, at: 'a'.charAt, push: [].push, tell: say, make: Error, wait: later});"}],
"events":[{"call":"m","key":"max","args":[3,9,4]},{"call":"m","key":"at","args":[0]},{"call":"m","key":"push","args":[0]},{"call":"m","key":"tell","args":["hi"]},{"call":"m","key":"make","args":["made"]},{"call":"m","key":"wait","args":["no"]}]}
⇒
group m
load m return record m#1
event 0 call m "max" return 9
event 1 call m "at" throw error m#2 TypeError "bad receiver"
event 2 call m "push" throw error m#3 TypeError "bad receiver"
say m "hi"
event 3 call m "tell" return undefined
event 4 call m "make" return error m#4 Error "made"
event 5 call m "wait" throw error m#5 TypeError "bad argument"
html 0

end done
"#;

/// Events on results that are no records.
static RESULTS: &str = r#"
# undefined
page
{"version":1,"modules":[{"name":"m","language":"cajita","source":"var x = {f: function () {}};"}],"events":[{"call":"m","key":"f"},{"call":"m","key":"call"},{"call":"m","key":"f__"}]}
⇒
group m
load m return undefined
event 0 call m "f" throw error m#2 TypeError "no object"
event 1 call m "call" throw error m#3 TypeError "no object"
event 2 call m "f__" throw error m#4 TypeError "no object"
html 0

end done
# null
page
{"version":1,"modules":[{"name":"m","language":"cajita","source":"null;"}],"events":[{"call":"m","key":"f"}]}
⇒
group m
load m return null
event 0 call m "f" throw error m#0 TypeError "no object"
html 0

end done
# nothing, since the load threw
page
{"version":1,"modules":[{"name":"m","language":"cajita","source":"({f: function () {}}); throw 'early';"}],"events":[{"call":"m","key":"f"}]}
⇒
group m
load m throw "early"
event 0 call m "f" throw error m#2 TypeError "no object"
html 0

end done
# a number and a truth value
page
{"version":1,"modules":[{"name":"m","language":"cajita","source":"5;"},{"name":"n","language":"cajita","source":"true;"}],"events":[{"call":"m","key":"f"},{"call":"n","key":"toString"}]}
⇒
group m
group n
load m return 5
load n return true
event 0 call m "f" throw error m#0 TypeError "not a function"
event 1 call n "toString" throw error n#0 TypeError "not a function"
html 0

end done
# a text
page
{"version":1,"modules":[{"name":"m","language":"cajita","source":"'how now';"}],"events":[{"call":"m","key":"slice","args":[4]},{"call":"m","key":"charAt","args":[0]},{"call":"m","key":"length"},{"call":"m","key":"nothing"},{"call":"m","key":"split","args":[" "]},{"call":"m","key":"concat","args":["!",null]}]}
⇒
group m
load m return "how now"
event 0 call m "slice" return "now"
event 1 call m "charAt" return "h"
event 2 call m "length" throw error m#0 TypeError "not a function"
event 3 call m "nothing" throw error m#1 TypeError "not a function"
event 4 call m "split" return array m#2
event 5 call m "concat" return "how now!null"
html 0

end done
# an array
page
{"version":1,"modules":[{"name":"m","language":"cajita","source":"[3, 1];"}],"events":[{"call":"m","key":"push","args":[5]},{"call":"m","key":"join","args":["-"]},{"call":"m","key":"pop"},{"call":"m","key":"0"},{"call":"m","key":"length"},{"call":"m","key":"reverse"},{"call":"m","key":"join"},{"call":"m","key":"slice","args":[0,1]},{"call":"m","key":"sort"}]}
⇒
group m
load m return array m#0
event 0 call m "push" return 3
event 1 call m "join" return "3-1-5"
event 2 call m "pop" return 5
event 3 call m "0" throw error m#1 TypeError "not a function"
event 4 call m "length" throw error m#2 TypeError "not a function"
event 5 call m "reverse" return array m#0
event 6 call m "join" return "1,3"
event 7 call m "slice" return array m#3
event 8 call m "sort" throw error m#4 TypeError "not a function"
html 0

end done
# a frozen array
page
{"version":1,"modules":[{"name":"m","language":"cajita","source":"cajita.freeze([1]);"}],"events":[{"call":"m","key":"push","args":[2]},{"call":"m","key":"join"}]}
⇒
group m
load m return array m#0
event 0 call m "push" throw error m#1 TypeError "not writable"
event 1 call m "join" return "1"
html 0

end done
# an array of functions
page
{"version":1,"modules":[{"name":"m","language":"cajita","source":"[function (x) { return x + 1; }];"}],"events":[{"call":"m","key":"0","args":[1]},{"call":"m","key":"1","args":[1]},{"call":"m","key":"00","args":[1]}]}
⇒
group m
load m return array m#1
event 0 call m "0" return 2
event 1 call m "1" throw error m#2 TypeError "not a function"
event 2 call m "00" throw error m#3 TypeError "not a function"
html 0

end done
# a function
page
{"version":1,"modules":[{"name":"m","language":"cajita","source":"(function (a, b) { return a + '/' + b; });"}],"events":[{"call":"m","key":"call","args":[null,1,2]},{"call":"m","key":"apply","args":[null]},{"call":"m","key":"apply","args":[null,null]},{"call":"m","key":"apply","args":[null,"text"]},{"call":"m","key":"name"},{"call":"m","key":"call"}]}
⇒
group m
load m return function m#0
event 0 call m "call" return "1/2"
event 1 call m "apply" return "undefined/undefined"
event 2 call m "apply" return "undefined/undefined"
event 3 call m "apply" throw error m#1 TypeError "bad argument"
event 4 call m "name" throw error m#2 TypeError "not a function"
event 5 call m "call" return "undefined/undefined"
html 0

end done
# an error
page
{"version":1,"modules":[{"name":"m","language":"cajita","source":"new Error('m');"}],"events":[{"call":"m","key":"message"},{"call":"m","key":"toString"}]}
⇒
group m
load m return error m#0 Error "m"
event 0 call m "message" throw error m#1 TypeError "not a function"
event 1 call m "toString" throw error m#2 TypeError "not a function"
html 0

end done
# a cell
page
{"version":1,"cells":["k"],"modules":[{"name":"m","language":"cajita","source":"k;","grants":[{"name":"k","cell":"k"}]}],"events":[{"call":"m","key":"get"},{"call":"m","key":"set","args":[5]},{"call":"m","key":"get"},{"call":"m","key":"clear"}]}
⇒
group m
load m return record cell:k
event 0 call m "get" return undefined
event 1 call m "set" return undefined
event 2 call m "get" return 5
event 3 call m "clear" throw error m#0 TypeError "not a function"
html 0

end done
# the record cajita
page
{"version":1,"modules":[{"name":"m","language":"cajita","source":"cajita;"}],"events":[{"call":"m","key":"isFrozen","args":[1]},{"call":"m","key":"freeze","args":["t"]},{"call":"m","key":"copy","args":[1]},{"call":"m","key":"keys","args":["ab"]},{"call":"m","key":"isArray","args":[1]}]}
⇒
group m
load m return record !cajita
event 0 call m "isFrozen" return true
event 1 call m "freeze" return "t"
event 2 call m "copy" throw error m#0 TypeError "bad argument"
event 3 call m "keys" return array m#1
event 4 call m "isArray" return false
html 0

end done
# the record Math
page
{"version":1,"modules":[{"name":"m","language":"cajita","source":"Math;"}],"events":[{"call":"m","key":"max","args":[3,"9",true]},{"call":"m","key":"abs","args":[-4]},{"call":"m","key":"random"}]}
⇒
group m
load m return record !Math
event 0 call m "max" return 9
event 1 call m "abs" return 4
event 2 call m "random" throw error m#0 TypeError "not a function"
html 0

end done
# built-in functions
page
{"version":1,"modules":[
{"name":"n","language":"cajita","source":"Number;"},
{"name":"e","language":"cajita","source":"TypeError;"},
{"name":"s","language":"cajita","source":"say;"},
{"name":"l","language":"cajita","source":"later;"},
{"name":"t","language":"cajita","source":"'a'.concat;"},
{"name":"j","language":"cajita","source":"[].join;"}],
"events":[{"call":"n","key":"call","args":[null,"12"]},{"call":"n","key":"apply","args":[null]},{"call":"e","key":"call","args":[null,"m"]},{"call":"s","key":"call","args":[null,"hi"]},{"call":"l","key":"call","args":[null,5]},{"call":"t","key":"call","args":["x",1,null]},{"call":"t","key":"apply","args":["x"]},{"call":"t","key":"call","args":[5]},{"call":"j","key":"call","args":["x"]}]}
⇒
group n
group e
group s
group l
group t
group j
load n return function !Number
load e return function !TypeError
load s return function s!say
load l return function l!later
load t return function !text.concat
load j return function !array.join
event 0 call n "call" return 12
event 1 call n "apply" return 0
event 2 call e "call" return error e#0 TypeError "m"
say s "hi"
event 3 call s "call" return undefined
event 4 call l "call" throw error l#0 TypeError "bad argument"
event 5 call t "call" return "x1null"
event 6 call t "apply" return "x"
event 7 call t "call" throw error t#0 TypeError "bad receiver"
event 8 call j "call" throw error j#1 TypeError "bad receiver"
html 0

end done
"#;

/// Events on what another module made.
static OTHERS: &str = r#"
# a lookup is the called module's, and a function its maker's
page
{"version":1,"modules":[
{"name":"a","language":"cajita","source":"({f: function () { say('f of a'); return {}; }});"},
{"name":"b","language":"cajita","source":"a;","grants":[{"name":"a","module":"a"}]}],
"events":[{"call":"b","key":"f"},{"call":"b","key":"g"},{"call":"a","key":"g"}]}
⇒
group a b
load a return record a#1
load b return record a#1
say a "f of a"
event 0 call b "f" return record a#2
event 1 call b "g" throw error b#0 TypeError "not a function"
event 2 call a "g" throw error a#3 TypeError "not a function"
html 0

end done
# a record with another's function and another's say
page
{"version":1,"modules":[
{"name":"a","language":"cajita","source":"({f: function (x) { say('a has ' + x); return x; }, tell: say});"},
{"name":"b","language":"cajita","source":"({f: a.f, tell: a.tell, own: say});","grants":[{"name":"a","module":"a"}]}],
"events":[{"call":"b","key":"f","args":[1]},{"call":"b","key":"tell","args":["told"]},{"call":"b","key":"own","args":["own"]}]}
⇒
group a b
load a return record a#1
load b return record b#0
say a "a has 1"
event 0 call b "f" return 1
say a "told"
event 1 call b "tell" return undefined
say b "own"
event 2 call b "own" return undefined
html 0

end done
# an error is of the module that runs
page
{"version":1,"modules":[
{"name":"a","language":"cajita","source":"({f: function (g) { return null.x; }});"},
{"name":"b","language":"cajita","source":"({f: function () { return a.f(); }, g: function () { return null.x; }});","grants":[{"name":"a","module":"a"}]}],
"events":[{"call":"b","key":"f"},{"call":"b","key":"g"}]}
⇒
group a b
load a return record a#1
load b return record b#2
event 0 call b "f" throw error a#2 TypeError "no object"
event 1 call b "g" throw error b#3 TypeError "no object"
html 0

end done
# a built-in function acts for the module that is called
page
{"version":1,"modules":[
{"name":"a","language":"cajita","source":"[[1], 2];"},
{"name":"b","language":"cajita","source":"a;","grants":[{"name":"a","module":"a"}]}],
"events":[{"call":"b","key":"slice"},{"call":"a","key":"slice"},{"call":"b","key":"push","args":[3]},{"call":"a","key":"join"}]}
⇒
group a b
load a return array a#1
load b return array a#1
event 0 call b "slice" return array b#0
event 1 call a "slice" return array a#2
event 2 call b "push" return 3
event 3 call a "join" return "1,2,3"
html 0

end done
"#;

#[test]
fn an_event_calls_a_key_of_a_record(rt: HostRuntime) -> Result<(), Fail> {
    check_pages(rt.alloc(), RECORDS)
}

#[test]
fn an_event_calls_a_method_of_any_result(rt: HostRuntime) -> Result<(), Fail> {
    check_pages(rt.alloc(), RESULTS)
}

#[test]
fn an_event_calls_what_another_module_made(rt: HostRuntime) -> Result<(), Fail> {
    check_pages(rt.alloc(), OTHERS)
}

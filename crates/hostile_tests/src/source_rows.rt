//! Guests whose source is refused, so that nothing of the page runs, and texts that would leave their place.

use command_runs::page_tables::check_outputs;
use std::test::Fail;

/// A guest whose source breaks a rule, beside a victim that isn't loaded.
static REFUSED: &str = r#"
# the guards themselves
page
{"version":1,"modules":[
{"name":"victim","language":"cajita","source":"var pin = 1234, tries = 0; cajita.freeze({ask: function (p) { tries = tries + 1; return p === pin; }, list: cajita.freeze([1, 2]), tries: function () { return tries; }});"},
{"name":"guest","language":"cajita","source":"___.readPub(v, 'pin');","grants":[{"name":"v","module":"victim"}]}]}
⇒
refused guest rule 1 0
# the imports
page
{"version":1,"modules":[
{"name":"victim","language":"cajita","source":"var pin = 1234, tries = 0; cajita.freeze({ask: function (p) { tries = tries + 1; return p === pin; }, list: cajita.freeze([1, 2]), tries: function () { return tries; }});"},
{"name":"guest","language":"cajita","source":"IMPORTS___.cajita;","grants":[{"name":"v","module":"victim"}]}]}
⇒
refused guest rule 1 0
# the module's result
page
{"version":1,"modules":[
{"name":"victim","language":"cajita","source":"var pin = 1234, tries = 0; cajita.freeze({ask: function (p) { tries = tries + 1; return p === pin; }, list: cajita.freeze([1, 2]), tries: function () { return tries; }});"},
{"name":"guest","language":"cajita","source":"1; moduleResult___ = v;","grants":[{"name":"v","module":"victim"}]}]}
⇒
refused guest rule 1 3
# a hidden key behind a point
page
{"version":1,"modules":[
{"name":"victim","language":"cajita","source":"var pin = 1234, tries = 0; cajita.freeze({ask: function (p) { tries = tries + 1; return p === pin; }, list: cajita.freeze([1, 2]), tries: function () { return tries; }});"},
{"name":"guest","language":"cajita","source":"v.FROZEN___ = false;","grants":[{"name":"v","module":"victim"}]}]}
⇒
refused guest rule 1 2
# a hidden key of a record
page
{"version":1,"modules":[
{"name":"victim","language":"cajita","source":"var pin = 1234, tries = 0; cajita.freeze({ask: function (p) { tries = tries + 1; return p === pin; }, list: cajita.freeze([1, 2]), tries: function () { return tries; }});"},
{"name":"guest","language":"cajita","source":"({FROZEN___: false});","grants":[{"name":"v","module":"victim"}]}]}
⇒
refused guest rule 1 2
# the global object by this
page
{"version":1,"modules":[
{"name":"victim","language":"cajita","source":"var pin = 1234, tries = 0; cajita.freeze({ask: function (p) { tries = tries + 1; return p === pin; }, list: cajita.freeze([1, 2]), tries: function () { return tries; }});"},
{"name":"guest","language":"cajita","source":"this.v;","grants":[{"name":"v","module":"victim"}]}]}
⇒
refused guest rule 4 0
# the global object by this in a function
page
{"version":1,"modules":[
{"name":"victim","language":"cajita","source":"var pin = 1234, tries = 0; cajita.freeze({ask: function (p) { tries = tries + 1; return p === pin; }, list: cajita.freeze([1, 2]), tries: function () { return tries; }});"},
{"name":"guest","language":"cajita","source":"(function () { return this; })();","grants":[{"name":"v","module":"victim"}]}]}
⇒
refused guest rule 4 22
# code from a text by eval
page
{"version":1,"modules":[
{"name":"victim","language":"cajita","source":"var pin = 1234, tries = 0; cajita.freeze({ask: function (p) { tries = tries + 1; return p === pin; }, list: cajita.freeze([1, 2]), tries: function () { return tries; }});"},
{"name":"guest","language":"cajita","source":"eval('v');","grants":[{"name":"v","module":"victim"}]}]}
⇒
refused guest rule 3 0
# code from a text by Function
page
{"version":1,"modules":[
{"name":"victim","language":"cajita","source":"var pin = 1234, tries = 0; cajita.freeze({ask: function (p) { tries = tries + 1; return p === pin; }, list: cajita.freeze([1, 2]), tries: function () { return tries; }});"},
{"name":"guest","language":"cajita","source":"Function('return this;')();","grants":[{"name":"v","module":"victim"}]}]}
⇒
refused guest rule 10 0
# the variables of a record by with
page
{"version":1,"modules":[
{"name":"victim","language":"cajita","source":"var pin = 1234, tries = 0; cajita.freeze({ask: function (p) { tries = tries + 1; return p === pin; }, list: cajita.freeze([1, 2]), tries: function () { return tries; }});"},
{"name":"guest","language":"cajita","source":"with (v) { ask(1); }","grants":[{"name":"v","module":"victim"}]}]}
⇒
refused guest rule 2 0
# the victim's variables
page
{"version":1,"modules":[
{"name":"victim","language":"cajita","source":"var pin = 1234, tries = 0; cajita.freeze({ask: function (p) { tries = tries + 1; return p === pin; }, list: cajita.freeze([1, 2]), tries: function () { return tries; }});"},
{"name":"guest","language":"cajita","source":"v.ask(pin);","grants":[{"name":"v","module":"victim"}]}]}
⇒
refused guest rule 10 6
# a browser's objects
page
{"version":1,"modules":[
{"name":"victim","language":"cajita","source":"var pin = 1234, tries = 0; cajita.freeze({ask: function (p) { tries = tries + 1; return p === pin; }, list: cajita.freeze([1, 2]), tries: function () { return tries; }});"},
{"name":"guest","language":"cajita","source":"window.location;","grants":[{"name":"v","module":"victim"}]}]}
⇒
refused guest rule 10 0
# prototypes by their constructors
page
{"version":1,"modules":[
{"name":"victim","language":"cajita","source":"var pin = 1234, tries = 0; cajita.freeze({ask: function (p) { tries = tries + 1; return p === pin; }, list: cajita.freeze([1, 2]), tries: function () { return tries; }});"},
{"name":"guest","language":"cajita","source":"Object.prototype;","grants":[{"name":"v","module":"victim"}]}]}
⇒
refused guest rule 10 0
# a conversion of its own
page
{"version":1,"modules":[
{"name":"victim","language":"cajita","source":"var pin = 1234, tries = 0; cajita.freeze({ask: function (p) { tries = tries + 1; return p === pin; }, list: cajita.freeze([1, 2]), tries: function () { return tries; }});"},
{"name":"guest","language":"cajita","source":"v.ask({valueOf: function () { return 1; }});","grants":[{"name":"v","module":"victim"}]}]}
⇒
refused guest rule 8 7
# another conversion of its own
page
{"version":1,"modules":[
{"name":"victim","language":"cajita","source":"var pin = 1234, tries = 0; cajita.freeze({ask: function (p) { tries = tries + 1; return p === pin; }, list: cajita.freeze([1, 2]), tries: function () { return tries; }});"},
{"name":"guest","language":"cajita","source":"v.ask({'toString': function () { return '1'; }});","grants":[{"name":"v","module":"victim"}]}]}
⇒
refused guest rule 8 7
# a grant that is written to
page
{"version":1,"modules":[
{"name":"victim","language":"cajita","source":"var pin = 1234, tries = 0; cajita.freeze({ask: function (p) { tries = tries + 1; return p === pin; }, list: cajita.freeze([1, 2]), tries: function () { return tries; }});"},
{"name":"guest","language":"cajita","source":"v = {ask: function () { return true; }};","grants":[{"name":"v","module":"victim"}]}]}
⇒
refused guest rule 7 0
# say that is written to
page
{"version":1,"modules":[
{"name":"victim","language":"cajita","source":"var pin = 1234, tries = 0; cajita.freeze({ask: function (p) { tries = tries + 1; return p === pin; }, list: cajita.freeze([1, 2]), tries: function () { return tries; }});"},
{"name":"guest","language":"cajita","source":"say = function () {};","grants":[{"name":"v","module":"victim"}]}]}
⇒
refused guest rule 7 0
# arguments that are written to
page
{"version":1,"modules":[
{"name":"victim","language":"cajita","source":"var pin = 1234, tries = 0; cajita.freeze({ask: function (p) { tries = tries + 1; return p === pin; }, list: cajita.freeze([1, 2]), tries: function () { return tries; }});"},
{"name":"guest","language":"cajita","source":"function f() { arguments = [1]; }","grants":[{"name":"v","module":"victim"}]}]}
⇒
refused guest rule 13 15
# a name that is spelled by an escape
page
{"version":1,"modules":[
{"name":"victim","language":"cajita","source":"var pin = 1234, tries = 0; cajita.freeze({ask: function (p) { tries = tries + 1; return p === pin; }, list: cajita.freeze([1, 2]), tries: function () { return tries; }});"},
{"name":"guest","language":"cajita","source":"v.ask; \\u005f__;","grants":[{"name":"v","module":"victim"}]}]}
⇒
refused guest lex 8 7
# a regular expression
page
{"version":1,"modules":[
{"name":"victim","language":"cajita","source":"var pin = 1234, tries = 0; cajita.freeze({ask: function (p) { tries = tries + 1; return p === pin; }, list: cajita.freeze([1, 2]), tries: function () { return tries; }});"},
{"name":"guest","language":"cajita","source":"/a/.constructor;","grants":[{"name":"v","module":"victim"}]}]}
⇒
refused guest lex 9 0
# a return out of the module
page
{"version":1,"modules":[
{"name":"victim","language":"cajita","source":"var pin = 1234, tries = 0; cajita.freeze({ask: function (p) { tries = tries + 1; return p === pin; }, list: cajita.freeze([1, 2]), tries: function () { return tries; }});"},
{"name":"guest","language":"cajita","source":"return v;","grants":[{"name":"v","module":"victim"}]}]}
⇒
refused guest rule 11 0
# a text that closes the text around it
page
{"version":1,"modules":[
{"name":"victim","language":"cajita","source":"var pin = 1234, tries = 0; cajita.freeze({ask: function (p) { tries = tries + 1; return p === pin; }, list: cajita.freeze([1, 2]), tries: function () { return tries; }});"},
{"name":"guest","language":"cajita","source":"1;});v;(function(){2;","grants":[{"name":"v","module":"victim"}]}]}
⇒
refused guest read 1 2
# a catch that hides a variable
page
{"version":1,"modules":[
{"name":"victim","language":"cajita","source":"var pin = 1234, tries = 0; cajita.freeze({ask: function (p) { tries = tries + 1; return p === pin; }, list: cajita.freeze([1, 2]), tries: function () { return tries; }});"},
{"name":"guest","language":"cajita","source":"var e; try { v.fail(); } catch (e) { e = v; }","grants":[{"name":"v","module":"victim"}]}]}
⇒
refused guest rule 6 32
"#;

/// Sources, and the texts that stand for them in a page.
static TEXTS: &str = r#"
# a text that would close a script
page
{"version":1,"modules":[
{"name":"guest","language":"cajita","source":"'</script><!-- ]]>';"}]}
⇒
module guest 134
___.loadModule(function(___,IMPORTS___){var moduleResult___;moduleResult___="\x3C/script\x3E\x3C!-- ]]\x3E";return moduleResult___;});
group guest
load guest return "\x3C/script\x3E\x3C!-- ]]\x3E"
html 0

end done
# names in another alphabet, in a comment and in a text
page
{"version":1,"modules":[
{"name":"guest","language":"cajita","source":"/* \u2028 ___ */ 'p\u00een' + /* */ '\u202e';"}]}
⇒
module guest 120
___.loadModule(function(___,IMPORTS___){var moduleResult___;moduleResult___="p\xEEn"+"\u202E";return moduleResult___;});
group guest
load guest return "p\xEEn\u202E"
html 0

end done
# operators that would run together into a comment
page
{"version":1,"modules":[
{"name":"guest","language":"cajita","source":"var a = 1, b = 2; a < !b; a - -b; a + +b; [[a]] > b; a-- > b;"}]}
⇒
module guest 252
___.loadModule(function(___,IMPORTS___){var moduleResult___;var a=1,b=2;moduleResult___=a< !b;moduleResult___=a- -b;moduleResult___=a+ +b;moduleResult___=___.initializeArray([___.initializeArray([a])])>b;moduleResult___=a-->b;return moduleResult___;});
group guest
load guest return false
html 0

end done
"#;

#[test]
fn a_source_that_breaks_a_rule_does_not_run(rt: HostRuntime) -> Result<(), Fail> {
    check_outputs(rt.alloc(), REFUSED)
}

#[test]
fn no_text_leaves_its_place(rt: HostRuntime) -> Result<(), Fail> {
    check_outputs(rt.alloc(), TEXTS)
}

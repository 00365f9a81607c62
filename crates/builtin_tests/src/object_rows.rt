//! The global names, their prototypes, and how they are shown: the words, the text, and what it gives.

use caja_cli::Status;
use command_runs::tables::{check_ends, check_gives};
use std::test::Fail;

/// `Object` with and without `new` (ES3 15.2.1.1, 15.2.2.1): a new object for nothing, and an object itself.
static OBJECTS: &str = "
run ⇒ Object(); ⇒ return record main#0
run ⇒ new Object; ⇒ return record main#0
run ⇒ new Object(undefined); ⇒ return record main#0
run ⇒ Object(null); ⇒ return record main#0
run ⇒ Object(undefined, 5); ⇒ return record main#0
run ⇒ var o = {}; Object(o) === o; ⇒ return true
run ⇒ var a = [1]; new Object(a) === a; ⇒ return true
run ⇒ Object([1]); ⇒ return array ?
run ⇒ Object({}, 1); ⇒ return record ?
run ⇒ Object(Math.abs); ⇒ return function !Math.abs
run ⇒ new Object(Math); ⇒ return record !Math
run ⇒ Object() === Object(); ⇒ return false
run ⇒ Object() + ''; ⇒ return \"[object Object]\"
run ⇒ Object().constructor === Object; ⇒ return true
run ⇒ Object() instanceof Object; ⇒ return true
run ⇒ var s = ''; for (var k in Object()) s += k; s; ⇒ return \"\"
run ⇒ var o = Object(), s = ''; o.b = 1; o.a = 2; for (var k in o) s += k; s; ⇒ return \"ba\"
run ⇒ Object.prototype.y = 1; var s = ''; for (var k in {a: 1}) s += k; s; ⇒ return \"ay\"
";

/// No wrapper, no function of a text, and no array of a length alone is made.
static NOT_ALLOWED: &str = "
run ⇒ Object(1); ⇒ throw error main#0 TypeError \"not allowed\"
run ⇒ Object('a'); ⇒ throw error main#0 TypeError \"not allowed\"
run ⇒ Object(''); ⇒ throw error main#0 TypeError \"not allowed\"
run ⇒ Object(false); ⇒ throw error main#0 TypeError \"not allowed\"
run ⇒ new Object(0); ⇒ throw error main#0 TypeError \"not allowed\"
run ⇒ new Object('', 1); ⇒ throw error main#0 TypeError \"not allowed\"
run ⇒ new Object(true); ⇒ throw error main#0 TypeError \"not allowed\"
run ⇒ Function(); ⇒ throw error main#0 TypeError \"not allowed\"
run ⇒ new Function; ⇒ throw error main#0 TypeError \"not allowed\"
run ⇒ new Function('a', 'return a;'); ⇒ throw error main#0 TypeError \"not allowed\"
run ⇒ Function.call(null, ''); ⇒ throw error main#0 TypeError \"not allowed\"
run ⇒ Function({toString: 1}); ⇒ throw error main#0 TypeError \"not allowed\"
run ⇒ (function () {}).constructor('return 1;'); ⇒ throw error main#0 TypeError \"not allowed\"
run ⇒ Array(3); ⇒ throw error main#0 TypeError \"not allowed\"
run ⇒ new Array(3); ⇒ throw error main#0 TypeError \"not allowed\"
run ⇒ Array(0); ⇒ throw error main#0 TypeError \"not allowed\"
run ⇒ Array(-1); ⇒ throw error main#0 TypeError \"not allowed\"
run ⇒ [].constructor(2); ⇒ throw error main#0 TypeError \"not allowed\"
run ⇒ Array.apply(null, [4]); ⇒ throw error main#0 TypeError \"not allowed\"
run ⇒ try { Array(3); } catch (e) { e.name + ' ' + e.message + ' ' + (e instanceof TypeError); } ⇒ return \"TypeError not allowed true\"
";

/// `new` makes nothing by the other functions, and records are no functions.
static NO_CONSTRUCTORS: &str = "
run ⇒ new Number(1); ⇒ throw error ? TypeError \"not a constructor\"
run ⇒ new Number; ⇒ throw error ? TypeError \"not a constructor\"
run ⇒ new String('a'); ⇒ throw error ? TypeError \"not a constructor\"
run ⇒ new String; ⇒ throw error ? TypeError \"not a constructor\"
run ⇒ new Boolean(false); ⇒ throw error ? TypeError \"not a constructor\"
run ⇒ new Boolean; ⇒ throw error ? TypeError \"not a constructor\"
run ⇒ new Math.abs(1); ⇒ throw error ? TypeError \"not a constructor\"
run ⇒ new [].push(1); ⇒ throw error ? TypeError \"not a constructor\"
run ⇒ new ''.charAt(1); ⇒ throw error ? TypeError \"not a constructor\"
run ⇒ new Math.abs.call(null, 1); ⇒ throw error ? TypeError \"not a constructor\"
run ⇒ new Object.prototype.toString(); ⇒ throw error ? TypeError \"not a constructor\"
run ⇒ new Math; ⇒ throw error ? TypeError \"not a constructor\"
run ⇒ new Object.prototype; ⇒ throw error ? TypeError \"not a constructor\"
run ⇒ Math(); ⇒ throw error ? TypeError \"not a function\"
run ⇒ ({toString: 1}).toString(); ⇒ throw error ? TypeError \"not a function\"
run ⇒ delete Math.abs; Math.abs(1); ⇒ throw error ? TypeError \"not a function\"
";

/// toString and valueOf (15.2.4.2, 15.2.4.4), called as methods.
static TO_TEXT: &str = "
run ⇒ ({}).toString(); ⇒ return \"[object Object]\"
run ⇒ ({}).toString(1, 2); ⇒ return \"[object Object]\"
run ⇒ [1, [2, 3]].toString(); ⇒ return \"1,2,3\"
run ⇒ [].toString(); ⇒ return \"\"
run ⇒ (function () {}).toString(); ⇒ return \"[object Function]\"
run ⇒ Math.max.toString(); ⇒ return \"[object Function]\"
run ⇒ Object.toString(); ⇒ return \"[object Function]\"
run ⇒ ({}).valueOf(); ⇒ return record ?
run ⇒ var o = {}; o.valueOf(1) === o; ⇒ return true
run ⇒ [1, 2].valueOf().join('-'); ⇒ return \"1-2\"
run ⇒ Math.valueOf() === Math; ⇒ return true
run ⇒ Math.abs.valueOf() === Math.abs; ⇒ return true
run ⇒ var o = {toString: 1}; o.valueOf() === o; ⇒ return true
run ⇒ var o = {toString: function () { return 'own'; }}; o.toString(); ⇒ return \"own\"
run ⇒ Array.prototype.toString = function () { return 'mine'; }; [1, 2].toString(); ⇒ return \"mine\"
run ⇒ Object.prototype.toString = function () { return 'mine'; }; ({}).toString(); ⇒ return \"mine\"
";

/// toString is the conversion of whatever receiver it has, and valueOf answers it.
static RECEIVER_TEXTS: &str = "
run ⇒ Object.prototype.toString.call([1, 2]); ⇒ return \"1,2\"
run ⇒ Object.prototype.toString.call('a'); ⇒ return \"a\"
run ⇒ Object.prototype.toString.call(5, 2); ⇒ return \"5\"
run ⇒ Object.prototype.toString.call(true); ⇒ return \"true\"
run ⇒ Object.prototype.toString.call(null); ⇒ return \"null\"
run ⇒ Object.prototype.toString.call(undefined); ⇒ return \"undefined\"
run ⇒ Object.prototype.toString.call(); ⇒ return \"undefined\"
run ⇒ var f = ({}).toString; f(); ⇒ return \"undefined\"
run ⇒ Error('a').toString(); ⇒ return \"[object Object]\"
run ⇒ Object.prototype.valueOf.call(5); ⇒ return 5
run ⇒ Object.prototype.valueOf.call('a', 'b'); ⇒ return \"a\"
run ⇒ Object.prototype.valueOf.call(null); ⇒ return null
run ⇒ Object.prototype.valueOf.call(); ⇒ return undefined
run ⇒ var f = ({}).valueOf; f(1); ⇒ return undefined
";

/// An object is converted where both functions, own or inherited, are the built-in ones (8.6.2.6).
static CONVERTED: &str = "
run ⇒ ({}) + ''; ⇒ return \"[object Object]\"
run ⇒ ({toString: Object.prototype.toString}) + ''; ⇒ return \"[object Object]\"
run ⇒ ({valueOf: ({}).valueOf, toString: [].toString}) + ''; ⇒ return \"[object Object]\"
run ⇒ var f = Object.prototype.toString; Object.prototype.toString = 1; Object.prototype.toString = f; [5] * 2; ⇒ return 10
run ⇒ Array.prototype.toString = 1; ({}) + ''; ⇒ return \"[object Object]\"
run ⇒ String.prototype.toString = 1; 'a' + String('b'); ⇒ return \"ab\"
run ⇒ Number.prototype.valueOf = 1; 1 + Number('2'); ⇒ return 3
run ⇒ Boolean.prototype.toString = 1; 'a' + true; ⇒ return \"atrue\"
run ⇒ function F() {} F.prototype.toString = 1; typeof new F(); ⇒ return \"object\"
run ⇒ var o = {toString: 1}; delete o.toString; o + ''; ⇒ return \"[object Object]\"
";

/// Any other `toString` or `valueOf` ends a text where a conversion would ask for it.
static NOT_CONVERTED: &str = "
run ⇒ ({toString: 1}) + ''; ⇒ end convert
run ⇒ ({valueOf: 1}) + ''; ⇒ end convert
run ⇒ ({toString: undefined}) + ''; ⇒ end convert
run ⇒ ({valueOf: Object.prototype.toString}) + ''; ⇒ end convert
run ⇒ ({toString: function () { return 'a'; }}) + ''; ⇒ end convert
run ⇒ Object.prototype.toString = function () { return 'a'; }; ({}) + ''; ⇒ end convert
run ⇒ Object.prototype.valueOf = 1; String({}); ⇒ end convert
run ⇒ Object.prototype.toString = Object.prototype.valueOf; ({}) + ''; ⇒ end convert
run ⇒ Object.prototype.toString = 1; ({}) * 1; ⇒ end convert
run ⇒ Array.prototype.toString = 1; String([1]); ⇒ end convert
run ⇒ Array.prototype.valueOf = 1; [1] * 2; ⇒ end convert
run ⇒ Function.prototype.valueOf = 1; String(Math.abs); ⇒ end convert
run ⇒ TypeError.prototype.toString = 1; TypeError('a') + ''; ⇒ end convert
run ⇒ Error.prototype.toString = 1; try { x; } catch (e) { e + ''; } ⇒ end convert
run ⇒ delete Object.prototype.toString; ({}) + ''; ⇒ end convert
run ⇒ function F() {} F.prototype.toString = 1; new F() == 'a'; ⇒ end convert
run ⇒ Object.prototype.toString.call({toString: 1}); ⇒ end convert
run ⇒ ({valueOf: 1}).toString(); ⇒ end convert
run ⇒ this + ''; ⇒ end convert
run ⇒ Object(this) == 1; ⇒ end convert
";

/// How the log names the built-in functions; five have no name there.
static NAMES: &str = "
run ⇒ Object; ⇒ return function ?
run ⇒ Function; ⇒ return function ?
run ⇒ Array; ⇒ return function ?
run ⇒ Object.prototype.toString; ⇒ return function ?
run ⇒ ({}).valueOf; ⇒ return function ?
run ⇒ String; ⇒ return function !String
run ⇒ Number; ⇒ return function !Number
run ⇒ Boolean; ⇒ return function !Boolean
run ⇒ Error; ⇒ return function !Error
run ⇒ TypeError; ⇒ return function !TypeError
run ⇒ RangeError; ⇒ return function !RangeError
run ⇒ Math; ⇒ return record !Math
run ⇒ Math.abs; ⇒ return function !Math.abs
run ⇒ Math.floor; ⇒ return function !Math.floor
run ⇒ Math.ceil; ⇒ return function !Math.ceil
run ⇒ Math.round; ⇒ return function !Math.round
run ⇒ Math.max; ⇒ return function !Math.max
run ⇒ Math.min; ⇒ return function !Math.min
run ⇒ Math.abs.call; ⇒ return function !function.call
run ⇒ Object.apply; ⇒ return function !function.apply
run ⇒ 'a'.charAt; ⇒ return function !text.charAt
run ⇒ 'a'.charCodeAt; ⇒ return function !text.charCodeAt
run ⇒ 'a'.indexOf; ⇒ return function !text.indexOf
run ⇒ 'a'.lastIndexOf; ⇒ return function !text.lastIndexOf
run ⇒ 'a'.slice; ⇒ return function !text.slice
run ⇒ 'a'.substring; ⇒ return function !text.substring
run ⇒ 'a'.split; ⇒ return function !text.split
run ⇒ 'a'.concat; ⇒ return function !text.concat
run ⇒ [].concat; ⇒ return function !array.concat
run ⇒ [].join; ⇒ return function !array.join
run ⇒ [].slice; ⇒ return function !array.slice
run ⇒ [].push; ⇒ return function !array.push
run ⇒ [].unshift; ⇒ return function !array.unshift
run ⇒ [].pop; ⇒ return function !array.pop
run ⇒ [].shift; ⇒ return function !array.shift
run ⇒ Array.prototype.reverse; ⇒ return function !array.reverse
run ⇒ throw Math.max; ⇒ throw function !Math.max
run ⇒ Object.prototype; ⇒ return record ?
run ⇒ Array.prototype; ⇒ return record ?
run ⇒ Error.prototype; ⇒ return record ?
";

/// What rows make has the next number, literals and what the interpreter throws have none.
static COUNTED_NAMES: &str = "
run ⇒ [1].concat(2).slice(0); ⇒ return array main#1
run ⇒ 'a b'.split(' '); ⇒ return array main#0
run ⇒ [Array(), Object(), Error()][2]; ⇒ return error main#2 Error \"\"
run ⇒ Array(); []; ⇒ return array ?
run ⇒ Array(); try { x; } catch (e) { e; } ⇒ return error ? TypeError \"unbound\"
run ⇒ try { Array(1); } catch (e) { e; } ⇒ return error main#0 TypeError \"not allowed\"
run ⇒ try { Array(1); } catch (e) { Object(); } ⇒ return record main#1
run ⇒ Math.max(1); 'a'.slice(0); [1].push(1); [].reverse(); Object({}); Array(); ⇒ return array main#0
run ⇒ function f() {} new f(); ({}); Object(); ⇒ return record main#0
run ⇒ var o = Object(), p = Object(); o.p = p; o; ⇒ return record main#0
";

/// The global names are there, are passed over by `for in`, and may be written and deleted (15.1).
static GLOBALS: &str = "
run ⇒ [typeof Object, typeof Function, typeof Array, typeof String, typeof Number, typeof Boolean].join(); ⇒ return \"function,function,function,function,function,function\"
run ⇒ [typeof Error, typeof TypeError, typeof RangeError, typeof Math, typeof undefined].join(); ⇒ return \"function,function,function,object,undefined\"
run ⇒ typeof ___; ⇒ return \"object\"
run ⇒ this.___ === ___; ⇒ return true
run ⇒ (function (g) { var s = ''; for (var k in g) s += k; return s; })(this); ⇒ return \"\"
run ⇒ this.Math === Math; ⇒ return true
run ⇒ 'Math' in this; ⇒ return true
run ⇒ delete Math; ⇒ return true
run ⇒ delete Object; typeof Object; ⇒ return \"undefined\"
run ⇒ delete undefined; ⇒ return false
run ⇒ Math = 1; Math; ⇒ return 1
run ⇒ var Math; Math.abs(-1); ⇒ return 1
run ⇒ var Math = 2; Math; ⇒ return 2
run ⇒ function Array() { return 5; } Array(3); ⇒ return 5
run ⇒ Array = 1; [1].concat(2).length; ⇒ return 2
run ⇒ Object = 1; ({}).constructor === Object; ⇒ return false
run ⇒ undefined = 1; undefined; ⇒ return 1
run ⇒ this.toString; ⇒ return undefined
run ⇒ toString; ⇒ throw error ? TypeError \"unbound\"
run ⇒ NaN; ⇒ throw error ? TypeError \"unbound\"
run ⇒ parseInt('1'); ⇒ throw error ? TypeError \"unbound\"
run ⇒ eval('1'); ⇒ throw error ? TypeError \"unbound\"
run ⇒ cajita; ⇒ throw error ? TypeError \"unbound\"
";

/// The prototypes: `prototype` is fixed, and what prototypes have may be written and deleted, unseen by `for in` (15.2.3.1, 15).
static PROTOTYPES: &str = "
run ⇒ Object.prototype = 1; typeof Object.prototype; ⇒ return \"object\"
run ⇒ delete Object.prototype; ⇒ return false
run ⇒ delete Array.prototype; [1].join(); ⇒ return \"1\"
run ⇒ (function () { var s = ''; for (var k in Object) s += k; return s; })(); ⇒ return \"\"
run ⇒ (function () { var s = ''; for (var k in Array.prototype) s += k; return s; })(); ⇒ return \"\"
run ⇒ delete Object.prototype.toString; ⇒ return true
run ⇒ delete Array.prototype.push; [].push; ⇒ return undefined
run ⇒ Array.prototype.push = function () { return 9; }; [].push(); ⇒ return 9
run ⇒ Array.prototype.last = function () { return this[this.length - 1]; }; [1, 2].last(); ⇒ return 2
run ⇒ Function.prototype.x = 1; Math.abs.x + (function () {}).x; ⇒ return 2
run ⇒ Object.prototype.x = 1; [].x + 'a'.x + (5).x + true.x + Math.x + Object.x; ⇒ return 6
run ⇒ Math.abs = 5; Math.abs; ⇒ return 5
run ⇒ Math.x = 1; Math.x; ⇒ return 1
run ⇒ delete Math.abs; Math.abs; ⇒ return undefined
run ⇒ 'push' in []; ⇒ return true
run ⇒ 'toString' in {}; ⇒ return true
run ⇒ 'call' in Object; ⇒ return true
run ⇒ ({}).constructor === Object; ⇒ return true
run ⇒ [].constructor === Array; ⇒ return true
run ⇒ (function () {}).constructor === Function; ⇒ return true
run ⇒ Math.max.constructor === Function; ⇒ return true
run ⇒ Function.constructor === Function; ⇒ return true
run ⇒ Math.constructor === Object; ⇒ return true
";

/// `instanceof` goes by the prototypes (15.3.5.3).
static INSTANCES: &str = "
run ⇒ [] instanceof Array; ⇒ return true
run ⇒ [] instanceof Object; ⇒ return true
run ⇒ ({}) instanceof Array; ⇒ return false
run ⇒ (function () {}) instanceof Function; ⇒ return true
run ⇒ Math.abs instanceof Function; ⇒ return true
run ⇒ Object instanceof Function; ⇒ return true
run ⇒ Function instanceof Function; ⇒ return true
run ⇒ Function instanceof Object; ⇒ return true
run ⇒ Math instanceof Object; ⇒ return true
run ⇒ 'a' instanceof String; ⇒ return false
run ⇒ 1 instanceof Number; ⇒ return false
run ⇒ Array(1, 2) instanceof Array; ⇒ return true
run ⇒ 'a'.split('') instanceof Array; ⇒ return true
run ⇒ Object.prototype instanceof Object; ⇒ return false
run ⇒ Array.prototype instanceof Object; ⇒ return true
run ⇒ 1 instanceof Math.abs; ⇒ return false
run ⇒ [] instanceof Math.abs; ⇒ throw error ? TypeError \"no object\"
run ⇒ [] instanceof Math; ⇒ throw error ? TypeError \"not a function\"
";

#[test]
fn object_makes_an_object_for_nothing_alone(rt: HostRuntime) -> Result<(), Fail> {
    check_gives(rt.alloc(), OBJECTS)?;
    check_gives(rt.alloc(), NOT_ALLOWED)?;
    check_gives(rt.alloc(), NO_CONSTRUCTORS)
}

#[test]
fn to_string_and_value_of_answer_for_any_receiver(rt: HostRuntime) -> Result<(), Fail> {
    check_gives(rt.alloc(), TO_TEXT)?;
    check_gives(rt.alloc(), RECEIVER_TEXTS)
}

#[test]
fn only_the_built_in_conversions_are_used(rt: HostRuntime) -> Result<(), Fail> {
    check_gives(rt.alloc(), CONVERTED)?;
    check_ends(rt.alloc(), NOT_CONVERTED, Status::Convert)
}

#[test]
fn the_log_names_built_in_functions_and_what_they_make(rt: HostRuntime) -> Result<(), Fail> {
    check_gives(rt.alloc(), NAMES)?;
    check_gives(rt.alloc(), COUNTED_NAMES)
}

#[test]
fn global_names_are_hidden_and_may_be_written(rt: HostRuntime) -> Result<(), Fail> {
    check_gives(rt.alloc(), GLOBALS)?;
    check_gives(rt.alloc(), PROTOTYPES)
}

#[test]
fn instances_have_the_prototype_of_their_constructor(rt: HostRuntime) -> Result<(), Fail> {
    check_gives(rt.alloc(), INSTANCES)
}

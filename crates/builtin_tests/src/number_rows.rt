//! The functions of Math, `Number` and `Boolean`, and the methods that numbers and truth values have: the words, the text, and what it gives.

use caja_cli::Status;
use command_runs::tables::{check_ends, check_gives};
use std::test::Fail;

/// Math.abs, floor, ceil, round, max, min (ES3 15.8.2): numbers of values, the number itself where it is whole, and arguments that nobody asks for.
static MATH: &str = "
run ⇒ Math.abs(-5); ⇒ return 5
run ⇒ Math.abs(5); ⇒ return 5
run ⇒ Math.abs(0); ⇒ return 0
run ⇒ Math.abs('-7', 1); ⇒ return 7
run ⇒ Math.abs(null); ⇒ return 0
run ⇒ Math.abs(true); ⇒ return 1
run ⇒ Math.abs([-3]); ⇒ return 3
run ⇒ Math.abs(-9007199254740991); ⇒ return 9007199254740991
run ⇒ Math.floor(-3); ⇒ return -3
run ⇒ Math.floor('12', 5); ⇒ return 12
run ⇒ Math.floor(9007199254740991); ⇒ return 9007199254740991
run ⇒ Math.ceil(4); ⇒ return 4
run ⇒ Math.ceil(null, 2); ⇒ return 0
run ⇒ Math.ceil('-8'); ⇒ return -8
run ⇒ Math.round(-3); ⇒ return -3
run ⇒ Math.round(' 0x1F ', 3); ⇒ return 31
run ⇒ Math.max(5); ⇒ return 5
run ⇒ Math.max(3, 7, 5); ⇒ return 7
run ⇒ Math.max(-1, -2); ⇒ return -1
run ⇒ Math.max('10', 9); ⇒ return 10
run ⇒ Math.max(true, false, null); ⇒ return 1
run ⇒ Math.max(2, 2); ⇒ return 2
run ⇒ Math.max(1, 2, 3, 4, 5, 6, 7, 8, 9, 10); ⇒ return 10
run ⇒ Math.max([3], [1]); ⇒ return 3
run ⇒ Math.min(5); ⇒ return 5
run ⇒ Math.min(3, 7, 5); ⇒ return 3
run ⇒ Math.min('-1', 0); ⇒ return -1
run ⇒ Math.min(null, 4); ⇒ return 0
run ⇒ Math.min(-9007199254740991, 9007199254740991); ⇒ return -9007199254740991
run ⇒ Math.max.call(null, 1, 2); ⇒ return 2
run ⇒ Math.abs.call({}, -2); ⇒ return 2
run ⇒ var max = Math.max; max(1, 4); ⇒ return 4
run ⇒ with (Math) max(abs(-6), min(7, 8)); ⇒ return 7
";

/// What has no number ends a text: no argument, undefined, and texts that write none.
static MATH_FAULTS: &str = "
run ⇒ Math.abs(); ⇒ end number
run ⇒ Math.floor(); ⇒ end number
run ⇒ Math.ceil(); ⇒ end number
run ⇒ Math.round(); ⇒ end number
run ⇒ Math.max(); ⇒ end number
run ⇒ Math.min(); ⇒ end number
run ⇒ Math.abs(undefined); ⇒ end number
run ⇒ Math.abs('x'); ⇒ end number
run ⇒ Math.abs({}); ⇒ end number
run ⇒ Math.abs([1, 2]); ⇒ end number
run ⇒ Math.abs('9007199254740992'); ⇒ end number
run ⇒ Math.floor('1.5'); ⇒ end number
run ⇒ Math.ceil('1.5'); ⇒ end number
run ⇒ Math.round('0.5'); ⇒ end number
run ⇒ Math.max(1, undefined); ⇒ end number
run ⇒ Math.max(undefined, {toString: 1}); ⇒ end number
run ⇒ Math.min('a'); ⇒ end number
run ⇒ Math.max.apply(null, []); ⇒ end number
run ⇒ Math.max.call(); ⇒ end number
run ⇒ try { Math.max(); } catch (e) { 1; } finally { 2; } ⇒ end number
run ⇒ Math.abs(Math.abs); ⇒ end number
";

/// `Number` as a function (15.7.1.1, 9.3.1), also at the greatest and the least number that there is.
static NUMBERS: &str = "
run ⇒ Number(); ⇒ return 0
run ⇒ Number(''); ⇒ return 0
run ⇒ Number('  '); ⇒ return 0
run ⇒ Number(' 12 '); ⇒ return 12
run ⇒ Number('\\n-5\\t'); ⇒ return -5
run ⇒ Number('+7'); ⇒ return 7
run ⇒ Number('-0'); ⇒ return 0
run ⇒ Number('007'); ⇒ return 7
run ⇒ Number('0x1F'); ⇒ return 31
run ⇒ Number('0XfF'); ⇒ return 255
run ⇒ Number('9007199254740991'); ⇒ return 9007199254740991
run ⇒ Number('-9007199254740991'); ⇒ return -9007199254740991
run ⇒ Number('0x1FFFFFFFFFFFFF'); ⇒ return 9007199254740991
run ⇒ Number('9007199254740990') + 1; ⇒ return 9007199254740991
run ⇒ Number(true); ⇒ return 1
run ⇒ Number(false); ⇒ return 0
run ⇒ Number(null); ⇒ return 0
run ⇒ Number([]); ⇒ return 0
run ⇒ Number([5]); ⇒ return 5
run ⇒ Number([[['0x10']]]); ⇒ return 16
run ⇒ Number(3, 4); ⇒ return 3
run ⇒ Number('1', 'x'); ⇒ return 1
run ⇒ typeof Number('4'); ⇒ return \"number\"
run ⇒ Number.call({}, '6'); ⇒ return 6
";

/// Values that `Number` finds no whole number in range for, and sums past 2^53 - 1.
static NUMBER_FAULTS: &str = "
run ⇒ 9007199254740991 + 1; ⇒ end number
run ⇒ -9007199254740991 - 1; ⇒ end number
run ⇒ Number('9007199254740991') + 1; ⇒ end number
run ⇒ Math.max(9007199254740991, 0) + Math.min(1, 2); ⇒ end number
run ⇒ Number('9007199254740992'); ⇒ end number
run ⇒ Number('-9007199254740992'); ⇒ end number
run ⇒ Number('0x20000000000000'); ⇒ end number
run ⇒ Number(undefined); ⇒ end number
run ⇒ Number('1.5'); ⇒ end number
run ⇒ Number('1e3'); ⇒ end number
run ⇒ Number('1 2'); ⇒ end number
run ⇒ Number('-0x10'); ⇒ end number
run ⇒ Number('0x'); ⇒ end number
run ⇒ Number('0xG'); ⇒ end number
run ⇒ Number('-'); ⇒ end number
run ⇒ Number('abc'); ⇒ end number
run ⇒ Number('Infinity'); ⇒ end number
run ⇒ Number({}); ⇒ end number
run ⇒ Number([1, 2]); ⇒ end number
run ⇒ Number([undefined, 1]); ⇒ end number
run ⇒ Number(function () {}); ⇒ end number
run ⇒ Number(Number); ⇒ end number
run ⇒ Number(Error('1')); ⇒ end number
";

/// An object whose own conversions are not the built-in ones has no number.
static NUMBER_CONVERTS: &str = "
run ⇒ Number({toString: 1}); ⇒ end convert
run ⇒ Number({valueOf: function () { return 1; }}); ⇒ end convert
run ⇒ Math.abs({valueOf: 1}); ⇒ end convert
run ⇒ Math.floor({toString: 1}); ⇒ end convert
run ⇒ Math.max({toString: 1}, undefined); ⇒ end convert
run ⇒ Math.min(1, {toString: 1}); ⇒ end convert
";

/// `Boolean` as a function (15.6.1.1, 9.2).
static TRUTHS: &str = "
run ⇒ Boolean(); ⇒ return false
run ⇒ Boolean(undefined); ⇒ return false
run ⇒ Boolean(null); ⇒ return false
run ⇒ Boolean(0); ⇒ return false
run ⇒ Boolean(-0); ⇒ return false
run ⇒ Boolean(''); ⇒ return false
run ⇒ Boolean(false); ⇒ return false
run ⇒ Boolean(true); ⇒ return true
run ⇒ Boolean('0'); ⇒ return true
run ⇒ Boolean('false'); ⇒ return true
run ⇒ Boolean(-1); ⇒ return true
run ⇒ Boolean({}); ⇒ return true
run ⇒ Boolean([]); ⇒ return true
run ⇒ Boolean(Boolean); ⇒ return true
run ⇒ Boolean({toString: 1}); ⇒ return true
run ⇒ Boolean(0, 1); ⇒ return false
run ⇒ Boolean(1, 0); ⇒ return true
run ⇒ typeof Boolean(1); ⇒ return \"boolean\"
";

/// What numbers and truth values have of their prototypes (15.2.4, 15.6.4, 15.7.4).
static PLAIN_METHODS: &str = "
run ⇒ (5).toString(); ⇒ return \"5\"
run ⇒ (-12).toString() + 1; ⇒ return \"-121\"
run ⇒ (9007199254740991).toString(); ⇒ return \"9007199254740991\"
run ⇒ (10).toString(10); ⇒ return \"10\"
run ⇒ (5).valueOf(); ⇒ return 5
run ⇒ (7).valueOf(1, 2) + 1; ⇒ return 8
run ⇒ true.toString(); ⇒ return \"true\"
run ⇒ false.valueOf(); ⇒ return false
run ⇒ (5).constructor === Number; ⇒ return true
run ⇒ true.constructor === Boolean; ⇒ return true
run ⇒ Number.prototype.x = 1; (5).x; ⇒ return 1
run ⇒ Boolean.prototype.x = 1; false.x; ⇒ return 1
run ⇒ Number.prototype.x = 1; for (var k in 5) k; ⇒ return \"x\"
run ⇒ (5).charAt; ⇒ return undefined
";

#[test]
fn math_answers_whole_numbers(rt: HostRuntime) -> Result<(), Fail> {
    check_gives(rt.alloc(), MATH)
}

#[test]
fn number_is_the_number_of_a_value(rt: HostRuntime) -> Result<(), Fail> {
    check_gives(rt.alloc(), NUMBERS)
}

#[test]
fn boolean_is_the_truth_of_a_value(rt: HostRuntime) -> Result<(), Fail> {
    check_gives(rt.alloc(), TRUTHS)
}

#[test]
fn numbers_and_truth_values_have_the_methods_of_every_object(rt: HostRuntime) -> Result<(), Fail> {
    check_gives(rt.alloc(), PLAIN_METHODS)
}

#[test]
fn what_has_no_number_ends_a_text(rt: HostRuntime) -> Result<(), Fail> {
    check_ends(rt.alloc(), MATH_FAULTS, Status::Number)?;
    check_ends(rt.alloc(), NUMBER_FAULTS, Status::Number)?;
    check_ends(rt.alloc(), NUMBER_CONVERTS, Status::Convert)
}

//! The methods of texts, and `String`: the words, the text, and what it gives.

use caja_cli::Status;
use command_runs::tables::{check_ends, check_gives};
use std::test::Fail;

/// charAt and charCodeAt (ES3 15.5.4.4, 15.5.4.5): from 0, and nothing at a place that the text does not have.
static UNITS: &str = "
run ⇒ 'abc'.charAt(); ⇒ return \"a\"
run ⇒ 'abc'.charAt(1); ⇒ return \"b\"
run ⇒ 'abc'.charAt(2, 0); ⇒ return \"c\"
run ⇒ 'abc'.charAt(3); ⇒ return \"\"
run ⇒ 'abc'.charAt(-1); ⇒ return \"\"
run ⇒ 'abc'.charAt(9007199254740991); ⇒ return \"\"
run ⇒ 'abc'.charAt(-9007199254740991); ⇒ return \"\"
run ⇒ ''.charAt(); ⇒ return \"\"
run ⇒ 'abc'.charAt('1'); ⇒ return \"b\"
run ⇒ 'abc'.charAt(null); ⇒ return \"a\"
run ⇒ 'abc'.charAt(true); ⇒ return \"b\"
run ⇒ 'abc'.charAt([2]); ⇒ return \"c\"
run ⇒ 'abc'.charAt(undefined); ⇒ return \"a\"
run ⇒ 'a\\u1234b'.charAt(1); ⇒ return \"\\u1234\"
run ⇒ 'abc'['charAt'](1); ⇒ return \"b\"
run ⇒ 'abc'.charCodeAt(); ⇒ return 97
run ⇒ 'abc'.charCodeAt(1); ⇒ return 98
run ⇒ 'abc'.charCodeAt(2, 7); ⇒ return 99
run ⇒ 'abc'.charCodeAt('2'); ⇒ return 99
run ⇒ 'abc'.charCodeAt(undefined); ⇒ return 97
run ⇒ '\\uFFFF'.charCodeAt(); ⇒ return 65535
run ⇒ '\\x00'.charCodeAt(0); ⇒ return 0
";

/// A unit that is not there has no number, and neither has a place that no number writes.
static UNIT_FAULTS: &str = "
run ⇒ 'abc'.charCodeAt(3); ⇒ end number
run ⇒ 'abc'.charCodeAt(9); ⇒ end number
run ⇒ 'abc'.charCodeAt(-1); ⇒ end number
run ⇒ ''.charCodeAt(); ⇒ end number
run ⇒ 'abc'.charCodeAt(9007199254740991); ⇒ end number
run ⇒ 'abc'.charAt('x'); ⇒ end number
run ⇒ 'abc'.charAt({}); ⇒ end number
run ⇒ 'abc'.charAt('1.5'); ⇒ end number
run ⇒ 'abc'.charCodeAt('b'); ⇒ end number
run ⇒ 'abc'.indexOf('b', 'x'); ⇒ end number
run ⇒ 'abc'.slice('x'); ⇒ end number
run ⇒ 'abc'.slice(0, {}); ⇒ end number
run ⇒ 'abc'.substring('x'); ⇒ end number
run ⇒ 'abc'.substring(0, []  + 'y'); ⇒ end number
";

/// indexOf and lastIndexOf (15.5.4.7, 15.5.4.8): a place outside the text counts as its nearer end.
static PLACES: &str = "
run ⇒ 'abcabc'.indexOf('b'); ⇒ return 1
run ⇒ 'abcabc'.indexOf('b', 2); ⇒ return 4
run ⇒ 'abcabc'.indexOf('b', 4); ⇒ return 4
run ⇒ 'abcabc'.indexOf('b', 5); ⇒ return -1
run ⇒ 'abcabc'.indexOf('b', -3); ⇒ return 1
run ⇒ 'abcabc'.indexOf('bc', 1, 9); ⇒ return 1
run ⇒ 'abcabc'.indexOf('d'); ⇒ return -1
run ⇒ 'abc'.indexOf(''); ⇒ return 0
run ⇒ 'abc'.indexOf('', 2); ⇒ return 2
run ⇒ 'abc'.indexOf('', 9); ⇒ return 3
run ⇒ 'abc'.indexOf('', -9); ⇒ return 0
run ⇒ ''.indexOf(''); ⇒ return 0
run ⇒ ''.indexOf('a'); ⇒ return -1
run ⇒ 'abc'.indexOf('abcd'); ⇒ return -1
run ⇒ 'abc'.indexOf(); ⇒ return -1
run ⇒ 'is undefined'.indexOf(); ⇒ return 3
run ⇒ '1 2 3'.indexOf(2); ⇒ return 2
run ⇒ 'a null'.indexOf(null); ⇒ return 2
run ⇒ 'x1,2y'.indexOf([1, 2]); ⇒ return 1
run ⇒ 'aaa'.indexOf('aa', 1); ⇒ return 1
run ⇒ 'abc'.indexOf('c', undefined); ⇒ return 2
run ⇒ 'abc'.indexOf('a', '1'); ⇒ return -1
run ⇒ 'abcabc'.lastIndexOf('b'); ⇒ return 4
run ⇒ 'abcabc'.lastIndexOf('abc'); ⇒ return 3
run ⇒ 'aaa'.lastIndexOf('aa'); ⇒ return 1
run ⇒ 'abc'.lastIndexOf(''); ⇒ return 3
run ⇒ ''.lastIndexOf(''); ⇒ return 0
run ⇒ 'abc'.lastIndexOf('d'); ⇒ return -1
run ⇒ 'abc'.lastIndexOf(); ⇒ return -1
run ⇒ 'undefinedundefined'.lastIndexOf(); ⇒ return 9
run ⇒ 'a1b1'.lastIndexOf(1); ⇒ return 3
run ⇒ 'abc'.lastIndexOf('abcd'); ⇒ return -1
";

/// slice and substring (15.5.4.13, 15.5.4.15): the one counts a negative place from the end, the other takes it for 0 and the lesser place first.
static PARTS: &str = "
run ⇒ 'abc'.slice(); ⇒ return \"abc\"
run ⇒ 'abc'.slice(1); ⇒ return \"bc\"
run ⇒ 'abc'.slice(1, 2); ⇒ return \"b\"
run ⇒ 'abc'.slice(-2); ⇒ return \"bc\"
run ⇒ 'abc'.slice(-2, -1); ⇒ return \"b\"
run ⇒ 'abc'.slice(0, -1); ⇒ return \"ab\"
run ⇒ 'abc'.slice(2, 1); ⇒ return \"\"
run ⇒ 'abc'.slice(-9, 2); ⇒ return \"ab\"
run ⇒ 'abc'.slice(1, 9); ⇒ return \"bc\"
run ⇒ 'abc'.slice(9); ⇒ return \"\"
run ⇒ 'abc'.slice(0, -9); ⇒ return \"\"
run ⇒ 'abc'.slice(undefined, 2); ⇒ return \"ab\"
run ⇒ 'abc'.slice(1, undefined); ⇒ return \"bc\"
run ⇒ 'abc'.slice(null, null); ⇒ return \"\"
run ⇒ 'abc'.slice(true, '2', 7); ⇒ return \"b\"
run ⇒ ''.slice(-1); ⇒ return \"\"
run ⇒ 'abc'.slice(-9007199254740991, 9007199254740991); ⇒ return \"abc\"
run ⇒ 'abc'.substring(); ⇒ return \"abc\"
run ⇒ 'abc'.substring(1); ⇒ return \"bc\"
run ⇒ 'abc'.substring(0, 2); ⇒ return \"ab\"
run ⇒ 'abc'.substring(2, 0); ⇒ return \"ab\"
run ⇒ 'abc'.substring(-1, 2); ⇒ return \"ab\"
run ⇒ 'abc'.substring(2, -1); ⇒ return \"ab\"
run ⇒ 'abc'.substring(1, 9); ⇒ return \"bc\"
run ⇒ 'abc'.substring(9, 1); ⇒ return \"bc\"
run ⇒ 'abc'.substring(1, 1); ⇒ return \"\"
run ⇒ 'abc'.substring(9); ⇒ return \"\"
run ⇒ 'abc'.substring(1, undefined); ⇒ return \"bc\"
run ⇒ 'abc'.substring(undefined, 1); ⇒ return \"a\"
run ⇒ 'abc'.substring(2, null); ⇒ return \"ab\"
run ⇒ 'abc'.substring('1', '2', '3'); ⇒ return \"b\"
run ⇒ 'abc'.substring(9007199254740991, -9007199254740991); ⇒ return \"abc\"
";

/// split (15.5.4.14): the pieces between occurrences, each unit where the separator is empty, and the text alone without a separator.
static PIECES: &str = "
run ⇒ 'a,b,,c'.split(',').join('|'); ⇒ return \"a|b||c\"
run ⇒ 'a,b'.split(',').length; ⇒ return 2
run ⇒ ',a,'.split(',').join('|'); ⇒ return \"|a|\"
run ⇒ 'abc'.split().length; ⇒ return 1
run ⇒ 'abc'.split()[0]; ⇒ return \"abc\"
run ⇒ 'abc'.split(undefined).length; ⇒ return 1
run ⇒ 'a undefined b'.split(undefined).length; ⇒ return 1
run ⇒ 'abc'.split('').join('|'); ⇒ return \"a|b|c\"
run ⇒ ''.split('').length; ⇒ return 0
run ⇒ ''.split(',').length; ⇒ return 1
run ⇒ ''.split().length; ⇒ return 1
run ⇒ 'aXXbXXc'.split('XX').join('|'); ⇒ return \"a|b|c\"
run ⇒ 'aaaa'.split('aa').length; ⇒ return 3
run ⇒ 'aaa'.split('aa').join('|'); ⇒ return \"|a\"
run ⇒ 'abc'.split('abc').join('|'); ⇒ return \"|\"
run ⇒ 'abc'.split('abcd').join('|'); ⇒ return \"abc\"
run ⇒ '1null2'.split(null).join('|'); ⇒ return \"1|2\"
run ⇒ '10203'.split(0).join('|'); ⇒ return \"1|2|3\"
run ⇒ 'a1,2b'.split([1, 2]).join('|'); ⇒ return \"a|b\"
run ⇒ 'a,b,c'.split(',', 9).length; ⇒ return 3
run ⇒ var s = ''; for (var k in 'a,b'.split(',')) s += k; s; ⇒ return \"01\"
run ⇒ 'a,b'.split(',') instanceof Array; ⇒ return true
run ⇒ 'abc'.split('b'); ⇒ return array main#0
";

/// concat of texts (15.5.4.6).
static JOINED_TEXTS: &str = "
run ⇒ 'a'.concat(); ⇒ return \"a\"
run ⇒ 'a'.concat('b'); ⇒ return \"ab\"
run ⇒ 'a'.concat('b', 'c', 'd'); ⇒ return \"abcd\"
run ⇒ 'a'.concat(1, null, undefined, true); ⇒ return \"a1nullundefinedtrue\"
run ⇒ 'a'.concat([1, 2], {}); ⇒ return \"a1,2[object Object]\"
run ⇒ ''.concat(''); ⇒ return \"\"
run ⇒ 'a'.concat(['b', ['c']]); ⇒ return \"ab,c\"
run ⇒ 'a'.concat(-1, 'a'.concat('b')); ⇒ return \"a-1ab\"
";

/// `String` as a function (15.5.1.1, 9.8), and `toString` and `valueOf` of texts.
static TEXTS: &str = "
run ⇒ String(); ⇒ return \"\"
run ⇒ String(undefined); ⇒ return \"undefined\"
run ⇒ String(null); ⇒ return \"null\"
run ⇒ String(true); ⇒ return \"true\"
run ⇒ String(-5); ⇒ return \"-5\"
run ⇒ String(-0); ⇒ return \"0\"
run ⇒ String(9007199254740991); ⇒ return \"9007199254740991\"
run ⇒ String('a'); ⇒ return \"a\"
run ⇒ String('a', 'b'); ⇒ return \"a\"
run ⇒ String([1, [2, 3]]); ⇒ return \"1,2,3\"
run ⇒ String([]); ⇒ return \"\"
run ⇒ String([undefined, null, 0]); ⇒ return \",,0\"
run ⇒ String({}); ⇒ return \"[object Object]\"
run ⇒ String(function f() {}); ⇒ return \"[object Function]\"
run ⇒ String(Math.abs); ⇒ return \"[object Function]\"
run ⇒ String(Error('a')); ⇒ return \"[object Object]\"
run ⇒ typeof String(1); ⇒ return \"string\"
run ⇒ 'abc'.toString(); ⇒ return \"abc\"
run ⇒ 'abc'.toString(1, 2); ⇒ return \"abc\"
run ⇒ 'abc'.valueOf(); ⇒ return \"abc\"
run ⇒ 'abc'.valueOf(5) === 'abc'; ⇒ return true
run ⇒ 'abc'.constructor === String; ⇒ return true
run ⇒ String.prototype.x = 1; 'abc'.x; ⇒ return 1
run ⇒ String.prototype.x = 1; for (var k in 'abc') k; ⇒ return \"x\"
run ⇒ for (var k in 'abc') k; ⇒ return undefined
run ⇒ 'abc'.push; ⇒ return undefined
";

/// An argument whose conversions are not the built-in ones ends a text.
static TEXT_CONVERTS: &str = "
run ⇒ String({toString: function () { return 'a'; }}); ⇒ end convert
run ⇒ String([1, {toString: 1}]); ⇒ end convert
run ⇒ 'abc'.charAt({toString: 1}); ⇒ end convert
run ⇒ 'abc'.charCodeAt({valueOf: 1}); ⇒ end convert
run ⇒ 'abc'.indexOf({valueOf: 1}); ⇒ end convert
run ⇒ 'abc'.indexOf('a', {toString: 1}); ⇒ end convert
run ⇒ 'abc'.lastIndexOf({toString: 1}); ⇒ end convert
run ⇒ 'abc'.slice({toString: 1}); ⇒ end convert
run ⇒ 'abc'.substring(0, {toString: 1}); ⇒ end convert
run ⇒ 'abc'.split({toString: 1}); ⇒ end convert
run ⇒ 'abc'.concat('b', {toString: 1}); ⇒ end convert
run ⇒ 'abc'.indexOf({toString: 1}, undefined + 'x'); ⇒ end convert
";

/// Arguments of the standard that no row looks at: a place for lastIndexOf, a limit for split, a radix for numbers.
static UNREAD_ARGUMENTS: &str = "
run ⇒ 'abcabc'.lastIndexOf('b', 2); ⇒ return 4
run ⇒ 'a,b,c'.split(',', 2).length; ⇒ return 3
run ⇒ 'abc'.split(undefined, 0).length; ⇒ return 1
run ⇒ (5).toString(2); ⇒ return \"5\"
";

#[test]
fn units_of_a_text_are_counted_from_0(rt: HostRuntime) -> Result<(), Fail> {
    check_gives(rt.alloc(), UNITS)?;
    check_ends(rt.alloc(), UNIT_FAULTS, Status::Number)
}

#[test]
fn a_text_is_found_in_another(rt: HostRuntime) -> Result<(), Fail> {
    check_gives(rt.alloc(), PLACES)
}

#[test]
fn a_part_of_a_text_lies_between_two_places(rt: HostRuntime) -> Result<(), Fail> {
    check_gives(rt.alloc(), PARTS)
}

#[test]
fn texts_are_split_and_joined(rt: HostRuntime) -> Result<(), Fail> {
    check_gives(rt.alloc(), PIECES)?;
    check_gives(rt.alloc(), JOINED_TEXTS)
}

#[test]
fn string_is_the_text_of_a_value(rt: HostRuntime) -> Result<(), Fail> {
    check_gives(rt.alloc(), TEXTS)?;
    check_ends(rt.alloc(), TEXT_CONVERTS, Status::Convert)
}

#[test]
fn an_argument_that_no_row_has_is_not_read(rt: HostRuntime) -> Result<(), Fail> {
    check_gives(rt.alloc(), UNREAD_ARGUMENTS)
}

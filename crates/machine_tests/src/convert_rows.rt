//! Conversions, comparisons and sums of values (ES3 9, 11.6.1, 11.8.5, 11.9), in tables of values and what comes of them; where that is
//! `none`, the run stops for want of a number. `it` is an object.

use crate::answers::told;
use crate::documents::opened;
use crate::samples::made;
use es3_convert::{
    add, less, loose_equal, number_text, out_of_memory, strict_equal, to_bool, to_number,
    to_primitive, to_text,
};
use es3_heap::{Heap, Proto, Stop, Value};
use row_outcomes::Outcome;
use std::alloc::Global;
use std::test::Fail;

/// What is asked of a value or of two.
enum Asked {
    Number,
    Truth,
    Text,
    Primitive,
    /// The text of a number.
    Digits,
    Copy,
    Equal,
    Same,
    Less,
    Sum,
}

/// What is asked, what stands behind the first value, and the rows.
type Table = (Asked, &'static str, &'static str);

/// Stands behind the only value of a row.
const ALONE: &str = " ⇒ ";

const NUMBERS: &str = "
undefined ⇒ none
null ⇒ 0
true ⇒ 1
false ⇒ 0
-7 ⇒ -7
'' ⇒ 0
' ' ⇒ 0
' 0x1F ' ⇒ 31
'\u{a0}12\u{2029}' ⇒ 12
'0XfF' ⇒ 255
'0x' ⇒ none
'0xg' ⇒ none
'-0x1' ⇒ none
'+0x1' ⇒ none
'0x1FFFFFFFFFFFFF' ⇒ 9007199254740991
'0x20000000000000' ⇒ none
'+5' ⇒ 5
'-5' ⇒ -5
'-0' ⇒ 0
'+' ⇒ none
'-' ⇒ none
'--1' ⇒ none
'- 1' ⇒ none
'1 2' ⇒ none
'0010' ⇒ 10
'00x1' ⇒ none
'1.5' ⇒ none
'1e3' ⇒ none
'Infinity' ⇒ none
'a' ⇒ none
'\u{feff}1' ⇒ none
'\u{2003}1' ⇒ none
'9007199254740991' ⇒ 9007199254740991
'-9007199254740991' ⇒ -9007199254740991
'9007199254740992' ⇒ none
'18446744073709551617' ⇒ none
'000000000000000000000000000007' ⇒ 7
{} ⇒ none
function ⇒ none
[] ⇒ 0
[' 8 '] ⇒ 8
[1,2] ⇒ none
";

/// The white space and the line terminators, without those that only Unicode has.
const WHITE: &str = "'\t\n\u{b}\u{c}\r \u{a0}\u{2028}\u{2029}'";

const TRUTHS: &str = "
undefined ⇒ false
null ⇒ false
false ⇒ false
true ⇒ true
0 ⇒ false
-1 ⇒ true
'' ⇒ false
'0' ⇒ true
'false' ⇒ true
{} ⇒ true
function ⇒ true
[] ⇒ true
";

/// Arrays are nested at most 32 deep, and no conversion runs code.
const TEXTS: &str = "
undefined ⇒ 'undefined'
null ⇒ 'null'
true ⇒ 'true'
false ⇒ 'false'
-9007199254740991 ⇒ '-9007199254740991'
0 ⇒ '0'
'a\u{e9}' ⇒ 'a\u{e9}'
{} ⇒ '[object Object]'
function ⇒ '[object Function]'
[] ⇒ ''
[undefined] ⇒ ''
[null,1,undefined,true,''] ⇒ ',1,,true,'
converting ⇒ stops: Convert
deep 32 ⇒ ',,,,,,,,,,,,,,,,,,,,,,,,,,,,,,,,,,,,,,,,,,,,,,,,,,,,,,,,,,,,,,'
deep 33 ⇒ stops: Depth
";

const PRIMITIVES: &str = "
[1,null] ⇒ '1,'
";

const DIGITS: &str = "
-7 ⇒ '-7'
0 ⇒ '0'
9007199254740991 ⇒ '9007199254740991'
";

const COPIES: &str = "
'a' ⇒ 'a'
";

const EQUALS: &str = "
undefined == undefined ⇒ true
undefined == null ⇒ true
null == undefined ⇒ true
undefined == 1 ⇒ false
null == 0 ⇒ false
null == '' ⇒ false
undefined == false ⇒ false
false == null ⇒ false
undefined == 'a' ⇒ false
undefined == {} ⇒ false
{} == null ⇒ false
'1' == 1 ⇒ true
1 == ' 1 ' ⇒ true
1 == '2' ⇒ false
0 == '' ⇒ true
1 == 'a' ⇒ none
'a' == 1 ⇒ none
'1' == '01' ⇒ false
'a' == 'a' ⇒ true
-1 == -1 ⇒ true
-1 == 1 ⇒ false
true == 1 ⇒ true
true == '1' ⇒ true
'true' == true ⇒ none
true == true ⇒ true
true == false ⇒ false
false == '' ⇒ true
[] == '' ⇒ true
[] == 0 ⇒ true
[] == false ⇒ true
'1,2' == [1,2] ⇒ true
[1,2] == 1 ⇒ none
[] == [] ⇒ false
{} == '[object Object]' ⇒ true
1 == {} ⇒ none
true == {} ⇒ none
function == '[object Function]' ⇒ true
";

const SAMES: &str = "
undefined === undefined ⇒ true
null === null ⇒ true
undefined === null ⇒ false
1 === '1' ⇒ false
1 === true ⇒ false
0 === 0 ⇒ true
1 === -1 ⇒ false
false === false ⇒ true
false === true ⇒ false
'ab' === 'ab' ⇒ true
'ab' === 'a' ⇒ false
[] === '' ⇒ false
{} === {} ⇒ false
it === it ⇒ true
";

const LESSES: &str = "
-1 < 0 ⇒ true
1 < 1 ⇒ false
2 < 1 ⇒ false
'10' < '9' ⇒ true
10 < '9' ⇒ false
'10' < 9 ⇒ false
'a' < 1 ⇒ none
1 < 'a' ⇒ none
'a' < 'a' ⇒ false
'a' < 'ab' ⇒ true
'' < 'a' ⇒ true
'B' < 'a' ⇒ true
'\u{ffff}' < '\u{10000}' ⇒ false
undefined < 1 ⇒ none
null < 1 ⇒ true
false < true ⇒ true
[2] < '10' ⇒ false
[2] < 10 ⇒ true
{} < 'a' ⇒ true
{} < 1 ⇒ none
";

const SUMS: &str = "
2 + 1 ⇒ 3
{} + 1 ⇒ '[object Object]1'
true + 1 ⇒ 2
null + 1 ⇒ 1
undefined + 1 ⇒ none
9007199254740991 + 1 ⇒ none
";

static TABLES: [Table; 10] = [
    (Asked::Number, ALONE, NUMBERS),
    (Asked::Truth, ALONE, TRUTHS),
    (Asked::Text, ALONE, TEXTS),
    (Asked::Primitive, ALONE, PRIMITIVES),
    (Asked::Digits, ALONE, DIGITS),
    (Asked::Copy, ALONE, COPIES),
    (Asked::Equal, " == ", EQUALS),
    (Asked::Same, " === ", SAMES),
    (Asked::Less, " < ", LESSES),
    (Asked::Sum, " + ", SUMS),
];

/// What a value comes to.
fn converted(alloc: Global, heap: &Heap, asked: &Asked, v: &Value) -> Result<Value, Stop> {
    match (asked, v) {
        (Asked::Number, _) => to_number(alloc, heap, v).map(Value::Num),
        (Asked::Truth, _) => Ok(Value::Bool(to_bool(v))),
        (Asked::Text, _) => to_text(alloc, heap, v).map(Value::Text),
        (Asked::Primitive, _) => to_primitive(alloc, heap, v),
        (Asked::Digits, Value::Num(n)) => {
            let text = number_text(alloc, *n).map_err(out_of_memory)?;
            Ok(Value::Text(text))
        }
        _ => v.copy(alloc).map_err(out_of_memory),
    }
}

/// What two values come to, or the first where the question is about one.
fn compared(
    alloc: Global,
    heap: &Heap,
    asked: &Asked,
    a: &Value,
    b: &Value,
) -> Result<Value, Stop> {
    match asked {
        Asked::Equal => loose_equal(alloc, heap, a, b).map(Value::Bool),
        Asked::Same => Ok(Value::Bool(strict_equal(a, b))),
        Asked::Less => less(alloc, heap, a, b).map(Value::Bool),
        Asked::Sum => add(alloc, heap, a, b),
        _ => converted(alloc, heap, asked, a),
    }
}

/// What comes of the value or the two values of a question.
fn answer(
    alloc: Global,
    heap: &mut Heap,
    asked: &Asked,
    sign: &str,
    question: &str,
) -> Result<String, Fail> {
    let (one, other) = question.split_once(sign).unwrap_or((question, "undefined"));
    let it = Value::Obj(heap.proto(Proto::Object));
    let a = made(alloc, heap, &it, one)?;
    let b = made(alloc, heap, &it, other)?;
    let outcome = compared(alloc, heap, asked, &a, &b).map(Outcome::Value);
    told(alloc, heap, &it, &outcome)
}

#[test]
fn values_are_converted_and_compared(rt: HostRuntime) -> Result<(), Fail> {
    let mut heap = opened(rt.alloc())?.heap;
    for (asked, sign, table) in TABLES.iter() {
        for row in table.lines() {
            let (question, wanted) = row.split_once(" ⇒ ").unwrap_or((row, ""));
            if !row.is_empty() {
                let found = answer(rt.alloc(), &mut heap, asked, sign, question)?;
                assert_eq!(rt; found.as_str(), wanted, "{question}");
            }
        }
    }
    let found = answer(rt.alloc(), &mut heap, &Asked::Number, ALONE, WHITE)?;
    assert_eq!(rt; found.as_str(), "0");
    Ok(())
}

//! What is done to an array or another object, and what it then has.

use caja_num::Whole;
use caja_units::{Memory, Units};
use es3_heap::{Attrs, Class, Heap, ObjId, Proto, Value};
use std::alloc::Global;
use std::test::Fail;

fn text(alloc: Global, word: &str) -> Result<Units, Memory> {
    Units::from_ascii(alloc, word.as_bytes())
}

fn number(word: &str) -> Value {
    match word.parse::<i64>() {
        Ok(n) => match Whole::new(n) {
            Some(n) => Value::Num(n),
            None => Value::Null,
        },
        Err(_) => Value::Undefined,
    }
}

fn numbers(alloc: Global, words: &str) -> Result<Vec<Value>, Memory> {
    let mut values = Vec::new(alloc);
    if words.is_empty() {
        return Ok(values);
    }
    for word in words.split(',') {
        values.push(number(word))?;
    }
    Ok(values)
}

fn tell(out: &mut Vec<u8>, word: &[u8]) -> Result<(), Memory> {
    out.extend_from_slice(word)?;
    out.push(b' ')?;
    Ok(())
}

fn tell_truth(out: &mut Vec<u8>, truth: bool) -> Result<(), Memory> {
    tell(out, if truth { b"true" } else { b"false" })
}

fn tell_keys(out: &mut Vec<u8>, keys: &[Units]) -> Result<(), Memory> {
    out.push(b'[')?;
    for (place, key) in keys.iter().enumerate() {
        if place > 0 {
            out.push(b',')?;
        }
        key.push_utf8(out)?;
    }
    tell(out, b"]")
}

fn tell_value(alloc: Global, out: &mut Vec<u8>, value: &Value) -> Result<(), Memory> {
    match value {
        Value::Num(n) => {
            let digits = n.get();
            let digits = format!(in alloc; "{digits}")?;
            tell(out, digits.as_bytes())
        }
        Value::Undefined => tell(out, b"none"),
        _ => tell(out, b"other"),
    }
}

/// Does what a word says at the end of an array: `+numbers` appends items, and `^` takes the last and tells it.
fn act_at_end(
    alloc: Global,
    heap: &mut Heap,
    o: ObjId,
    word: &str,
    out: &mut Vec<u8>,
) -> Result<(), Memory> {
    if let Some(items) = word.strip_prefix("+") {
        return heap.append_items(o, numbers(alloc, items)?);
    }
    match heap.take_last(o)? {
        Some(last) => tell_value(alloc, out, &last),
        None => tell(out, b"empty"),
    }
}

/// Does what a word says and appends the answer: `key=number` puts, `key!number` makes a hidden property, `-key` deletes, `?key` gets,
/// `@numbers` sets the items; `*` is for the keys that `for in` visits, and `**` for all.
fn act(
    alloc: Global,
    heap: &mut Heap,
    o: ObjId,
    word: &str,
    out: &mut Vec<u8>,
) -> Result<(), Memory> {
    if word == "*" {
        return tell_keys(out, &heap.keys(o)?);
    }
    if word == "**" {
        return tell_keys(out, &heap.own_keys(o)?);
    }
    if word == "^" || word.starts_with('+') {
        return act_at_end(alloc, heap, o, word, out);
    }
    if let Some(items) = word.strip_prefix("@") {
        return heap.set_items(o, numbers(alloc, items)?);
    }
    if let Some(key) = word.strip_prefix("-") {
        let gone = heap.delete(o, &text(alloc, key)?);
        return tell_truth(out, gone);
    }
    if let Some(key) = word.strip_prefix("?") {
        let key = text(alloc, key)?;
        return tell_value(alloc, out, heap.get(o, &key));
    }
    if let Some((key, value)) = word.split_once("!") {
        return heap.define(o, &text(alloc, key)?, number(value), Attrs::HIDDEN);
    }
    match word.split_once("=") {
        Some((key, value)) => {
            let put = heap.put(o, &text(alloc, key)?, number(value))?;
            if !put {
                tell(out, b"refused")?;
            }
            Ok(())
        }
        None => tell(out, b"unknown"),
    }
}

/// An array or a record, as the first word says, and what the others give: `[numbers` is an array, and `{` a record.
fn told(alloc: Global, row: &str) -> Result<Vec<u8>, Memory> {
    let mut heap = Heap::new(alloc)?;
    let mut out = Vec::new(alloc);
    let mut object = None;
    for word in row.split(' ') {
        if let Some(items) = word.strip_prefix("[") {
            object = Some(heap.make_array(numbers(alloc, items)?)?);
        } else if word == "{" {
            object = Some(heap.make(Class::Object, Some(heap.proto(Proto::Object)))?);
        } else if let Some(o) = object {
            act(alloc, &mut heap, o, word, &mut out)?;
        }
    }
    Ok(out)
}

/// What is done, and what is told.
static ROWS: [(&str, &str); 47] = [
    ("[ 2=1 0=2 * ?length", "[2,0] 3 "),
    ("[ **", "[length] "),
    ("[ ?length ?0", "0 none "),
    ("[1,2,3 * ** ?length", "[0,1,2] [length,0,1,2] 3 "),
    ("[1,2,3 ?0 ?1 ?2 ?3", "1 2 3 none "),
    ("[ 0=5 1=6 2=7 * ?length ?1", "[0,1,2] 3 6 "),
    ("[1,2 1=5 * ?1 ?length", "[0,1] 5 2 "),
    ("[1,2 2=5 * ?2 ?length", "[0,1,2] 5 3 "),
    ("[1,2 3=5 * ?2 ?3 ?length", "[0,1,3] none 5 4 "),
    ("[1,2 3=5 2=6 * ?length", "[0,1,3,2] 4 "),
    ("[1,2,3 -1 * ?1 ?length", "true [0,2] none 3 "),
    ("[1,2,3 -1 1=7 * ?1 ?length", "true [0,2,1] 7 3 "),
    ("[1,2,3 -1 -1 ?2", "true true 3 "),
    ("[1,2,3 -2 * ?length", "true [0,1] 3 "),
    ("[1,2,3 -2 2=9 * ?2 ?length", "true [0,1,2] 9 3 "),
    (
        "[1,2,3 -0 -1 -2 * ** ?length",
        "true true true [] [length] 3 ",
    ),
    ("[1 a=2 * **", "[0,a] [length,0,a] "),
    ("[1 a=2 1=3 * ?1 ?length", "[0,a,1] 3 2 "),
    ("[1 a=2 0=4 * ?0", "[0,a] 4 "),
    ("[1,2 m!1 * **", "[0,1] [length,0,1,m] "),
    ("[1,2 m!1 2=3 * ** ?length", "[0,1,2] [length,0,1,m,2] 3 "),
    ("[1,2 m!1 -m 2=3 ** ?length", "true [length,0,1,2] 3 "),
    ("[1,2 1!9 * ** ?1", "[0] [length,0,1] 9 "),
    ("[1,2 length=7 ?length **", "refused 2 [length,0,1] "),
    ("[1,2 -length ?length", "false 2 "),
    ("[1,2 01=3 1.0=4 * ?length", "[0,1,01,1.0] 2 "),
    (
        "[1,2 4294967294=3 * ?length",
        "[0,1,4294967294] 4294967295 ",
    ),
    ("[1,2 4294967295=3 * ?length", "[0,1,4294967295] 2 "),
    ("[1,2,3 @7 * ** ?length ?0", "[0] [length,0] 1 7 "),
    ("[1,2,3 @ * ?length", "[] 0 "),
    ("[1 @5,6,7 * ?2 ?length", "[0,1,2] 7 3 "),
    ("[1 m!1 @5,6 ** ?1 ?length", "[length,0,m,1] 6 2 "),
    ("[1,2,3 -0 @7,8 ** ?0 ?length", "true [length,1,0] 7 2 "),
    ("[1,2 +3,4 * ** ?length", "[0,1,2,3] [length,0,1,2,3] 4 "),
    ("[ +1 +2,3 ?0 ?2 ?length", "1 3 3 "),
    ("[1,2 + ** ?length", "[length,0,1] 2 "),
    (
        "[1,2,3 ^ ?length ^ ^ ^ ** ?length",
        "3 2 2 1 empty [length] 0 ",
    ),
    ("[1,2 2=3 +4 ^ ?3 * ?length", "4 none [0,1,2] 3 "),
    (
        "[1,2,3 -1 +4 ** ?1 ?3 ?length",
        "true [length,0,2,1,3] none 4 4 ",
    ),
    ("[1,2,3 -1 ^ ** ?1 ?length", "true 3 [length,0,1] none 2 "),
    ("[1 m!1 +2 ** ?1", "[length,0,m,1] 2 "),
    ("[1 3=9 +5 ** ?4 ?length", "[length,0,3,1,2,4] 5 5 "),
    ("[1,2,3 @4 +5 ** ?1 ?length", "[length,0,1] 5 2 "),
    ("[1,2 1!9 * +3 *", "[0] [0,1,2] "),
    ("{ 0=1 1=2 a=3 2=4 * ?2", "[0,1,a,2] 4 "),
    ("{ b=1 a=2 b=3 -b b=4 * ?b", "true [a,b] 4 "),
    (
        "{ a=1 b=2 c=3 d=4 e=5 f=6 g=7 h=8 i=9 j=10 -c ?d ?j *",
        "true 4 10 [a,b,d,e,f,g,h,i,j] ",
    ),
];

#[test]
fn objects_have_what_their_row_tells(rt: HostRuntime) -> Result<(), Fail> {
    let alloc = rt.alloc();
    for (row, wanted) in ROWS.iter() {
        let found = told(alloc, row)?;
        assert!(rt; found.as_slice() == wanted.as_bytes(), "{row}");
    }
    Ok(())
}

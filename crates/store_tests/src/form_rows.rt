//! Calls of properties, in both forms, and their replies.

use caja_num::Whole;
use caja_units::{Memory, Units};
use es3_heap::{Attrs, ListProps, PropCall, PropReply, Props, TableProps, Value, props_run};
use std::alloc::Global;
use std::test::Fail;

type Call = PropCall<Value, Attrs>;

type Reply = PropReply<Value, Attrs>;

fn text(alloc: Global, word: &str) -> Result<Units, Memory> {
    Units::from_ascii(alloc, word.as_bytes())
}

fn number(word: &str) -> Value {
    match word.parse::<i64>() {
        Ok(n) => match Whole::new(n) {
            Some(n) => Value::Num(n),
            None => Value::Null,
        },
        Err(_) => Value::Undefined,
    }
}

/// The call of a word: `key=number` sets, `key!number` sets a hidden one, `-key` removes, `?key` asks, and `*` is for the names.
fn call(alloc: Global, word: &str) -> Result<Call, Memory> {
    if word == "*" {
        return Ok(PropCall::Names);
    }
    if let Some(key) = word.strip_prefix("-") {
        return Ok(PropCall::Remove(text(alloc, key)?));
    }
    if let Some(key) = word.strip_prefix("?") {
        return Ok(PropCall::Own(text(alloc, key)?));
    }
    if let Some((key, value)) = word.split_once("!") {
        return Ok(PropCall::Set(text(alloc, key)?, number(value), Attrs::HIDDEN));
    }
    match word.split_once("=") {
        Some((key, value)) => Ok(PropCall::Set(text(alloc, key)?, number(value), Attrs::PLAIN)),
        None => Ok(PropCall::Names),
    }
}

/// The calls of a row.
fn calls(alloc: Global, row: &str) -> Result<Vec<Call>, Memory> {
    let mut calls = Vec::new(alloc);
    for word in row.split(' ') {
        calls.push(call(alloc, word)?)?;
    }
    Ok(calls)
}

fn tell(out: &mut Vec<u8>, word: &[u8]) -> Result<(), Memory> {
    out.extend_from_slice(word)?;
    Ok(())
}

fn tell_value(alloc: Global, out: &mut Vec<u8>, value: &Value) -> Result<(), Memory> {
    match value {
        Value::Num(n) => {
            let digits = n.get();
            let digits = format!(in alloc; "{digits}")?;
            tell(out, digits.as_bytes())
        }
        _ => tell(out, b"other"),
    }
}

/// Appends what a reply tells: `ok`, `true`, `false`, a number, behind it `!` where the property is hidden, `none`, or names.
fn tell_reply(alloc: Global, out: &mut Vec<u8>, reply: &Reply) -> Result<(), Memory> {
    match reply {
        PropReply::Own(None) => tell(out, b"none"),
        PropReply::Own(Some((value, attrs))) => {
            tell_value(alloc, out, value)?;
            if attrs.dont_enum {
                tell(out, b"!")?;
            }
            Ok(())
        }
        PropReply::Set => tell(out, b"ok"),
        PropReply::Removed(true) => tell(out, b"true"),
        PropReply::Removed(false) => tell(out, b"false"),
        PropReply::Names(keys) => {
            tell(out, b"[")?;
            for place in 0..keys.len() {
                if place > 0 {
                    tell(out, b",")?;
                }
                if let Some(key) = keys.at(place) {
                    key.push_utf8(out)?;
                }
            }
            tell(out, b"]")
        }
    }
}

fn told(alloc: Global, replies: &[Reply]) -> Result<Vec<u8>, Memory> {
    let mut out = Vec::new(alloc);
    for (place, reply) in replies.iter().enumerate() {
        if place > 0 {
            tell(&mut out, b" ")?;
        }
        tell_reply(alloc, &mut out, reply)?;
    }
    Ok(out)
}

fn run<P: Props<Value, Attrs>>(alloc: Global, mut props: P, row: &str) -> Result<Vec<u8>, Memory> {
    let calls = calls(alloc, row)?;
    let replies = props_run(alloc, &mut props, &calls)?;
    told(alloc, &replies)
}

/// Calls, and their replies.
static ROWS: [(&str, &str); 32] = [
    ("b=1 a=2 b=3 -b b=4 *", "ok ok ok true ok [a,b]"),
    ("*", "[]"),
    ("?a", "none"),
    ("-a", "false"),
    ("-a *", "false []"),
    ("a=1", "ok"),
    ("a=1 *", "ok [a]"),
    ("a=1 ?a", "ok 1"),
    ("a=1 ?b", "ok none"),
    ("a=1 -b *", "ok false [a]"),
    ("a=1 -a", "ok true"),
    ("a=1 -a -a", "ok true false"),
    ("a=1 -a ?a *", "ok true none []"),
    ("a=1 a=2 ?a *", "ok ok 2 [a]"),
    ("a=1 b=2 *", "ok ok [a,b]"),
    ("b=1 a=2 *", "ok ok [b,a]"),
    ("a=1 b=2 a=3 *", "ok ok ok [a,b]"),
    ("a=1 b=2 c=3 -a *", "ok ok ok true [b,c]"),
    ("a=1 b=2 c=3 -b *", "ok ok ok true [a,c]"),
    ("a=1 b=2 c=3 -c *", "ok ok ok true [a,b]"),
    ("a=1 b=2 c=3 -a ?b ?c", "ok ok ok true 2 3"),
    ("a=1 b=2 c=3 -a a=4 * ?a", "ok ok ok true ok [b,c,a] 4"),
    ("a=1 b=2 c=3 -b -a *", "ok ok ok true true [c]"),
    ("a=1 b=2 -a -b *", "ok ok true true []"),
    ("a!1 ?a", "ok 1!"),
    ("a!1 a=2 ?a", "ok ok 2"),
    ("a=1 a!2 ?a *", "ok ok 2! [a]"),
    ("10=1 9=2 1=3 *", "ok ok ok [10,9,1]"),
    ("a=1 aa=2 A=3 ?aa ?A ?a", "ok ok ok 2 3 1"),
    ("=1 ? *", "ok 1 []"),
    (
        "a=1 b=2 c=3 d=4 e=5 f=6 g=7 h=8 i=9 j=10 -c ?d ?j *",
        "ok ok ok ok ok ok ok ok ok ok true 4 10 [a,b,d,e,f,g,h,i,j]",
    ),
    (
        "a=1 b=2 c=3 d=4 e=5 f=6 g=7 h=8 i=9 -a -i i=1 a=2 *",
        "ok ok ok ok ok ok ok ok ok true true ok ok [b,c,d,e,f,g,h,i,a]",
    ),
];

#[test]
fn both_forms_reply_as_their_row(rt: HostRuntime) -> Result<(), Fail> {
    let alloc = rt.alloc();
    for (row, wanted) in ROWS.iter() {
        let in_list = run(alloc, ListProps::new(alloc)?, row)?;
        assert!(rt; in_list.as_slice() == wanted.as_bytes(), "as a list: {row}");
        let in_table = run(alloc, TableProps::new(alloc)?, row)?;
        assert!(rt;
            in_table.as_slice() == wanted.as_bytes(),
            "as a table: {row}"
        );
    }
    Ok(())
}

//! Long texts, and texts that are no text of characters.

use crate::rules::{answer, web_rule};
use caja_units::Units;
use std::alloc::Global;
use std::test::Fail;
use url_rule::UriKind;

/// A front and a part, so many times.
fn repeated(alloc: Global, front: &str, part: &str, times: u32) -> Result<String, Fail> {
    let mut text = String::from_str(alloc, front)?;
    for _ in 0..times {
        text.push_str(part)?;
    }
    Ok(text)
}

/// Fronts and parts that are answered as they stand, however often the part stands.
static LONG: [(&str, &str); 4] = [
    ("https://e.example/", "a"),
    ("https://e.example/?", "a%20"),
    ("https://e.example/", "b/"),
    ("#", "c"),
];

#[test]
fn long_texts_are_answered(rt: HostRuntime) -> Result<(), Fail> {
    let alloc = rt.alloc();
    let rule = web_rule(alloc)?;
    for (front, part) in &LONG {
        let text = repeated(alloc, front, part, 65536)?;
        if answer(alloc, &rule, UriKind::Link, "", text.as_str())?.as_slice() != text.as_bytes() {
            return Err((*front).into());
        }
    }
    let spaces = repeated(alloc, "", " ", 65536)?;
    let dropped = answer(alloc, &rule, UriKind::Link, "", spaces.as_str())?;
    assert!(rt; dropped.as_slice() == "-".as_bytes());
    Ok(())
}

#[test]
fn a_lone_surrogate_is_replaced(rt: HostRuntime) -> Result<(), Fail> {
    let alloc = rt.alloc();
    let rule = web_rule(alloc)?;
    let front = Units::from_ascii(alloc, b"https://e.example/")?;
    let text = front.join(alloc, &Units::from_units(alloc, &[0xD800, 97])?)?;
    let wanted = Units::from_ascii(alloc, b"https://e.example/%EF%BF%BDa")?;
    match rule.read(alloc, UriKind::Link, &text, None)? {
        Some(answer) => assert!(rt; answer.same(&wanted)),
        None => return Err("dropped".into()),
    }
    Ok(())
}

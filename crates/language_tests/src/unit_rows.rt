//! Texts of UTF-16 code units, and each call once where it succeeds.

ghost use Rattle.std.specs.Prelude.{◌<◌, ◌^◌, length};

use caja_units::{Memory, Units, Utf8Fault};
use std::alloc::Global;
use std::test::Fail;

/// Whether what `push_utf8` appends is this.
fn has_utf8(alloc: Global, text: &Units, bytes: &[u8]) -> Result<bool, Memory> {
    let mut out = Vec::new(alloc);
    text.push_utf8(&mut out)?;
    Ok(out.as_slice() == bytes)
}

fn has_literal(alloc: Global, text: &Units, bytes: &[u8]) -> Result<bool, Memory> {
    Ok(text.to_ascii_literal(alloc)?.as_slice() == bytes)
}

fn is_doubled(alloc: Global, text: &Units) -> Result<bool, Memory> {
    Ok(text.join(alloc, text)?.len() == 2)
}

fn is_copied(alloc: Global, text: &Units) -> Result<bool, Memory> {
    Ok(text.copy(alloc)?.same(text) && text.slice(alloc, 0, 0)?.is_empty())
}

#[test]
fn a_letter_with_an_accent_is_one_unit(rt: HostRuntime) -> Result<(), Fail> {
    let text = Units::from_utf8(rt.alloc(), &[0xC3, 0xA9])?;
    assert!(rt; text.at(0) == Some(233) && text.at(1).is_none());
    assert!(rt; has_literal(rt.alloc(), &text, b"\"\\xE9\"")?);
    assert!(rt; is_doubled(rt.alloc(), &text)?);
    assert!(rt; is_copied(rt.alloc(), &text)?);
    Ok(())
}

static BROKEN: [([u8; 3], u32); 4] = [
    ([0xFF, 0x41, 0x41], 0),
    ([0xE2, 0x82, 0x41], 0),
    ([0x41, 0xC3, 0x41], 1),
    ([0x41, 0xE2, 0x82], 1),
];

fn is_broken(alloc: Global, bytes: &[u8], place: u32) -> bool
    requires { length bytes.now < 2 ^ 32 }
{
    match Units::from_utf8(alloc, bytes) {
        Err(Utf8Fault::NotUtf8(found)) => found == place,
        _ => false,
    }
}

#[test]
fn bytes_that_are_not_utf8_are_told_by_their_place(rt: HostRuntime) {
    for (bytes, place) in BROKEN.iter() {
        assert!(rt; is_broken(rt.alloc(), bytes, *place), "at {place}");
    }
}

/// Whether these units have these bytes.
fn units_have(alloc: Global, units: &[u16], bytes: &[u8]) -> Result<bool, Memory> {
    let text = Units::from_units(alloc, units)?;
    has_utf8(alloc, &text, bytes)
}

/// Whether the text of these bytes has these units and the bytes.
fn are_units(alloc: Global, bytes: &[u8], units: &[u16]) -> Result<bool, Utf8Fault>
    requires { length bytes.now < 2 ^ 32 }
{
    let text = Units::from_utf8(alloc, bytes)?;
    let wanted = Units::from_units(alloc, units)?;
    Ok(text.same(&wanted) && has_utf8(alloc, &text, bytes)?)
}

#[test]
fn a_pair_of_surrogates_is_one_character(rt: HostRuntime) -> Result<(), Fail> {
    let bytes: &[u8] = &[0xF0, 0x9F, 0x98, 0x80];
    assert!(rt; are_units(rt.alloc(), bytes, &[0xD83D, 0xDE00])?);
    assert!(rt; units_have(rt.alloc(), &[0xD800], &[0xEF, 0xBF, 0xBD])?);
    Ok(())
}

static ESCAPED: [u16; 17] = [
    8, 9, 10, 11, 12, 13, 34, 92, 60, 62, 32, 126, 0, 127, 255, 256, 0xABCD,
];

#[test]
fn a_literal_escapes_what_is_not_plain(rt: HostRuntime) -> Result<(), Fail> {
    let text = Units::from_units(rt.alloc(), &ESCAPED)?;
    let expected = b"\"\\b\\t\\n\\v\\f\\r\\\"\\\\\\x3C\\x3E ~\\x00\\x7F\\xFF\\u0100\\uABCD\"";
    assert!(rt; has_literal(rt.alloc(), &text, expected)?);
    Ok(())
}

static INDICES: [(&str, Option<u32>); 8] = [
    ("0", Some(0)),
    ("10", Some(10)),
    ("4294967294", Some(4_294_967_294)),
    ("4294967295", None),
    ("42949672940", None),
    ("01", None),
    ("1x", None),
    ("", None),
];

fn index(alloc: Global, name: &str) -> Result<Option<u32>, Memory> {
    Ok(Units::from_ascii(alloc, name.as_bytes())?.canonical_index())
}

#[test]
fn an_array_index_has_no_leading_zero_and_is_below_the_limit(rt: HostRuntime) -> Result<(), Fail> {
    for (name, wanted) in INDICES.iter() {
        assert!(rt; index(rt.alloc(), name)? == *wanted, "at {name}");
    }
    Ok(())
}

static PLACES: [(&str, usize, Option<usize>); 5] = [
    ("bc", 0, Some(1)),
    ("bc", 2, Some(4)),
    ("bc", 5, None),
    ("", 6, Some(6)),
    ("", 7, None),
];

fn place(alloc: Global, part: &str, from: usize) -> Result<Option<usize>, Memory> {
    let text = Units::from_ascii(alloc, b"abcabc")?;
    let part = Units::from_ascii(alloc, part.as_bytes())?;
    Ok(text.index_of(&part, from))
}

#[test]
fn a_part_is_found_from_a_place_on(rt: HostRuntime) -> Result<(), Fail> {
    for (part, from, wanted) in PLACES.iter() {
        assert!(rt; place(rt.alloc(), part, *from)? == *wanted, "from {from}");
    }
    Ok(())
}

static ORDERS: [(&str, &str, bool); 5] = [
    ("10", "9", true),
    ("9", "10", false),
    ("a", "ab", true),
    ("ab", "a", false),
    ("a", "a", false),
];

fn is_before(alloc: Global, one: &str, other: &str) -> Result<bool, Memory> {
    let one = Units::from_ascii(alloc, one.as_bytes())?;
    let other = Units::from_ascii(alloc, other.as_bytes())?;
    Ok(one.before(&other))
}

#[test]
fn texts_are_in_the_order_of_their_units(rt: HostRuntime) -> Result<(), Fail> {
    for (one, other, before) in ORDERS.iter() {
        assert!(rt;
            is_before(rt.alloc(), one, other)? == *before,
            "{one} and {other}"
        );
    }
    Ok(())
}

static ENDINGS: [(&str, bool); 5] = [
    ("a__", true),
    ("__", true),
    ("_", false),
    ("__a", false),
    ("", false),
];

fn is_hidden(alloc: Global, name: &str) -> Result<bool, Memory> {
    Ok(Units::from_ascii(alloc, name.as_bytes())?.ends_hidden())
}

#[test]
fn two_underscores_at_the_end_hide(rt: HostRuntime) -> Result<(), Fail> {
    for (name, hidden) in ENDINGS.iter() {
        assert!(rt; is_hidden(rt.alloc(), name)? == *hidden, "at {name}");
    }
    Ok(())
}

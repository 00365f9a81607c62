//! The trees of a text.

ghost use Rattle.std.specs.Prelude.{◌≡◌, ◌<◌, ◌^◌, ◌+◌, ◌&&◌, ℕ, List, [], true, false, Option, length, IfOk, IfErr, OnOk};
ghost use Rattle.std.specs.List.{sum_by, list_all};
ghost use Rattle.std.specs.Char.{len_utf8};
ghost use Rattle.std.specs.Str.{chars};
ghost use Rattle.html_grammar.specs.Tags as t;
ghost use Rattle.html_grammar.specs.Characters.{is_space as space_spec};
ghost use Rattle.html_grammar.specs.Trees as tree;
ghost use Rattle.html_grammar.specs.Reading as h;
ghost use Rattle.html_grammar.specs.Fits.{FaultFits};
ghost use Rattle.html_tree.specs.Views.{trees, attrs_of};
ghost use Rattle.html_pieces.specs.Views.{fault_of, refusal_of};
ghost use Rattle.html_reader.specs.Stacks.{stack};
ghost use Rattle.html_reader.specs.Gives.{Refuses, Gives};
ghost use Rattle.html_reader.specs.Answers.{IsRead};

use caja_units::{Memory, Units};
use html_pieces::{Fault, Refusal, Step, point_at};
use html_tokens::{is_space, is_void};
use html_tree::{Attr, Html, HtmlError, make_element, push, text};
use std::alloc::Global;
use std::{mem, str};

/// How deep elements nest.
const MOST: usize = 128;

/// An open element: its name and attributes, and what stands before it.
#[derive(Debug, Drop)]
pub struct Open {
    pub name: Units,
    pub attrs: Vec<Attr>,
    pub before: Vec<Html>,
}

/// The name of the innermost open element, and the text without units where none is open.
fn innermost<'a>(open: &'a [Open], empty: &'a Units) -> &'a Units
    requires { empty.now ≡ [] }
    ensures { result.now ≡ h.inner_name (stack «open».now) }
{
    match open.last() {
        Some(o) => &o.name,
        None => empty,
    }
}

/// An element begins.
fn begin(
    alloc: Global,
    open: &mut Vec<Open>,
    here: &mut Vec<Html>,
    name: Units,
    attrs: Vec<Attr>,
) -> Result<(), Memory>
    ensures { OnOk result ((f : List h.Open → tree.Tree tree.many → h.Answer) → h.opened f (stack «open».old.items) (trees here.old.items) name (attrs_of attrs.items) ≡ f (stack «open».new.items) (trees here.new.items)) }
{
    if is_void(&name) {
        return push(here, make_element(name, attrs, Vec::new(alloc)));
    }
    let before = mem::replace(here, Vec::new(alloc));
    open.push(Open {
        name,
        attrs,
        before,
    })?;
    Ok(())
}

/// An element ends, if the innermost has this name.
fn finish(open: &mut Vec<Open>, here: &mut Vec<Html>, name: &Units) -> Result<bool, Memory>
    ensures closed { IfOk result (λ b. b ≡ true → (f : List h.Open → tree.Tree tree.many → h.Answer) (p : ℕ) (s : List ℕ) (x : Option t.Fault) → h.closes f p s (stack «open».old.items) (trees here.old.items) name.now x ≡ h.faulty p s x (f (stack «open».new.items) (trees here.new.items))) }
    ensures other { IfOk result (λ b. b ≡ false → (f : List h.Open → tree.Tree tree.many → h.Answer) (p : ℕ) (s : List ℕ) (x : Option t.Fault) → h.closes f p s (stack «open».old.items) (trees here.old.items) name.now x ≡ h.refused t.mismatch p) }
{
    let Some(o) = open.pop() else {
        return Ok(false);
    };
    if !o.name.same(name) {
        return Ok(false);
    }
    let Open {
        name,
        attrs,
        before,
    } = o;
    let content = mem::replace(here, before);
    push(here, make_element(name, attrs, content))?;
    Ok(true)
}

/// The error of a refusal at a byte.
fn refused(refusal: Refusal, at: u32) -> HtmlError
    ensures { Refuses result (h.refused (refusal_of refusal) at) }
{
    match refusal {
        Refusal::OpenTag => HtmlError::OpenTag(at),
        Refusal::Mismatch => HtmlError::Mismatch(at),
        Refusal::BadReference => HtmlError::BadReference(at),
        Refusal::BadAttr => HtmlError::BadAttr(at),
        Refusal::TooDeep => HtmlError::TooDeep(at),
    }
}

/// How many bytes characters have in UTF-8.
fn width(s: &[char]) -> u32
    requires { sum_by len_utf8 s.now < 2 ^ 32 }
    ensures { result ≡ sum_by len_utf8 s.now }
{
    let mut width = 0;
    for c in s {
        width += c.len_utf8() as u32;
    }
    width
}

/// Refuses a piece that begins at a byte where it has a fault.
fn check(s: &[char], at: u32, fault: Option<Fault>) -> Result<(), HtmlError>
    requires fits { FaultFits (length s.now) (fault_of fault) }
    requires small { at + sum_by len_utf8 s.now < 2 ^ 32 }
    ensures ok { OnOk result ((a : h.Answer) → h.faulty at s.now (fault_of fault) a ≡ a) }
    ensures err { IfErr result (λ e. (a : h.Answer) → Refuses e (h.faulty at s.now (fault_of fault) a)) }
{
    match fault {
        None => Ok(()),
        Some(f) => Err(refused(f.refusal, at + width(&s[..f.behind]))),
    }
}

/// Whether all of them are white space.
fn all_space(s: &[char]) -> bool
    ensures { result ≡ list_all space_spec s.now }
{
    s.iter().all(|c| is_space(*c))
}

/// Whether still nothing but white space was read.
fn still_first(first: bool, s: &[char]) -> bool
    ensures { result ≡ (first && list_all space_spec s.now) }
{
    if first { all_space(s) } else { false }
}

/// The end of the text.
fn end(open: &[Open], here: Vec<Html>, at: u32) -> Result<Vec<Html>, HtmlError>
    ensures { Gives result (h.ended at (stack «open».now) (trees here.items)) }
{
    if open.len() == 0 {
        Ok(here)
    } else {
        Err(HtmlError::Mismatch(at))
    }
}

/// The trees of the characters of a text.
fn read_all(alloc: Global, chars: &[char]) -> Result<Vec<Html>, HtmlError>
    requires bytes { sum_by len_utf8 chars.now < 2 ^ 32 }
    requires small { length chars.now < 2 ^ 32 }
    ensures { Gives result (h.read chars.now) }
{
    let empty = Units::from_units(alloc, &[])?;
    let mut open = Vec::new(alloc);
    let mut here = Vec::new(alloc);
    let mut i = 0;
    let mut at = 0;
    let mut first = true;
    while i < chars.len() {
        let s = &chars[i..];
        match point_at(alloc, s, first, innermost(&open, &empty))? {
            Step::Text(units, n) => {
                push(&mut here, text(units))?;
                first = still_first(first, &s[..n]);
                at += width(&s[..n]);
                i += n;
            }
            Step::Skip(n) => {
                first = false;
                at += width(&s[..n]);
                i += n;
            }
            Step::Start(name, attrs, fault, n) => {
                if open.len() >= MOST {
                    return Err(HtmlError::TooDeep(at));
                }
                match check(s, at, fault) {
                    Ok(()) => {}
                    Err(error) => return Err(error),
                }
                begin(alloc, &mut open, &mut here, name, attrs)?;
                first = false;
                at += width(&s[..n]);
                i += n;
            }
            Step::End(name, fault, n) => {
                if !finish(&mut open, &mut here, &name)? {
                    return Err(HtmlError::Mismatch(at));
                }
                match check(s, at, fault) {
                    Ok(()) => {}
                    Err(error) => return Err(error),
                }
                first = false;
                at += width(&s[..n]);
                i += n;
            }
            Step::Refuse(refusal, n) => return Err(refused(refusal, at + width(&s[..n]))),
        }
    }
    end(&open, here, at)
}

/// The characters of a text.
fn decode(alloc: Global, text: &str) -> Result<Vec<char>, Memory>
    ensures { IfOk result (λ v. v.items ≡ chars text.now) }
{
    Ok(text.chars().collect(alloc)?)
}

/// The trees of a text.
fn read_text(alloc: Global, text: &str) -> Result<Vec<Html>, HtmlError>
    requires { length text.now < 2 ^ 32 }
    ensures { Gives result (h.read (chars text.now)) }
{
    let list = decode(alloc, text)?;
    read_all(alloc, &list)
}

/// The trees that bytes of UTF-8 spell, which are fewer than 2^32: texts, where references stand for their characters, and elements with attributes, in which at
/// most 128 nest. Comments and a document type are no trees. A text that is not UTF-8 is refused first; the other refusals come from left to right, and at one
/// place in the order of `HtmlError`.
///
/// # Errors
///
/// A variant of `HtmlError` with the byte where the text is refused, and `HtmlError::Memory` where memory is wanting.
pub fn read_html(alloc: Global, text: &[u8]) -> Result<Vec<Html>, HtmlError>
    requires { length text.now < 2 ^ 32 }
    ensures { IsRead result text.now }
{
    match str::from_utf8(text) {
        Ok(text) => read_text(alloc, text),
        Err(error) => Err(HtmlError::NotUtf8(error.valid_up_to() as u32)),
    }
}

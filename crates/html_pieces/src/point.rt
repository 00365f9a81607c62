//! What stands at a point of a text.

ghost use Rattle.std.specs.Prelude.{◌≡◌, ◌<◌, ◌≤◌, ◌^◌, ◌+◌, length, map, take, position, codes, nat_eq, IfOk, IfSome};
ghost use Rattle.std.specs.List.{starts_with};
ghost use Rattle.caja_units.specs.Units.{same_units};
ghost use Rattle.html_grammar.specs.Characters as class;
ghost use Rattle.html_grammar.specs.Runs.{run as run_spec};
ghost use Rattle.html_grammar.specs.Point as p;
ghost use Rattle.html_grammar.specs.Tags as t;
ghost use Rattle.html_grammar.specs.Fits.{StepFits};
ghost use Rattle.html_pieces.specs.Views.{kind_of, step_of};

use crate::parts::lowered;
use crate::piece::{Inside, Kind, Refusal, Step};
use crate::tags::inside_at;
use caja_units::{Memory, Units};
use html_tokens::{
    Run, Until, begins_markup, begins_with, is_letter, is_void, lower, run_at, spells, units_of,
    word_len,
};
use std::alloc::Global;

/// Markup that isn't closed.
fn open_markup() -> Step
    ensures { step_of result ≡ p.refuse t.open_tag 0 }
{
    Step::Refuse(Refusal::OpenTag, 0)
}

/// Text up to markup or the end.
fn text_at(alloc: Global, s: &[char]) -> Result<Step, Memory>
    ensures { IfOk result (λ r. step_of r ≡ p.text_step (run_spec class.begins_markup 0 s.now)) }
{
    match run_at(alloc, s, Until::Markup)? {
        Run::Read(units, n) => Ok(Step::Text(units, n)),
        Run::Wrong(at, _) => Ok(Step::Refuse(Refusal::BadReference, at)),
    }
}

/// What a tag does that isn't an end tag.
fn start_kind(name: &Units) -> Kind
    ensures { kind_of result ≡ p.start_kind name.now }
{
    if is_void(name) {
        Kind::Void
    } else {
        Kind::Element
    }
}

/// The tag of an element that begins, behind its `<`.
fn start_tag(alloc: Global, s: &[char]) -> Result<Step, Memory>
    requires { length s.now < 2 ^ 32 }
    ensures { IfOk result (λ r. step_of r ≡ p.start_tag s.now) }
{
    let n = word_len(s);
    let name = lowered(alloc, &s[..n])?;
    let kind = start_kind(&name);
    match inside_at(alloc, &s[n..], kind, n + 1)? {
        Inside::Closed(attrs, fault, len) => Ok(Step::Start(name, attrs, fault, len)),
        Inside::Endless => Ok(open_markup()),
    }
}

/// Whether the characters begin with a letter.
fn begins_letter(s: &[char]) -> bool
    ensures { result ≡ class.begins class.is_letter s.now }
{
    match s {
        [first, ..] => is_letter(*first),
        [] => false,
    }
}

/// The tag that ends an element, behind its `</`.
fn end_tag(alloc: Global, s: &[char]) -> Result<Step, Memory>
    requires { length s.now < 2 ^ 32 }
    ensures { IfOk result (λ r. step_of r ≡ p.end_tag s.now) }
{
    if !begins_letter(s) {
        return Ok(open_markup());
    }
    let n = word_len(s);
    let name = lowered(alloc, &s[..n])?;
    match inside_at(alloc, &s[n..], Kind::End, n + 2)? {
        Inside::Closed(_, fault, len) => Ok(Step::End(name, fault, len)),
        Inside::Endless => Ok(open_markup()),
    }
}

/// Whether a comment ends here.
fn ends_comment(s: &[char]) -> bool
    ensures { result ≡ starts_with nat_eq s.now (codes "-->") }
{
    s.starts_with(&['-', '-', '>'])
}

/// How many characters there are up to and with the end of a comment.
fn comment_end(s: &[char]) -> Option<usize>
    requires { length s.now < 2 ^ 32 }
    ensures is { result ≡ p.comment_end s.now }
    ensures within { IfSome result (λ n. n ≤ length s.now) }
{
    for i in 0..s.len() {
        if ends_comment(&s[i..]) {
            return Some(i + 3);
        }
    }
    None
}

/// What is dropped: so many characters, and those up to the end, if it has one.
fn dropped(before: usize, end: Option<usize>) -> Step
    requires small { before < 2 ^ 32 }
    requires within { IfSome end (λ n. n < 2 ^ 32) }
    ensures { step_of result ≡ p.dropped before end }
{
    match end {
        Some(n) => Step::Skip(n + before),
        None => open_markup(),
    }
}

/// Whether the characters begin with this word, which is of small letters, in either case.
fn begins_word(s: &[char], word: &[u8]) -> bool
    ensures { result ≡ same_units (map class.lower (take (length word.now) s.now)) word.now }
{
    if s.len() < word.len() {
        return false;
    }
    for (i, byte) in word.iter().enumerate() {
        if u32::from(lower(s[i])) != u32::from(*byte) {
            return false;
        }
    }
    true
}

/// How many characters stand before the first `>`.
fn type_end(s: &[char]) -> Option<usize>
    ensures is { result ≡ position (class.is 62) s.now }
    ensures within { IfSome result (λ n. n < length s.now) }
{
    s.iter().position(|c| *c == '>')
}

/// Whether a comment begins here, behind its `<!`.
fn begins_comment(s: &[char]) -> bool
    ensures { result ≡ starts_with nat_eq s.now (codes "--") }
{
    s.starts_with(&['-', '-'])
}

/// What stands behind a `<!`.
fn declaration(s: &[char], first: bool) -> Step
    requires { length s.now < 2 ^ 32 }
    ensures { step_of result ≡ p.declaration first s.now }
{
    if begins_comment(s) {
        return dropped(4, comment_end(&s[2..]));
    }
    if first && begins_word(s, b"doctype") {
        return dropped(3, type_end(s));
    }
    open_markup()
}

/// Whether the tag that ends an element of this name begins here, or one whose name begins so.
fn begins_end(name: &[u8], s: &[char]) -> bool
    ensures { result ≡ p.begins_end name.now s.now }
{
    if !s.starts_with(&['<', '/']) {
        return false;
    }
    begins_word(&s[2..], name)
}

/// How many characters there are before the end of raw content.
fn raw_len(name: &[u8], s: &[char]) -> usize
    ensures is { result ≡ p.raw_len name.now s.now }
    ensures within { result ≤ length s.now }
{
    for i in 0..s.len() {
        if begins_end(name, &s[i..]) {
            return i;
        }
    }
    s.len()
}

/// How much of what stands here is raw, within an element of this name.
fn raw_here(name: &Units, s: &[char]) -> usize
    ensures is { result ≡ p.raw_here name.now s.now }
    ensures within { result ≤ length s.now }
{
    if spells(name, b"script") {
        return raw_len(b"script", s);
    }
    if spells(name, b"style") {
        return raw_len(b"style", s);
    }
    0
}

/// Markup, which begins here.
fn markup(alloc: Global, s: &[char], first: bool) -> Result<Step, Memory>
    requires some { 0 < length s.now }
    requires small { length s.now < 2 ^ 32 }
    ensures { IfOk result (λ r. step_of r ≡ p.markup first s.now) }
{
    let rest = &s[1..];
    if begins_with(rest, '/') {
        return end_tag(alloc, &rest[1..]);
    }
    if begins_with(rest, '!') {
        return Ok(declaration(&rest[1..], first));
    }
    start_tag(alloc, rest)
}

/// What stands at a point.
fn any_point(alloc: Global, s: &[char], first: bool, inner: &Units) -> Result<Step, Memory>
    requires some { 0 < length s.now }
    requires small { length s.now < 2 ^ 32 }
    ensures { IfOk result (λ r. step_of r ≡ p.point first inner.now s.now) }
{
    let n = raw_here(inner, s);
    if n > 0 {
        return Ok(Step::Text(units_of(alloc, &s[..n])?, n));
    }
    if begins_markup(s) {
        return markup(alloc, s, first);
    }
    text_at(alloc, s)
}

/// What stands at a point, which has some characters, and no more than there are. `first`: nothing but white space stands before; `inner`: the name of the
/// innermost open element, and no name where none is open.
///
/// # Errors
///
/// `Memory` where memory is wanting.
pub fn point_at(alloc: Global, s: &[char], first: bool, inner: &Units) -> Result<Step, Memory>
    requires some { 0 < length s.now }
    requires small { length s.now < 2 ^ 32 }
    ensures is { IfOk result (λ r. step_of r ≡ p.point first inner.now s.now) }
    ensures fits { IfOk result (λ r. StepFits (length s.now) (step_of r)) }
{
    any_point(alloc, s, first, inner)
}

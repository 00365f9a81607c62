//! The parts of a tag.

ghost use Rattle.std.specs.Prelude.{◌≡◌, ◌<◌, ◌≤◌, ◌+◌, ◌^◌, ◌&&◌, nat_eq, true, [], length, map, None, IfOk};
ghost use Rattle.std.specs.List.{All, prefix_len};
ghost use Rattle.html_grammar.specs.Characters as class;
ghost use Rattle.html_grammar.specs.Runs.{run as run_spec, run_length as run_length_spec};
ghost use Rattle.html_grammar.specs.Fits.{RunFits, PartFits};
ghost use Rattle.html_grammar.specs.Tags as t;
ghost use Rattle.html_pieces.specs.Views.{kind_of, part_of};
ghost use Rattle.html_tokens.specs.Views.{run_of, until_of};

use crate::piece::{Kind, Part};
use caja_units::{Memory, Units};
use html_tokens::{Run, Until, begins_with, is_attr, is_space, lower, run_at};
use html_tree::Attr;
use std::alloc::Global;

/// How many characters at the front may stand in the name of an attribute.
fn attr_len(s: &[char]) -> usize
    ensures is { result ≡ prefix_len class.is_attr s.now }
    ensures within { result ≤ length s.now }
{
    s.iter().take_while(|c| is_attr(**c)).count()
}

/// Characters of names in lower case.
pub fn lowered(alloc: Global, s: &[char]) -> Result<Units, Memory>
    requires { All (λ c. class.is_attr c ≡ true) s.now }
    ensures { IfOk result (λ u. u ≡ map class.lower s.now) }
{
    let mut units = Vec::with_capacity(alloc, s.len())?;
    for c in s {
        units.push(small(*c))?;
    }
    Units::from_units(alloc, &units)
}

/// A character of a name in lower case.
fn small(c: char) -> u16
    requires { class.is_attr c ≡ true }
    ensures { result ≡ class.lower c }
{
    lower(c) as u16
}

/// How many characters a run has.
fn run_length(run: &Run) -> usize
    ensures { result ≡ run_length_spec (run_of run.now) }
{
    match run {
        Run::Read(_, n) => *n,
        Run::Wrong(_, n) => *n,
    }
}

/// An attribute without a value.
fn bare(alloc: Global, name: Units, n: usize) -> Result<Part, Memory>
    ensures { IfOk result (λ r. part_of r ≡ t.attribute name [] None n) }
{
    let value = Units::from_units(alloc, &[])?;
    Ok(Part::Attr(Attr { name, value }, None, n))
}

/// An attribute whose value begins behind so many characters and has so many more behind it.
fn valued(
    alloc: Global,
    name: Units,
    before: usize,
    behind: usize,
    run: Run,
) -> Result<Part, Memory>
    requires small { before + run_length_spec (run_of run) + behind < 2 ^ 64 }
    requires fits { RunFits (run_length_spec (run_of run)) (run_of run) }
    ensures { IfOk result (λ r. part_of r ≡ t.valued name before behind (run_of run)) }
{
    match run {
        Run::Read(value, n) => Ok(Part::Attr(Attr { name, value }, None, before + n + behind)),
        Run::Wrong(k, n) => {
            let value = Units::from_units(alloc, &[])?;
            Ok(Part::Attr(Attr { name, value }, Some(before + k), before + n + behind))
        }
    }
}

/// A run, which has no more characters than there are.
fn run_within(alloc: Global, s: &[char], until: Until) -> Result<Run, Memory>
    ensures is { IfOk result (λ r. run_of r ≡ run_spec (until_of until) 0 s.now) }
    ensures fits { IfOk result (λ r. RunFits (length s.now) (run_of r)) }
    ensures length { IfOk result (λ r. RunFits (run_length_spec (run_of r)) (run_of r)) }
{
    run_at(alloc, s, until)
}

/// A value between quotes, behind the first of them.
fn quoted(
    alloc: Global,
    name: Units,
    before: usize,
    s: &[char],
    quote: char,
) -> Result<Part, Memory>
    requires { before + length s.now + 1 < 2 ^ 64 }
    ensures { IfOk result (λ r. part_of r ≡ t.quoted name before (length s.now) (run_spec (class.begins (class.is quote)) 0 s.now)) }
{
    let run = run_within(alloc, s, Until::Quote(quote))?;
    if run_length(&run) == s.len() {
        return Ok(Part::Unclosed);
    }
    valued(alloc, name, before, 1, run)
}

/// What stands behind the `=` of an attribute.
fn value_at(alloc: Global, name: Units, before: usize, s: &[char]) -> Result<Part, Memory>
    requires { before + length s.now + 1 < 2 ^ 64 }
    ensures { IfOk result (λ r. part_of r ≡ t.value name before s.now) }
{
    let [quote, rest @ ..] = s else {
        return bare(alloc, name, before);
    };
    if is_quote(*quote) {
        return quoted(alloc, name, before + 1, rest, *quote);
    }
    let run = run_within(alloc, s, Until::Bare)?;
    valued(alloc, name, before, 0, run)
}

/// What a value may stand in.
fn is_quote(c: char) -> bool
    ensures { result ≡ class.is_quote c }
{
    c == '"' || c == '\''
}

/// An attribute.
fn attr_at(alloc: Global, s: &[char]) -> Result<Part, Memory>
    requires { length s.now < 2 ^ 62 }
    ensures { IfOk result (λ r. part_of r ≡ t.attr_at s.now) }
{
    let n = attr_len(s);
    let name = lowered(alloc, &s[..n])?;
    let rest = &s[n..];
    if begins_with(rest, '=') {
        value_at(alloc, name, n + 1, &rest[1..])
    } else {
        bare(alloc, name, n)
    }
}

/// Whether `/>` ends a tag here.
fn closes_void(kind: Kind, c: char, rest: &[char]) -> bool
    ensures { result ≡ (nat_eq c 47 && t.is_void_tag (kind_of kind) && class.begins (class.is 62) rest.now) }
{
    if c != '/' {
        return false;
    }
    match kind {
        Kind::Void => begins_with(rest, '>'),
        Kind::Element | Kind::End => false,
    }
}

/// What stands at a point within a tag.
#[tactic(auto, unfolding(html_grammar::specs::Tags::part))]
fn any_part(alloc: Global, s: &[char], kind: Kind) -> Result<Part, Memory>
    requires { length s.now < 2 ^ 62 }
    ensures { IfOk result (λ r. part_of r ≡ t.part (kind_of kind) s.now) }
{
    let [c, rest @ ..] = s else {
        return Ok(Part::Unclosed);
    };
    if *c == '>' {
        return Ok(Part::Close(1));
    }
    if closes_void(kind, *c, rest) {
        return Ok(Part::Close(2));
    }
    if is_space(*c) {
        return Ok(Part::Gap);
    }
    if is_attr(*c) {
        return attr_at(alloc, s);
    }
    Ok(Part::Wrong)
}

/// What stands at a point within a tag, which has no more characters than there are.
pub fn part_at(alloc: Global, s: &[char], kind: Kind) -> Result<Part, Memory>
    requires { length s.now < 2 ^ 62 }
    ensures is { IfOk result (λ r. part_of r ≡ t.part (kind_of kind) s.now) }
    ensures fits { IfOk result (λ r. PartFits (length s.now) (part_of r)) }
{
    any_part(alloc, s, kind)
}

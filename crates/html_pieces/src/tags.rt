//! Tags: what stands between the name of a tag and its end.

ghost use Rattle.std.specs.Prelude.{ℕ, List, ◌||◌, ◌≡◌, ◌<◌, ◌+◌, ◌^◌, ◌++◌, ◌∷◌, [], length, map, Some, IfOk, OnOk};
ghost use Rattle.html_grammar.specs.Tables.{is_in};
ghost use Rattle.html_grammar.specs.Tags as t;
ghost use Rattle.html_tree.specs.Views.{attr_of};
ghost use Rattle.html_pieces.specs.Views.{kind_of, names_of, IsPlace, inside_of, fault_of};

use crate::names::is_again;
use crate::parts::part_at;
use crate::piece::{Fault, Inside, Kind, Part, Refusal};
use caja_units::Memory;
use html_tree::Attr;
use std::alloc::Global;
use std::collections::HashSet;

/// The fault of an attribute at this place, if it has one.
fn attr_fault(kind: Kind, again: bool, at: usize, unknown: Option<usize>) -> Option<Fault>
    requires { IsPlace at unknown }
    ensures { (seen : List (List ℕ)) (attr : t.Attr) → again ≡ is_in seen attr.name → fault_of result ≡ t.attr_fault (kind_of kind) seen at attr unknown }
{
    if is_fault(kind, again) {
        return wrong_at(at);
    }
    match unknown {
        Some(k) => Some(Fault {
            refusal: Refusal::BadReference,
            behind: at + k,
        }),
        None => None,
    }
}

/// Whether an attribute may not stand here.
fn is_fault(kind: Kind, again: bool) -> bool
    ensures { result ≡ (t.is_end_tag (kind_of kind) || again) }
{
    match kind {
        Kind::End => true,
        Kind::Element | Kind::Void => again,
    }
}

/// The first fault of two.
fn or_later(first: Option<Fault>, later: Option<Fault>) -> Option<Fault>
    ensures { fault_of result ≡ t.or_later (fault_of first) (fault_of later) }
{
    match first {
        Some(fault) => Some(fault),
        None => later,
    }
}

/// Appends an attribute.
fn push(attrs: &mut Vec<Attr>, attr: Attr) -> Result<(), Memory>
    ensures { OnOk result ((map attr_of attrs.new.items ≡ map attr_of attrs.old.items ++ attr_of attr ∷ []) × (names_of attrs.new.items ≡ names_of attrs.old.items ++ attr.name ∷ [])) }
{
    attrs.push(attr)?;
    Ok(())
}

/// What stands in a tag behind its name, where so many characters of the tag stand before.
pub fn inside_at(alloc: Global, s: &[char], kind: Kind, before: usize) -> Result<Inside, Memory>
    requires { before + length s.now < 2 ^ 62 }
    ensures { IfOk result (λ r. inside_of r ≡ t.inside (kind_of kind) [] 0 before s.now) }
{
    let mut attrs = Vec::new(alloc);
    let mut others = HashSet::new(alloc);
    let mut fault = None;
    let mut i = 0usize;
    while i < s.len() {
        match part_at(alloc, &s[i..], kind)? {
            Part::Close(n) => return Ok(Inside::Closed(attrs, fault, before + i + n)),
            Part::Gap => i += 1,
            Part::Attr(attr, unknown, n) => {
                let again = is_again(alloc, &attrs, &mut others, &attr.name)?;
                fault = or_later(fault, attr_fault(kind, again, before + i, unknown));
                push(&mut attrs, attr)?;
                i += n;
            }
            Part::Wrong => {
                fault = or_later(fault, wrong_at(before + i));
                i += 1;
            }
            Part::Unclosed => return Ok(Inside::Endless),
        }
    }
    Ok(Inside::Endless)
}

/// The fault of a character that belongs to nothing.
fn wrong_at(at: usize) -> Option<Fault>
    ensures { fault_of result ≡ Some (t.bad_attr, at) }
{
    Some(Fault {
        refusal: Refusal::BadAttr,
        behind: at,
    })
}

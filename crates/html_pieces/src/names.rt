//! The names of the attributes of a tag, of which none may stand twice.

ghost use Rattle.std.specs.Prelude.{◌≡◌, ◌++◌, ◌∷◌, [], drop, IfOk, OnOk};
ghost use Rattle.html_grammar.specs.Tables.{is_in};
ghost use Rattle.html_pieces.specs.Views.{names_of};
ghost use Rattle.html_pieces.specs.Names.{Tracks};

use caja_units::{Memory, Units};
use html_tokens::unit;
use html_tree::Attr;
use std::alloc::Global;
use std::collections::HashSet;

/// So many names are looked through one by one; a tag with more attributes has the others in a set.
const FEW: usize = 16;

/// Whether an attribute of this name stands among these.
#[tactic(auto, unfolding(html_grammar::specs::Tables::is_in))]
fn stands_in(attrs: &[Attr], name: &Units) -> bool
    ensures { result ≡ is_in (names_of attrs.now) name.now }
{
    for attr in attrs {
        if name.same(&attr.name) {
            return true;
        }
    }
    false
}

/// The units of a name.
fn key(alloc: Global, name: &Units) -> Result<Vec<u16>, Memory>
    ensures { IfOk result (λ key. key.items ≡ name.now) }
{
    let mut key = Vec::with_capacity(alloc, name.len())?;
    for i in 0..name.len() {
        key.push(unit(name, i))?;
    }
    Ok(key)
}

/// Whether an attribute of this name stands among these, of which those behind the first sixteen have their names in the set. The name is put there too, where it is
/// behind sixteen.
pub fn is_again(
    alloc: Global,
    attrs: &[Attr],
    others: &mut HashSet<Vec<u16>>,
    name: &Units,
) -> Result<bool, Memory>
    requires { Tracks others.old (drop 16 (names_of attrs.now)) }
    ensures told { IfOk result (λ again. again ≡ is_in (names_of attrs.now) name.now) }
    ensures tracks { OnOk result (Tracks others.new (drop 16 (names_of attrs.now ++ name.now ∷ []))) }
{
    if attrs.len() < FEW {
        return Ok(stands_in(attrs, name));
    }
    let key = key(alloc, name)?;
    let added = others.insert(key)?;
    if !added {
        return Ok(true);
    }
    Ok(stands_in(&attrs[..FEW], name))
}

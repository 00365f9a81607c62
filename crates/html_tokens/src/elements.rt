//! The names of elements.

ghost use Rattle.std.specs.Prelude.{◌≡◌, ◌<◌, length, map, slice_index};
ghost use Rattle.caja_units.specs.Units.{same_units};
ghost use Rattle.html_grammar.specs.Tables.{void, is_in};

use caja_units::Units;

/// The elements without content and end tag.
static VOID: [&str; 13] = [
    "area", "base", "basefont", "br", "col", "frame", "hr", "img", "input", "isindex", "link",
    "meta", "param",
];

/// The unit at a place of a text.
pub fn unit(text: &Units, at: usize) -> u16
    requires { at < length text.now }
    ensures { result ≡ slice_index text.now at }
{
    text.at(at).unwrap_or(0)
}

/// Whether a text is this one, which is of ASCII.
pub fn spells(text: &Units, ascii: &[u8]) -> bool
    ensures { result ≡ same_units text.now ascii.now }
{
    if text.len() != ascii.len() {
        return false;
    }
    for (i, byte) in ascii.iter().enumerate() {
        if unit(text, i) != u16::from(*byte) {
            return false;
        }
    }
    true
}

/// Whether a text is one of a table, whose entries are of ASCII.
#[tactic(auto, unfolding(html_grammar::specs::Tables::is_in))]
pub fn stands_in(table: &[&str], text: &Units) -> bool
    ensures { result ≡ is_in (map (λ entry. entry.now) table.now) text.now }
{
    for entry in table {
        if spells(text, entry.as_bytes()) {
            return true;
        }
    }
    false
}

/// Whether an element of this name, in lower case, has neither content nor an end tag.
pub fn is_void(name: &Units) -> bool
    ensures { result ≡ is_in void name.now }
{
    stands_in(&VOID, name)
}

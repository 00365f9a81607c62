//! What is asked of texts that stand in pieces, unit by unit.

ghost use Rattle.std.specs.Prelude.{◌≡◌, ◌<◌, ◌^◌, length};
ghost use Rattle.caja_units.specs.Units.{same_units, comes_before, stands_at, first_place, is_hidden};

use text_storage::Text;

/// The underscore, two of which end a hidden name.
const UNDERSCORE: u16 = b'_' as u16;

/// Whether the two texts have the same units.
pub fn are_same(one: &Text, other: &Text) -> bool
    ensures { result ≡ same_units one.now other.now }
{
    if one.len() != other.len() {
        return false;
    }
    for i in 0..one.len() {
        if one.at(i) != other.at(i) {
            return false;
        }
    }
    true
}

/// Whether the one text comes before the other.
pub fn is_before(one: &Text, other: &Text) -> bool
    ensures { result ≡ comes_before one.now other.now }
{
    for i in 0..one.len() {
        let (Some(unit), Some(there)) = (one.at(i), other.at(i)) else {
            return false;
        };
        if unit != there {
            return unit < there;
        }
    }
    one.len() < other.len()
}

/// Whether the part stands at a place of a text.
fn is_at(text: &Text, part: &Text, place: usize) -> bool
    requires within { place < 2 ^ 32 }
    requires short { length part.now < 2 ^ 32 }
    ensures { result ≡ stands_at text.now part.now place }
{
    for i in 0..part.len() {
        if text.at(place + i) != part.at(i) {
            return false;
        }
    }
    true
}

/// The first place not before `from` at which the part stands.
pub fn first_place(text: &Text, part: &Text, from: usize) -> Option<usize>
    requires text { length text.now < 2 ^ 32 }
    requires part { length part.now < 2 ^ 32 }
    ensures { result ≡ first_place text.now part.now from }
{
    for place in from..text.len() + 1 {
        if is_at(text, part, place) {
            return Some(place);
        }
    }
    None
}

/// Whether a text ends in two underscores.
pub fn ends_hidden(text: &Text) -> bool
    ensures { result ≡ is_hidden text.now }
{
    let Some(end) = text.len().checked_sub(2) else {
        return false;
    };
    text.at(end) == Some(UNDERSCORE) && text.at(end + 1) == Some(UNDERSCORE)
}

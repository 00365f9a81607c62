//! How words and punctuators are spelled, and where a spelling stands in a table.

ghost use Rattle.std.specs.Prelude.{◌≡◌};
ghost use Rattle.caja_units.specs.Units.{same_units};
ghost use Rattle.es3_lexer.specs.Tables.{found_in};

/// Whether the characters are those of the entry, which is of ASCII.
fn spells(s: &[char], entry: &[u8]) -> bool
    ensures { result ≡ same_units s.now entry.now }
{
    if s.len() != entry.len() {
        return false;
    }
    for (i, c) in s.iter().enumerate() {
        if u32::from(*c) != u32::from(entry[i]) {
            return false;
        }
    }
    true
}

/// What stands in the table beside the spelling that these characters are, if it has them.
#[tactic(auto, unfolding(crate::specs::Tables::found_in))]
pub fn find_in<T: Copy>(table: &[(&str, T)], s: &[char]) -> Option<T>
    ensures { result ≡ found_in table.now s.now }
{
    for entry in table {
        if spells(s, entry.0.as_bytes()) {
            return Some(entry.1);
        }
    }
    None
}

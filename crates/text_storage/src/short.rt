//! Texts so short that their units are kept in place.

ghost use Rattle.std.specs.Prelude.{◌≡◌, ◌+◌, ◌≤◌, [], ◌++◌, length};

use std::marker::Model;

/// The most units that are kept in place.
pub const MOST_SHORT: usize = 40;

/// A text of at most 40 units.
#[derive(Debug, Drop)]
pub struct Short {
    len: usize,
    units: [u16; MOST_SHORT],
}

impl Model for Short {
    ghost use Rattle.std.specs.Prelude.{ℕ, List, take, ◌≤◌};

    ghost Value = { List ℕ };

    ghost view = { λ short. take short.len short.units };

    ghost invariant = { λ short. short.len ≤ 40 };
}

impl Short {
    /// The text with no units.
    pub fn new() -> Short
        ensures { result ≡ [] }
    {
        Short {
            len: 0,
            units: [0; MOST_SHORT],
        }
    }

    /// Its units.
    pub fn units(&self) -> &[u16]
        ensures { result.now ≡ self.now }
    {
        &self.units[..self.len]
    }

    /// Puts the units behind it.
    pub fn push_units(&mut self, units: &[u16])
        requires { length self.old + length units.now ≤ 40 }
        ensures { self.new ≡ self.old ++ units.now }
    {
        let end = self.len + units.len();
        self.units[self.len..end].copy_from_slice(units);
        self.len = end;
    }

    /// Puts the numbers of the bytes behind it.
    pub fn push_ascii(&mut self, bytes: &[u8])
        requires { length self.old + length bytes.now ≤ 40 }
        ensures { self.new ≡ self.old ++ bytes.now }
    {
        let start = self.len;
        for i in 0..bytes.len() {
            self.units[start + i] = u16::from(bytes[i]);
        }
        self.len = start + bytes.len();
    }
}

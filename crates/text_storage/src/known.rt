//! Short texts of which more is kept than their units.

ghost use Rattle.std.specs.Prelude.{◌≡◌};
ghost use Rattle.std.specs.Fmt.{decimal};
ghost use Rattle.text_storage.specs.Number.{number_of};

use crate::short::Short;
use itoa::Buffer;
use std::marker::Model;

/// A short text that is kept with its number.
#[derive(Debug, Drop)]
pub struct Key {
    units: Short,
    number: u64,
}

impl Model for Key {
    ghost use Rattle.std.specs.Prelude.{◌≡◌, ℕ, List};
    ghost use Rattle.text_storage.specs.Number.{number_of};

    ghost Value = { List ℕ };

    ghost view = { λ key. key.units };

    ghost invariant = { λ key. key.number ≡ number_of key.units };
}

impl Key {
    /// A text with its number.
    pub fn new(units: Short, number: u64) -> Key
        requires { number ≡ number_of units }
        ensures { result ≡ units }
    {
        Key { units, number }
    }

    /// Its units.
    pub fn units(&self) -> &[u16]
        ensures { result.now ≡ self.now }
    {
        self.units.units()
    }

    /// Its number.
    pub fn number(&self) -> u64
        ensures { result ≡ number_of self.now }
    {
        self.number
    }
}

/// The decimal digits of a number, kept with it.
#[derive(Debug, Drop)]
pub struct Index {
    digits: Short,
    index: u32,
}

impl Model for Index {
    ghost use Rattle.std.specs.Prelude.{◌≡◌, ℕ, List};
    ghost use Rattle.std.specs.Fmt.{decimal};

    ghost Value = { List ℕ };

    ghost view = { λ index. index.digits };

    ghost invariant = { λ index. index.digits ≡ decimal index.index };
}

impl Index {
    /// The digits of a number.
    pub fn new(index: u32) -> Index
        ensures { result ≡ decimal index }
    {
        let mut buffer = Buffer::new();
        let mut digits = Short::new();
        digits.push_ascii(buffer.format(index).as_bytes());
        Index { digits, index }
    }

    /// Its units.
    pub fn units(&self) -> &[u16]
        ensures { result.now ≡ self.now }
    {
        self.digits.units()
    }

    /// The number whose digits it is.
    pub fn index(&self) -> u32
        ensures { self.now ≡ decimal result }
    {
        self.index
    }
}

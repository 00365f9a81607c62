//! How keys are hashed: by their numbers, which texts give.

ghost use Rattle.key_numbers.specs.Numbers.{write_number};

use std::hash::{BuildHasher, Hasher};

/// What a key is found by: the number that it gives, and nothing is done to it.
#[derive(Debug, Clone, Copy)]
pub struct KeyNumber {
    number: u64,
}

impl Hasher for KeyNumber {
    ghost use Rattle.key_numbers.specs.Numbers.{write_number};

    ghost write = { λ s bytes. record { number = write_number s.number bytes } };

    ghost finish = { λ s. s.number };

    fn finish(&self) -> u64 {
        self.number
    }

    fn write(&mut self, bytes: &[u8]) {
        if let Ok(eight) = <[u8; 8]>::try_from(bytes) {
            self.number = u64::from_le_bytes(eight);
        }
    }

    fn write_u64(&mut self, i: u64) {
        self.number = i;
    }
}

/// What makes a hasher for each key: the number of a key has no seed, since the store is given no source of chance.
#[derive(Debug, Clone, Copy)]
pub struct KeyNumbers;

impl BuildHasher for KeyNumbers {
    type Hasher = KeyNumber;

    ghost build_hasher = { λ _. record { number = 0 } };

    fn build_hasher(&self) -> KeyNumber {
        KeyNumber { number: 0 }
    }
}

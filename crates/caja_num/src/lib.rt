//! The numbers of the language, and its operators on them.
//!
//! A number is a whole number from -(2^53 - 1) to 2^53 - 1, among those of section 8.5 of ES3, the
//! third edition of ECMA-262; negative zero is 0. Each operator gives the standard's result where
//! that is such a number, and a `NumberFault` elsewhere.
#![tactic(auto)]

ghost use Rattle.std.specs.Prelude.{◌≡◌, ◌<◌, ◌↔◌, pos, IsTrue, IsErr};
ghost use Rattle.caja_num.specs.Numbers.{is_whole, whole, or_fault, sum, difference, product, quotient, remainder, negated, to_int32, bits_of, shift_count, shift_left, shift_right, shift_right_unsigned, bit_not_of, bit_and_of, bit_or_of, bit_xor_of};

use std::marker::Model;

/// That an operator has no number as its value: ES3's result is a fraction, not a number, an
/// infinity, or out of range.
#[derive(Clone, Copy, Debug, PartialEq, Eq)]
pub struct NumberFault;

/// A whole number from -(2^53 - 1) to 2^53 - 1 (ES3 8.5).
#[derive(Clone, Copy, Debug, PartialEq, Eq)]
pub struct Whole {
    value: i64,
}

impl Model for Whole {
    ghost use Rattle.std.specs.Prelude.{ℤ, IsTrue};
    ghost use Rattle.caja_num.specs.Numbers.{is_whole};

    ghost Value = { ℤ };

    ghost view = { λ w. w.value };

    ghost invariant = { λ w. IsTrue (is_whole w.value) };

    ghost inverse = { λ n. record { value = n } };
}

// From 2^53 on not every integer is a number of ES3 8.5.
const LARGEST: i64 = (1 << 53) - 1;

impl Whole {
    /// `v` as a number, or `None` where it is out of range.
    pub fn new(v: i64) -> Option<Whole>
        ensures { result ≡ whole v }
    {
        if -LARGEST <= v && v <= LARGEST {
            Some(Whole { value: v })
        } else {
            None
        }
    }

    /// The number as a machine integer, from -(2^53 - 1) to 2^53 - 1.
    pub fn get(self) -> i64
        ensures value { result ≡ self }
        ensures in_range { IsTrue (is_whole result) }
    {
        self.value
    }

    /// `self + o` (ES3 11.6.1). A fault where that is out of range.
    ///
    /// # Errors
    ///
    /// `NumberFault` where the sum is out of range.
    pub fn add(self, o: Whole) -> Result<Whole, NumberFault>
        ensures { result ≡ or_fault (sum self o) }
    {
        Whole::new(self.value + o.value).ok_or(NumberFault)
    }

    /// `self - o` (ES3 11.6.2). A fault where that is out of range.
    ///
    /// # Errors
    ///
    /// `NumberFault` where the difference is out of range.
    pub fn sub(self, o: Whole) -> Result<Whole, NumberFault>
        ensures { result ≡ or_fault (difference self o) }
    {
        Whole::new(self.value - o.value).ok_or(NumberFault)
    }

    /// `self * o` (ES3 11.5.1). A fault where that is out of range.
    ///
    /// # Errors
    ///
    /// `NumberFault` where the product is out of range.
    pub fn mul(self, o: Whole) -> Result<Whole, NumberFault>
        ensures { result ≡ or_fault (product self o) }
    {
        self.value
            .checked_mul(o.value)
            .and_then(Whole::new)
            .ok_or(NumberFault)
    }

    /// `self / o` (ES3 11.5.2). A fault where `o` is 0 or leaves a fraction.
    ///
    /// # Errors
    ///
    /// `NumberFault` where `o` is 0 or leaves a fraction.
    #[tactic(auto, using(crate::proofs::Quotients::quotient_exact))]
    pub fn div(self, o: Whole) -> Result<Whole, NumberFault>
        ensures { result ≡ or_fault (quotient self o) }
    {
        if o.value == 0 || self.value % o.value != 0 {
            return Err(NumberFault);
        }
        Whole::new(self.value / o.value).ok_or(NumberFault)
    }

    /// `self % o`, with the sign of `self` (ES3 11.5.3). A fault where `o` is 0, and there alone.
    ///
    /// # Errors
    ///
    /// `NumberFault` where `o` is 0, and there alone.
    #[tactic(auto, using(crate::proofs::Quotients::remainder_exact))]
    pub fn rem(self, o: Whole) -> Result<Whole, NumberFault>
        ensures value { result ≡ or_fault (remainder self o) }
        ensures zero_alone { IsErr result ↔ (o ≡ pos 0) }
    {
        if o.value == 0 {
            return Err(NumberFault);
        }
        Whole::new(self.value % o.value).ok_or(NumberFault)
    }

    /// `-self` (ES3 11.4.7), which at 0 is 0.
    pub fn neg(self) -> Whole
        ensures { result ≡ negated self }
    {
        Whole { value: -self.value }
    }

    /// `~self` (ES3 11.4.8).
    pub fn bit_not(self) -> Whole
        ensures { result ≡ bit_not_of self }
    {
        Whole::from_bits(!self.bits())
    }

    /// `self << o` (ES3 11.7.1).
    pub fn shl(self, o: Whole) -> Whole
        ensures { result ≡ shift_left self o }
    {
        Whole::from_bits(self.bits() << o.shift_count())
    }

    /// `self >> o`, which keeps the sign (ES3 11.7.2).
    pub fn shr(self, o: Whole) -> Whole
        ensures { result ≡ shift_right self o }
    {
        Whole {
            value: i64::from(self.bits().cast_signed() >> o.shift_count()),
        }
    }

    /// `self >>> o`, which is never negative (ES3 11.7.3).
    pub fn ushr(self, o: Whole) -> Whole
        ensures { result ≡ shift_right_unsigned self o }
    {
        Whole {
            value: i64::from(self.bits() >> o.shift_count()),
        }
    }

    /// `self & o` (ES3 11.10).
    pub fn bit_and(self, o: Whole) -> Whole
        ensures { result ≡ bit_and_of self o }
    {
        Whole::from_bits(self.bits() & o.bits())
    }

    /// `self | o` (ES3 11.10).
    pub fn bit_or(self, o: Whole) -> Whole
        ensures { result ≡ bit_or_of self o }
    {
        Whole::from_bits(self.bits() | o.bits())
    }

    /// `self ^ o` (ES3 11.10).
    pub fn bit_xor(self, o: Whole) -> Whole
        ensures { result ≡ bit_xor_of self o }
    {
        Whole::from_bits(self.bits() ^ o.bits())
    }

    // ToUint32 (ES3 9.6): the low 32 bits of the two's complement.
    fn bits(self) -> u32
        ensures { result ≡ bits_of self }
    {
        self.value.rem_euclid(1 << 32) as u32
    }

    // ToInt32 of a number with these 32 bits (ES3 9.5).
    fn from_bits(bits: u32) -> Whole
        ensures { result ≡ to_int32 (pos bits) }
    {
        Whole {
            value: i64::from(bits.cast_signed()),
        }
    }

    // How far a shift by `self` goes (ES3 11.7).
    fn shift_count(self) -> u32
        ensures value { result ≡ shift_count self }
        ensures below { result < 32 }
    {
        self.bits() % 32
    }
}

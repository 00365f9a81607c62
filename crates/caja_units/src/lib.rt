//! Texts of ES3: lists of 16-bit units (ECMA-262 third edition, 4.3.16 and 8.4).
#![tactic(auto)]

ghost use Rattle.std.specs.Prelude.{◌≡◌, ℕ, ◌+◌, ◌<◌, ◌≤◌, ◌^◌, ◌↔◌, ◌++◌, [], List, length, slice_get, IsTrue, IfOk, IfSome, OnOk, OnErr, All};
ghost use Rattle.std.specs.List.{slice_range};
ghost use Rattle.caja_units.specs.Units.{IsText, same_units, comes_before, first_place, is_hidden};
ghost use Rattle.caja_units.specs.Utf8.{decoded, Decodes, utf8_of};
ghost use Rattle.caja_units.specs.Literal.{literal};
ghost use Rattle.caja_units.specs.Index.{array_index, number_units};

mod compare;
mod decode;
mod hashing;
mod print;
mod search;

use std::alloc::{AllocError, AllocFailed, Global};
use std::marker::Model;
use std::str;
use text_storage::Text;

/// The most units that a text has: 2^32 - 2.
const MOST_UNITS: usize = 4_294_967_294;

/// The two underscores that end a hidden name.
const HIDDEN_END: [u16; 2] = [b'_' as u16; 2];

/// Want of memory.
#[derive(Debug, Clone, Copy, PartialEq, Eq)]
pub struct Memory;

impl From<AllocError> for Memory {
    fn from(_error: AllocError) -> Memory {
        Memory
    }
}

impl<T: Drop> From<AllocFailed<T>> for Memory {
    fn from(_error: AllocFailed<T>) -> Memory {
        Memory
    }
}

/// Why bytes gave no text.
#[derive(Debug, Clone, Copy, PartialEq, Eq)]
pub enum Utf8Fault {
    /// The bytes are not UTF-8: the place, from 0, of the first byte of the first ill-formed or cut sequence.
    NotUtf8(u32),
    /// Memory is wanting.
    Memory,
}

impl From<AllocError> for Utf8Fault {
    ghost use Rattle.std.specs.Prelude.{◌≡◌};
    ghost use Rattle.caja_units.specs.declared.Utf8Fault.TheVariants.{Memory};

    ghost from_gives = { λ _ e. e ≡ Memory };

    fn from(_error: AllocError) -> Utf8Fault {
        Utf8Fault::Memory
    }
}

impl From<Memory> for Utf8Fault {
    ghost use Rattle.std.specs.Prelude.{◌≡◌};
    ghost use Rattle.caja_units.specs.declared.Utf8Fault.TheVariants.{Memory};

    ghost from_gives = { λ _ e. e ≡ Memory };

    fn from(_error: Memory) -> Utf8Fault {
        Utf8Fault::Memory
    }
}

/// A text: a list of 16-bit units (ES3 8.4). Places are counted in units, from 0. A text has at most 2^32 - 2 units:
/// what would give a longer one answers want of memory. Copies share their units, and a long text that is joined shares them too.
#[derive(Debug, Drop)]
pub struct Units {
    text: Text,
}

impl Model for Units {
    ghost use Rattle.std.specs.Prelude.{ℕ, List};
    ghost use Rattle.caja_units.specs.Units.{IsText};

    ghost Value = { List ℕ };

    ghost view = { λ units. units.text };

    ghost invariant = { λ units. IsText units.text };
}

impl Units {
    /// The text that bytes of UTF-8 spell, or the place of the first byte of the first sequence that is ill-formed or
    /// cut off. The bytes are to be fewer than 2^32.
    ///
    /// # Errors
    ///
    /// `Utf8Fault::NotUtf8` where the bytes are not UTF-8, and `Utf8Fault::Memory` where memory is wanting.
    pub fn from_utf8(alloc: Global, bytes: &[u8]) -> Result<Units, Utf8Fault>
        requires { length bytes.now < 2 ^ 32 }
        ensures { Decodes result (decoded bytes.now) }
    {
        match str::from_utf8(bytes) {
            Ok(text) => {
                let units = decode::units(alloc, text)?;
                if units.len() > MOST_UNITS {
                    return Err(Utf8Fault::Memory);
                }
                Ok(Units::new(Text::of_list(alloc, units)?))
            }
            Err(fault) => Err(Utf8Fault::NotUtf8(fault.valid_up_to() as u32)),
        }
    }

    /// The text whose units are the numbers of the bytes.
    ///
    /// # Errors
    ///
    /// `Memory` where memory is wanting, or the text would have more than 2^32 - 2 units.
    pub fn from_ascii(alloc: Global, bytes: &[u8]) -> Result<Units, Memory>
        ensures { IfOk result (λ text. text ≡ bytes.now) }
    {
        if bytes.len() > MOST_UNITS {
            return Err(Memory);
        }
        Ok(Units::new(Text::of_ascii(alloc, bytes)?))
    }

    /// The text of a list of units.
    ///
    /// # Errors
    ///
    /// `Memory` where memory is wanting, or the text would have more than 2^32 - 2 units.
    pub fn from_units(alloc: Global, units: &[u16]) -> Result<Units, Memory>
        ensures { IfOk result (λ text. text ≡ units.now) }
    {
        if units.len() > MOST_UNITS {
            return Err(Memory);
        }
        Ok(Units::new(Text::of(alloc, units)?))
    }

    /// The text of a number (ES3 9.8.1), which is kept with it.
    ///
    /// # Errors
    ///
    /// `Memory` where memory is wanting.
    pub fn of_index(alloc: Global, n: u32) -> Result<Units, Memory>
        ensures { IfOk result (λ text. text ≡ number_units n) }
    {
        Ok(Units::new(Text::of_index(alloc, n)?))
    }

    /// The same text, and where it is short, its number is kept from now on, in this one and all that share it: a table finds
    /// it then without a look at its units, and two such texts of different numbers are told apart by these.
    ///
    /// # Errors
    ///
    /// `Memory` where memory is wanting.
    pub fn keyed(&self, alloc: Global) -> Result<Units, Memory>
        ensures { IfOk result (λ text. text ≡ self.now) }
    {
        Ok(Units {
            text: self.text.keyed(alloc)?,
        })
    }

    /// The text of these units.
    fn new(text: Text) -> Units
        requires { IsText text }
        ensures { result ≡ text }
    {
        Units { text }
    }

    /// Appends the text in UTF-8: a high surrogate and the low one behind it are one character, and any other
    /// surrogate is written as U+FFFD. Where memory is wanting, nothing is appended.
    ///
    /// # Errors
    ///
    /// `Memory` where memory is wanting.
    pub fn push_utf8(&self, out: &mut Vec<u8>) -> Result<(), Memory>
        ensures ok { OnOk result (out.new.items ≡ out.old.items ++ utf8_of self.now) }
        ensures err { OnErr result (out.new.items ≡ out.old.items) }
    {
        match self.text.flat() {
            Some(units) => decode::push_utf8(units, out)?,
            None => decode::push_utf8(&self.text.all(*out.allocator())?, out)?,
        }
        Ok(())
    }

    /// The text as a string literal of printable ASCII without `<` and `>` (ES3 7.8.4), in double quotes.
    ///
    /// # Errors
    ///
    /// `Memory` where memory is wanting.
    pub fn to_ascii_literal(&self, alloc: Global) -> Result<Vec<u8>, Memory>
        ensures { IfOk result (λ bytes. bytes.items ≡ literal self.now) }
    {
        match self.text.flat() {
            Some(units) => Ok(print::literal(alloc, units)?),
            None => Ok(print::literal(alloc, &self.text.all(alloc)?)?),
        }
    }

    /// How many units there are.
    pub fn len(&self) -> usize
        ensures count { result ≡ length self.now }
        ensures bound { result ≤ 4294967294 }
        ensures small { All (λ u. u < 65536) self.now }
    {
        self.text.len()
    }

    /// Whether there is no unit.
    pub fn is_empty(&self) -> bool
        ensures { IsTrue result ↔ (self.now ≡ []) }
    {
        self.text.len() == 0
    }

    /// The unit at a place, and None exactly past the end.
    pub fn at(&self, i: usize) -> Option<u16>
        ensures is { result ≡ slice_get self.now i }
        ensures small { IfSome result (λ u. u < 65536) }
    {
        self.text.at(i)
    }

    /// Whether the two texts have the same units (ES3 11.9.6).
    pub fn same(&self, o: &Units) -> bool
        ensures is { result ≡ same_units self.now o.now }
        ensures equal { IsTrue result ↔ (self.now ≡ o.now) }
    {
        if self.text.is_known_to_differ(&o.text) {
            return false;
        }
        match (self.text.flat(), o.text.flat()) {
            (Some(units), Some(others)) => units == others,
            _ => compare::are_same(&self.text, &o.text),
        }
    }

    /// Whether this text comes before the other (ES3 11.8.5): the first unit that differs decides, and a proper
    /// front is smaller.
    pub fn before(&self, o: &Units) -> bool
        ensures { result ≡ comes_before self.now o.now }
    {
        match (self.text.flat(), o.text.flat()) {
            (Some(units), Some(others)) => units < others,
            _ => compare::is_before(&self.text, &o.text),
        }
    }

    /// The first place not before `from` at which the part stands (ES3 15.5.4.7), and None exactly where there is none.
    pub fn index_of(&self, part: &Units, from: usize) -> Option<usize>
        ensures { result ≡ first_place self.now part.now from }
    {
        match (self.text.flat(), part.text.flat()) {
            (Some(units), Some(part)) => search::first_place(units, part, from),
            _ => compare::first_place(&self.text, &part.text, from),
        }
    }

    /// The units from the place `from` up to the place `to`, without the latter.
    ///
    /// # Errors
    ///
    /// `Memory` where memory is wanting.
    pub fn slice(&self, alloc: Global, from: usize, to: usize) -> Result<Units, Memory>
        requires order { from ≤ to }
        requires within { to ≤ length self.now }
        ensures { IfOk result (λ text. text ≡ slice_range self.now from to) }
    {
        Ok(Units::new(self.text.part(alloc, from, to)?))
    }

    /// This text with the other behind it.
    ///
    /// # Errors
    ///
    /// `Memory` where memory is wanting, or the text would have more than 2^32 - 2 units.
    pub fn join(&self, alloc: Global, o: &Units) -> Result<Units, Memory>
        ensures { IfOk result (λ text. text ≡ self.now ++ o.now) }
    {
        if o.is_empty() {
            return self.copy(alloc);
        }
        if self.is_empty() {
            return o.copy(alloc);
        }
        if self.len() + o.len() > MOST_UNITS {
            return Err(Memory);
        }
        Ok(Units::new(self.text.join(alloc, &o.text)?))
    }

    /// A copy.
    ///
    /// # Errors
    ///
    /// `Memory` where memory is wanting.
    pub fn copy(&self, _alloc: Global) -> Result<Units, Memory>
        ensures { IfOk result (λ text. text ≡ self.now) }
    {
        Ok(Units {
            text: self.text.share()?,
        })
    }

    /// The array index that the text is, if it is one (ES3 15.4): decimal digits with no leading zero, below 2^32 - 1.
    pub fn canonical_index(&self) -> Option<u32>
        ensures { result ≡ array_index self.now }
    {
        match self.text.index() {
            Some(index) => below_max(index),
            None => search::array_index(self.text.flat()?),
        }
    }

    /// Whether the text ends in two underscores, as the names do that no script may name.
    pub fn ends_hidden(&self) -> bool
        ensures { result ≡ is_hidden self.now }
    {
        match self.text.flat() {
            Some(units) => units.ends_with(&HIDDEN_END),
            None => compare::ends_hidden(&self.text),
        }
    }
}

/// An index, unless it is the one number that is none (ES3 15.4).
fn below_max(index: u32) -> Option<u32>
    ensures { result ≡ array_index (number_units index) }
{
    if index == u32::MAX { None } else { Some(index) }
}

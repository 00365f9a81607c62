//! How the units of a text are kept: a copy counts a reference, and what is put before or behind a long text is copied, but the
//! long text is not.
#![tactic(auto)]

ghost use Rattle.std.specs.Prelude.{◌≡◌, ◌≢◌, ◌+◌, ◌<◌, ◌≤◌, ◌^◌, ◌⊎◌, ◌++◌, length, slice_get, IsTrue, IfOk, IfSome, IfNone, OnOk, All};
ghost use Rattle.std.specs.Fmt.{decimal};
ghost use Rattle.std.specs.List.{slice_range};
ghost use Rattle.text_storage.specs.Kept.{kept_units};
ghost use Rattle.text_storage.specs.Number.{number_of};

mod known;
mod number;
mod short;

use known::{Index, Key};
use number::{number_of_pieces, number_of_units};
use short::{MOST_SHORT, Short};
use std::alloc::{AllocError, Global};
use std::marker::Model;
use std::rc::Rc;
use text_pieces::Pieces;

/// Up to this length, what is joined is copied.
const MOST_COPIED: usize = 256;

/// Where the units are.
#[derive(Debug, Drop)]
enum Kept {
    /// In place: at most 40.
    Short(Short),
    /// In place, with the number of the text.
    Key(Key),
    /// In place: the decimal digits of a number that is kept too.
    Index(Index),
    /// In one list.
    Flat(Vec<u16>),
    /// In pieces.
    Joined(Pieces),
}

/// A list of 16-bit units that is not changed any more, and may have many owners. Places are counted in units, from 0.
#[derive(Debug)]
pub struct Text {
    kept: Rc<Kept>,
}

impl Model for Text {
    ghost use Rattle.std.specs.Prelude.{ℕ, List};

    ghost Value = { List ℕ };

    ghost use Rattle.text_storage.specs.Kept.{kept_units};

    ghost view = { λ text. kept_units text.kept.value };
}

// By hand, so that the crates above prove nothing of what is within.
impl Drop for Text {
    #[inline]
    fn drop(self) {
        let Text { kept } = self;
        drop(kept);
    }
}

impl Text {
    /// The text of a list of units.
    ///
    /// # Errors
    ///
    /// `AllocError` where memory is wanting.
    pub fn of(alloc: Global, units: &[u16]) -> Result<Text, AllocError>
        ensures { IfOk result (λ text. text ≡ units.now) }
    {
        if units.len() <= MOST_SHORT {
            return Text::short(alloc, units, &[]);
        }
        Text::of_list(alloc, Vec::from_slice(alloc, units)?)
    }

    /// The text of a list of units, which becomes its own where it is long.
    ///
    /// # Errors
    ///
    /// `AllocError` where memory is wanting.
    pub fn of_list(alloc: Global, units: Vec<u16>) -> Result<Text, AllocError>
        ensures is { IfOk result (λ text. text ≡ units.items) }
        ensures small { IfOk result (All (λ u. u < 65536)) }
    {
        if units.len() <= MOST_SHORT {
            return Text::short(alloc, &units, &[]);
        }
        Ok(Text {
            kept: Rc::new(alloc, Kept::Flat(units))?,
        })
    }

    /// The text whose units are the numbers of the bytes.
    ///
    /// # Errors
    ///
    /// `AllocError` where memory is wanting.
    pub fn of_ascii(alloc: Global, bytes: &[u8]) -> Result<Text, AllocError>
        ensures { IfOk result (λ text. text ≡ bytes.now) }
    {
        if bytes.len() <= MOST_SHORT {
            let mut kept = Rc::new(alloc, Kept::Short(Short::new()))?;
            return if has_written_ascii(&mut kept, bytes) {
                Ok(Text { kept })
            } else {
                Err(AllocError)
            };
        }
        let units = bytes.iter().map(|byte| u16::from(*byte)).collect(alloc)?;
        Text::of_list(alloc, units)
    }

    /// The decimal digits of a number, which is kept with them.
    ///
    /// # Errors
    ///
    /// `AllocError` where memory is wanting.
    pub fn of_index(alloc: Global, index: u32) -> Result<Text, AllocError>
        ensures { IfOk result (λ text. text ≡ decimal index) }
    {
        Ok(Text {
            kept: Rc::new(alloc, Kept::Index(Index::new(index)))?,
        })
    }

    /// The same text, and where it is short, its number is kept from now on, in this one and all that share it.
    ///
    /// # Errors
    ///
    /// `AllocError` where memory is wanting.
    pub fn keyed(&self, alloc: Global) -> Result<Text, AllocError>
        ensures { IfOk result (λ text. text ≡ self.now) }
    {
        match self.flat() {
            Some(units) if units.len() <= MOST_SHORT => Text::key(alloc, units),
            _ => self.share(),
        }
    }

    /// A short text that is kept with its number.
    fn key(alloc: Global, units: &[u16]) -> Result<Text, AllocError>
        requires { length units.now ≤ 40 }
        ensures { IfOk result (λ text. text ≡ units.now) }
    {
        let mut short = Short::new();
        short.push_units(units);
        let key = Key::new(short, number_of_units(units));
        Ok(Text {
            kept: Rc::new(alloc, Kept::Key(key))?,
        })
    }

    /// The number that is kept with the text: the one whose decimal digits it is.
    pub fn index(&self) -> Option<u32>
        ensures { IfSome result (λ index. self.now ≡ decimal index) }
    {
        match &*self.kept {
            Kept::Index(index) => Some(index.index()),
            _ => None,
        }
    }

    /// Its number, which equal texts have in common. It is at hand where it is kept, and else made of the units.
    pub fn number(&self) -> u64
        requires { length self.now < 2 ^ 32 }
        ensures { result ≡ number_of self.now }
    {
        if let Kept::Key(key) = &*self.kept {
            return key.number();
        }
        match self.flat() {
            Some(units) => number_of_units(units),
            None => number_of_pieces(self),
        }
    }

    /// Whether the texts are known to be different without a look at their units.
    pub fn is_known_to_differ(&self, other: &Text) -> bool
        ensures { IsTrue result → self.now ≢ other.now }
    {
        match (&*self.kept, &*other.kept) {
            (Kept::Key(key), Kept::Key(other)) => key.number() != other.number(),
            _ => false,
        }
    }

    /// The short text of the first units, and behind them the second. They are written where they stay.
    fn short(alloc: Global, first: &[u16], second: &[u16]) -> Result<Text, AllocError>
        requires { length first.now + length second.now ≤ 40 }
        ensures { IfOk result (λ text. text ≡ first.now ++ second.now) }
    {
        let mut kept = Rc::new(alloc, Kept::Short(Short::new()))?;
        if has_written(&mut kept, first, second) {
            Ok(Text { kept })
        } else {
            Err(AllocError)
        }
    }

    /// The same text, counted once more.
    ///
    /// # Errors
    ///
    /// `AllocError` where memory is wanting.
    pub fn share(&self) -> Result<Text, AllocError>
        ensures { IfOk result (λ text. text ≡ self.now) }
    {
        Ok(Text {
            kept: self.kept.clone()?,
        })
    }

    /// How many units there are.
    pub fn len(&self) -> usize
        ensures { result ≡ length self.now }
    {
        match &*self.kept {
            Kept::Short(short) => short.units().len(),
            Kept::Key(key) => key.units().len(),
            Kept::Index(index) => index.units().len(),
            Kept::Flat(units) => units.len(),
            Kept::Joined(pieces) => pieces.len(),
        }
    }

    /// The units, where they stand in one list. Where they don't, there are more than 40.
    pub fn flat(&self) -> Option<&[u16]>
        ensures flat { IfSome result (λ units. units.now ≡ self.now) }
        ensures long { IfNone result (40 < length self.now) }
    {
        match &*self.kept {
            Kept::Short(short) => Some(short.units()),
            Kept::Key(key) => Some(key.units()),
            Kept::Index(index) => Some(index.units()),
            Kept::Flat(units) => Some(units),
            Kept::Joined(pieces) => pieces.flat(),
        }
    }

    /// The unit at a place, and None exactly past the end.
    pub fn at(&self, i: usize) -> Option<u16>
        ensures { result ≡ slice_get self.now i }
    {
        match &*self.kept {
            Kept::Short(short) => short.units().get(i).copied(),
            Kept::Key(key) => key.units().get(i).copied(),
            Kept::Index(index) => index.units().get(i).copied(),
            Kept::Flat(units) => units.get(i).copied(),
            Kept::Joined(pieces) => pieces.at(i),
        }
    }

    /// The units from the place `from` up to the place `to`, without the latter.
    ///
    /// # Errors
    ///
    /// `AllocError` where memory is wanting.
    pub fn part(&self, alloc: Global, from: usize, to: usize) -> Result<Text, AllocError>
        requires order { from ≤ to }
        requires within { to ≤ length self.now }
        ensures { IfOk result (λ text. text ≡ slice_range self.now from to) }
    {
        match self.flat() {
            Some(units) => Text::of(alloc, &units[from..to]),
            None => self.part_of_pieces(alloc, from, to),
        }
    }

    /// The units from the place `from` up to the place `to`, gathered from the pieces.
    #[inline(never)]
    fn part_of_pieces(&self, alloc: Global, from: usize, to: usize) -> Result<Text, AllocError>
        requires order { from ≤ to }
        requires within { to ≤ length self.now }
        ensures { IfOk result (λ text. text ≡ slice_range self.now from to) }
    {
        match &*self.kept {
            Kept::Joined(pieces) => Text::of_list(alloc, pieces.part(alloc, from, to)?),
            _ => Text::of(alloc, &self.all(alloc)?[from..to]),
        }
    }

    /// Appends the units to a list. Where memory is wanting, some of them may be there.
    fn push_to(&self, units: &mut Vec<u16>) -> Result<(), AllocError>
        ensures { OnOk result (units.new.items ≡ units.old.items ++ self.now) }
    {
        match &*self.kept {
            Kept::Short(short) => units.extend_from_slice(short.units()),
            Kept::Key(key) => units.extend_from_slice(key.units()),
            Kept::Index(index) => units.extend_from_slice(index.units()),
            Kept::Flat(own) => units.extend_from_slice(own),
            Kept::Joined(pieces) => pieces.push_to(units),
        }
    }

    /// All units, in a list of their own.
    ///
    /// # Errors
    ///
    /// `AllocError` where memory is wanting.
    pub fn all(&self, alloc: Global) -> Result<Vec<u16>, AllocError>
        ensures { IfOk result (λ units. units.items ≡ self.now) }
    {
        let mut units = Vec::with_capacity(alloc, self.len())?;
        self.push_to(&mut units)?;
        Ok(units)
    }

    /// This text with the other behind it.
    ///
    /// # Errors
    ///
    /// `AllocError` where memory is wanting.
    pub fn join(&self, alloc: Global, other: &Text) -> Result<Text, AllocError>
        requires { length self.now + length other.now < 2 ^ 32 }
        ensures { IfOk result (λ text. text ≡ self.now ++ other.now) }
    {
        if let (Some(first), Some(second)) = (self.flat(), other.flat())
            && first.len() + second.len() <= MOST_SHORT
        {
            return Text::short(alloc, first, second);
        }
        if is_copied(self.len(), other.len()) {
            self.join_in_one_list(alloc, other)
        } else if self.len() < other.len() {
            self.before_longer(alloc, other)
        } else {
            other.behind_longer(alloc, self)
        }
    }

    /// This text with the other behind it, in one list.
    #[inline(never)]
    fn join_in_one_list(&self, alloc: Global, other: &Text) -> Result<Text, AllocError>
        requires { length self.now + length other.now < 2 ^ 32 }
        ensures { IfOk result (λ text. text ≡ self.now ++ other.now) }
    {
        let mut units = Vec::with_capacity(alloc, self.len() + other.len())?;
        self.push_to(&mut units)?;
        other.push_to(&mut units)?;
        Text::of_list(alloc, units)
    }

    /// The longer text with this one behind it.
    #[inline(never)]
    fn behind_longer(&self, alloc: Global, longer: &Text) -> Result<Text, AllocError>
        requires long { 40 < length longer.now }
        requires fits { length longer.now + length self.now < 2 ^ 32 }
        ensures { IfOk result (λ text. text ≡ longer.now ++ self.now) }
    {
        let pieces = match self.flat() {
            Some(units) => longer.appended_pieces(alloc, units)?,
            None => longer.appended_pieces(alloc, &self.all(alloc)?)?,
        };
        Text::of_pieces(alloc, pieces)
    }

    /// The longer text with this one before it.
    #[inline(never)]
    fn before_longer(&self, alloc: Global, longer: &Text) -> Result<Text, AllocError>
        requires long { 40 < length longer.now }
        requires fits { length self.now + length longer.now < 2 ^ 32 }
        ensures { IfOk result (λ text. text ≡ self.now ++ longer.now) }
    {
        let pieces = match self.flat() {
            Some(units) => longer.prepended_pieces(alloc, units)?,
            None => longer.prepended_pieces(alloc, &self.all(alloc)?)?,
        };
        Text::of_pieces(alloc, pieces)
    }

    /// The text that these pieces are.
    fn of_pieces(alloc: Global, pieces: Pieces) -> Result<Text, AllocError>
        ensures { IfOk result (λ text. text ≡ pieces) }
    {
        Ok(Text {
            kept: Rc::new(alloc, Kept::Joined(pieces))?,
        })
    }

    /// This text in pieces, with the units behind it.
    fn appended_pieces(&self, alloc: Global, units: &[u16]) -> Result<Pieces, AllocError>
        requires long { 40 < length self.now }
        requires fits { length self.now + length units.now < 2 ^ 32 }
        ensures { IfOk result (λ pieces. pieces ≡ self.now ++ units.now) }
    {
        match &*self.kept {
            Kept::Joined(pieces) => pieces.appended(alloc, units),
            _ => Pieces::of(alloc, self.all(alloc)?)?.appended(alloc, units),
        }
    }

    /// This text in pieces, with the units before it.
    fn prepended_pieces(&self, alloc: Global, units: &[u16]) -> Result<Pieces, AllocError>
        requires long { 40 < length self.now }
        requires fits { length units.now + length self.now < 2 ^ 32 }
        ensures { IfOk result (λ pieces. pieces ≡ units.now ++ self.now) }
    {
        match &*self.kept {
            Kept::Joined(pieces) => pieces.prepended(alloc, units),
            _ => Pieces::of(alloc, self.all(alloc)?)?.prepended(alloc, units),
        }
    }
}

/// Whether texts of these lengths are joined by copying both: where the whole is short, or the one is nearly as long as the
/// other.
fn is_copied(first: usize, second: usize) -> bool
    requires { first + second < 2 ^ 32 }
    ensures { IsTrue result ⊎ (256 < first + second) }
{
    first + second <= MOST_COPIED || first.max(second) / 2 <= first.min(second)
}

impl Kept {
    /// Puts units behind a short text, and answers whether it is one.
    fn has_pushed(&mut self, units: &[u16]) -> bool
        requires { length (kept_units self.old) + length units.now ≤ 40 }
        ensures { IsTrue result → kept_units self.new ≡ kept_units self.old ++ units.now }
    {
        match self {
            Kept::Short(short) => {
                short.push_units(units);
                true
            }
            _ => false,
        }
    }

    /// Puts the numbers of the bytes behind a short text, and answers whether it is one.
    fn has_pushed_ascii(&mut self, bytes: &[u8]) -> bool
        requires { length (kept_units self.old) + length bytes.now ≤ 40 }
        ensures { IsTrue result → kept_units self.new ≡ kept_units self.old ++ bytes.now }
    {
        match self {
            Kept::Short(short) => {
                short.push_ascii(bytes);
                true
            }
            _ => false,
        }
    }
}

/// Puts the first units and then the second behind a short text that has one owner, and answers whether it is one.
fn has_written(kept: &mut Rc<Kept>, first: &[u16], second: &[u16]) -> bool
    requires { length (kept_units kept.old.value) + length first.now + length second.now ≤ 40 }
    ensures { IsTrue result → kept_units kept.new.value ≡ kept_units kept.old.value ++ first.now ++ second.now }
{
    match Rc::get_mut(kept) {
        Some(kept) => kept.has_pushed(first) && kept.has_pushed(second),
        None => false,
    }
}

/// Puts the numbers of the bytes behind a short text that has one owner, and answers whether it is one.
fn has_written_ascii(kept: &mut Rc<Kept>, bytes: &[u8]) -> bool
    requires { length (kept_units kept.old.value) + length bytes.now ≤ 40 }
    ensures { IsTrue result → kept_units kept.new.value ≡ kept_units kept.old.value ++ bytes.now }
{
    match Rc::get_mut(kept) {
        Some(kept) => kept.has_pushed_ascii(bytes),
        None => false,
    }
}

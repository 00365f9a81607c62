//! A long text in pieces, which texts share: `a + b` copies the smaller one and names the pieces of the larger.

ghost use Rattle.std.specs.Prelude.{◌≡◌, ◌+◌, ◌<◌, ◌≤◌, ◌^◌, ◌++◌, length, vec_len, slice_get, IfSome, IfNone, IfOk, OnOk};
ghost use Rattle.std.specs.List.{concat, slice_range};

use std::alloc::{AllocError, Global};
use std::marker::Model;
use std::rc::Rc;

/// A piece below this length takes in what is put beside it.
const SMALL_PIECE: usize = 64;

/// Some units of a text, which several texts share.
#[derive(Debug, Drop)]
struct Piece {
    units: Rc<Vec<u16>>,
}

impl Model for Piece {
    ghost use Rattle.std.specs.Prelude.{ℕ, List};

    ghost Value = { List ℕ };

    ghost view = { λ piece. piece.units.value.items };
}

impl Piece {
    /// The piece of these units.
    fn new(alloc: Global, units: Vec<u16>) -> Result<Piece, AllocError>
        ensures { IfOk result (λ piece. piece ≡ units.items) }
    {
        Ok(Piece {
            units: Rc::new(alloc, units)?,
        })
    }

    /// The same piece, counted once more.
    fn share(&self) -> Result<Piece, AllocError>
        ensures { IfOk result (λ piece. piece ≡ self.now) }
    {
        Ok(Piece {
            units: self.units.clone()?,
        })
    }

    /// Its units.
    fn units(&self) -> &[u16]
        ensures { result.now ≡ self.now }
    {
        self.units.as_slice()
    }
}

/// A text in pieces: the longest is somewhere within, and on both sides of it each next one is less than half as long, unless it
/// is small. So there are few.
#[derive(Debug, Drop)]
pub struct Pieces {
    len: usize,
    list: Vec<Piece>,
}

impl Model for Pieces {
    ghost use Rattle.std.specs.Prelude.{◌≡◌, ◌<◌, ℕ, List, length};
    ghost use Rattle.std.specs.List.{concat};

    ghost Value = { List ℕ };

    ghost view = { λ pieces. concat pieces.list.items };

    ghost invariant = { λ pieces. (pieces.len ≡ length (concat pieces.list.items)) × (40 < pieces.len) };
}

impl Pieces {
    /// How many units there are.
    pub fn len(&self) -> usize
        ensures { result ≡ length self.now }
    {
        self.len
    }

    /// The unit at a place, and None exactly past the end.
    pub fn at(&self, i: usize) -> Option<u16>
        ensures { result ≡ slice_get self.now i }
    {
        unit_at(&self.list, i)
    }

    /// The units from the place `from` up to the place `to`, without the latter.
    ///
    /// # Errors
    ///
    /// `AllocError` where memory is wanting.
    pub fn part(&self, alloc: Global, from: usize, to: usize) -> Result<Vec<u16>, AllocError>
        requires order { from ≤ to }
        requires within { to ≤ length self.now }
        ensures { IfOk result (λ units. units.items ≡ slice_range self.now from to) }
    {
        part(alloc, &self.list, from, to - from)
    }

    /// The units, where there is only one piece.
    pub fn flat(&self) -> Option<&[u16]>
        ensures flat { IfSome result (λ units. units.now ≡ self.now) }
        ensures long { IfNone result (40 < length self.now) }
    {
        match self.list.as_slice() {
            [piece] => Some(piece.units()),
            _ => None,
        }
    }

    /// Appends the units to a list. Where memory is wanting, some of them may be there.
    ///
    /// # Errors
    ///
    /// `AllocError` where memory is wanting.
    pub fn push_to(&self, units: &mut Vec<u16>) -> Result<(), AllocError>
        ensures { OnOk result (units.new.items ≡ units.old.items ++ self.now) }
    {
        push_units(units, &self.list)
    }

    /// A long text in one piece.
    ///
    /// # Errors
    ///
    /// `AllocError` where memory is wanting.
    pub fn of(alloc: Global, units: Vec<u16>) -> Result<Pieces, AllocError>
        requires { 40 < vec_len units }
        ensures { IfOk result (λ pieces. pieces ≡ units.items) }
    {
        let len = units.len();
        let mut list = Vec::with_capacity(alloc, 1)?;
        list.push(Piece::new(alloc, units)?)?;
        Ok(Pieces { len, list })
    }

    /// This text with the units behind it.
    ///
    /// # Errors
    ///
    /// `AllocError` where memory is wanting.
    pub fn appended(&self, alloc: Global, units: &[u16]) -> Result<Pieces, AllocError>
        requires { length self.now + length units.now < 2 ^ 32 }
        ensures { IfOk result (λ pieces. pieces ≡ self.now ++ units.now) }
    {
        let (kept, near) = self.list.split_at(kept(&self.list, units.len()));
        let mut list = Vec::with_capacity(alloc, kept.len() + 1)?;
        share(&mut list, kept)?;
        let last = gathered(alloc, &[], near, units)?;
        list.push(Piece::new(alloc, last)?)?;
        Ok(Pieces {
            len: self.len + units.len(),
            list,
        })
    }

    /// This text with the units before it.
    ///
    /// # Errors
    ///
    /// `AllocError` where memory is wanting.
    pub fn prepended(&self, alloc: Global, units: &[u16]) -> Result<Pieces, AllocError>
        requires { length units.now + length self.now < 2 ^ 32 }
        ensures { IfOk result (λ pieces. pieces ≡ units.now ++ self.now) }
    {
        let (near, kept) = self.list.split_at(taken(&self.list, units.len()));
        let mut list = Vec::with_capacity(alloc, kept.len() + 1)?;
        let first = gathered(alloc, units, near, &[])?;
        list.push(Piece::new(alloc, first)?)?;
        share(&mut list, kept)?;
        Ok(Pieces {
            len: units.len() + self.len,
            list,
        })
    }
}

/// Whether a piece of this length is put together with so many units beside it.
fn takes_in(piece: usize, units: usize) -> bool {
    piece < SMALL_PIECE || piece / 2 <= units
}

/// How many of the pieces stay as they are when so many units are put behind the last.
fn kept(pieces: &[Piece], units: usize) -> usize
    ensures { result ≤ length pieces.now }
{
    let mut kept = pieces.len();
    let mut near = units;
    for piece in pieces.iter().rev() {
        let len = piece.units().len();
        if !takes_in(len, near) {
            break;
        }
        kept = kept.saturating_sub(1);
        near = near.saturating_add(len);
    }
    kept
}

/// How many of the pieces are put together with so many units before the first.
fn taken(pieces: &[Piece], units: usize) -> usize
    ensures { result ≤ length pieces.now }
{
    let mut near = units;
    for (i, piece) in pieces.iter().enumerate() {
        let len = piece.units().len();
        if !takes_in(len, near) {
            return i;
        }
        near = near.saturating_add(len);
    }
    pieces.len()
}

/// How many units the pieces have.
fn room(pieces: &[Piece]) -> usize {
    let mut room = 0usize;
    for piece in pieces {
        room = room.saturating_add(piece.units().len());
    }
    room
}

/// Appends the units of the pieces to a list.
fn push_units(units: &mut Vec<u16>, pieces: &[Piece]) -> Result<(), AllocError>
    ensures { OnOk result (units.new.items ≡ units.old.items ++ concat pieces.now) }
{
    for piece in pieces {
        units.extend_from_slice(piece.units())?;
    }
    Ok(())
}

/// The units before the pieces, those of the pieces, and those behind them.
fn gathered(
    alloc: Global,
    before: &[u16],
    pieces: &[Piece],
    behind: &[u16],
) -> Result<Vec<u16>, AllocError>
    ensures { IfOk result (λ units. units.items ≡ before.now ++ concat pieces.now ++ behind.now) }
{
    let room = room(pieces).saturating_add(before.len().saturating_add(behind.len()));
    let mut units = Vec::with_capacity(alloc, room)?;
    units.extend_from_slice(before)?;
    push_units(&mut units, pieces)?;
    units.extend_from_slice(behind)?;
    Ok(units)
}

/// Puts the pieces behind those of the list.
fn share(list: &mut Vec<Piece>, pieces: &[Piece]) -> Result<(), AllocError>
    ensures { OnOk result (list.new.items ≡ list.old.items ++ pieces.now) }
{
    for piece in pieces {
        list.push(piece.share()?)?;
    }
    Ok(())
}

/// The unit at a place of the pieces.
fn unit_at(pieces: &[Piece], at: usize) -> Option<u16>
    ensures { result ≡ slice_get (concat pieces.now) at }
{
    let mut at = at;
    for piece in pieces {
        let units = piece.units();
        if at < units.len() {
            return Some(units[at]);
        }
        at -= units.len();
    }
    None
}

/// So many units of the pieces, from a place on.
fn part(alloc: Global, pieces: &[Piece], from: usize, len: usize) -> Result<Vec<u16>, AllocError>
    requires { from + len ≤ length (concat pieces.now) }
    ensures { IfOk result (λ units. units.items ≡ slice_range (concat pieces.now) from (from + len)) }
{
    let mut part = Vec::with_capacity(alloc, len)?;
    let mut skip = from;
    let mut left = len;
    for piece in pieces {
        let units = piece.units();
        let start = skip.min(units.len());
        let end = units.len().min(start.saturating_add(left));
        part.extend_from_slice(&units[start..end])?;
        left -= end - start;
        skip -= start;
    }
    Ok(part)
}

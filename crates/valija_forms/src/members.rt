//! Members that are read and written in one form (ES3 11.3, 11.4.4, 11.4.5, 11.13.2): the object is held in a temporary, and so is a key that is computed.

ghost use Rattle.std.specs.Prelude.{◌≡◌, IfOk};
ghost use Rattle.es3_tree.specs.Placed as placed;
ghost use Rattle.es3_tree.specs.PlacedView as source;
ghost use Rattle.valija_forms.specs.Forms as forms;
ghost use Rattle.valija_forms.specs.Members.{key_form};

use crate::asks::{get, outer, set, set_outer};
use crate::temporaries::{as_key, as_number, keeps, kept, one_by, then};
use crate::words::as_text;
use caja_units::Memory;
use es3_tree::{BinOp, Expr, Name, boxed, make_binary};
use std::alloc::Global;

/// The key of a member that is held: as it is written in the source, or the number of its temporary.
#[derive(Drop)]
pub enum HeldKey {
    Written(Name),
    Kept(u32),
}

/// A member that is held: what holds it, the number of the temporary of its object, and its key.
#[derive(Drop)]
pub struct Held {
    pub holding: Box<Expr>,
    pub object: u32,
    pub key: HeldKey,
}

impl HeldKey {
    fn value(&self, alloc: Global) -> Result<Box<Expr>, Memory>
        ensures { IfOk result (λ x. source.expr x.value ≡ key_form self.now) }
    {
        match self {
            HeldKey::Written(name) => as_text(alloc, name),
            HeldKey::Kept(number) => kept(alloc, *number),
        }
    }
}

/// A member with a written key.
///
/// # Errors
///
/// `Memory` where memory is wanting.
pub fn hold(alloc: Global, first: u32, object: Box<Expr>, key: Name) -> Result<Held, Memory>
    ensures holding { IfOk result (λ h. source.expr h.holding.value ≡ forms.holds first (source.expr object.value)) }
    ensures object { IfOk result (λ h. h.object ≡ first) }
    ensures key { IfOk result (λ h. key_form h.key ≡ forms.text_of (source.word key)) }
{
    Ok(Held {
        holding: keeps(alloc, first, object)?,
        object: first,
        key: HeldKey::Written(key),
    })
}

/// A member with a computed key, which is held in the temporary of the number `second`.
///
/// # Errors
///
/// `Memory` where memory is wanting.
pub fn hold_key(
    alloc: Global,
    first: u32,
    second: u32,
    object: Box<Expr>,
    key: Box<Expr>,
) -> Result<Held, Memory>
    ensures holding { IfOk result (λ h. source.expr h.holding.value ≡ forms.holds_key first second (source.expr object.value) (source.expr key.value)) }
    ensures object { IfOk result (λ h. h.object ≡ first) }
    ensures key { IfOk result (λ h. key_form h.key ≡ forms.kept second) }
{
    let object = keeps(alloc, first, object)?;
    let key = keeps(alloc, second, as_key(alloc, key)?)?;
    Ok(Held {
        holding: then(alloc, object, key)?,
        object: first,
        key: HeldKey::Kept(second),
    })
}

impl Held {
    fn read(&self, alloc: Global) -> Result<Box<Expr>, Memory>
        ensures { IfOk result (λ x. source.expr x.value ≡ forms.get (forms.kept self.now.object) (key_form self.now.key)) }
    {
        let object = kept(alloc, self.object)?;
        get(alloc, object, self.key.value(alloc)?)
    }

    fn write(&self, alloc: Global, value: Box<Expr>) -> Result<Box<Expr>, Memory>
        ensures { IfOk result (λ x. source.expr x.value ≡ forms.set (forms.kept self.now.object) (key_form self.now.key) (source.expr value.value)) }
    {
        let object = kept(alloc, self.object)?;
        set(alloc, object, self.key.value(alloc)?, value)
    }

    /// `++` where `up`, else `--`, before the member.
    ///
    /// # Errors
    ///
    /// `Memory` where memory is wanting.
    pub fn step_before(self, alloc: Global, up: bool) -> Result<Box<Expr>, Memory>
        ensures { IfOk result (λ x.
            source.expr x.value ≡ forms.stepped_before up (source.expr self.holding.value) (forms.kept self.object) (key_form self.key)) }
    {
        let old = as_number(alloc, self.read(alloc)?)?;
        let written = self.write(alloc, one_by(alloc, up, old)?)?;
        then(alloc, self.holding, written)
    }

    /// `++` where `up`, else `--`, behind the member, whose old value is kept in the temporary of the number `last`.
    ///
    /// # Errors
    ///
    /// `Memory` where memory is wanting.
    pub fn step_behind(self, alloc: Global, up: bool, last: u32) -> Result<Box<Expr>, Memory>
        ensures { IfOk result (λ x.
            source.expr x.value ≡ forms.stepped_behind up last (source.expr self.holding.value) (forms.kept self.object) (key_form self.key)) }
    {
        let old = as_number(alloc, self.read(alloc)?)?;
        let old = keeps(alloc, last, old)?;
        let written = self.write(alloc, one_by(alloc, up, kept(alloc, last)?)?)?;
        let before = then(alloc, self.holding, old)?;
        let both = then(alloc, before, written)?;
        then(alloc, both, kept(alloc, last)?)
    }

    /// The operator of `+=` and its kin, with its right operand.
    ///
    /// # Errors
    ///
    /// `Memory` where memory is wanting.
    pub fn compound(self, alloc: Global, op: BinOp, operand: Box<Expr>) -> Result<Box<Expr>, Memory>
        ensures { IfOk result (λ x. source.expr x.value
            ≡ forms.compounded op (source.expr self.holding.value) (forms.kept self.object) (key_form self.key) (source.expr operand.value)) }
    {
        let old = self.read(alloc)?;
        let value = boxed(alloc, make_binary(op, old, operand))?;
        let written = self.write(alloc, value)?;
        then(alloc, self.holding, written)
    }
}

/// `++` where `up`, else `--`, before a name that nothing declares.
///
/// # Errors
///
/// `Memory` where memory is wanting.
pub fn step_outer(alloc: Global, up: bool, name: &Name) -> Result<Box<Expr>, Memory>
    ensures { IfOk result (λ x. source.expr x.value ≡ forms.stepped_outer up (source.word name.now)) }
{
    let old = as_number(alloc, outer(alloc, name)?)?;
    set_outer(alloc, name, one_by(alloc, up, old)?)
}

/// `++` where `up`, else `--`, behind a name that nothing declares, whose old value is kept in a temporary.
///
/// # Errors
///
/// `Memory` where memory is wanting.
pub fn step_outer_behind(
    alloc: Global,
    up: bool,
    last: u32,
    name: &Name,
) -> Result<Box<Expr>, Memory>
    ensures { IfOk result (λ x. source.expr x.value ≡ forms.stepped_outer_behind up last (source.word name.now)) }
{
    let old = keeps(alloc, last, as_number(alloc, outer(alloc, name)?)?)?;
    let written = set_outer(alloc, name, one_by(alloc, up, kept(alloc, last)?)?)?;
    let both = then(alloc, old, written)?;
    then(alloc, both, kept(alloc, last)?)
}

//! Temporaries: variables of the lowered program's own, `$v0`, `$v1` and so on.

ghost use Rattle.std.specs.Prelude.{◌≡◌, IfOk};
ghost use Rattle.es3_tree.specs.Placed as placed;
ghost use Rattle.es3_tree.specs.PlacedView as source;
ghost use Rattle.valija_forms.specs.Forms as forms;
ghost use Rattle.valija_forms.specs.Numbered.{Takes};

use crate::words::NOWHERE;
use caja_num::Whole;
use caja_units::{Memory, Units};
use es3_tree::{BinOp, Expr, Name, UnOp, boxed, make_assign, make_binary, make_comma, make_unary};
use std::alloc::Global;

/// How many temporaries of a body are taken.
#[derive(Debug, Drop)]
pub struct Temporaries {
    pub taken: u32,
}

impl Temporaries {
    /// None is taken.
    pub fn none() -> Temporaries
        ensures { result.taken ≡ 0 }
    {
        Temporaries { taken: 0 }
    }

    /// Takes so many, and answers the number of the first. Where three more would not fit, memory is wanting: no form takes more.
    ///
    /// # Errors
    ///
    /// `Memory` where three more, or so many, would not fit.
    pub fn take(&mut self, count: u32) -> Result<u32, Memory>
        ensures { Takes result self.old.taken count self.new.taken }
    {
        let first = self.taken;
        let Some(taken) = first.checked_add(count) else {
            return Err(Memory);
        };
        if first.checked_add(3).is_none() {
            return Err(Memory);
        }
        self.taken = taken;
        Ok(first)
    }
}

/// The name of the temporary of that number (ES3 7.6).
///
/// # Errors
///
/// `Memory` where memory is wanting.
pub fn temporary_word(alloc: Global, number: u32) -> Result<Name, Memory>
    ensures { IfOk result (λ n. source.word n ≡ forms.word (forms.temporary number)) }
{
    let text = format!(in alloc; "$v{number}")?;
    Ok(Name {
        text: Units::from_ascii(alloc, text.as_bytes())?,
        at: NOWHERE,
    })
}

/// The value of the temporary of that number (ES3 11.1.2).
///
/// # Errors
///
/// `Memory` where memory is wanting.
pub fn kept(alloc: Global, number: u32) -> Result<Box<Expr>, Memory>
    ensures { IfOk result (λ x. source.expr x.value ≡ forms.kept number) }
{
    boxed(alloc, Expr::Name(temporary_word(alloc, number)?))
}

/// The value put into the temporary of that number (ES3 11.13.1).
///
/// # Errors
///
/// `Memory` where memory is wanting.
pub fn keeps(alloc: Global, number: u32, value: Box<Expr>) -> Result<Box<Expr>, Memory>
    ensures { IfOk result (λ x. source.expr x.value ≡ forms.keeps number (source.expr value.value)) }
{
    let target = kept(alloc, number)?;
    boxed(alloc, make_assign(None, target, value))
}

/// The one, and then the other (ES3 11.14).
///
/// # Errors
///
/// `Memory` where memory is wanting.
pub fn then(alloc: Global, first: Box<Expr>, last: Box<Expr>) -> Result<Box<Expr>, Memory>
    ensures { IfOk result (λ x. source.expr x.value ≡ placed.comma (source.expr first.value) (source.expr last.value)) }
{
    boxed(alloc, make_comma(first, last))
}

/// A number literal (ES3 7.8.3).
///
/// # Errors
///
/// `Memory` where memory is wanting.
pub fn number(alloc: Global, value: u32) -> Result<Box<Expr>, Memory>
    ensures { IfOk result (λ x. source.expr x.value ≡ forms.number value) }
{
    boxed(alloc, Expr::Num(Whole::new(i64::from(value)).unwrap()))
}

/// A key that is converted to a text once (ES3 11.6.1).
///
/// # Errors
///
/// `Memory` where memory is wanting.
pub fn as_key(alloc: Global, key: Box<Expr>) -> Result<Box<Expr>, Memory>
    ensures { IfOk result (λ x. source.expr x.value ≡ forms.as_key (source.expr key.value)) }
{
    let empty = boxed(alloc, Expr::Text(Units::from_ascii(alloc, &[])?))?;
    boxed(alloc, make_binary(BinOp::Add, empty, key))
}

/// A value as a number (ES3 11.4.6).
///
/// # Errors
///
/// `Memory` where memory is wanting.
pub fn as_number(alloc: Global, value: Box<Expr>) -> Result<Box<Expr>, Memory>
    ensures { IfOk result (λ x. source.expr x.value ≡ forms.as_number (source.expr value.value)) }
{
    boxed(alloc, make_unary(UnOp::Plus, value, NOWHERE))
}

/// One more where `up`, else one less (ES3 11.6).
///
/// # Errors
///
/// `Memory` where memory is wanting.
pub fn one_by(alloc: Global, up: bool, value: Box<Expr>) -> Result<Box<Expr>, Memory>
    ensures { IfOk result (λ x. source.expr x.value ≡ forms.one_by up (source.expr value.value)) }
{
    let op = if up { BinOp::Add } else { BinOp::Sub };
    boxed(alloc, make_binary(op, value, number(alloc, 1)?))
}

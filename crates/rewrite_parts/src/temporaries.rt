//! Temporaries: variables of the guarded program's own, `x0___`, `x1___` and so on. Each function fails with `Memory` where memory is wanting.

ghost use Rattle.std.specs.Prelude.{◌≡◌, ◌+◌, ◌<◌, ◌^◌, IfOk, OnErr, OnOk};
ghost use Rattle.es3_tree.specs.Tree as tree;
ghost use Rattle.es3_tree.specs.View.{expr, text as text_in};
ghost use Rattle.rewrite_parts.specs.Parts.{temp_name, temp, set_temp};

use crate::names::NOWHERE;
use caja_units::{Memory, Units};
use es3_tree::{Expr, Name, boxed, make_assign, make_comma};
use std::alloc::Global;

/// How many temporaries of a body are taken.
#[derive(Debug, Drop)]
pub struct Temporaries {
    pub taken: u32,
}

impl Temporaries {
    /// None is taken.
    pub fn none() -> Temporaries
        ensures { result.taken ≡ 0 }
    {
        Temporaries { taken: 0 }
    }

    /// Takes so many, and answers the number of the first. Where their numbers would not fit, memory is wanting.
    ///
    /// # Errors
    ///
    /// `Memory` where their numbers would not fit.
    pub fn take(&mut self, count: u32) -> Result<u32, Memory>
        ensures first { IfOk result (λ first. first ≡ self.old.taken) }
        ensures taken { OnOk result (self.new.taken ≡ self.old.taken + count) }
        ensures fits { IfOk result (λ first. first + count < 2 ^ 32) }
        ensures stays { OnErr result (self.new.taken ≡ self.old.taken) }
    {
        let first = self.taken;
        let Some(taken) = first.checked_add(count) else {
            return Err(Memory);
        };
        self.taken = taken;
        Ok(first)
    }
}

/// The name of the temporary of that number (ES3 7.6).
///
/// # Errors
///
/// `Memory` where memory is wanting.
pub fn temporary_name(alloc: Global, number: u32) -> Result<Name, Memory>
    ensures { IfOk result (λ n. text_in n ≡ temp_name number) }
{
    let text = format!(in alloc; "x{number}___")?;
    Ok(Name {
        text: Units::from_ascii(alloc, text.as_bytes())?,
        at: NOWHERE,
    })
}

/// The value of the temporary of that number (ES3 11.1.2).
///
/// # Errors
///
/// `Memory` where memory is wanting.
pub fn temporary(alloc: Global, number: u32) -> Result<Expr, Memory>
    ensures { IfOk result (λ x. expr x ≡ temp number) }
{
    Ok(Expr::Name(temporary_name(alloc, number)?))
}

/// The value put into the temporary of that number (ES3 11.13.1).
///
/// # Errors
///
/// `Memory` where memory is wanting.
pub fn set_temporary(alloc: Global, number: u32, value: Expr) -> Result<Expr, Memory>
    ensures { IfOk result (λ x. expr x ≡ set_temp number (expr value)) }
{
    let target = boxed(alloc, temporary(alloc, number)?)?;
    Ok(make_assign(None, target, boxed(alloc, value)?))
}

/// The one, and then the other (ES3 11.14).
///
/// # Errors
///
/// `Memory` where memory is wanting.
pub fn then(alloc: Global, first: Expr, last: Expr) -> Result<Expr, Memory>
    ensures { IfOk result (λ x. expr x ≡ tree.comma (expr first) (expr last)) }
{
    let first = boxed(alloc, first)?;
    Ok(make_comma(first, boxed(alloc, last)?))
}

//! Words of a lowered program (ES3 7.6): they stand nowhere in the source.

ghost use Rattle.std.specs.Prelude.{◌≡◌, ◌∷◌, IfOk, map};
ghost use Rattle.es3_tree.specs.Placed as placed;
ghost use Rattle.es3_tree.specs.PlacedView as source;
ghost use Rattle.valija_forms.specs.Forms as forms;

use caja_units::{Memory, Units};
use es3_tree::{Expr, Name, boxed};
use std::alloc::Global;

/// The object of the prelude.
pub const PRELUDE: &str = "$v";

/// What `this` is in a function.
pub const RECEIVER: &str = "$dis";

/// Where each part stands that the lowering makes, since the source has no place for it.
pub const NOWHERE: u32 = 0;

/// A word of the lowering's own.
///
/// # Errors
///
/// `Memory` where memory is wanting.
pub fn own_word(alloc: Global, text: &str) -> Result<Name, Memory>
    ensures { IfOk result (λ n. source.word n ≡ forms.word text.now) }
{
    Ok(Name {
        text: Units::from_ascii(alloc, text.as_bytes())?,
        at: NOWHERE,
    })
}

/// A word of the source.
///
/// # Errors
///
/// `Memory` where memory is wanting.
pub fn copied(alloc: Global, name: &Name) -> Result<Name, Memory>
    ensures { IfOk result (λ n. source.word n ≡ forms.word name.now.text) }
{
    Ok(Name {
        text: name.text.copy(alloc)?,
        at: NOWHERE,
    })
}

/// The label of a jump, where there is one (ES3 12.7, 12.8).
///
/// # Errors
///
/// `Memory` where memory is wanting.
pub fn copied_label(alloc: Global, label: &Option<Name>) -> Result<Option<Name>, Memory>
    ensures { IfOk result (λ l. source.word_of l ≡ forms.label_of (source.word_of label.now)) }
{
    match label {
        Some(label) => Ok(Some(copied(alloc, label)?)),
        None => Ok(None),
    }
}

/// The parameters of a function that takes a receiver: the receiver, and then those of the source (ES3 13).
///
/// # Errors
///
/// `Memory` where memory is wanting.
pub fn with_receiver(alloc: Global, params: &[Name]) -> Result<Vec<Name>, Memory>
    ensures { IfOk result (λ names. source.words names.items ≡ forms.word forms.receiver_name ∷ map (λ x. forms.word x.text) (source.words params.now)) }
{
    let mut names = Vec::from_array(alloc, [own_word(alloc, RECEIVER)?])?;
    for param in params {
        names.push(copied(alloc, param)?)?;
    }
    Ok(names)
}

/// The value of a name of the lowering's own (ES3 11.1.2).
///
/// # Errors
///
/// `Memory` where memory is wanting.
pub fn own_name(alloc: Global, text: &str) -> Result<Box<Expr>, Memory>
    ensures { IfOk result (λ x. source.expr x.value ≡ forms.name text.now) }
{
    boxed(alloc, Expr::Name(own_word(alloc, text)?))
}

/// The value of a name of the source (ES3 11.1.2).
///
/// # Errors
///
/// `Memory` where memory is wanting.
pub fn copied_name(alloc: Global, name: &Name) -> Result<Box<Expr>, Memory>
    ensures { IfOk result (λ x. source.expr x.value ≡ forms.name name.now.text) }
{
    boxed(alloc, Expr::Name(copied(alloc, name)?))
}

/// A word of the source as a text (ES3 7.8.4).
///
/// # Errors
///
/// `Memory` where memory is wanting.
pub fn as_text(alloc: Global, word: &Name) -> Result<Box<Expr>, Memory>
    ensures { IfOk result (λ x. source.expr x.value ≡ forms.text_of (source.word word.now)) }
{
    boxed(alloc, Expr::Text(word.text.copy(alloc)?))
}

//! What a page is told beside its modules' texts: plain values, in which no object is.
#![tactic(auto)]

use caja_num::Whole;
use caja_units::Units;

/// A value in which no object is.
#[derive(Debug, Drop)]
pub enum Plain {
    Null,
    Bool(bool),
    Num(Whole),
    Text(Units),
}

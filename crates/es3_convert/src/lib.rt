//! Conversions of values (ES3, ECMA-262 third edition, 9), and `+`, which rests on them alone (11.6.1).
//!
//! A conversion runs no code of a text: where it would, it stops the run.
#![tactic(auto)]

ghost use Rattle.std.specs.Prelude.{◌≡◌};

mod array;
mod compare;
mod number;
mod sum;
mod text;

pub use array::{array_item, array_items, array_len, own_value};
use caja_units::Memory;
pub use compare::{less, loose_equal, strict_equal, to_bool};
use es3_heap::Stop;
pub use number::to_number;
pub use sum::{add, to_primitive};
pub use text::{TO_STRING, VALUE_OF, index_key, join, number_text, push_text, to_text};

/// Want of memory stops the run.
pub fn out_of_memory(_memory: Memory) -> Stop
    ensures { result ≡ Stop.Memory }
{
    Stop::Memory
}

//! The built-in functions that are no methods of texts and arrays.
//!
//! Each does what its row says (`Comes`, in the crate row_outcomes): the answer, and the objects that are left.
#![tactic(auto)]

mod convert;
mod errors;
mod functions;
mod kinds;
mod math;

pub use convert::{number_from, text_from};
pub use errors::{new_error, new_range_error, new_type_error};
pub use functions::{apply_function, call_function};
pub use kinds::{is_array, is_record, truth_from};
pub use math::{abs, ceil, floor, max, min, round};

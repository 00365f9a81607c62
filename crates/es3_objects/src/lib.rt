//! Values of ES3 and objects with their properties (ECMA-262 third edition, 8).
#![tactic(auto)]

mod items;
mod object;
mod properties;
mod value;

pub use object::{Callable, Object};
pub use properties::{Held, Name, Properties};
pub use value::{Attrs, Class, FuncKind, ObjId, Proto, Receiver, Stop, Tag, Value};

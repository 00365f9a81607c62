//! The store of all objects of a run (ECMA-262 third edition, 8.6).
#![tactic(auto)]

mod heap;

pub use es3_objects::{Attrs, Class, FuncKind, ObjId, Proto, Receiver, Stop, Tag, Value};
pub use heap::Heap;
pub use property_tables::{PropCall, PropReply, Props, props_run};

/// The properties of an object as a list, each with a value and attributes.
pub type ListProps = property_tables::ListProps<property_tables::Field<Value, Attrs>>;

/// The properties of an object as a table by the keys' hashes.
pub type TableProps = property_tables::TableProps<property_tables::Field<Value, Attrs>>;

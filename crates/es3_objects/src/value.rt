// Values (ES3 8), and what is told of an object beside its properties (8.6).

ghost use Rattle.std.specs.Prelude.{◌≡◌, IfOk};

use caja_num::Whole;
use caja_units::{Memory, Units};
use property_tables::Copied;
use std::alloc::Global;
use std::marker::Model;

/// An object of one store, by its number there, from 0.
#[derive(Clone, Copy, Debug, PartialEq, Eq)]
pub struct ObjId {
    number: u32,
}

impl Model for ObjId {
    ghost use Rattle.std.specs.Prelude.{ℕ, ◌<◌};

    ghost Value = { ℕ };

    ghost view = { λ o. o.number };

    ghost inverse = { λ n. record { number = n } };
}

impl ObjId {
    /// The object of a number; it need not be in the store.
    pub fn new(number: u32) -> ObjId
        ensures { result ≡ number }
    {
        ObjId { number }
    }

    /// The object's number in its store, from 0.
    pub fn number(self) -> u32
        ensures { result ≡ self }
    {
        self.number
    }
}

/// A value (ES3 8.1 to 8.6).
#[derive(Debug, Drop)]
pub enum Value {
    Undefined,
    Null,
    Bool(bool),
    Num(Whole),
    Text(Units),
    Obj(ObjId),
}

impl Value {
    /// The same value once more: a text is copied, an object is shared.
    ///
    /// # Errors
    ///
    /// `Memory` where memory is wanting.
    pub fn copy(&self, alloc: Global) -> Result<Value, Memory>
        ensures { IfOk result (λ v. v ≡ self.now) }
    {
        match self {
            Value::Undefined => Ok(Value::Undefined),
            Value::Null => Ok(Value::Null),
            Value::Bool(b) => Ok(Value::Bool(*b)),
            Value::Num(n) => Ok(Value::Num(*n)),
            Value::Text(text) => Ok(Value::Text(text.copy(alloc)?)),
            Value::Obj(o) => Ok(Value::Obj(*o)),
        }
    }
}

impl Copied for Value {
    fn copied(&self, alloc: Global) -> Result<Value, Memory> {
        self.copy(alloc)
    }
}

/// The attributes of a property (ES3 8.6.1).
#[derive(Clone, Copy, Debug, PartialEq, Eq)]
pub struct Attrs {
    pub read_only: bool,
    pub dont_enum: bool,
    pub dont_delete: bool,
    pub internal: bool,
}

impl Attrs {
    /// No attribute.
    pub const PLAIN: Attrs = Attrs {
        read_only: false,
        dont_enum: false,
        dont_delete: false,
        internal: false,
    };

    /// Those of a property that `for in` passes over.
    pub const HIDDEN: Attrs = Attrs {
        read_only: false,
        dont_enum: true,
        dont_delete: false,
        internal: false,
    };

    /// Those of a property that `for in` passes over and that can't be written or deleted.
    pub const FIXED: Attrs = Attrs {
        read_only: true,
        dont_enum: true,
        dont_delete: true,
        internal: false,
    };

    /// Those of a property that can't be deleted.
    pub const KEPT: Attrs = Attrs {
        read_only: false,
        dont_enum: false,
        dont_delete: true,
        internal: false,
    };
}

/// The kind of an object (the internal [[Class]] of ES3 8.6.2); `Node` is a node of the page's document.
#[derive(Clone, Copy, Debug, PartialEq, Eq)]
pub enum Class {
    Object,
    Array,
    Function,
    Error,
    Node,
}

/// What receiver a built-in method wants.
#[derive(Clone, Copy, Debug, PartialEq, Eq)]
pub enum Receiver {
    Array,
    /// An array that isn't frozen.
    OpenArray,
    Text,
    Function,
    Node,
}

/// What a call of a function runs: the code of a text, by its number, or a built-in, by its number.
#[derive(Clone, Copy, Debug, PartialEq, Eq)]
pub enum FuncKind {
    Code(u32),
    Simple(u32),
    Constructor(u32),
    Exophoric(u32, Receiver),
}

/// The name that the log gives an object, if it has one.
#[derive(Clone, Copy, Debug, PartialEq, Eq)]
pub enum Tag {
    None,
    /// Made by a module: the module, and the object's number among those that it made, from 0.
    Made(u32, u32),
    /// A module's own function: 0 for `say`, 1 for `later`.
    Own(u32, u8),
    /// A built-in, by its number.
    Built(u32),
    /// A cell: 0 for its record, 1 for `get`, 2 for `set`.
    Cell(u32, u8),
    /// A node: the root that owns it, and its number there.
    Facet(u32, u32),
    /// A forwarder of a grant that can be revoked.
    Forward(u32, u32, Option<u32>),
    /// A service of the host.
    Service(u32),
}

/// The ten prototypes that a store begins with.
#[derive(Clone, Copy, Debug, PartialEq, Eq)]
pub enum Proto {
    Object,
    Function,
    Array,
    String,
    Number,
    Boolean,
    Error,
    TypeError,
    RangeError,
    Node,
}

impl Proto {
    ghost use Rattle.es3_objects.specs.Making.{proto_id};

    /// The object, the same in every store.
    pub fn object(self) -> ObjId
        ensures { result ≡ proto_id self }
    {
        ObjId::new(match self {
            Proto::Object => 0,
            Proto::Function => 1,
            Proto::Array => 2,
            Proto::String => 3,
            Proto::Number => 4,
            Proto::Boolean => 5,
            Proto::Error => 6,
            Proto::TypeError => 7,
            Proto::RangeError => 8,
            Proto::Node => 9,
        })
    }
}

/// Why a run stops for good: nothing catches it.
#[derive(Clone, Copy, Debug, PartialEq, Eq)]
pub enum Stop {
    /// A number that is no whole number in range.
    Number,
    /// Too many open calls, or arrays nested too deep in a conversion.
    Depth,
    /// A conversion would run code of a text.
    Convert,
    /// The steps are spent.
    Steps,
    /// Want of memory.
    Memory,
}

//! An object of the store (ES3 8.6), and the ways in which one is made and written to.

ghost use Rattle.std.specs.Prelude.{◌≡◌, ◌<◌, IfOk, OnOk, OnErr, codes};
ghost use Rattle.caja_units.specs.Index.{number_units};
ghost use Rattle.es3_objects.specs.Properties.{lengthened, written};
ghost use Rattle.es3_objects.specs.Making.{bare, plain_object, array_object, error_object};

use crate::properties::Properties;
use crate::value::{Attrs, Class, FuncKind, ObjId, Proto, Tag, Value};
use caja_units::{Memory, Units};
use std::alloc::Global;
use std::marker::Model;

/// What a call of a function runs, and the module that made the function.
#[derive(Clone, Copy, Debug)]
pub struct Callable {
    pub kind: FuncKind,
    pub maker: u32,
}

impl Model for Callable {
    ghost use Rattle.es3_objects.specs.Objects.{Callable};

    ghost Value = { Callable };

    ghost view = { λ f. record { kind = f.kind; maker = f.maker } };

    ghost inverse = { λ f. record { kind = f.kind; maker = f.maker } };
}

/// An object.
#[derive(Debug, Drop)]
pub struct Object {
    pub class: Class,
    pub proto: Option<ObjId>,
    pub callable: Option<Callable>,
    pub tag: Tag,
    pub props: Properties,
}

impl Model for Object {
    ghost use Rattle.es3_objects.specs.Objects.{Object};

    ghost Value = { Object };

    ghost view = { λ o. record { class = o.class; proto = o.proto; callable = o.callable; tag = o.tag; props = o.props } };
}

impl Object {
    /// An object without properties and without a name.
    pub fn bare(
        alloc: Global,
        class: Class,
        proto: Option<ObjId>,
        callable: Option<Callable>,
    ) -> Object
        ensures { result ≡ bare class proto callable }
    {
        Object {
            class,
            proto,
            callable,
            tag: Tag::None,
            props: Properties::new(alloc),
        }
    }

    /// An object that is no function; an array has the length 0.
    ///
    /// # Errors
    ///
    /// `Memory` where memory is wanting.
    pub fn plain(alloc: Global, class: Class, proto: Option<ObjId>) -> Result<Object, Memory>
        ensures { IfOk result (λ o. o ≡ plain_object class proto) }
    {
        let props = match class {
            Class::Array => Properties::of_array(alloc, Vec::new(alloc))?,
            _ => Properties::new(alloc),
        };
        Ok(Object {
            class,
            proto,
            callable: None,
            tag: Tag::None,
            props,
        })
    }

    /// An array of these items (ES3 11.1.4, 15.4.2.1). There is no memory for 2^32 items or more.
    ///
    /// # Errors
    ///
    /// `Memory` where memory is wanting, or there are 2^32 items or more.
    pub fn array(alloc: Global, items: Vec<Value>) -> Result<Object, Memory>
        ensures { IfOk result (λ o. o ≡ array_object items.items) }
    {
        if items.len() > u32::MAX as usize {
            return Err(Memory);
        }
        let props = Properties::of_array(alloc, items)?;
        Ok(Object {
            class: Class::Array,
            proto: Some(Proto::Array.object()),
            callable: None,
            tag: Tag::None,
            props,
        })
    }

    /// An error with its name and message (ES3 15.11).
    ///
    /// # Errors
    ///
    /// `Memory` where memory is wanting.
    pub fn error(
        alloc: Global,
        length_key: &Units,
        proto: Proto,
        name: Units,
        message: Units,
    ) -> Result<Object, Memory>
        requires { length_key.now ≡ codes "length" }
        ensures { IfOk result (λ o. o ≡ error_object proto name message) }
    {
        let mut props = Properties::new(alloc);
        let key = Units::from_ascii(alloc, b"name")?;
        props.define(length_key, &key, Value::Text(name), Attrs::FIXED)?;
        let key = Units::from_ascii(alloc, b"message")?;
        props.define(length_key, &key, Value::Text(message), Attrs::FIXED)?;
        Ok(Object {
            class: Class::Error,
            proto: Some(proto.object()),
            callable: None,
            tag: Tag::None,
            props,
        })
    }

    /// Writes a property that may be written (ES3 8.6.2.2, 15.4.5.1).
    ///
    /// # Errors
    ///
    /// `Memory` where memory is wanting; then nothing changes.
    pub fn put(&mut self, length_key: &Units, key: &Units, value: Value) -> Result<(), Memory>
        requires { length_key.now ≡ codes "length" }
        ensures ok { OnOk result (self.new ≡ record self.old { props = lengthened self.old.class key.now (written key.now value self.old.props) }) }
        ensures err { OnErr result (self.new ≡ self.old) }
    {
        self.props.write(length_key, key, value)?;
        if self.class == Class::Array {
            self.props.lengthen(length_key, key);
        }
        Ok(())
    }

    /// Writes the property of an index that may be written (ES3 8.6.2.2, 15.4.5.1).
    ///
    /// # Errors
    ///
    /// `Memory` where memory is wanting; then nothing changes.
    pub fn put_item(&mut self, length_key: &Units, i: u32, value: Value) -> Result<(), Memory>
        requires name { length_key.now ≡ codes "length" }
        requires index { i < 4294967295 }
        ensures ok { OnOk result (self.new ≡ record self.old { props = lengthened self.old.class (number_units i) (written (number_units i) value self.old.props) }) }
        ensures err { OnErr result (self.new ≡ self.old) }
    {
        self.props.write_item(i, value)?;
        if self.class == Class::Array {
            self.props.lengthen_item(length_key, i);
        }
        Ok(())
    }
}

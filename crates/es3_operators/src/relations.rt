//! `instanceof` and `in` (ES3 11.8.6, 11.8.7).

ghost use Rattle.std.specs.Prelude.{◌≡◌, IfOk, codes, length};
ghost use Rattle.es3_heap.specs.Objects.{object_at, proto_of};
ghost use Rattle.es3_heap.specs.Properties.{get};
ghost use Rattle.es3_language.specs.Operators as o;
ghost use Rattle.es3_operators.specs.Given.{plain_given};

use crate::conversions::key_of;
use crate::given::{Given, truth};
use caja_units::{Memory, Units};
use es3_heap::{Heap, ObjId, Value};
use std::alloc::Global;

/// Whether an object stands in the chain of prototypes above another (ES3 15.3.5.3).
fn is_above(below: ObjId, above: ObjId, h: &Heap) -> bool
    ensures { result ≡ o.is_in_chain (length h.now.list) h.now (proto_of (object_at h.now below)) above }
{
    let mut next = h.proto_of(below);
    for _step in 0..h.len() {
        let Some(here) = next else {
            return false;
        };
        if here.number() == above.number() {
            return true;
        }
        next = h.proto_of(here);
    }
    false
}

/// Whether a value has another one in its chain of prototypes (ES3 15.3.5.3).
fn has_prototype(x: &Value, p: &Value, h: &Heap) -> Given
    ensures { plain_given result ≡ o.has_prototype h.now x.now p.now }
{
    match (x, p) {
        (Value::Obj(o), Value::Obj(p)) => truth(is_above(*o, *p, h)),
        (Value::Obj(_), _) => Given::Raise(b"no object"),
        _ => truth(false),
    }
}

/// Whether a value has the `prototype` of a function in its chain of prototypes (ES3 15.3.5.3).
fn is_made_by(alloc: Global, x: &Value, f: ObjId, h: &Heap) -> Result<Given, Memory>
    ensures { IfOk result (λ g. plain_given g ≡ o.has_prototype h.now x.now (get h.now f (codes "prototype"))) }
{
    let key = Units::from_ascii(alloc, b"prototype")?;
    Ok(has_prototype(x, h.get(f, &key), h))
}

/// `x instanceof y` (ES3 11.8.6).
pub fn instance_of(alloc: Global, x: &Value, y: &Value, h: &Heap) -> Result<Given, Memory>
    ensures { IfOk result (λ g. plain_given g ≡ o.instance_of h.now x.now y.now) }
{
    match y {
        Value::Obj(f) if h.kind(*f).is_some() => is_made_by(alloc, x, *f, h),
        _ => Ok(Given::Raise(b"not a function")),
    }
}

/// `x in y` (ES3 11.8.7).
pub fn in_object(alloc: Global, x: &Value, y: &Value, h: &Heap) -> Result<Given, Memory>
    ensures { IfOk result (λ g. plain_given g ≡ o.in_object_of h.now x.now y.now) }
{
    let Value::Obj(o) = y else {
        return Ok(Given::Raise(b"no object"));
    };
    match key_of(alloc, x, h)? {
        Ok(key) => Ok(truth(h.has(*o, &key))),
        Err(fault) => Ok(Given::Fault(fault)),
    }
}

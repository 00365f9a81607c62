//! The names of scopes.

use caja_units::Units;
use es3_heap::Value;
use es3_moves::texts::Names;
use std::rc::Rc;
use std::test::Fail;

#[test]
fn a_declared_name_keeps_the_value_of_a_parameter(rt: HostRuntime) -> Result<(), Fail> {
    let alloc = rt.alloc();
    let x = Rc::new(alloc, Units::from_ascii(alloc, b"x")?)?;
    let y = Rc::new(alloc, Units::from_ascii(alloc, b"y")?)?;
    let mut names = Names::new(alloc);
    names.put(&x, Value::Bool(true))?;
    names.declare(&x)?;
    names.declare(&y)?;
    assert!(rt; matches!(names.get(&x), Some(Value::Bool(true))));
    assert!(rt; matches!(names.get(&y), Some(Value::Undefined)));
    Ok(())
}

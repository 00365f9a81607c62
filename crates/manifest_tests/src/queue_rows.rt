//! The queues of two modules.

use caja_num::Whole;
use es3_heap::Value;
use event_script::Queues;
use std::test::Fail;

/// The number that a value is, or -1.
fn number(value: &Option<Value>) -> i64 {
    match value {
        Some(Value::Num(n)) => n.get(),
        _ => -1,
    }
}

fn value(n: i64) -> Value {
    match Whole::new(n) {
        Some(n) => Value::Num(n),
        None => Value::Undefined,
    }
}

#[test]
fn each_module_has_its_own_queue(rt: HostRuntime) -> Result<(), Fail> {
    let mut queues = Queues::new(rt.alloc(), 2)?;
    if queues.take(0).is_some() {
        return Err("an empty queue".into());
    }
    queues.add(0, value(7))?;
    queues.add(0, value(8))?;
    if queues.take(1).is_some() {
        return Err("another module's queue".into());
    }
    if number(&queues.take(0)) != 7 || number(&queues.take(0)) != 8 || queues.take(0).is_some() {
        return Err("another order".into());
    }
    Ok(())
}

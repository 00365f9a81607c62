//! What the natives of an opened page answer.

use crate::documents::{no_urls, opened};
use es3_heap::{FuncKind, Value};
use es3_moves::natives::{Answer, Natives};
use module_loader::{Opened, add_imports_of};
use page_natives::PageNatives;
use std::alloc::Global;
use std::test::Fail;

/// The number of `loadModule` among the natives of a page.
const LOAD_MODULE: u32 = 64;

/// Whether `loadModule` asks for a call of what it is given.
fn calls(alloc: Global, is_function: bool) -> Result<bool, Fail> {
    let Opened {
        mut heap,
        runtime,
        globals: _,
        dom,
    } = opened(alloc)?;
    let imports = add_imports_of(alloc, &mut heap, 0, Vec::new(alloc))?;
    let function = heap.make_func(FuncKind::Code(0), 0)?;
    let callee = if is_function { function } else { imports };
    let args = Vec::from_array(alloc, [Value::Obj(callee)])?;
    let mut natives = PageNatives::new(alloc, runtime, false, dom, no_urls(alloc)?, None)?;
    natives.importing(0, imports);
    match natives.call(alloc, &mut heap, LOAD_MODULE, 0, &Value::Undefined, &args) {
        Answer::Invoke(_, _, _, _) => Ok(true),
        _other => Ok(false),
    }
}

#[test]
fn load_module_calls_a_function_and_no_record(rt: HostRuntime) -> Result<(), Fail> {
    assert!(rt; calls(rt.alloc(), true)?);
    assert!(rt; !calls(rt.alloc(), false)?);
    Ok(())
}

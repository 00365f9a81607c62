//! The guards that a rewritten module calls, each a function of the running module, its arguments and the store. What an object is
//! touched at is told by the natives that a guard is among.
#![tactic(auto)]

mod args;
mod arguments;
mod call_pub;
mod construct;
mod func;
mod initialize_array;
mod initialize_map;
mod laws;
mod loading;
mod read_import;

ghost use Rattle.std.specs.Prelude.{◌≡◌, ◌≤◌, length};
ghost use Rattle.row_outcomes.specs.Comes.{Comes};
ghost use Rattle.guard_runtime.specs.Guards.{done_of, guard_at};

use es3_heap::{Heap, Stop, Value};
pub use laws::{a_module_is_called_with_what_is_live, what_a_guard_comes_to_is_live};
pub use loading::load_module;
use public_guards::{
    as_simple_func, delete_pub, in_pub, instance_of, key, keys_pub, read_pub, set_pub,
};
use row_outcomes::{Outcome, value_or};
use std::alloc::Global;

/// A guard of the runtime.
#[derive(Clone, Copy, Debug, PartialEq, Eq)]
pub enum Guard {
    ReadImport,
    Func,
    Args,
    InitializeArray,
    InitializeMap,
    Key,
    ReadPub,
    SetPub,
    DeletePub,
    InPub,
    KeysPub,
    CallPub,
    AsSimpleFunc,
    Construct,
    InstanceOf,
}

/// The guards in the order of their numbers.
pub const GUARDS: [Guard; 15] = [
    Guard::ReadImport,
    Guard::Func,
    Guard::Args,
    Guard::InitializeArray,
    Guard::InitializeMap,
    Guard::Key,
    Guard::ReadPub,
    Guard::SetPub,
    Guard::DeletePub,
    Guard::InPub,
    Guard::KeysPub,
    Guard::CallPub,
    Guard::AsSimpleFunc,
    Guard::Construct,
    Guard::InstanceOf,
];

/// The number of the first guard, behind that of `loadModule`.
const FIRST_GUARD: u32 = 65;

/// The guard of a number, if there is one.
pub fn guard_at(number: u32) -> Option<Guard>
    ensures { result ≡ guard_at number }
{
    let at = number.checked_sub(FIRST_GUARD)?;
    GUARDS.get(at as usize).copied()
}

/// A call of a guard, while the module `by` runs; an absent argument is undefined (ES3 10.1.3).
///
/// # Errors
///
/// As each guard says, and `Stop::Memory` where memory is wanting.
pub fn call_guard(
    alloc: Global,
    h: &mut Heap,
    guard: Guard,
    by: u32,
    args: &[Value],
) -> Result<Outcome, Stop>
    ensures outcome { Comes (done_of guard by args.now h.old) result h.new }
    ensures live { length h.old.list ≤ length h.new.list }
{
    let absent = Value::Undefined;
    let first = value_or(args, 0, &absent);
    let second = value_or(args, 1, &absent);
    let third = value_or(args, 2, &absent);
    match guard {
        Guard::ReadImport => read_import::read_import(alloc, h, by, first, second),
        Guard::Func => func::func(alloc, h, by, first),
        Guard::Args => args::args(alloc, h, by, first),
        Guard::InitializeArray => initialize_array::initialize_array(alloc, h, by, first),
        Guard::InitializeMap => initialize_map::initialize_map(alloc, h, by, first),
        Guard::Key => key::key(alloc, h, by, first),
        Guard::ReadPub => read_pub::read_pub(alloc, h, by, first, second),
        Guard::SetPub => set_pub::set_pub(alloc, h, by, first, second, third),
        Guard::DeletePub => delete_pub::delete_pub(alloc, h, by, first, second),
        Guard::InPub => in_pub::in_pub(alloc, h, by, first, second),
        Guard::KeysPub => keys_pub::keys_pub(alloc, h, by, first),
        Guard::CallPub => call_pub::call_pub(alloc, h, by, first, second, third),
        Guard::AsSimpleFunc => as_simple_func::as_simple_func(alloc, h, by, first),
        Guard::Construct => construct::construct(alloc, h, by, first, second),
        Guard::InstanceOf => instance_of::instance_of(alloc, h, by, first, second),
    }
}

//! The functions of modules and of cells, and what a module may import.

ghost use Rattle.std.specs.Prelude.{◌≡◌, ◌<◌, ◌≤◌, ◌∷◌, ◌++◌, [], IfOk, OnOk, length, map};
ghost use Rattle.es3_objects.specs.declared.value.Value.TheVariants.{Obj};
ghost use Rattle.es3_heap.specs.Objects.{with_object};
ghost use Rattle.freeze_marks.specs.Records.{AreNew};
ghost use Rattle.heap_rows.specs.Opening.{named_function, fixed_values, with_module, with_modules, with_cell, with_cells};
ghost use Rattle.module_loader.specs.Turns.{say_place, with_imports_of};

use crate::built_ins::add_record;
use caja_units::{Memory, Units};
use es3_heap::{FuncKind, Heap, ObjId, Tag, Value};
use freeze_marks::new_record;
use std::alloc::Global;

/// The numbers of the `say` of the first module and of the `get` and the `set` of the first cell among the natives: each module
/// and each cell has four numbers.
const FIRST_OWN: u32 = 128;

const FIRST_GET: u32 = 130;

const FIRST_SET: u32 = 131;

/// Where the `say` of the first module stands.
const FIRST_SAY: u32 = 82;

/// The names that every module may import, with the objects that they are: the two records, and built-in functions.
const FIXED_NAMES: [(&[u8], u32); 8] = [
    (b"cajita", 30),
    (b"Math", 31),
    (b"Error", 48),
    (b"TypeError", 49),
    (b"RangeError", 50),
    (b"Number", 45),
    (b"String", 46),
    (b"Boolean", 47),
];

/// Makes a function with a name in the log.
#[tactic(auto, using(crate::proofs::Imported::own_function_is))]
fn add_own_function(heap: &mut Heap, number: u32, name: Tag) -> Result<ObjId, Memory>
    ensures id { IfOk result (λ o. o ≡ length heap.old.list) }
    ensures store { OnOk result (heap.new ≡ with_object heap.old (named_function (FuncKind.Simple number) name)) }
    ensures live { length heap.old.list ≤ length heap.new.list }
{
    let function = heap.make_func(FuncKind::Simple(number), 0)?;
    heap.set_tag(function, name);
    Ok(function)
}

/// Makes a module's own `say` and `later`, known by its numbers.
fn add_own_functions(heap: &mut Heap, owner: u32) -> Result<(), Memory>
    requires few { owner < 64 }
    ensures store { OnOk result (heap.new ≡ with_module owner heap.old) }
    ensures live { length heap.old.list ≤ length heap.new.list }
{
    let first = 4 * owner + FIRST_OWN;
    add_own_function(heap, first, Tag::Own(owner, 0))?;
    add_own_function(heap, first + 1, Tag::Own(owner, 1))?;
    Ok(())
}

/// Makes the own functions of so many modules.
pub(crate) fn add_modules(heap: &mut Heap, modules: u32) -> Result<(), Memory>
    requires few { modules ≤ 64 }
    ensures store { OnOk result (heap.new ≡ with_modules modules heap.old) }
    ensures live { length heap.old.list ≤ length heap.new.list }
{
    for owner in 0..modules {
        add_own_functions(heap, owner)?;
    }
    Ok(())
}

/// Makes a cell: its functions, known by its numbers, and its record.
fn add_cell(alloc: Global, heap: &mut Heap, cell: u32) -> Result<(), Memory>
    requires few { cell < 64 }
    ensures store { OnOk result (heap.new ≡ with_cell cell heap.old) }
    ensures live { length heap.old.list ≤ length heap.new.list }
{
    let get = add_own_function(heap, 4 * cell + FIRST_GET, Tag::Cell(cell, 1))?;
    let set = add_own_function(heap, 4 * cell + FIRST_SET, Tag::Cell(cell, 2))?;
    let functions: [(&[u8], u32); 2] = [(b"get", get.number()), (b"set", set.number())];
    add_record(alloc, heap, &functions, Tag::Cell(cell, 0))
}

/// Makes so many cells.
pub(crate) fn add_cells(alloc: Global, heap: &mut Heap, cells: u32) -> Result<(), Memory>
    requires few { cells ≤ 64 }
    ensures store { OnOk result (heap.new ≡ with_cells cells heap.old) }
    ensures live { length heap.old.list ≤ length heap.new.list }
{
    for cell in 0..cells {
        add_cell(alloc, heap, cell)?;
    }
    Ok(())
}

/// Appends a name with what it is.
fn push(
    alloc: Global,
    values: &mut Vec<(Units, Value)>,
    name: &[u8],
    value: Value,
) -> Result<(), Memory>
    ensures { OnOk result (values.new.items ≡ values.old.items ++ (name.now, value) ∷ []) }
{
    values.push((Units::from_ascii(alloc, name)?, value))?;
    Ok(())
}

/// Appends names with the objects that they are.
fn push_all(
    alloc: Global,
    values: &mut Vec<(Units, Value)>,
    names: &[(&[u8], u32)],
) -> Result<(), Memory>
    ensures { OnOk result (values.new.items ≡ values.old.items ++ map (λ f. (f.0.now, Obj f.1)) names.now) }
{
    for (name, place) in names {
        push(alloc, values, name, Value::Obj(ObjId::new(*place)))?;
    }
    Ok(())
}

/// What every module may import, whose `say` stands at a place, and its `later` behind it.
fn fixed_values(alloc: Global, say: u32) -> Result<Vec<(Units, Value)>, Memory>
    requires few { say < 256 }
    ensures { IfOk result (λ values. values.items ≡ fixed_values say) }
{
    let mut values = Vec::new(alloc);
    push(alloc, &mut values, b"undefined", Value::Undefined)?;
    push_all(alloc, &mut values, &FIXED_NAMES)?;
    let own: [(&[u8], u32); 2] = [(b"say", say), (b"later", say + 1)];
    push_all(alloc, &mut values, &own)?;
    Ok(values)
}

/// Makes the object of what a module may import: the fixed names, and behind them what it is granted, of which no name stands
/// twice or is a fixed one. The answer is the object, which stands behind all that was there.
///
/// # Errors
///
/// `Memory` where memory is wanting.
pub fn add_imports_of(
    alloc: Global,
    heap: &mut Heap,
    owner: u32,
    mut granted: Vec<(Units, Value)>,
) -> Result<ObjId, Memory>
    requires few { owner < 64 }
    requires new { AreNew (fixed_values (say_place owner)) granted.items }
    ensures id { IfOk result (λ o. o ≡ length heap.old.list) }
    ensures store { OnOk result (heap.new ≡ with_imports_of owner granted.items heap.old) }
    ensures live { length heap.old.list ≤ length heap.new.list }
{
    let mut values = fixed_values(alloc, FIRST_SAY + 2 * owner)?;
    values.append(&mut granted)?;
    new_record(heap, values)
}

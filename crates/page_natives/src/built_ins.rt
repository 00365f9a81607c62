//! The built-in functions of a page (ES3 15), each by its number.

ghost use Rattle.std.specs.Prelude.{◌≡◌, ◌≤◌, length, slice_get};
ghost use Rattle.row_outcomes.specs.Comes.{Comes};
ghost use Rattle.page_natives.specs.BuiltIns.{tool_done, method_done, done_of, built_in};

use crate::objects::{array_from, function_from, object_from, to_string, value_of};
use builtin_array::{concat, join, pop, push, reverse, shift, slice, unshift};
use builtin_core::{
    abs, apply_function, call_function, ceil, floor, is_array, is_record, max, min, new_error,
    new_range_error, new_type_error, number_from, round, text_from, truth_from,
};
use builtin_string::{
    char_at, char_code_at, concat_text, index_of, last_index_of, slice_text, split, substring,
};
use es3_heap::{Heap, Stop, Value};
use freeze_marks::tools;
use row_outcomes::Outcome;
use std::alloc::Global;

/// A function of the record `cajita`.
#[derive(Clone, Copy, Debug)]
pub enum Tool {
    Freeze,
    IsFrozen,
    Copy,
    Snapshot,
    IsArray,
    IsRecord,
    Keys,
}

/// A method of texts or of arrays (ES3 15.5.4, 15.4.4).
#[derive(Clone, Copy, Debug)]
pub enum Method {
    CharAt,
    CharCodeAt,
    IndexOf,
    LastIndexOf,
    SliceText,
    Substring,
    Split,
    ConcatText,
    Concat,
    Join,
    Slice,
    Push,
    Unshift,
    Pop,
    Shift,
    Reverse,
}

/// A built-in function.
#[derive(Clone, Copy, Debug)]
pub enum BuiltIn {
    Tool(Tool),
    Abs,
    Floor,
    Ceil,
    Round,
    Max,
    Min,
    Number,
    String,
    Boolean,
    Error,
    TypeError,
    RangeError,
    Call,
    Apply,
    Method(Method),
    Object,
    Function,
    Array,
    ToString,
    ValueOf,
}

/// The number of the first of the rows.
const FIRST_ROW: u32 = 2;

/// The number of the first of the functions that are no rows.
const FIRST_OBJECT_FUNCTION: u32 = 59;

/// The rows in the order of their numbers, without those of nodes, which follow them.
const ROWS: [BuiltIn; 37] = [
    BuiltIn::Tool(Tool::Freeze),
    BuiltIn::Tool(Tool::IsFrozen),
    BuiltIn::Tool(Tool::Copy),
    BuiltIn::Tool(Tool::Snapshot),
    BuiltIn::Tool(Tool::IsArray),
    BuiltIn::Tool(Tool::IsRecord),
    BuiltIn::Tool(Tool::Keys),
    BuiltIn::Abs,
    BuiltIn::Floor,
    BuiltIn::Ceil,
    BuiltIn::Round,
    BuiltIn::Max,
    BuiltIn::Min,
    BuiltIn::Number,
    BuiltIn::String,
    BuiltIn::Boolean,
    BuiltIn::Error,
    BuiltIn::TypeError,
    BuiltIn::RangeError,
    BuiltIn::Call,
    BuiltIn::Apply,
    BuiltIn::Method(Method::CharAt),
    BuiltIn::Method(Method::CharCodeAt),
    BuiltIn::Method(Method::IndexOf),
    BuiltIn::Method(Method::LastIndexOf),
    BuiltIn::Method(Method::SliceText),
    BuiltIn::Method(Method::Substring),
    BuiltIn::Method(Method::Split),
    BuiltIn::Method(Method::ConcatText),
    BuiltIn::Method(Method::Concat),
    BuiltIn::Method(Method::Join),
    BuiltIn::Method(Method::Slice),
    BuiltIn::Method(Method::Push),
    BuiltIn::Method(Method::Unshift),
    BuiltIn::Method(Method::Pop),
    BuiltIn::Method(Method::Shift),
    BuiltIn::Method(Method::Reverse),
];

/// The functions that are no rows, in the order of their numbers.
const OBJECT_FUNCTIONS: [BuiltIn; 5] = [
    BuiltIn::Object,
    BuiltIn::Function,
    BuiltIn::Array,
    BuiltIn::ToString,
    BuiltIn::ValueOf,
];

/// The function at a place, where there is one.
fn function_at(functions: &[BuiltIn], place: u32) -> Option<BuiltIn>
    ensures { result ≡ slice_get functions.now place }
{
    functions.get(place as usize).copied()
}

/// The built-in function of a number, where there is one.
pub(crate) fn built_in(which: u32) -> Option<BuiltIn>
    ensures { result ≡ built_in which }
{
    if which < FIRST_ROW {
        None
    } else if which < FIRST_OBJECT_FUNCTION {
        function_at(&ROWS, which - FIRST_ROW)
    } else {
        function_at(&OBJECT_FUNCTIONS, which - FIRST_OBJECT_FUNCTION)
    }
}

/// What a function of the record `cajita` comes to.
fn tool_done(
    alloc: Global,
    h: &mut Heap,
    tool: Tool,
    by: u32,
    this: &Value,
    args: &[Value],
) -> Result<Outcome, Stop>
    ensures outcome { Comes (tool_done tool by this.now args.now h.old) result h.new }
    ensures live { length h.old.list ≤ length h.new.list }
{
    match tool {
        Tool::Freeze => tools::freeze(alloc, h, by, this, args),
        Tool::IsFrozen => tools::is_frozen(alloc, h, by, this, args),
        Tool::Copy => tools::copy(alloc, h, by, this, args),
        Tool::Snapshot => tools::snapshot(alloc, h, by, this, args),
        Tool::IsArray => is_array(h, by, this, args),
        Tool::IsRecord => is_record(h, by, this, args),
        Tool::Keys => tools::keys(alloc, h, by, this, args),
    }
}

/// What a method of a text or an array comes to.
fn method_done(
    alloc: Global,
    h: &mut Heap,
    method: Method,
    by: u32,
    this: &Value,
    args: &[Value],
) -> Result<Outcome, Stop>
    ensures outcome { Comes (method_done method by this.now args.now h.old) result h.new }
    ensures live { length h.old.list ≤ length h.new.list }
{
    match method {
        Method::CharAt => char_at(alloc, h, by, this, args),
        Method::CharCodeAt => char_code_at(alloc, h, by, this, args),
        Method::IndexOf => index_of(alloc, h, by, this, args),
        Method::LastIndexOf => last_index_of(alloc, h, by, this, args),
        Method::SliceText => slice_text(alloc, h, by, this, args),
        Method::Substring => substring(alloc, h, by, this, args),
        Method::Split => split(alloc, h, by, this, args),
        Method::ConcatText => concat_text(alloc, h, by, this, args),
        Method::Concat => concat(alloc, h, by, this, args),
        Method::Join => join(alloc, h, by, this, args),
        Method::Slice => slice(alloc, h, by, this, args),
        Method::Push => push(alloc, h, by, this, args),
        Method::Unshift => unshift(alloc, h, by, this, args),
        Method::Pop => pop(alloc, h, by, this, args),
        Method::Shift => shift(alloc, h, by, this, args),
        Method::Reverse => reverse(alloc, h, by, this, args),
    }
}

/// What a built-in function comes to.
pub(crate) fn done(
    alloc: Global,
    h: &mut Heap,
    function: BuiltIn,
    by: u32,
    this: &Value,
    args: &[Value],
) -> Result<Outcome, Stop>
    ensures outcome { Comes (done_of function by this.now args.now h.old) result h.new }
    ensures live { length h.old.list ≤ length h.new.list }
{
    match function {
        BuiltIn::Tool(tool) => tool_done(alloc, h, tool, by, this, args),
        BuiltIn::Abs => abs(alloc, h, by, this, args),
        BuiltIn::Floor => floor(alloc, h, by, this, args),
        BuiltIn::Ceil => ceil(alloc, h, by, this, args),
        BuiltIn::Round => round(alloc, h, by, this, args),
        BuiltIn::Max => max(alloc, h, by, this, args),
        BuiltIn::Min => min(alloc, h, by, this, args),
        BuiltIn::Number => number_from(alloc, h, by, this, args),
        BuiltIn::String => text_from(alloc, h, by, this, args),
        BuiltIn::Boolean => truth_from(h, by, this, args),
        BuiltIn::Error => new_error(alloc, h, by, this, args),
        BuiltIn::TypeError => new_type_error(alloc, h, by, this, args),
        BuiltIn::RangeError => new_range_error(alloc, h, by, this, args),
        BuiltIn::Call => call_function(alloc, h, by, this, args),
        BuiltIn::Apply => apply_function(alloc, h, by, this, args),
        BuiltIn::Object => object_from(alloc, h, by, args),
        BuiltIn::Function => function_from(alloc, h, by),
        BuiltIn::Array => array_from(alloc, h, by, args),
        BuiltIn::ToString => to_string(alloc, h, this),
        BuiltIn::ValueOf => value_of(alloc, h, this),
        BuiltIn::Method(method) => method_done(alloc, h, method, by, this, args),
    }
}

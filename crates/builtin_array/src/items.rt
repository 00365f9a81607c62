//! How many items a method gives an array.

ghost use Rattle.std.specs.Prelude.{◌≡◌, ◌+◌, ◌<◌, ◌≤◌, IfSome, IfNone, length, pos};
ghost use Rattle.es3_convert.specs.Conversions.{array_items};
ghost use Rattle.rows.specs.Rows.{most_items};

use caja_num::Whole;
use es3_heap::{Heap, ObjId, Value};
use row_outcomes::MOST_ITEMS;

/// How many items there are, where an array may have as many.
pub fn count_of(items: &[Value]) -> Option<Whole>
    ensures some { IfSome result (λ n. n ≡ pos (length items.now)) }
    ensures none { IfNone result (most_items ≤ length items.now) }
{
    let count = items.len();
    if count < MOST_ITEMS {
        Whole::new(count as i64)
    } else {
        None
    }
}

/// How many items an array has with so many more, where an array may have as many.
pub fn count_with(h: &Heap, o: ObjId, more: usize) -> Option<Whole>
    ensures some { IfSome result (λ n. n ≡ pos (length (array_items h.now o) + more)) }
    ensures few { IfSome result (λ _. length (array_items h.now o) + more < most_items) }
    ensures none { IfNone result (most_items ≤ length (array_items h.now o) + more) }
{
    let count = h.item_count(o).saturating_add(more as u64);
    if count < MOST_ITEMS as u64 {
        Whole::new(count as i64)
    } else {
        None
    }
}

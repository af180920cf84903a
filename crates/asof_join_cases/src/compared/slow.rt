//! The as-of join as a plain slow program.

use crate::compared::row::{Field, NULL, Row, item};
use std::alloc::Global;
use std::process::Abort;

// Whether two rows are equal in these fields.
fn is_equal(row: &Row, other: &Row, fields: &[Field]) -> bool {
    for field in fields {
        if item(row, *field) != item(other, *field) {
            return false;
        }
    }
    true
}

// Whether the row that was found is none, or isn't above this one in this field.
fn is_up_to(found: Option<&Row>, row: &Row, field: Field) -> bool {
    match found {
        Some(other) => item(other, field) <= item(row, field),
        None => true,
    }
}

/// The row of the right side that holds at a row of the left one: of those that are equal to it in all keys but the last, and
/// not above it in the last one, the last with the greatest last key.
pub(crate) fn row_as_of<'a>(row: &Row, right: &'a [Row], keys: &[Field]) -> Option<&'a Row> {
    let (last, heads) = keys.split_last()?;
    let mut found: Option<&'a Row> = None;
    for other in right {
        if is_equal(other, row, heads)
            && item(other, *last) <= item(row, *last)
            && is_up_to(found, other, *last)
        {
            found = Some(other);
        }
    }
    found
}

/// The items of a field of the right side at the rows that hold at those of the left one, and nulls where there is none.
pub(crate) fn items_as_of(
    rt: &impl Abort,
    alloc: Global,
    left: &[Row],
    right: &[Row],
    keys: &[Field],
    field: Field,
) -> Vec<i64> {
    let mut items = Vec::new(alloc);
    for row in left {
        match row_as_of(row, right, keys) {
            Some(other) => items.push(item(other, field)).expect(rt, "memory"),
            None => items.push(NULL).expect(rt, "memory"),
        }
    }
    items
}

/// The items of a field of these rows.
pub(crate) fn items_of(rt: &impl Abort, alloc: Global, rows: &[Row], field: Field) -> Vec<i64> {
    let mut items = Vec::new(alloc);
    for row in rows {
        items.push(item(row, field)).expect(rt, "memory");
    }
    items
}

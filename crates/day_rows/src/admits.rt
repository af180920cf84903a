//! Whether columns are those of a table, and whether entries may be added to a day.
ghost use Rattle.std.specs.Prelude.{◌≡◌, ◌↔◌, ◌^◌, ◌≤◌, length, map, All, IfSome, IfNone, true};
ghost use Rattle.std.specs.List.{AllByRecursion};
ghost use Rattle.q_values.specs.Table.{rows_of};
ghost use Rattle.day_rows.specs.Day.{IsUpdate, entry_rows, total_rows};

use crate::entry::Entry;
use crate::schema::Kinds;
use q_values::{Kind, Vector};

fn is_of_kind(column: &Vector, kind: &Kind) -> bool
    ensures { (result ≡ true) ↔ (column.now.kind ≡ kind.now) }
{
    column.kind() == *kind
}

/// Whether the columns have these kinds, in order.
pub fn have_kinds(columns: &[Vector], kinds: &[Kind]) -> bool
    ensures { (result ≡ true) ↔ (map (λ c. c.kind) columns.now ≡ kinds.now) }
{
    if columns.len() != kinds.len() {
        return false;
    }
    for i in 0..columns.len() {
        if !is_of_kind(&columns[i], &kinds[i]) {
            return false;
        }
    }
    true
}

/// The number of rows of columns: the length of the first, and 0 where there is none.
pub fn row_count(columns: &[Vector]) -> usize
    ensures { result ≡ rows_of columns.now }
{
    match columns {
        [first, ..] => first.len(),
        _ => 0,
    }
}

/// Whether all columns are as long as the first.
pub fn have_equal_lengths(columns: &[Vector]) -> bool
    ensures { (result ≡ true) ↔ All (λ c. length c.atoms ≡ rows_of columns.now) columns.now }
{
    let rows = row_count(columns);
    for column in columns {
        if column.len() != rows {
            return false;
        }
    }
    true
}

fn is_update(tables: &[Kinds], entry: &Entry) -> bool
    ensures { (result ≡ true) ↔ IsUpdate tables.now entry.now }
{
    match entry {
        Entry::Upd { table, columns, .. } => match tables.get(*table as usize) {
            Some(kinds) => {
                have_kinds(columns.as_slice(), kinds.as_slice())
                    && have_equal_lengths(columns.as_slice())
            }
            None => false,
        },
        _ => false,
    }
}

/// Whether each entry is an update of one of the tables, whose columns have these kinds.
pub fn are_updates(tables: &[Kinds], entries: &[Entry]) -> bool
    ensures { (result ≡ true) ↔ AllByRecursion (IsUpdate tables.now) entries.now }
{
    for entry in entries {
        if !is_update(tables, entry) {
            return false;
        }
    }
    true
}

/// The number of rows of an entry.
pub fn rows_of_entry(entry: &Entry) -> usize
    ensures { result ≡ entry_rows entry.now }
{
    match entry {
        Entry::Upd { columns, .. } => row_count(columns.as_slice()),
        _ => 0,
    }
}

/// The number of rows of all entries, or `None` where it exceeds 64 bits.
pub fn total_of(entries: &[Entry]) -> Option<u64>
    ensures some { IfSome result (λ total. total ≡ total_rows entries.now) }
    ensures none { IfNone result (2 ^ 64 ≤ total_rows entries.now) }
{
    let mut total = 0u64;
    for entry in entries {
        total = total.checked_add(rows_of_entry(entry) as u64)?;
    }
    Some(total)
}

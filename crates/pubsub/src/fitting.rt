//! Whether entries are of a schema.
ghost use Rattle.std.specs.Prelude.{◌≡◌, ◌↔◌, true};
ghost use Rattle.std.specs.List.{AllByRecursion};
ghost use Rattle.day_rows.specs.Day.{AreColumns};
ghost use Rattle.pubsub.specs.Steps.{AreOfTable};
ghost use Rattle.plant_memory.specs.Memory.{IsOfSchema};

use day_rows::{Entries, Entry, Schema, have_equal_lengths, have_kinds};
use q_values::{Kind, Vector};

fn are_columns(kinds: &[Kind], columns: &[Vector]) -> bool
    ensures { (result ≡ true) ↔ AreColumns kinds.now columns.now }
{
    have_kinds(columns, kinds) && have_equal_lengths(columns)
}

fn are_of_table(schema: &Schema, table: usize, columns: &[Vector]) -> bool
    ensures { (result ≡ true) ↔ AreOfTable schema.now table columns.now }
{
    match schema.get(table) {
        Some(shape) => are_columns(shape.kinds.as_slice(), columns),
        None => false,
    }
}

fn is_of_schema(schema: &Schema, entry: &Entry) -> bool
    ensures { (result ≡ true) ↔ IsOfSchema schema.now entry.now }
{
    match entry {
        Entry::Upd { table, columns, .. } => {
            are_of_table(schema, *table as usize, columns.as_slice())
        }
        Entry::Roll { .. } | Entry::Fault { .. } => true,
    }
}

/// Whether each update among entries is of one of the schema's tables: it has columns of the kinds of that table, all of one
/// length.
pub fn are_of_schema(schema: &Schema, entries: &Entries) -> bool
    ensures { (result ≡ true) ↔ AllByRecursion (IsOfSchema schema.now) entries.now }
{
    let entries = entries.as_slice();
    for entry in entries {
        if !is_of_schema(schema, entry) {
            return false;
        }
    }
    true
}

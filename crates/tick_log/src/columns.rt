//! Whether columns are those of an update that a log can hold.
ghost use Rattle.std.specs.Prelude.{◌≡◌, ◌↔◌, length, true, nat_lt};
ghost use Rattle.std.specs.List.{AllByRecursion, list_any};
ghost use Rattle.tick_log.specs.Chunk.{AreLoggable, HasShortSymbols, is_long};

use crate::layout::LONGEST_SYMBOL;
use day_rows::{have_equal_lengths, have_kinds};
use q_values::{Column, Kind, Symbols, Vector};

// Whether one of the symbols has more than 256 bytes.
fn has_long_symbol(symbols: &Symbols) -> bool
    ensures { result ≡ list_any (λ text. nat_lt 256 (length text)) symbols.now }
{
    symbols.iter().any(|symbol| symbol.len() > LONGEST_SYMBOL)
}

fn has_long(column: &Vector) -> bool
    ensures { result ≡ list_any is_long column.now.atoms }
{
    match column.column() {
        Column::Symbols(symbols) => has_long_symbol(symbols),
        Column::Booleans(_) => false,
        Column::Bytes(_, _) => false,
        Column::Shorts(_) => false,
        Column::Integers(_, _) => false,
        Column::Longs(_, _) => false,
    }
}

fn have_short_symbols(columns: &[Vector]) -> bool
    ensures { (result ≡ true) ↔ AllByRecursion HasShortSymbols columns.now }
{
    for column in columns {
        if has_long(column) {
            return false;
        }
    }
    true
}

/// Whether the columns have these kinds and one length, and no symbol of more than 256 bytes.
pub fn are_loggable(kinds: &[Kind], columns: &[Vector]) -> bool
    ensures { (result ≡ true) ↔ AreLoggable kinds.now columns.now }
{
    have_kinds(columns, kinds) && have_equal_lengths(columns) && have_short_symbols(columns)
}

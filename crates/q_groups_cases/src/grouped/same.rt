//! Whether two vectors hold the same.

use q_values::{Column, Symbols, Vector};

fn is_same_symbols(some: &Symbols, others: &Symbols) -> bool {
    if some.len() != others.len() {
        return false;
    }
    for (i, symbol) in some.iter().enumerate() {
        if others.get(i) != Some(symbol) {
            return false;
        }
    }
    true
}

fn is_same_column(some: &Column, others: &Column) -> bool {
    match (some, others) {
        (Column::Booleans(x), Column::Booleans(y)) => x == y,
        (Column::Bytes(_, x), Column::Bytes(_, y)) => x == y,
        (Column::Shorts(x), Column::Shorts(y)) => x == y,
        (Column::Integers(_, x), Column::Integers(_, y)) => x == y,
        (Column::Longs(_, x), Column::Longs(_, y)) => x == y,
        (Column::Symbols(x), Column::Symbols(y)) => is_same_symbols(x, y),
        _ => false,
    }
}

/// Whether they have one kind and the same atoms.
pub(crate) fn is_same(some: &Vector, others: &Vector) -> bool {
    some.kind() == others.kind() && is_same_column(some.column(), others.column())
}

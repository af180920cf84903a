//! The entries of a chronicle: what a plant notes, in the order in which it happened.

use q_values::{Columns, Sequence};

/// One entry of a chronicle. Each has the number of the pass (the session's way to the plant) that made it.
#[derive(Drop)]
pub enum Entry {
    /// Rows for a table.
    Upd {
        /// The number of the pass that made the entry.
        by: u64,
        /// The table's index in the schema.
        table: u32,
        /// The table's columns, all of one length.
        columns: Columns,
    },
    /// The end of the open date.
    Roll {
        /// The number of the pass that made the entry.
        by: u64,
        /// The date that it opens, in days since 2000.01.01.
        date: i32,
    },
    /// A disk fault, which adds no row.
    Fault {
        /// The number of the pass that made the entry.
        by: u64,
    },
}

/// Entries, in order.
pub type Entries = Sequence<Entry>;

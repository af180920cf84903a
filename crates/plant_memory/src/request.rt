//! What a client asks to log.
use q_values::{Sym, Values};

/// A request to log rows: a table's name, and an item for each of its columns. The time, which is the first, may be
/// left out.
#[derive(Drop)]
pub struct UpdRequest {
    /// The table's name.
    pub table: Sym,
    /// The items: atoms, and vectors that must all have one length.
    pub items: Values,
}

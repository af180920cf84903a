//! The values of the plant: kdb+ atoms, vectors, tables and general values, and what the crates above agree on beside
//! them: the limits of a plant and the turns of a session.
//!
//! A [`Vector`] is a column: atoms of one [`Kind`], stored in a `Vec` of the kind's own width. Symbols take eight bytes
//! each, or share one arena where some are longer. To its callers, and in contracts, it is a kind and a list of
//! [`Atom`]s; code that loops over a column matches on [`Vector::column`] and works on the typed slice. A [`Value`] is
//! what a message holds: an atom, a vector, a list, a dictionary, a table, a keyed table, the identity `(::)` or an error.
//!
//! ```text
//! let mut sizes = Vector::new(alloc, Kind::Long);
//! sizes.push(Atom::Long(200))?;
//! sizes.push(Atom::Long(100))?;
//! sizes.push(Atom::Integer(7))            // Err(VectorRefusal::KindMismatch), and sizes is as before
//! let order = sizes.order(alloc)?;        // the indices 1, 0
//! sizes.gather(alloc, order.as_slice())?  // 100 200
//! ```
//!
//! Whatever may run out of memory takes `alloc` and answers [`NoMemory`], and what it was to change is as before. This
//! crate knows nothing of bytes on a wire (`ipc_codec`), of what verbs do (`q_verbs`), or of rows and dates (`day_rows`).
//! Reals, floats, guids, datetimes and nested columns are not built.
#![tactic(auto)]

mod arena;
mod atom;
mod column;
mod copies;
mod kind;
mod limits;
mod order;
mod refusal;
mod sequence;
mod short;
mod sym;
mod symbols;
mod time;
mod turn;
mod value;
mod vector;

pub use arena::Arena;
pub use atom::{Atom, Element};
pub use column::Column;
pub use copies::copy_to_front;
pub use kind::{ByteKind, IntegerKind, Kind, LongKind, Storage};
pub use limits::Limits;
pub use refusal::{NoMemory, VectorRefusal};
pub use sequence::Sequence;
pub use short::ShortSymbol;
pub use sym::{Sym, SymRefusal};
pub use symbols::{Form, Symbols, SymbolsIter};
pub use time::NANOSECONDS_PER_DAY;
pub use turn::{SaveEnd, Turn};
pub use value::{Columns, KeyedValue, Names, Pair, Places, TableValue, Text, Value, Values};
pub use vector::{Vector, VectorIter};

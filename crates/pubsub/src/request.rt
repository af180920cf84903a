//! Requests of clients for subscriptions.

use q_values::{NoMemory, Sym, Symbols};

/// The rows of a table that a client asks for.
#[derive(Drop)]
pub enum Wanted {
    /// All rows: the client gave the null symbol as an atom.
    Everything,
    /// The rows of these symbols. The null symbol among them is a symbol like others.
    Symbols(Symbols),
}

/// A request for a subscription (KX, u.q, `.u.sub`).
#[derive(Drop)]
pub struct SubRequest {
    /// The table's name, or the null symbol for every table.
    pub tables: Sym,
    /// The rows of these tables.
    pub symbols: Wanted,
}

/// Why a request is refused. The subscription is as before.
#[derive(Drop)]
pub enum SubRefusal {
    /// The schema has no table of this name.
    NoTable(Sym),
    /// Out of memory.
    NoMemory,
}

impl From<NoMemory> for SubRefusal {
    ghost use Rattle.std.specs.Prelude.{◌≡◌};
    ghost use Rattle.pubsub.specs.declared.request.SubRefusal.TheVariants as r;

    ghost from_gives = { λ _ e. e ≡ r.NoMemory };

    fn from(_e: NoMemory) -> SubRefusal {
        SubRefusal::NoMemory
    }
}

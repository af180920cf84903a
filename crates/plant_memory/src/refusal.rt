//! Why an update is refused.
use q_values::{NoMemory, Sym};

/// Why an update is refused. All is judged before anything changes, in this order.
#[derive(Drop)]
pub enum UpdRefusal {
    /// The schema has no table of this name.
    NoTable(Sym),
    /// There are more or fewer items than the table has columns, or their lengths differ.
    Length,
    /// An item has another kind than its column, or is neither an atom nor a vector.
    WrongType {
        /// The index of the column; that of the time counts.
        column: u32,
    },
    /// The moment's date is two or more days after the open date.
    MoreThanOneDay,
    /// A symbol or the log record is longer than its limit, or the date would have more rows than the limit.
    Limit,
    /// Out of memory.
    NoMemory,
}

impl From<NoMemory> for UpdRefusal {
    ghost use Rattle.std.specs.Prelude.{◌≡◌};
    ghost use Rattle.plant_memory.specs.declared.refusal.UpdRefusal.TheVariants as r;

    ghost from_gives = { λ _ e. e ≡ r.NoMemory };

    fn from(_e: NoMemory) -> UpdRefusal {
        UpdRefusal::NoMemory
    }
}

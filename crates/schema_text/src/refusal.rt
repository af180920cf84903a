//! Why a text is not a schema.

use q_values::{NoMemory, Sym};

/// Why a text is not a schema: the first cause in the text's order. Offsets are in bytes from 0.
#[derive(Drop)]
pub enum SchemaRefusal {
    /// The token at this offset can't follow, or the text ends there.
    Parse(usize),
    /// The word at this offset is not the name of a kind that a column may have.
    BadKind(usize),
    /// A second table, or a second column of a table, has this name.
    Twice(Sym),
    /// The first two columns of this table are not `time`, a timespan, and `sym`, a symbol.
    TimeSym(Sym),
    /// This name is a reserved word of the query language, `date` or `i`.
    Reserved(Sym),
    /// There are more than 64 tables, more than 48 columns in a table, or more than 64 bytes in a name.
    Limit,
    /// Out of memory.
    NoMemory,
}

impl From<NoMemory> for SchemaRefusal {
    ghost use Rattle.std.specs.Prelude.{◌≡◌};
    ghost use Rattle.schema_text.specs.declared.refusal.SchemaRefusal.TheVariants as r;

    ghost from_gives = { λ _ e. e ≡ r.NoMemory };

    fn from(_e: NoMemory) -> SchemaRefusal {
        SchemaRefusal::NoMemory
    }
}

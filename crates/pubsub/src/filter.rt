//! Filters: which rows of a table a subscription chooses.
ghost use Rattle.std.specs.Prelude.{◌≡◌, IfOk};
ghost use Rattle.pubsub.specs.Filters.{is_nothing, filter_of};

use crate::request::Wanted;
use crate::symbol_set::SymbolSet;
use q_values::NoMemory;
use std::alloc::Global;

/// Which rows of a table a subscription chooses.
#[derive(Drop)]
pub enum Filter {
    /// None.
    Nothing,
    /// All.
    Everything,
    /// Those of some symbols, which may be none.
    Symbols(SymbolSet),
}

impl Filter {
    /// The filter that a client asks for.
    pub fn of(alloc: Global, wanted: &Wanted) -> Result<Filter, NoMemory>
        ensures { IfOk result (λ filter. filter ≡ filter_of wanted.now) }
    {
        match wanted {
            Wanted::Everything => Ok(Filter::Everything),
            Wanted::Symbols(symbols) => Ok(Filter::Symbols(SymbolSet::of(alloc, symbols)?)),
        }
    }

    /// The same filter. Its symbols are shared.
    pub fn share(&self) -> Result<Filter, NoMemory>
        ensures { IfOk result (λ filter. filter ≡ self.now) }
    {
        match self {
            Filter::Nothing => Ok(Filter::Nothing),
            Filter::Everything => Ok(Filter::Everything),
            Filter::Symbols(set) => Ok(Filter::Symbols(set.share()?)),
        }
    }

    /// Whether it is the filter that chooses nothing, and isn't told of the ends of dates.
    pub fn is_nothing(&self) -> bool
        ensures { result ≡ is_nothing self.now }
    {
        match self {
            Filter::Nothing => true,
            Filter::Everything | Filter::Symbols(_) => false,
        }
    }
}

//! What a query reads of its table, as methods of a query that fits.
ghost use Rattle.std.specs.Prelude.{◌≡◌, IfOk};
ghost use Rattle.qsql_request.specs.Views.{query_of};
ghost use Rattle.qsql_dates.specs.Dates.{keeps};
ghost use Rattle.qsql_eval.specs.Views.{needed};

use crate::columns::{Needed, needed_by};
use crate::dates::is_date_kept;
use q_values::NoMemory;
use qsql_eval::Typed;
use std::alloc::Global;

/// What a query reads of its table.
pub trait Reads<'a> {
    /// The columns that it needs: over rows that have the same ones under these names, it has the same value.
    fn needs(&self, alloc: Global) -> Result<Needed<'a>, NoMemory>;

    /// Whether it keeps a date (in days since 2000.01.01): whether its first phrases, as long as each has `date` at its left
    /// and a literal at its right, hold there. The rows of a date that isn't kept have no part in the query's value.
    fn keeps(&self, alloc: Global, date: i32) -> Result<bool, NoMemory>;
}

impl<'a> Reads<'a> for Typed<'a> {
    fn needs(&self, alloc: Global) -> Result<Needed<'a>, NoMemory>
        ensures { IfOk result (λ w. w ≡ needed (query_of self.now.query.now) self.now.table.now) }
    {
        needed_by(alloc, self)
    }

    fn keeps(&self, alloc: Global, date: i32) -> Result<bool, NoMemory>
        ensures { IfOk result (λ b. b ≡ keeps (query_of self.now.query.now).phrases date) }
    {
        is_date_kept(alloc, self, date)
    }
}

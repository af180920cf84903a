//! What a query reads of its table: the columns that it needs, and the dates that it keeps.
//!
//! ```text
//! // select last price by sym from trade where date=2024.01.03
//! let needed = typed.needs(alloc)?;           // price, sym and date
//! needed.has(b"size")                         // false
//! typed.keeps(alloc, 8767)?                   // 2024.01.02: false
//! ```
//!
//! [`Reads`] has both as methods of a query that fits. `needs` gives the names of the columns: `date` and `i` are among them
//! where the query names them, though they are no columns of the schema; [`Needed::of_expr`] gives those of one expression.
//! `keeps` looks at the first phrases, as long as they are date phrases (`qsql_dates`). [`laws`] states that a date that isn't
//! kept has no part in the value of a query.
//!
//! The crate reads no rows.
#![tactic(auto)]

mod columns;
mod dates;
pub mod laws;
mod reads;

pub use columns::Needed;
pub use reads::Reads;

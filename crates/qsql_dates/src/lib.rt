//! Which dates the first phrases of a query keep, so that the rows of other dates need not be read.
//!
//! A date phrase has the column `date` at its left and a literal at its right, as in `date=2024.01.02`, `date in ..` and
//! `date within ..`. It holds at all rows of a date or at none. So where the first phrases of a query are date phrases,
//! [`keeps`] says of a date whether its rows have any part in the query's value.
//!
//! ```text
//! // select from trade where date within 2024.01.02 2024.01.05,date<>2024.01.03,size>5
//! keeps(alloc, phrases, 8768)?       // 2024.01.03: false
//! keeps(alloc, phrases, 8769)?       // 2024.01.04: true, whatever the third phrase says
//! ```
//!
//! A date phrase is evaluated over one row that has nothing but the date, as `specs/Dates.antt` defines it. [`laws`] states
//! that the phrases keep the same rows where those of other dates have been left out before.
//!
//! The crate reads no rows and judges no phrase.
#![tactic(auto)]

mod dates;
pub mod laws;

pub use dates::keeps;

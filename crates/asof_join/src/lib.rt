//! The as-of join: beside each row of one table the row of another one that held at its time (KX, aj).
//!
//! [`check_aj`] judges a join by a schema. Both sides must fit their tables, each key must be a column of both results with
//! one kind, and no other column may be in both, `date` aside. It makes the join an [`AjTyped`], whose sides are typed
//! queries; [`table_of_side`] evaluates one over the rows of its table.
//!
//! ```text
//! // aj[`sym`time;select time,sym,price from trade;select time,sym,bid from quote]
//! let typed = check_aj(alloc, &query, &schema)?;      // Err(AjRefusal::NoName(..)) where a column isn't there
//! let left = table_of_side(alloc, &typed.left(), &trades)?;
//! let right = table_of_side(alloc, &typed.right(), &quotes)?;
//! aj(alloc, &typed, &left, &right)?                   // time sym price bid
//! ```
//!
//! [`aj`] joins the tables that the two sides give. The keys but the last of both tables are numbered together (`heads`), and
//! the last keys of both become numbers (`lasts`). The rows of both sides are then gone through once in the order of the last
//! key (`order`, which sorts only what isn't in order), while the row that was seen last is kept for each number of the other
//! keys (`merge`). Each added column is made in one pass (`columns`).
//!
//! `specs/Judged.antt` says what is found of a join, and `specs/Asof.antt` what its result is.
//!
//! The crate reads no text, and leaves the value of a query to `qsql_eval`.
#![tactic(auto)]

mod both;
mod checking;
mod columns;
mod heads;
mod joining;
mod lasts;
mod line;
mod merge;
mod order;
mod refusal;
mod shown;
mod side;
mod source;
mod typed;

pub use checking::check_aj;
pub use joining::aj;
pub use refusal::AjRefusal;
pub use source::table_of_side;
pub use typed::AjTyped;

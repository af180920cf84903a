//! Rows grouped by one or several key columns, the groups in ascending order of their keys.
//!
//! [`KeyGroups`] numbers the groups of rows with equal keys: `codes` has the number of each row's group, and `firsts` for
//! each group the index of its first row. The groups ascend by the first column, then by the next; a null is the least.
//! [`KeyGroups::rows`] gives the rows of each group in order, as [`GroupRows`].
//!
//! ```text
//! // of the columns `b`, `a`, `b`, `a` and 2, 1, 2, 0:
//! let groups = KeyGroups::of(alloc, &columns)?;
//! groups.codes()                    // 2 1 2 0
//! groups.firsts()                   // 3 1 0
//! let rows = groups.rows(alloc)?;
//! rows.of_group(2)                  // 0 2
//! ```
//!
//! Each column is numbered by `q_groups::Groups` and its groups are ranked (`ranking`). The ranks of two columns are a cell of
//! a table, which is gone over in order where it is small beside the rows (`cells`); else they make one number of 64 bits a
//! row, in the order of the pairs, which is numbered again (`keys`). [`KeyGroups::of_lent`] takes columns that are lent. The
//! rows of the groups come by counting (`group_rows`). `specs/Keys.antt` says what keys, codes and rows of groups are, and
//! [`laws`] that keys ascend.
//!
//! It knows nothing of names, queries or aggregates. More than 4,294,967,295 rows are refused as out of memory.
#![tactic(auto)]

mod cells;
mod group_rows;
mod keys;
pub mod laws;
mod ranking;

pub use group_rows::GroupRows;
pub use keys::KeyGroups;

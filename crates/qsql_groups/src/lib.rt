//! Rows grouped by the columns after `by`, and the values of expressions by group.
//!
//! [`Grouping`] numbers the groups of rows with equal keys, in ascending order of their keys, over `q_keys`. It keeps the
//! number of each row's group, and copies no rows. [`values_of_groups`] gives the values of an expression over the rows of
//! each group.
//!
//! ```text
//! let grouping = Grouping::of(alloc, by, names, columns)?;
//! grouping.keys(alloc)?                                // the key columns, an item for each group
//! values_of_groups(alloc, &expr, &grouping)?           // of `max price-min price`, an item for each group
//! ```
//!
//! An expression is evaluated for all groups at once (`values`): verbs over rows as they are, an aggregate as one pass over
//! them (`q_grouped`), and where a verb has one side of each, the items of groups are lent back to the rows of each group.
//! What doesn't go so is evaluated over the rows of each group, one by one (`by_group`): `distinct`, an aggregate of a single
//! value, and a test of aggregates or with rows at its right.
//!
//! Rows in groups and values by group are in `specs/Groups.antt`, and values for all groups in `specs/OnePass.antt`.
//!
//! The crate knows no queries: `qsql_eval` does.
#![tactic(auto)]

mod by_group;
mod grouping;
mod one_pass;
mod values;

pub use by_group::values_of_groups;
pub use grouping::Grouping;

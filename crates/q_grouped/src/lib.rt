//! Aggregates by group: what a query with `by` asks of the items of each group (KX, "select", by; "Aggregates").
//!
//! Each row has a code, the number of its group. [`aggregate_by`] gives for each group, from 0, the aggregate of the
//! column's items whose code it is, in the order of the rows; [`count_by`] needs no column, and in [`aggregate_side_by`] an
//! atom may stand for the item of each row. They go over the rows once, gather nothing, and allocate only for the groups,
//! and for the items that an atom stands for. Their results are those of [`q_verbs::aggregate`] for each group's items, also
//! for a group without items.
//!
//! ```text
//! // codes 0 2 0 0, three groups, of the longs 5 7 0N -2:
//! aggregate_by(alloc, Verb1::Sum, &longs, &codes, 3)?       // 3 0 7
//! aggregate_by(alloc, Verb1::Max, &longs, &codes, 3)?       // 5 -0W 7
//! aggregate_by(alloc, Verb1::Last, &longs, &codes, 3)?      // -2 0N 7
//! count_by(alloc, &codes, 3)?                               // 3 0 1
//! ```
//!
//! All of them are one loop, `fold`, with another step (`steps`). Numbers are compared at the width of their column, and
//! summed in 64 bits; `first` and `last` keep rows, and copy their items after the loop. `specs/Grouped.antt` says what a
//! group is, and [`laws`] what rows joined have from what their parts have.
//!
//! It makes no codes (`q_groups` and `q_keys` do), and doesn't say which groups are shown, or in which order.
#![tactic(auto)]

mod aggregation;
mod extremes;
mod fold;
pub mod laws;
mod number;
mod rows;
mod steps;
mod totals;

pub use aggregation::{aggregate_by, aggregate_side_by};
pub use rows::column_at;
pub use totals::count_by;

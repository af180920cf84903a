//! Groups of the equal items of a column, and the order of a column by them.
//!
//! [`Groups`] numbers the groups of equal atoms in the order of first sight: `codes` has the number of each item's group,
//! `firsts` for each group the index of its first item, and `sorted` the groups in ascending order of their items. All
//! numbers have 32 bits. A null is equal to a null.
//!
//! ```text
//! // of the symbols `b`, `a`, `b`, `c`, `a`:
//! let groups = Groups::of(alloc, &symbols)?;
//! groups.codes()                    // 0 1 0 2 1
//! groups.firsts()                   // 0 1 3
//! groups.sorted()                   // 1 0 2, as `a` is before `b` and `c`
//! groups.order(alloc)?              // 1 4 0 2 3, as the stable order of the symbols
//! ```
//!
//! Both calls go over the items once, and compare only the distinct ones with each other. An item is first looked for where
//! an item with the same hash was seen lately (`number`), and only then in a hash map; the order is by counting (`counting`).
//! Symbols may come in parts, as a day keeps them, and are not joined. `specs/Groups.antt` says what groups are, and
//! [`Groups::order`] that its order is the one of `q_values::Vector::order`.
//!
//! It knows nothing of rows or queries. More than 4,294,967,295 items are refused as out of memory.
#![tactic(auto)]

mod column;
mod counting;
mod groups;
mod number;
mod sorted;
mod word;

pub use counting::add_up;
pub use groups::Groups;
pub use sorted::ranks_of;

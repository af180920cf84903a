//! The entries of a date from an index on: its updates, and its faults between them.
ghost use Rattle.std.specs.Prelude.{◌≡◌, ◌≤◌, ◌+◌, ◌++◌, length, take, drop, OnOk};
ghost use Rattle.std.specs.Vec.Iter.{into_iter_items};
ghost use Rattle.plant_memory.specs.Faults.{woven, shortened, IsPlaceOf};

use crate::faults::Mark;
use day_rows::{Entries, Entry};
use q_values::NoMemory;
use std::alloc::Global;
use std::vec::IntoIter;

/// An index into the entries of a date, among its updates and among its faults.
#[derive(Clone, Copy)]
pub struct Place {
    /// The number of faults before it.
    pub faults: usize,
    /// The number of updates before it.
    pub updates: usize,
    /// The number of updates between the last fault before it, or the start of the date, and it.
    pub since: u64,
}

/// The place of the entry with the index `index`, on a date that has these faults and `count` updates. It takes a step for
/// each fault before it.
pub fn place_of(marks: &[Mark], count: usize, index: u64) -> Place
    requires { index ≤ count + length marks.now }
    ensures { IsPlaceOf marks.now count index result }
{
    let mut updates = 0;
    let mut since = index;
    for faults in 0..marks.len() {
        let gap = marks[faults].gap.min((count - updates) as u64);
        if since <= gap {
            return Place {
                faults,
                updates: updates + since as usize,
                since,
            };
        }
        since -= gap + 1;
        updates += gap as usize;
    }
    Place {
        faults: marks.len(),
        updates: updates + since as usize,
        since,
    }
}

// Moves the first `n` of the updates to the end of the entries, or all where there are fewer.
fn move_first(
    updates: &mut IntoIter<Entry, Global>,
    n: u64,
    entries: &mut Vec<Entry>,
) -> Result<(), NoMemory>
    ensures moved { OnOk result (entries.new.items ≡ entries.old.items ++ take n (into_iter_items updates.old)) }
    ensures rest { OnOk result (into_iter_items updates.new ≡ drop n (into_iter_items updates.old)) }
{
    for _ in 0..n {
        let Some(update) = updates.next() else {
            return Ok(());
        };
        entries.push(update)?;
    }
    Ok(())
}

/// Appends the updates to the entries, with the faults that have these marks between them. Before the first of the faults
/// there are `since` updates fewer than its gap says.
pub fn weave(
    marks: &[Mark],
    since: u64,
    updates: Entries,
    entries: &mut Vec<Entry>,
) -> Result<(), NoMemory>
    ensures { OnOk result (entries.new.items ≡ entries.old.items ++ woven (shortened since marks.now) updates) }
{
    let mut rest = updates.into_vec().into_iter();
    let mut before = since;
    for mark in marks {
        move_first(&mut rest, mark.gap.saturating_sub(before), entries)?;
        entries.push(Entry::Fault { by: mark.by })?;
        before = 0;
    }
    let left = rest.len() as u64;
    move_first(&mut rest, left, entries)
}

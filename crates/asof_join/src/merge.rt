//! The rows of the right side that hold at the rows of the left one: both are gone through once, in order.
ghost use Rattle.std.specs.Prelude.{◌≡◌, ◌≢◌, ◌<◌, ◌≤◌, ℕ, None, length, slice_index, slice_index_or, All, IfOk};
ghost use Rattle.std.specs.declared.cmp.Ordering.TheVariants.{Greater};
ghost use Rattle.q_values.specs.Order.{IsOrder};
ghost use Rattle.asof_join.specs.Lines.{pair_cmp, pair_at, pairs, order_in, last_seen, numbered, AreFound};

use crate::line::Line;
use crate::order::{Order, is_up_to, order_of, row_at};
use q_values::NoMemory;
use std::alloc::Global;

// Goes through the rows of the right side from the place `next` of their order on, up to the first that is above the pair,
// and keeps the last row that was seen of each group. Gives the place of that first row.
fn see_up_to(
    seen: &mut Vec<Option<usize>>,
    right: &Line,
    order: &Order,
    next: usize,
    pair: (u32, i64),
) -> usize
    requires next { next ≤ length right.now.numbers.now }
    requires order { IsOrder pair_cmp (pairs right.now) (order_in (length right.now.numbers.now) order.now) }
    requires codes { All (λ code. code < length seen.old.items) right.now.codes.now }
    requires seen { (g : ℕ) → g < length seen.old.items
        → slice_index_or seen.old.items g None ≡ last_seen right.now.codes.now (order_in (length right.now.numbers.now) order.now) next g }
    ensures size { length seen.new.items ≡ length seen.old.items }
    ensures next { next ≤ result }
    ensures within { result ≤ length right.now.numbers.now }
    ensures seen { (g : ℕ) → g < length seen.old.items
        → slice_index_or seen.new.items g None ≡ last_seen right.now.codes.now (order_in (length right.now.numbers.now) order.now) result g }
    ensures passed { (p : ℕ) → next ≤ p → p < result
        → pair_cmp (pair_at right.now (slice_index (order_in (length right.now.numbers.now) order.now) p)) pair ≢ Greater }
    ensures stops { result < length right.now.numbers.now
        → pair_cmp (pair_at right.now (slice_index (order_in (length right.now.numbers.now) order.now) result)) pair ≡ Greater }
{
    let rows = right.len();
    let mut place = next;
    while place < rows {
        let row = row_at(order, rows, place);
        if is_up_to(right.pair(row), pair) {
            seen[right.code(row)] = Some(row);
            place += 1;
        } else {
            return place;
        }
    }
    place
}

/// For each row of the left side the row of the right one that holds at it. The codes of both sides are below `groups`.
pub(crate) fn rows_found(
    alloc: Global,
    left: &Line,
    right: &Line,
    groups: usize,
) -> Result<Vec<Option<usize>>, NoMemory>
    requires by_group { left.now.by_group ≡ right.now.by_group }
    requires left { All (λ code. code < groups) left.now.codes.now }
    requires right { All (λ code. code < groups) right.now.codes.now }
    ensures { IfOk result (λ found. AreFound (numbered right.now) (numbered left.now) found.items) }
{
    let of_left = order_of(alloc, left)?;
    let of_right = order_of(alloc, right)?;
    let mut seen: Vec<Option<usize>> = vec![in alloc; None; groups]?;
    let mut found: Vec<Option<usize>> = vec![in alloc; None; left.len()]?;
    let mut next = 0;
    for place in 0..left.len() {
        let row = row_at(&of_left, left.len(), place);
        next = see_up_to(&mut seen, right, &of_right, next, left.pair(row));
        found[row] = seen[left.code(row)];
    }
    Ok(found)
}

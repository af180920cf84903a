//! The loop over rows: one state for each group, which each of its items changes in turn.
ghost use Rattle.std.specs.Prelude.{◌≡◌, ◌<◌, List, Bool, Some, IsTrue, length, fold, slice_get, All, IfOk};
ghost use Rattle.q_grouped.specs.Grouped.{by_group};

use q_values::NoMemory;
use std::alloc::Global;

/// Items at the rows below a count.
pub(crate) trait Items<T> {
    ghost list: { Self → List T };

    /// Their number.
    fn count(&self) -> usize
        ensures { result ≡ length (list self.now) };

    /// The item at the row.
    fn item(&self, row: usize) -> T
        requires { row < length (list self.now) }
        ensures { slice_get (list self.now) row ≡ Some result };
}

/// The items of a slice.
#[derive(Drop)]
pub(crate) struct Slice<'a, T> {
    pub items: &'a [T],
}

impl<T: Copy> Items<T> for Slice<'_, T> {
    ghost list = { λ s. s.items.now };

    fn count(&self) -> usize {
        self.items.len()
    }

    fn item(&self, row: usize) -> T {
        self.items[row]
    }
}

/// What one more item makes of the state of its group.
pub trait Fold<T, S> {
    ghost next: { S → T → S };

    ghost fits: { T → Bool };

    /// The state after the item, and what holds of each item of its type.
    fn step(state: &S, item: &T) -> S
        ensures value { result ≡ next state.now item.now }
        ensures fits { IsTrue (fits item.now) };
}

// This many states before the first item.
fn starts<S: Copy>(alloc: Global, start: S, count: usize) -> Result<Vec<S>, NoMemory>
    ensures len { IfOk result (λ v. length v.items ≡ count) }
    ensures each { IfOk result (λ v. All (λ s. s ≡ start) v.items) }
{
    let mut states = Vec::with_capacity(alloc, count)?;
    for _group in 0..count {
        states.push_reserved(start);
    }
    Ok(states)
}

/// For each group the state after its items in order, from `start`. It goes over the rows once.
pub fn fold_by<F: Fold<T, S>, T: Copy, S: Copy, I: Items<T>>(
    alloc: Global,
    start: S,
    items: &I,
    codes: &[u32],
    groups: u32,
) -> Result<Vec<S>, NoMemory>
    requires len { length codes.now ≡ length (I.list items.now) }
    requires codes { All (λ code. code < groups) codes.now }
    ensures value { IfOk result (λ v. v.items ≡ by_group (fold F.next start) groups codes.now (I.list items.now)) }
    ensures fits { IfOk result (λ _. All (λ x. IsTrue (F.fits x)) (I.list items.now)) }
{
    let mut states = starts(alloc, start, groups as usize)?;
    for row in 0..codes.len() {
        let group = codes[row] as usize;
        let item = items.item(row);
        states[group] = F::step(&states[group], &item);
    }
    Ok(states)
}

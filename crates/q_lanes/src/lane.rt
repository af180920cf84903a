//! The items of a side, as the loops of the verbs read them, and the loop over two sides.
ghost use Rattle.std.specs.Prelude.{◌≡◌, ◌<◌, ◌≤◌, ◌+◌, ◌^◌, List, length, map, take, drop, Some, slice_get, IfOk};
ghost use Rattle.std.specs.Mem.{FitsInMemory};
ghost use Rattle.std.specs.Simd.Lanes.{zip2};
ghost use Rattle.q_lanes.specs.Lanes.{lane_items};

use std::alloc::{AllocError, Global};
use std::marker::PhantomData;
use std::slice::from_ref;

/// The items of a column, or one item that stands at each index.
#[derive(Drop)]
pub enum Lane<'a, T: Copy> {
    /// The items of a column.
    Each(&'a [T]),
    /// The item of an atom.
    Every(T),
}

impl<T: Copy> Lane<'_, T> {
    /// The items of a column, or the one item, as a slice.
    pub fn alone(&self) -> &[T]
        requires { FitsInMemory T.row }
        ensures { result.now ≡ lane_items 1 self.now }
    {
        match self {
            Lane::Each(items) => items,
            Lane::Every(item) => from_ref(item),
        }
    }
}

/// Items at the indices below a count.
pub trait Items<T> {
    ghost list: { Self → List T };

    /// Their number.
    fn count(&self) -> usize
        ensures { result ≡ length (list self.now) };

    /// The item at the index.
    fn item(&self, i: usize) -> T
        requires { i < length (list self.now) }
        ensures { slice_get (list self.now) i ≡ Some result };
}

/// The items of a slice.
#[derive(Drop)]
pub struct Slice<'a, T> {
    /// The items.
    pub items: &'a [T],
}

impl<T: Copy> Items<T> for Slice<'_, T> {
    ghost list = { λ s. s.items.now };

    fn count(&self) -> usize {
        self.items.len()
    }

    fn item(&self, i: usize) -> T {
        self.items[i]
    }
}

/// One item at each index.
#[derive(Drop)]
pub struct Repeated<T> {
    /// The item.
    pub item: T,
    /// The number of indices.
    pub count: usize,
}

impl<T: Copy> Items<T> for Repeated<T> {
    ghost use Rattle.std.specs.Prelude.{replicate};

    ghost list = { λ s. replicate s.count s.item };

    fn count(&self) -> usize {
        self.count
    }

    fn item(&self, _i: usize) -> T {
        self.item
    }
}

/// What a verb makes of two items.
pub trait Step<T, U> {
    ghost value: { T → T → U };

    /// The result for two items.
    fn apply(x: &T, y: &T) -> U
        ensures { result ≡ value x.now y.now };

    /// Whether sixteen results are computed before they are written, which the compiler makes a few comparisons of many items
    /// each. That is quicker where a result is a flag, and slower where it is as wide as an item.
    fn by_sixteens() -> bool {
        false
    }
}

/// The results of a step for each two items of two lists, which are computed as they are read.
#[derive(Drop)]
pub struct Zipped<'a, S, T, L, R> {
    /// The items at the left.
    pub left: &'a L,
    /// The items at the right.
    pub right: &'a R,
    /// The step, and the type of the items.
    pub step: PhantomData<(S, T)>,
}

impl<S: Step<T, U>, T: Copy, U, L: Items<T>, R: Items<T>> Items<U> for Zipped<'_, S, T, L, R> {
    ghost use Rattle.std.specs.Simd.Lanes.{zip2};

    ghost list = { λ z. zip2 S.value (L.list z.left.now) (R.list z.right.now) };

    fn count(&self) -> usize {
        self.left.count().min(self.right.count())
    }

    fn item(&self, i: usize) -> U {
        S::apply(&self.left.item(i), &self.right.item(i))
    }
}

// Sixteen items from this index on.
fn sixteen_from<U: Copy, I: Items<U>>(items: &I, from: usize) -> [U; 16]
    requires within { from + 16 ≤ length (I.list items.now) }
    requires small { from + 16 < 2 ^ 64 }
    ensures { result ≡ take 16 (drop from (I.list items.now)) }
{
    let mut block = [items.item(from); 16];
    for k in 0..16 {
        block[k] = items.item(from + k);
    }
    block
}

fn zip_items<S: Step<T, U>, T: Copy, U: Copy, L: Items<T>, R: Items<T>>(
    alloc: Global,
    left: &L,
    right: &R,
) -> Result<Vec<U>, AllocError>
    ensures { IfOk result (λ v. v.items ≡ zip2 S.value (L.list left.now) (R.list right.now)) }
{
    let results = Zipped::<S, T, L, R> {
        left,
        right,
        step: PhantomData,
    };
    let count = results.count();
    let mut values = Vec::with_capacity(alloc, count)?;
    let mut done = 0;
    while S::by_sixteens() && done + 16 <= count {
        let block = sixteen_from(&results, done);
        for k in 0..16 {
            values.push_reserved(block[k]);
        }
        done += 16;
    }
    for i in done..count {
        values.push_reserved(results.item(i));
    }
    Ok(values)
}

/// The results for each two items of sides of `count` items.
pub fn zip_lanes<S: Step<T, U>, T: Copy, U: Copy>(
    alloc: Global,
    count: usize,
    left: &Lane<'_, T>,
    right: &Lane<'_, T>,
) -> Result<Vec<U>, AllocError>
    requires left { length (lane_items count left.now) ≡ count }
    requires right { length (lane_items count right.now) ≡ count }
    ensures { IfOk result
        (λ v. v.items ≡ zip2 S.value (lane_items count left.now) (lane_items count right.now)) }
{
    match (left, right) {
        (Lane::Each(some), Lane::Each(others)) => {
            zip_items::<S, T, U, _, _>(alloc, &Slice { items: some }, &Slice { items: others })
        }
        (Lane::Each(some), Lane::Every(other)) => {
            let others = Repeated {
                item: *other,
                count,
            };
            zip_items::<S, T, U, _, _>(alloc, &Slice { items: some }, &others)
        }
        (Lane::Every(item), Lane::Each(others)) => {
            let some = Repeated { item: *item, count };
            zip_items::<S, T, U, _, _>(alloc, &some, &Slice { items: others })
        }
        (Lane::Every(item), Lane::Every(other)) => {
            let some = Repeated { item: *item, count };
            let others = Repeated {
                item: *other,
                count,
            };
            zip_items::<S, T, U, _, _>(alloc, &some, &others)
        }
    }
}

/// What a verb makes of one item.
pub trait Rule<T, U> {
    ghost value: { Self → T → U };

    /// The result for an item.
    fn apply(&self, x: &T) -> U
        ensures { result ≡ value self.now x.now };
}

/// The rule's result for each item.
pub fn map_items<P: Rule<T, U>, T: Copy, U: Drop>(
    alloc: Global,
    rule: &P,
    items: &[T],
) -> Result<Vec<U>, AllocError>
    ensures { IfOk result (λ v. v.items ≡ map (P.value rule.now) items.now) }
{
    let mut values = Vec::with_capacity(alloc, items.len())?;
    for item in items {
        values.push_reserved(rule.apply(item));
    }
    Ok(values)
}

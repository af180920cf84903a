//! The items of a column ranked: the numbers of their groups in ascending order.
ghost use Rattle.std.specs.Prelude.{◌≡◌, ◌<◌, length, map, All, IfOk, slice_index};
ghost use Rattle.q_values.specs.Order.{atom_cmp};
ghost use Rattle.q_keys.specs.Ranking.{IsRanking};

use q_groups::{Groups, ranks_of};
use q_values::{NoMemory, Vector};
use std::alloc::Global;

/// Each item's rank, and for each rank the index of the first item that has it.
#[derive(Drop)]
pub(crate) struct Ranking {
    pub ranks: Vec<u32>,
    pub firsts: Vec<u32>,
}

/// The items at these indices.
pub(crate) fn picked(alloc: Global, items: &[u32], indices: &[u32]) -> Result<Vec<u32>, NoMemory>
    requires { All (λ i. i < length items.now) indices.now }
    ensures { IfOk result (λ v. v.items ≡ map (slice_index items.now) indices.now) }
{
    let mut picked = Vec::with_capacity(alloc, indices.len())?;
    for index in indices {
        picked.push_reserved(items[*index as usize]);
    }
    Ok(picked)
}

// Puts the item at each of these indices in its place. It takes no memory.
fn replaced(items: &[u32], indices: Vec<u32>) -> Vec<u32>
    requires { All (λ i. i < length items.now) indices.items }
    ensures { result.items ≡ map (slice_index items.now) indices.items }
{
    let mut found = indices;
    for k in 0..found.len() {
        let index = found[k] as usize;
        found[k] = items[index];
    }
    found
}

/// The ranks of the column's atoms. They take the memory of the groups' numbers.
pub(crate) fn ranked(alloc: Global, column: &Vector) -> Result<Ranking, NoMemory>
    ensures { IfOk result (λ r. IsRanking atom_cmp column.now.atoms r.ranks.items r.firsts.items) }
{
    let groups = Groups::of(alloc, column)?;
    let places = ranks_of(alloc, groups.sorted())?;
    let firsts = picked(alloc, groups.firsts(), groups.sorted())?;
    let ranks = replaced(&places, groups.into_codes());
    Ok(Ranking { ranks, firsts })
}

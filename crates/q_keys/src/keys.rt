//! Rows grouped by their keys: column after column from the last one on, each rank beside that of the columns after it.
ghost use Rattle.std.specs.Prelude.{◌≡◌, ◌∷◌, ◌==◌, ℕ, ◌*◌, ◌<◌, ◌≤◌, ◌^◌, List, length, map, slice_index, All, IfOk, IfSome};
ghost use Rattle.std.specs.Simd.Lanes.{zip2};
ghost use Rattle.q_values.specs.Table.{rows_of};
ghost use Rattle.q_values.specs.declared.atom.Atom.{Atom};
ghost use Rattle.q_values.specs.Order.{atom_cmp};
ghost use Rattle.q_keys.specs.Cells.{cell_of};
ghost use Rattle.q_keys.specs.Keys.{key_cmp, key_rows, codes_in, firsts_in};
ghost use Rattle.q_keys.specs.Pairs.{pair_number};
ghost use Rattle.q_keys.specs.Ranking.{IsRanking};

use crate::cells::ranked_cells;
use crate::ranking::{Ranking, ranked};
use q_values::{Column, LongKind, NoMemory, Vector};
use std::alloc::Global;
use std::marker::Model;

// Takes the ranks of 32 bits to the signed numbers of 32 bits, in order.
const MIDDLE: i64 = 2_147_483_648;

// As many ranks as 32 bits tell apart.
const RANKS: i64 = 4_294_967_296;

// The most rows that 32 bits number, with a number to spare.
const MOST_ROWS: usize = 4_294_967_295;

// A table of this many cells is small beside any number of rows.
const FEW_CELLS: usize = 4_096;

// A table of more cells has at least this many rows for each of them.
const ROWS_A_CELL: usize = 4;

/// Rows grouped by their keys, the groups in ascending order of the keys.
#[derive(Drop)]
pub struct KeyGroups {
    // the number of each row's group
    codes: Vec<u32>,
    // for each group the index of its first row
    firsts: Vec<u32>,
}

impl Model for KeyGroups {
    ghost use Rattle.q_keys.specs.Keys.{KeyGrouping, IsKeyGrouping};

    ghost Value = { KeyGrouping };

    ghost view = { λ g. record { codes = g.codes.items; firsts = g.firsts.items } };

    ghost invariant = { λ g. IsKeyGrouping (record { codes = g.codes.items; firsts = g.firsts.items }) };
}

// Two ranks as one number, in the order of the pairs.
fn paired(first: u32, next: u32) -> i64
    ensures { result ≡ pair_number first next }
{
    (i64::from(first) - MIDDLE) * RANKS + i64::from(next)
}

// The numbers of the pairs of ranks.
fn pairs_of(alloc: Global, firsts: Vec<u32>, nexts: Vec<u32>) -> Result<Vec<i64>, NoMemory>
    requires { length nexts.items ≡ length firsts.items }
    ensures pairs { IfOk result (λ v. v.items ≡ zip2 pair_number firsts.items nexts.items) }
    ensures fit { IfOk result (λ _. (k : ℕ) → k < length nexts.items → slice_index nexts.items k < 2 ^ 32) }
{
    let mut pairs = Vec::with_capacity(alloc, firsts.len())?;
    for i in 0..firsts.len() {
        pairs.push_reserved(paired(firsts[i], nexts[i]));
    }
    Ok(pairs)
}

// The number of cells of a table with a row for each of the first ranks and a cell in it for each of the next ones, where it
// is small beside the rows.
fn table_size(firsts: usize, nexts: usize, rows: usize) -> Option<usize>
    ensures size { IfSome result (λ count. count ≡ firsts * nexts) }
    ensures small { IfSome result (λ count. count ≤ 4294967295) }
    ensures few { IfSome result (λ _. rows ≤ 4294967295) }
{
    let count = firsts.checked_mul(nexts)?;
    if rows <= MOST_ROWS && count <= FEW_CELLS.max(rows / ROWS_A_CELL) {
        Some(count)
    } else {
        None
    }
}

// The cells of the pairs of ranks, in a table of `count` cells with `width` cells a row.
fn cells_of(
    alloc: Global,
    firsts: Vec<u32>,
    nexts: Vec<u32>,
    width: usize,
    count: usize,
) -> Result<Vec<u32>, NoMemory>
    requires even { length nexts.items ≡ length firsts.items }
    requires small { count ≤ 4294967295 }
    requires within { (k : ℕ) → k < length firsts.items → cell_of width (slice_index firsts.items k) (slice_index nexts.items k) < count }
    ensures { IfOk result (λ v. v.items ≡ zip2 (cell_of width) firsts.items nexts.items) }
{
    let mut cells = Vec::with_capacity(alloc, firsts.len())?;
    for i in 0..firsts.len() {
        let cell = firsts[i] as usize * width + nexts[i] as usize;
        cells.push_reserved(cell as u32);
    }
    Ok(cells)
}

// The ranks of the pairs of ranks, by a table of `count` cells.
fn refined_by_table(
    alloc: Global,
    first: Ranking,
    rest: Ranking,
    count: usize,
) -> Result<Ranking, NoMemory>
    requires even { length rest.ranks.items ≡ length first.ranks.items }
    requires few { length first.ranks.items ≤ 4294967295 }
    requires small { count ≤ 4294967295 }
    requires count { count ≡ length first.firsts.items * length rest.firsts.items }
    requires first { (k : ℕ) → k < length first.ranks.items → slice_index first.ranks.items k < length first.firsts.items }
    requires rest { (k : ℕ) → k < length rest.ranks.items → slice_index rest.ranks.items k < length rest.firsts.items }
    ensures { IfOk result (λ r. (atoms : List Atom) (rows : List (List Atom))
        → IsRanking atom_cmp atoms first.ranks.items first.firsts.items → IsRanking key_cmp rows rest.ranks.items rest.firsts.items
        → IsRanking key_cmp (zip2 (λ (x : Atom) (key : List Atom). x ∷ key) atoms rows) r.ranks.items r.firsts.items) }
{
    let width = rest.firsts.len();
    let cells = cells_of(alloc, first.ranks, rest.ranks, width, count)?;
    let ranking = ranked_cells(alloc, &cells, count)?;
    Ok(ranking)
}

// The ranks of the pairs of ranks, by numbers of 64 bits.
fn refined_by_number(alloc: Global, first: Ranking, rest: Ranking) -> Result<Ranking, NoMemory>
    requires even { length rest.ranks.items ≡ length first.ranks.items }
    ensures { IfOk result (λ r. (atoms : List Atom) (rows : List (List Atom))
        → IsRanking atom_cmp atoms first.ranks.items first.firsts.items → IsRanking key_cmp rows rest.ranks.items rest.firsts.items
        → IsRanking key_cmp (zip2 (λ (x : Atom) (key : List Atom). x ∷ key) atoms rows) r.ranks.items r.firsts.items) }
{
    let pairs = pairs_of(alloc, first.ranks, rest.ranks)?;
    let numbers = Vector::from_column(Column::Longs(LongKind::Long, pairs));
    let ranking = ranked(alloc, &numbers)?;
    Ok(ranking)
}

// The ranks of the keys that have an item of the column in front of the rest.
fn refined(alloc: Global, column: &Vector, rest: Ranking) -> Result<Ranking, NoMemory>
    requires even { length rest.ranks.items ≡ length column.now.atoms }
    requires rest { (k : ℕ) → k < length rest.ranks.items → slice_index rest.ranks.items k < length rest.firsts.items }
    ensures { IfOk result (λ r. (rows : List (List Atom)) → IsRanking key_cmp rows rest.ranks.items rest.firsts.items
        → IsRanking key_cmp (zip2 (λ (x : Atom) (key : List Atom). x ∷ key) column.now.atoms rows) r.ranks.items r.firsts.items) }
{
    let first = ranked(alloc, column)?;
    match table_size(first.firsts.len(), rest.firsts.len(), first.ranks.len()) {
        Some(count) => refined_by_table(alloc, first, rest, count),
        None => refined_by_number(alloc, first, rest),
    }
}

// Lends the columns.
fn lent(alloc: Global, columns: &[Vector]) -> Result<Vec<&Vector>, NoMemory>
    ensures { IfOk result (λ v. map (λ c. c.now) v.items ≡ columns.now) }
{
    let mut found = Vec::with_capacity(alloc, columns.len())?;
    for column in columns {
        found.push_reserved(column);
    }
    Ok(found)
}

impl KeyGroups {
    /// The groups of the rows that these key columns have, which are of one length.
    pub fn of(alloc: Global, columns: &[Vector]) -> Result<KeyGroups, NoMemory>
        requires some { 0 < length columns.now }
        requires even { All (λ c. length c.atoms ≡ rows_of columns.now) columns.now }
        ensures codes { IfOk result (λ g. g.codes ≡ codes_in (key_rows (rows_of columns.now) columns.now)) }
        ensures firsts { IfOk result (λ g. g.firsts ≡ firsts_in (key_rows (rows_of columns.now) columns.now)) }
    {
        let columns = lent(alloc, columns)?;
        let groups = KeyGroups::of_lent(alloc, &columns)?;
        Ok(groups)
    }

    /// The same of key columns that are lent.
    pub fn of_lent(alloc: Global, columns: &[&Vector]) -> Result<KeyGroups, NoMemory>
        requires some { 0 < length columns.now }
        requires even { All (λ c. length c.atoms ≡ rows_of (map (λ c. c.now) columns.now)) (map (λ c. c.now) columns.now) }
        ensures codes { IfOk result (λ g. g.codes ≡ codes_in (key_rows (rows_of (map (λ c. c.now) columns.now)) (map (λ c. c.now) columns.now))) }
        ensures firsts { IfOk result (λ g. g.firsts ≡ firsts_in (key_rows (rows_of (map (λ c. c.now) columns.now)) (map (λ c. c.now) columns.now))) }
    {
        let mut left = columns.len() - 1;
        let mut ranking = ranked(alloc, columns[left])?;
        while left > 0 {
            left -= 1;
            ranking = refined(alloc, columns[left], ranking)?;
        }
        let Ranking { ranks, firsts } = ranking;
        Ok(KeyGroups {
            codes: ranks,
            firsts,
        })
    }

    /// The number of groups.
    pub fn len(&self) -> usize
        ensures { result ≡ length self.now.firsts }
    {
        self.firsts.len()
    }

    /// Whether there are no groups, as where there are no rows.
    pub fn is_empty(&self) -> bool
        ensures { result ≡ (length self.now.firsts == 0) }
    {
        self.firsts.is_empty()
    }

    /// The number of each row's group.
    pub fn codes(&self) -> &[u32]
        ensures codes { result.now ≡ self.now.codes }
        ensures within { All (λ c. c < length self.now.firsts) result.now }
    {
        &self.codes
    }

    /// For each group the index of its first row.
    pub fn firsts(&self) -> &[u32]
        ensures firsts { result.now ≡ self.now.firsts }
        ensures within { All (λ f. f < length self.now.codes) result.now }
    {
        &self.firsts
    }
}

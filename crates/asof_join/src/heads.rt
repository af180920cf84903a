//! The keys but the last of both sides as numbers: rows have one number where these keys are equal.
ghost use Rattle.std.specs.Prelude.{◌≡◌, [], map, IfOk, All};
ghost use Rattle.q_values.specs.Table.{rows_of};
ghost use Rattle.q_keys.specs.Keys.{key_rows};
ghost use Rattle.asof_join.specs.Asof.{column_named};
ghost use Rattle.asof_join.specs.Heads.{IsKey, AreHeads, codes_of, groups_of};
ghost use Rattle.asof_join.specs.Views.{grid_in};

use crate::both::both_columns;
use q_keys::KeyGroups;
use q_values::{NoMemory, Sym, TableValue};
use std::alloc::Global;

/// The number of each row's group, of the left side and then of the right one.
#[derive(Drop)]
pub(crate) enum Heads {
    /// The groups of rows with equal keys.
    Grouped(KeyGroups),
    /// One group of all rows.
    Alone(Vec<u32>),
}

fn rows_in(table: &TableValue) -> usize
    ensures { result ≡ rows_of table.now.columns }
{
    table.columns.at(0).len()
}

// One group of the rows of both tables.
fn one_group(alloc: Global, left: &TableValue, right: &TableValue) -> Result<Heads, NoMemory>
    ensures { IfOk result (λ h. AreHeads (key_rows (rows_of left.now.columns) []) (key_rows (rows_of right.now.columns) []) (codes_of h) (groups_of h)) }
{
    let Some(rows) = rows_in(left).checked_add(rows_in(right)) else {
        return Err(NoMemory);
    };
    let codes = vec![in alloc; 0u32; rows]?;
    Ok(Heads::Alone(codes))
}

impl Heads {
    /// The groups of the rows of both tables by the columns with these names.
    pub fn of(
        alloc: Global,
        names: &[Sym],
        left: &TableValue,
        right: &TableValue,
    ) -> Result<Heads, NoMemory>
        requires { All (IsKey (grid_in left.now) (grid_in right.now)) names.now }
        ensures { IfOk result (λ h. AreHeads
            (key_rows (rows_of left.now.columns) (map (column_named (grid_in left.now)) names.now))
            (key_rows (rows_of right.now.columns) (map (column_named (grid_in right.now)) names.now))
            (codes_of h) (groups_of h)) }
    {
        if names.is_empty() {
            return one_group(alloc, left, right);
        }
        let columns = both_columns(alloc, names, left, right)?;
        let groups = KeyGroups::of(alloc, &columns)?;
        let _within = groups.codes();
        Ok(Heads::Grouped(groups))
    }

    /// The number of each row's group, of the left side and then of the right one.
    pub fn codes(&self) -> &[u32]
        ensures { result.now ≡ codes_of self.now }
    {
        match self {
            Heads::Grouped(groups) => groups.codes(),
            Heads::Alone(codes) => codes.as_slice(),
        }
    }

    /// The number of groups.
    pub fn groups(&self) -> usize
        ensures { result ≡ groups_of self.now }
    {
        match self {
            Heads::Grouped(groups) => groups.len(),
            Heads::Alone(_) => 1,
        }
    }
}

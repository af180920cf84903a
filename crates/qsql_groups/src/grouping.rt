//! Rows in groups: their keys, the number of each row's group, and the rows of each group.
ghost use Rattle.std.specs.Prelude.{◌≡◌, ◌<◌, map, length, All, IfOk};
ghost use Rattle.q_values.specs.Table.{rows_of};
ghost use Rattle.qsql_request.specs.Views.{form, column_form};
ghost use Rattle.qsql_values.specs.Frames.{AreColumns, frame_of, rows_at};
ghost use Rattle.qsql_values.specs.Operands.{contents_of, operand_tree};
ghost use Rattle.qsql_values.specs.Places.{column_at};
ghost use Rattle.qsql_values.specs.Values.{items_in};
ghost use Rattle.qsql_groups.specs.Groups.{key_columns, groups, groups_by, parts, parts_of, last_row};
ghost use Rattle.qsql_groups.specs.Ready.{IsKey};

use q_keys::{GroupRows, KeyGroups};
use q_values::{NoMemory, Sym, Vector};
use qsql_request::Col;
use qsql_values::{Held, Operand, Scope, value_of};
use std::alloc::Global;
use std::marker::Model;

/// Rows grouped by the columns after `by`. The columns of the rows are lent, and no row is copied.
#[derive(Drop)]
pub struct Grouping<'a> {
    // a name for each column
    names: &'a [Sym],
    // the columns of the rows, of one length
    columns: &'a [Vector],
    // the key columns, with one item for each group
    keys: Vec<Vector>,
    // the number of each row's group, and each group's first row
    groups: KeyGroups,
}

impl<'a> Model for Grouping<'a> {
    ghost use Rattle.qsql_values.specs.Frames.{frame_of};
    ghost use Rattle.qsql_groups.specs.Groups.{Groups, AreGroups};

    ghost Value = { Groups };

    ghost view = { λ g. record {
      rows = frame_of g.names.now g.columns.now;
      keys = g.keys.items;
      codes = g.groups.codes;
      firsts = g.groups.firsts;
    } };

    ghost invariant = { λ g. AreGroups g.names.now g.columns.now g.keys.items g.groups.codes g.groups.firsts };
}

/// The same numbers, as indices.
pub(crate) fn indices(alloc: Global, numbers: &[u32]) -> Result<Vec<usize>, NoMemory>
    ensures { IfOk result (λ v. v.items ≡ numbers.now) }
{
    let mut found = Vec::with_capacity(alloc, numbers.len())?;
    for number in numbers {
        found.push_reserved(*number as usize);
    }
    Ok(found)
}

// A key column: lent where it is a column of the rows.
fn key_of<'a>(alloc: Global, value: Operand<'a>) -> Result<Held<'a>, NoMemory>
    ensures { IfOk result (λ h. contents_of h ≡ items_in (operand_tree value.entry)) }
{
    match value {
        Operand::Atom(atom) => Ok(Held::Made(Operand::Atom(atom).into_items(alloc)?)),
        Operand::Column(held) => Ok(held),
    }
}

// The key columns: the values of the columns after `by`.
fn keys_of<'a>(alloc: Global, by: &'a [Col], scope: &Scope<'a>) -> Result<Vec<Held<'a>>, NoMemory>
    requires { All (λ c. IsKey scope.now (form c.expr)) by.now }
    ensures { IfOk result (λ v. map contents_of v.items ≡ key_columns (map column_form by.now) scope.now) }
{
    let mut keys = Vec::with_capacity(alloc, by.len())?;
    for column in by {
        let value = value_of(alloc, &column.expr, scope)?;
        keys.push(key_of(alloc, value)?)?;
    }
    Ok(keys)
}

// Lends the columns.
fn lent<'a>(alloc: Global, keys: &'a [Held<'_>]) -> Result<Vec<&'a Vector>, NoMemory>
    ensures { IfOk result (λ v. map (λ c. c.now) v.items ≡ map contents_of keys.now) }
{
    let mut columns = Vec::with_capacity(alloc, keys.len())?;
    for key in keys {
        columns.push_reserved(key.vector());
    }
    Ok(columns)
}

// The items of each key column at each group's first row.
fn keys_at(alloc: Global, keys: &[&Vector], firsts: &[u32]) -> Result<Vec<Vector>, NoMemory>
    requires { All (λ c. All (λ f. f < length c.atoms) firsts.now) (map (λ c. c.now) keys.now) }
    ensures { IfOk result (λ v. v.items ≡ map (column_at firsts.now) (map (λ c. c.now) keys.now)) }
{
    let places = indices(alloc, firsts)?;
    let mut gathered = Vec::with_capacity(alloc, keys.len())?;
    for key in keys {
        gathered.push(key.gather(alloc, &places)?)?;
    }
    Ok(gathered)
}

// The rows of these columns, grouped by these key columns.
fn grouped<'a>(
    alloc: Global,
    keys: &[&Vector],
    names: &'a [Sym],
    columns: &'a [Vector],
) -> Result<Grouping<'a>, NoMemory>
    requires columns { AreColumns names.now columns.now }
    requires some { 0 < length keys.now }
    requires even { All (λ c. length c.atoms ≡ rows_of columns.now) (map (λ c. c.now) keys.now) }
    ensures { IfOk result (λ g. g ≡ groups_by (frame_of names.now columns.now) (map (λ c. c.now) keys.now)) }
{
    let groups = KeyGroups::of_lent(alloc, keys)?;
    let keys = keys_at(alloc, keys, groups.firsts())?;
    Ok(Grouping {
        names,
        columns,
        keys,
        groups,
    })
}

// The last row of each group.
fn last_rows(alloc: Global, codes: &[u32], groups: usize) -> Result<Vec<usize>, NoMemory>
    requires { All (λ c. c < groups) codes.now }
    ensures { IfOk result (λ v. v.items ≡ map last_row (parts codes.now groups)) }
{
    let mut places = vec![in alloc; 0usize; groups]?;
    for row in 0..codes.len() {
        places[codes[row] as usize] = row;
    }
    Ok(places)
}

impl<'a> Grouping<'a> {
    /// The rows of these columns, grouped by the columns after `by`.
    pub fn of(
        alloc: Global,
        by: &[Col],
        names: &'a [Sym],
        columns: &'a [Vector],
    ) -> Result<Grouping<'a>, NoMemory>
        requires columns { AreColumns names.now columns.now }
        requires some { 0 < length by.now }
        requires keys { All (λ c. IsKey (frame_of names.now columns.now) (form c.expr)) by.now }
        ensures { IfOk result (λ g. g ≡ groups (map column_form by.now) (frame_of names.now columns.now)) }
    {
        let scope = Scope::new(names, columns);
        let keys = keys_of(alloc, by, &scope)?;
        let lent = lent(alloc, &keys)?;
        let grouping = grouped(alloc, &lent, names, columns)?;
        Ok(grouping)
    }

    /// The number of groups.
    pub fn len(&self) -> usize
        ensures { result ≡ length self.now.firsts }
    {
        self.groups.len()
    }

    /// All rows.
    pub fn rows(&self) -> Scope<'a>
        ensures { result ≡ self.now.rows }
    {
        Scope::new(self.names, self.columns)
    }

    /// These rows.
    pub fn rows_at<'b>(&'b self, places: &'b [usize]) -> Scope<'b>
        requires { All (λ p. p < length self.now.rows.rows) places.now }
        ensures { result ≡ rows_at places.now self.now.rows }
    {
        Scope::at(self.names, self.columns, places)
    }

    /// The number of each row's group, and each group's first row.
    pub(crate) fn groups(&self) -> &KeyGroups
        ensures codes { result.now.codes ≡ self.now.codes }
        ensures firsts { result.now.firsts ≡ self.now.firsts }
        ensures size { length self.now.codes ≡ length self.now.rows.rows }
        ensures within { All (λ c. c < length self.now.firsts) self.now.codes }
    {
        &self.groups
    }

    /// The rows of each group, by their indices.
    pub(crate) fn parts(&self, alloc: Global) -> Result<GroupRows, NoMemory>
        ensures parts { IfOk result (λ v. v ≡ parts_of self.now) }
        ensures within { All (λ part. All (λ p. p < length self.now.rows.rows) part) (parts_of self.now) }
    {
        self.groups.rows(alloc)
    }

    /// The index of each group's last row.
    pub fn last_rows(&self, alloc: Global) -> Result<Vec<usize>, NoMemory>
        ensures last { IfOk result (λ v. v.items ≡ map last_row (parts_of self.now)) }
        ensures within { IfOk result (λ v. All (λ p. p < length self.now.rows.rows) v.items) }
    {
        let places = last_rows(alloc, self.groups.codes(), self.groups.len())?;
        Ok(places)
    }

    /// The key columns, with one item for each group.
    pub fn keys(&self, alloc: Global) -> Result<Vec<Vector>, NoMemory>
        ensures keys { IfOk result (λ v. v.items ≡ self.now.keys) }
        ensures even { All (λ c. length c.atoms ≡ length self.now.firsts) self.now.keys }
    {
        let mut keys = Vec::with_capacity(alloc, self.keys.len())?;
        for key in &self.keys {
            keys.push(key.take(alloc, 0, key.len())?)?;
        }
        Ok(keys)
    }
}

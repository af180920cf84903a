//! The last keys of both sides as numbers that compare as the keys do.
ghost use Rattle.std.specs.Prelude.{◌≡◌, ◌≢◌, map, pos, if◌then◌else◌, IfOk};
ghost use Rattle.q_values.specs.Column.{contents};
ghost use Rattle.q_values.specs.declared.kind.Kind.TheVariants as k;
ghost use Rattle.asof_join.specs.Lasts.{number_of, numbers_in, AreNumbers};

use crate::both::appended;
use q_keys::KeyGroups;
use q_values::{Column, Kind, NoMemory, Vector};
use std::alloc::Global;

/// Numbers that are lent, or made.
#[derive(Drop)]
pub(crate) enum Numbers<'a> {
    /// Lent ones.
    Lent(&'a [i64]),
    /// Numbers that were made.
    Made(Vec<i64>),
}

impl<'a> Numbers<'a> {
    /// Lends the numbers.
    pub fn as_slice(&self) -> &[i64]
        ensures { result.now ≡ numbers_in self.now }
    {
        match self {
            Numbers::Lent(numbers) => numbers,
            Numbers::Made(numbers) => numbers.as_slice(),
        }
    }
}

/// The last keys of both sides.
#[derive(Drop)]
pub(crate) struct Lasts<'a> {
    /// Those of the left side.
    pub left: Numbers<'a>,
    /// Those of the right side.
    pub right: Numbers<'a>,
}

fn of_booleans(alloc: Global, items: &[bool]) -> Result<Vec<i64>, NoMemory>
    ensures { IfOk result (λ v. v.items ≡ map (λ x. pos (if x then 1 else 0)) items.now) }
{
    let mut numbers = Vec::with_capacity(alloc, items.len())?;
    for item in items {
        numbers.push_reserved(i64::from(*item));
    }
    Ok(numbers)
}

fn of_bytes(alloc: Global, items: &[u8]) -> Result<Vec<i64>, NoMemory>
    ensures { IfOk result (λ v. v.items ≡ map (λ x. pos x) items.now) }
{
    let mut numbers = Vec::with_capacity(alloc, items.len())?;
    for item in items {
        numbers.push_reserved(i64::from(*item));
    }
    Ok(numbers)
}

fn of_shorts(alloc: Global, items: &[i16]) -> Result<Vec<i64>, NoMemory>
    ensures { IfOk result (λ v. v.items ≡ items.now) }
{
    let mut numbers = Vec::with_capacity(alloc, items.len())?;
    for item in items {
        numbers.push_reserved(i64::from(*item));
    }
    Ok(numbers)
}

fn of_integers(alloc: Global, items: &[i32]) -> Result<Vec<i64>, NoMemory>
    ensures { IfOk result (λ v. v.items ≡ items.now) }
{
    let mut numbers = Vec::with_capacity(alloc, items.len())?;
    for item in items {
        numbers.push_reserved(i64::from(*item));
    }
    Ok(numbers)
}

// The numbers of a column that holds no symbols.
fn numbers_of<'a>(alloc: Global, column: &'a Column) -> Result<Numbers<'a>, NoMemory>
    requires { (contents column.now).kind ≢ k.Symbol }
    ensures { IfOk result (λ n. numbers_in n ≡ map number_of (contents column.now).atoms) }
{
    match column {
        Column::Booleans(items) => Ok(Numbers::Made(of_booleans(alloc, items)?)),
        Column::Bytes(_, items) => Ok(Numbers::Made(of_bytes(alloc, items)?)),
        Column::Shorts(items) => Ok(Numbers::Made(of_shorts(alloc, items)?)),
        Column::Integers(_, items) => Ok(Numbers::Made(of_integers(alloc, items)?)),
        Column::Longs(_, items) => Ok(Numbers::Lent(items)),
        Column::Symbols(_) => unreachable!(),
    }
}

// Ranks as numbers.
fn of_ranks(alloc: Global, ranks: &[u32]) -> Result<Vec<i64>, NoMemory>
    ensures { IfOk result (λ v. v.items ≡ map (λ x. pos x) ranks.now) }
{
    let mut numbers = Vec::with_capacity(alloc, ranks.len())?;
    for rank in ranks {
        numbers.push_reserved(i64::from(*rank));
    }
    Ok(numbers)
}

// The ranks of the items of both columns among all of them.
fn ranks_of<'a>(alloc: Global, left: &'a Vector, right: &'a Vector) -> Result<Lasts<'a>, NoMemory>
    requires { right.now.kind ≡ left.now.kind }
    ensures { IfOk result (λ l. AreNumbers left.now.atoms right.now.atoms (numbers_in l.left) (numbers_in l.right)) }
{
    let mut columns = Vec::new(alloc);
    columns.push(appended(alloc, left, right)?)?;
    let groups = KeyGroups::of(alloc, &columns)?;
    let (of_left, of_right) = groups.codes().split_at(left.len());
    let left = Numbers::Made(of_ranks(alloc, of_left)?);
    let right = Numbers::Made(of_ranks(alloc, of_right)?);
    Ok(Lasts { left, right })
}

impl<'a> Lasts<'a> {
    /// The last keys of both sides: numbers are themselves, and symbols are ranked together.
    pub fn of(alloc: Global, left: &'a Vector, right: &'a Vector) -> Result<Lasts<'a>, NoMemory>
        requires { right.now.kind ≡ left.now.kind }
        ensures { IfOk result (λ l. AreNumbers left.now.atoms right.now.atoms (numbers_in l.left) (numbers_in l.right)) }
    {
        if left.kind() == Kind::Symbol {
            return ranks_of(alloc, left, right);
        }
        let _kind = right.kind();
        let of_left = numbers_of(alloc, left.column())?;
        let of_right = numbers_of(alloc, right.column())?;
        Ok(Lasts {
            left: of_left,
            right: of_right,
        })
    }
}

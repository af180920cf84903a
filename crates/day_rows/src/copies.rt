//! A table's column, joined from blocks, and its symbols where the blocks keep them.
ghost use Rattle.std.specs.Prelude.{◌≡◌, ◌≤◌, ◌-◌, ◌++◌, length, map, take, drop, IfOk, OnOk};
ghost use Rattle.std.specs.List.{flat_map};
ghost use Rattle.q_values.specs.declared.atom.Atom.TheVariants as a;
ghost use Rattle.day_rows.specs.Joined.{joined};

use crate::block::Block;
use q_values::{Column, Kind, NoMemory, Symbols, Vector};
use std::alloc::Global;

// Appends at most `left` of the atoms of `more`, after skipping the first `skip` of them.
fn append_part(found: &mut Vector, more: &Vector, skip: usize, left: usize) -> Result<(), NoMemory>
    ensures ok { OnOk result (found.new
        ≡ record found.old { atoms = found.old.atoms ++ take left (drop skip more.now.atoms) }) }
{
    let start = skip.min(more.len());
    let count = left.min(more.len() - start);
    if count > 0 && found.append_part(more, start, count).is_err() {
        return Err(NoMemory);
    }
    Ok(())
}

/// Appends what a block adds to a part that should have `n` atoms, where the first `skip` atoms from here on don't belong
/// to it. Returns how many are still to be skipped after the block.
pub fn append_block(
    found: &mut Vector,
    block: &Block,
    table: u32,
    column: usize,
    skip: usize,
    n: usize,
) -> Result<usize, NoMemory>
    requires { length found.old.atoms ≤ n }
    ensures ok { OnOk result (found.new ≡ record found.old {
      atoms = found.old.atoms
          ++ take (n - length found.old.atoms) (drop skip (joined table column block.now));
    }) }
    ensures skip { IfOk result (λ left. left ≡ skip - length (joined table column block.now)) }
{
    match block.column(table, column) {
        Some(more) => {
            let left = n - found.len();
            append_part(found, more, skip, left)?;
            Ok(skip.saturating_sub(more.len()))
        }
        None => Ok(skip),
    }
}

/// The `n` atoms from the row `from` on of a table's column in the blocks; fewer where it ends before.
pub fn join_blocks(
    alloc: Global,
    blocks: &[&Block],
    table: u32,
    column: usize,
    kind: Kind,
    from: usize,
    n: usize,
) -> Result<Vector, NoMemory>
    ensures { IfOk result (λ found. found ≡ record {
      kind = kind;
      atoms = take n (drop from (joined table column (flat_map (λ block. block.now) blocks.now)));
    }) }
{
    let mut found = Vector::new(alloc, kind);
    found.reserve(n)?;
    let mut skip = from;
    for block in blocks {
        skip = append_block(&mut found, block, table, column, skip, n)?;
    }
    Ok(found)
}

/// Puts the symbols of a block's column at the end, lent; nothing where the block has none. A column of another kind answers
/// `NoMemory`: it is called for `sym` alone, which is of symbols in each update of a day.
pub fn add_symbols<'a>(
    parts: &mut Vec<&'a Symbols>,
    block: &'a Block,
    table: u32,
    column: usize,
) -> Result<(), NoMemory>
    ensures { OnOk result (map (λ t. a.Symbol t) (flat_map (λ part. part.now) parts.new.items)
        ≡ map (λ t. a.Symbol t) (flat_map (λ part. part.now) parts.old.items) ++ joined table column block.now) }
{
    let Some(found) = block.column(table, column) else {
        return Ok(());
    };
    let Column::Symbols(symbols) = found.column() else {
        return Err(NoMemory);
    };
    parts.push(symbols)?;
    Ok(())
}

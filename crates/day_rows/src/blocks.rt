//! The full blocks of a date, in pieces that days share.
ghost use Rattle.std.specs.Prelude.{◌≡◌, ◌≤◌, ◌++◌, [], ◌∷◌, length, map, take, slice_get, option_copied, IfOk, IfErr, OnOk, OnErr};

use crate::block::{Block, SharedBlock};
use q_values::NoMemory;
use std::alloc::Global;
use std::marker::Model;
use std::mem;
use std::sync::Arc;

// The number of blocks of a piece.
const PIECE: usize = 128;

/// Consecutive blocks that several days may share as one. Contracts see the updates of each.
#[derive(Drop)]
struct Piece {
    // the blocks, which are never changed
    blocks: Arc<Vec<SharedBlock>>,
}

impl Model for Piece {
    ghost use Rattle.std.specs.Prelude.{List};
    ghost use Rattle.day_rows.specs.declared.entry.Entry.{Entry};

    ghost Value = { List (List Entry) };

    ghost view = { λ p. p.blocks.value.items };
}

impl Piece {
    // These blocks, which are moved and not copied. An error gives them back.
    fn new(alloc: Global, blocks: Vec<SharedBlock>) -> Result<Piece, Vec<SharedBlock>>
        ensures ok { IfOk result (λ piece. piece ≡ blocks.items) }
        ensures err { IfErr result (λ back. back.items ≡ blocks.items) }
    {
        match Arc::new(alloc, blocks) {
            Ok(blocks) => Ok(Piece { blocks }),
            Err(failed) => Err(failed.value),
        }
    }

    // The blocks.
    fn blocks(&self) -> &[SharedBlock]
        ensures { result.now ≡ self.now }
    {
        self.blocks.as_slice()
    }

    // The same piece, which is shared and not copied.
    fn share(&self) -> Result<Piece, NoMemory>
        ensures { IfOk result (λ shared. shared ≡ self.now) }
    {
        Ok(Piece {
            blocks: self.blocks.clone()?,
        })
    }
}

// The same pieces, which are shared and not copied.
fn share_pieces(alloc: Global, pieces: &[Piece]) -> Result<Vec<Piece>, NoMemory>
    ensures { IfOk result (λ shared. shared.items ≡ pieces.now) }
{
    let mut shared = Vec::with_capacity(alloc, pieces.len())?;
    for piece in pieces {
        shared.push(piece.share()?)?;
    }
    Ok(shared)
}

// The same blocks, which are shared and not copied.
fn share_blocks(alloc: Global, blocks: &[SharedBlock]) -> Result<Vec<SharedBlock>, NoMemory>
    ensures { IfOk result (λ shared. shared.items ≡ blocks.now) }
{
    let mut shared = Vec::with_capacity(alloc, blocks.len())?;
    for block in blocks {
        shared.push(block.share()?)?;
    }
    Ok(shared)
}

// The block with this index, if there is one.
fn block_at(blocks: &[SharedBlock], index: usize) -> Option<&Block>
    ensures { option_copied result ≡ slice_get blocks.now index }
{
    if index < blocks.len() {
        return Some(blocks[index].block());
    }
    None
}

// Appends a block. An error changes nothing, and gives it back.
fn push_block(alloc: Global, blocks: &mut Vec<SharedBlock>, block: Block) -> Result<(), Block>
    ensures ok { OnOk result (blocks.new.items ≡ blocks.old.items ++ block ∷ []) }
    ensures err { OnErr result (blocks.new.items ≡ blocks.old.items) }
    ensures back { IfErr result (λ back. back ≡ block) }
{
    if blocks.reserve(1).is_err() {
        return Err(block);
    }
    let shared = SharedBlock::new(alloc, block)?;
    blocks.push_reserved(shared);
    Ok(())
}

// Appends the blocks, lent.
fn lend_blocks<'a>(lent: &mut Vec<&'a Block>, blocks: &'a [SharedBlock]) -> Result<(), NoMemory>
    ensures { OnOk result (map (λ block. block.now) lent.new.items ≡ map (λ block. block.now) lent.old.items ++ blocks.now) }
{
    for block in blocks {
        lent.push(block.block())?;
    }
    Ok(())
}

/// Full blocks, in order. Copies share pieces of 128 blocks, and each block after them. Contracts see the updates of each
/// block.
#[derive(Drop)]
pub struct Blocks {
    // pieces of 128 blocks each, in order
    pieces: Vec<Piece>,
    // the blocks after them
    rest: Vec<SharedBlock>,
}

impl Model for Blocks {
    ghost use Rattle.std.specs.Prelude.{List, ◌++◌};
    ghost use Rattle.std.specs.List.{AllByRecursion, flat_map};
    ghost use Rattle.day_rows.specs.declared.entry.Entry.{Entry};

    ghost Value = { List (List Entry) };

    ghost use Rattle.day_rows.specs.Blocks.{IsPiece};

    ghost view = { λ b. flat_map (λ piece. piece) b.pieces.items ++ b.rest.items };

    ghost invariant = { λ b. AllByRecursion IsPiece b.pieces.items };
}

impl Blocks {
    /// No blocks. It takes no memory.
    pub fn new(alloc: Global) -> Blocks
        ensures { result ≡ [] }
    {
        Blocks {
            pieces: Vec::new(alloc),
            rest: Vec::new(alloc),
        }
    }

    // Makes a piece of the blocks after the last one, where they are as many. An error changes nothing.
    fn close_piece(&mut self, alloc: Global) -> Result<(), NoMemory>
        ensures { self.new ≡ self.old }
    {
        if self.rest.len() != PIECE {
            return Ok(());
        }
        self.pieces.reserve(1)?;
        let full = mem::replace(&mut self.rest, Vec::new(alloc));
        match Piece::new(alloc, full) {
            Ok(piece) => {
                self.pieces.push_reserved(piece);
                Ok(())
            }
            Err(full) => {
                self.rest = full;
                Err(NoMemory)
            }
        }
    }

    /// Appends a block. An error changes nothing, and gives it back.
    pub fn push(&mut self, alloc: Global, block: Block) -> Result<(), Block>
        ensures ok { OnOk result (self.new ≡ self.old ++ block ∷ []) }
        ensures err { OnErr result (self.new ≡ self.old) }
        ensures back { IfErr result (λ back. back ≡ block) }
    {
        if self.close_piece(alloc).is_err() {
            return Err(block);
        }
        push_block(alloc, &mut self.rest, block)
    }

    /// The block with this index, if there is one.
    pub fn get(&self, index: usize) -> Option<&Block>
        ensures { option_copied result ≡ slice_get self.now index }
    {
        let piece = index / PIECE;
        if piece < self.pieces.len() {
            return block_at(self.pieces[piece].blocks(), index % PIECE);
        }
        block_at(&self.rest, index - self.pieces.len() * PIECE)
    }

    /// The first `n` blocks, which are shared and not copied.
    pub fn first(&self, alloc: Global, n: usize) -> Result<Blocks, NoMemory>
        requires { n ≤ length self.now }
        ensures { IfOk result (λ first. first ≡ take n self.now) }
    {
        let whole = n / PIECE;
        if whole < self.pieces.len() {
            let pieces = share_pieces(alloc, &self.pieces[..whole])?;
            let rest = share_blocks(alloc, &self.pieces[whole].blocks()[..n % PIECE])?;
            return Ok(Blocks { pieces, rest });
        }
        let pieces = share_pieces(alloc, &self.pieces)?;
        let rest = share_blocks(alloc, &self.rest[..n - self.pieces.len() * PIECE])?;
        Ok(Blocks { pieces, rest })
    }

    /// All blocks, lent, in order.
    pub fn lent(&self, alloc: Global) -> Result<Vec<&Block>, NoMemory>
        ensures { IfOk result (λ lent. map (λ block. block.now) lent.items ≡ self.now) }
    {
        let mut lent = Vec::new(alloc);
        for piece in &self.pieces {
            lend_blocks(&mut lent, piece.blocks())?;
        }
        lend_blocks(&mut lent, &self.rest)?;
        Ok(lent)
    }
}

//! The input of a link in memory: a list of pieces, and how far they were read.
ghost use Rattle.std.specs.Prelude.{◌≡◌, ◌<◌, ◌≤◌, ◌++◌, min, length, take, drop};
ghost use Rattle.outside_mem.specs.Pieces.{is_spent, unspent};

use outside_api::Got;
use q_values::{Sequence, Text};
use std::marker::Model;

/// A piece of the input of a link.
#[derive(Drop)]
pub enum Piece {
    /// Bytes, given by one or more reads. A read gives bytes of one piece only; an empty piece is skipped.
    Bytes(Text),
    /// A read that times out.
    Idle,
    /// A read that fails.
    Fault,
}

/// Pieces, and how far they were read.
#[derive(Drop)]
pub struct Input {
    // All pieces, in order.
    pieces: Sequence<Piece>,
    // The index of the piece that is read next; their number where all were read.
    next: usize,
    // How many bytes of that piece were read, at most its length; 0 of a piece without bytes.
    at: usize,
}

impl Model for Input {
    ghost use Rattle.std.specs.Prelude.{List, drop};
    ghost use Rattle.outside_mem.specs.declared.input.Piece.{Piece};

    ghost Value = { List Piece };

    ghost use Rattle.outside_mem.specs.Pieces.{from_within, IsWithin};

    ghost view = { λ i. from_within i.at (drop i.next i.pieces) };

    ghost invariant = { λ i. IsWithin i.at (drop i.next i.pieces) };
}

#[tactic(auto, using(crate::proofs::PiecesLemmas::steps))]
impl Input {
    ghost use Rattle.outside_mem.specs.Pieces.{Plays, Gives};

    /// An input of these pieces, of which nothing was read.
    pub fn new(pieces: Sequence<Piece>) -> Input
        ensures { result ≡ pieces }
    {
        Input {
            pieces,
            next: 0,
            at: 0,
        }
    }

    /// Reads on, into the front of the buffer.
    pub fn read(&mut self, buf: &mut [u8]) -> Got
        ensures plays { Plays self.old self.new buf.old buf.new result }
        ensures gives { Gives self.old self.new buf.new result }
    {
        self.settle();
        if self.next >= self.pieces.len() {
            return Got::End;
        }
        let got = match self.pieces.at(self.next) {
            Piece::Idle => Got::Idle,
            Piece::Fault => Got::Failed,
            Piece::Bytes(bytes) => {
                let count = copy_front(rest_of(bytes.as_slice(), self.at), buf);
                self.at += count;
                return Got::Bytes(count);
            }
        };
        self.step();
        got
    }

    // Skips pieces of which nothing is left.
    fn settle(&mut self)
        ensures { self.new ≡ unspent self.old }
    {
        while self.is_spent() {
            self.step();
        }
    }

    fn is_spent(&self) -> bool
        ensures { result ≡ is_spent self.now }
    {
        if self.next >= self.pieces.len() {
            return false;
        }
        match self.pieces.at(self.next) {
            Piece::Bytes(bytes) => self.at >= bytes.len(),
            Piece::Idle | Piece::Fault => false,
        }
    }

    fn step(&mut self)
        requires { 0 < length self.old }
        ensures { self.new ≡ drop 1 self.old }
    {
        let _count = self.pieces.len();
        self.next += 1;
        self.at = 0;
    }
}

fn rest_of(bytes: &[u8], at: usize) -> &[u8]
    requires { at ≤ length bytes.now }
    ensures { result.now ≡ drop at bytes.now }
{
    &bytes[at..]
}

// Copies into the front of the buffer as many bytes as it has room for, and gives their number.
fn copy_front(from: &[u8], buf: &mut [u8]) -> usize
    ensures count { result ≡ min (length from.now) (length buf.old) }
    ensures copied { buf.new ≡ take result from.now ++ drop result buf.old }
{
    let count = from.len().min(buf.len());
    buf[..count].copy_from_slice(&from[..count]);
    count
}

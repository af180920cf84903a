//! Boards of taps: what takes a plant's publications within its process.
//!
//! A [`Tap`](outside_api::Tap) takes messages, and may fail. A [`Board`] has any number of boxed taps, each with a number of
//! its own, and [`Board::drive`] gives all messages to each of them, in order. A tap is dropped at its first fault, and the
//! answer names it; the others go on.
//!
//! ```text
//! let mut board = Board::new(alloc);
//! let first = board.put_on(Box::new(alloc, bars)?)?;       // 0
//! let second = board.put_on(Box::new(alloc, broken)?)?;    // 1
//! board.drive(alloc, &messages)?                           // 1: it failed at some message, and is dropped
//! board.take_off(second)                                   // None
//! board.take_off(first)                                    // the tap, which took all messages
//! ```
//!
//! A number is never given twice. Out of memory is found before a tap is given anything: then all stays as it was.
//!
//! It knows nothing of plants and subscriptions: the caller has the messages, as `pubsub` makes them. `specs/Board.antt` says
//! what becomes of each tap.
#![tactic(auto)]

mod board;
mod seat;

pub use board::{Board, Ids, PutFailure};
pub use seat::Seat;

//! The answer to a text over a snapshot of a plant.
//!
//! [`Question::of`] reads a text, and [`Question::answer`] gives its answer: the value of a query over the rows of its
//! table, the open date, the number of its updates, or an error. [`answer`] does both. The error is a value too, whose text
//! is `limit`, `parse`, `nyi`, `type`, or the name that isn't there; of the errors that hold it is the first.
//!
//! ```text
//! answer(alloc, &snapshot, &schema, b"select last price by sym from trade")
//! answer(alloc, &snapshot, &schema, b".u.i")                              the updates of the open date, a long
//! answer(alloc, &snapshot, &schema, b"select from trades")                Value::Wrong, `trades`
//! ```
//!
//! The rows of a table are those of all dates: an ended date by symbol and arrival, the open date by arrival. Each has two
//! more columns: `date`, and `i`, which numbers the rows of each date from 0. Only the columns that a query needs are read
//! (`wanted`), only on the dates that its first phrases keep (`dates`), and date by date (`columns`).
//!
//! A query with phrases never has a whole table in memory: each phrase is evaluated over the rows that those before it keep,
//! and of these only the columns that it names are there (`keeping`). Then the columns that the query needs beside its phrases
//! are read one after another, each cut down to the rows that are kept before the next is read (`table`), and the query is
//! evaluated over them without its phrases (`rest`, `values`).
//!
//! The rows of a table are in `specs/TableRows.antt`, those of some dates in `specs/DateRows.antt`, those at some indices in
//! `specs/Kept.antt`, the columns that are needed in `specs/Needs.antt`, and the answer in `specs/Answer.antt`.
//!
//! A subscription is answered with `nyi` here: the session serves it. The crate encodes no answer and sets no limit on
//! its length.
#![tactic(auto)]

mod answering;
mod columns;
mod dates;
mod joining;
mod keeping;
pub mod laws;
mod question;
mod rest;
mod table;
mod values;
mod wanted;

pub use question::{Question, answer};

//! Sessions at real sizes, with ample memory: none of their messages is answered `wsfull`.
//!
//! `sizes` has updates of no, of a thousand and of a hundred thousand rows, ten thousand updates of one row, and dates that
//! end after a hundred entries each. `answers` asks texts over a hundred thousand rows. `building` has the bytes of these
//! messages and of their answers, by the IPC reference.
//!
//! ```text
//! in      u:p 03 00, a hundred updates of trade by a thousand rows, "select from trade"
//! out     03, a hundred times (::), the table trade with a hundred thousand rows
//! ```
mod answers;
mod building;
mod sizes;

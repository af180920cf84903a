//! Literals of the query language: numbers, dates and times, symbols and text, read from the bytes of a query.
//!
//! [`read_literal`] reads the literal at an offset and gives its value and the offset just past it; [`begins_literal`]
//! says whether one is to be read there. Words of the same form with blanks between them are one vector, a single one is
//! an atom. [`write_date`] goes the other way for dates.
//!
//! ```text
//! 42                         a long
//! 1 2 3h                     three shorts: the suffix of the last word holds for all
//! 2024.01.02 2024.01.03      two dates
//! 0D09:30                    a timespan
//! 0101b  0x0aff              booleans, bytes
//! `a`b                       two symbols
//! "a\"b"                     three characters
//!
//! read_literal(alloc, b"price>-3 ", 6)     Ok((-3, 8))
//! read_literal(alloc, b"a-3", 1)           Err(BadLiteral(1)): after a name `-` is a verb
//! ```
//!
//! A word is given a form by its bytes alone (`forms`, over `patterns`), words of one form make a run (`runs`), and a run
//! its numbers (`numbers`, `columns`). What the forms are is said in `specs/Grammar.antt`; `laws` states that no word has
//! two forms, and that reading finds exactly the literals of that grammar.
//!
//! The crate doesn't read names, verbs or brackets, and knows no reals, guids or datetimes. A text is read at an offset
//! that the caller gives; what precedes it only matters for `-`.
#![tactic(auto)]

mod columns;
mod dates;
mod forms;
mod kinds;
pub mod laws;
mod literal;
mod numbers;
mod patterns;
mod refusal;
mod runs;
mod strings;
mod symbols;
mod words;

pub use dates::write_date;
pub use literal::{begins_literal, read_literal};
pub use refusal::LiteralRefusal;
pub use words::{byte_at, is_blank, is_digit, is_letter, is_same};

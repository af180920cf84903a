//! The reserved words of the query language, once for every crate that reads or refuses them.
//!
//! [`ReservedWord`] has one variant a word, and one table pairs each with its text. [`ReservedWord::from_text`] looks a
//! text up in that table; what a word means in a query is said by the crate that reads queries. [`is_reserved_name`]
//! says which names no table and no column may have: the reserved words, and `date` and `i`, which queries use for the
//! virtual columns. Its contract and [`names_are_words`] tie the two, so a schema can't accept a name that a query could
//! not write.
//!
//! ```text
//! ReservedWord::from_text(b"select")   Some(ReservedWord::Select)
//! ReservedWord::from_text(b"price")    None
//! is_reserved_name(b"select")          true, a word
//! is_reserved_name(b"i")               true, a virtual column
//! is_reserved_name(b"price")           false
//! ```
//!
//! Texts are compared byte by byte: `Select` is no reserved word. The crate doesn't read queries and doesn't split a
//! text into words. `update`, `delete` and `fby` are reserved in q, but not here, since these queries have none of them.
//!
//! To add a word: the enum and `WORDS` in `word.rt`, `words` in `specs/Words.antt`, and then the `match` in the crate
//! that gives the word a meaning.
#![tactic(auto)]

mod laws;
mod lookup;
mod reserved;
mod word;

pub use laws::names_are_words;
pub use lookup::look_up;
pub use reserved::is_reserved_name;
pub use word::ReservedWord;

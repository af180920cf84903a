//! Schema texts: the tables of a plant, written as q writes empty tables.
//!
//! [`read_schema`] reads a text from left to right and returns a `Schema` of `day_rows`, its tables sorted by name, or a
//! [`SchemaRefusal`]: the first reason, in the text's order, why the text is not a schema. [`BUILT_IN`] is the text of
//! the schema that a plant has unless another is given.
//!
//! ```text
//! / a remark: a line that begins with a slash
//! trade:([]time:`timespan$();sym:`g#`symbol$();price:`long$();size:`long$())
//! quote:([]time:`timespan$();sym:`symbol$();bid:`long$();ask:`long$());
//! ```
//!
//! reads as the tables `quote` and `trade`. With `price:`float$()` the answer is `BadKind` with the offset of `float`,
//! since columns of floats aren't built; with a column `date` it is `Reserved`, since queries use that name.
//!
//! The files follow the text from the inside out: `tokens` finds signs and words, `names` judges names and kinds,
//! `columns` reads the columns of a table, and `reading` reads tables up to the end. What a text means is said by the
//! grammar, `specs/Grammar.antt`; `laws` says that a text has one reading and that a written schema is read back.
//! `specs/Tokens.antt` and `specs/Reading.antt` say what each of these steps gives, for the contracts within the crate.
//!
//! It doesn't read values (each list in a schema is empty), doesn't keep the attribute `g#` (rows are sorted when a date
//! ends), and doesn't write schemas.
#![tactic(auto)]

mod columns;
mod laws;
mod names;
mod reading;
mod refusal;
mod tokens;

pub use laws::{built_in_text_is_read, texts_have_one_reading, written_schema_is_read};
pub use reading::{BUILT_IN, built_in_schema, read_schema};
pub use refusal::SchemaRefusal;

//! What holds of the requests that are built.
//!
//! Whether a request is built is decided by `qsql_request` ([`qsql_request::is_request_unbuilt`]), form by form. The function
//! of this crate has an empty body; its contract says the same from the evaluator's side, as what may be taken for granted
//! of a request that is built:
//!
//! - no verb has a list as a side where it takes none, and `like` has a pattern at its right;
//! - each phrase after `where` and each key after `by` has a value for each row;
//! - with `by`, each column is a single value; a `select` without `by` has no column that is a list.
//!
//! ```text
//! select high:max price by sym from trade where size>100
//!        ^ a single value  ^ a value for each row  ^ a value for each row
//! ```
//!
//! It says nothing of tables, columns and kinds, which need a schema.
#![tactic(auto)]

ghost use Rattle.qsql_laws.specs.Laws.{BuiltIsWellShaped};

/// Each expression of a request that is built, and each place of an expression in it, has a shape that fits.
pub fn built_is_well_shaped()
    ensures { BuiltIsWellShaped }
{}

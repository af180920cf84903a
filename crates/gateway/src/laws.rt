//! What holds of answers. Each law is the contract of a function with an empty body.
ghost use Rattle.gateway.specs.Needs.{NeededColumnsSuffice};

/// The value of a query is determined by the columns that it needs.
pub fn needed_columns_suffice()
    ensures { NeededColumnsSuffice }
{}

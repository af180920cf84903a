//! What keys of rows are, in other words than their definition. Each law is the contract of a function with an empty body.
ghost use Rattle.q_keys.specs.Laws.{KeysAscend, KeysAreThoseOfRows, CodesCompareAsKeys};

/// The keys ascend strictly, so none stands there twice.
pub fn keys_ascend()
    ensures { KeysAscend }
{}

/// The keys are those that rows have, and no others.
pub fn keys_are_those_of_rows()
    ensures { KeysAreThoseOfRows }
{}

/// Rows compare as the numbers of their groups do: they have one number where their keys are equal.
pub fn codes_compare_as_keys()
    ensures { CodesCompareAsKeys }
{}

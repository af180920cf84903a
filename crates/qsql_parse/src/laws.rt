//! Laws of the grammar. Each is the contract of a function with an empty body.
ghost use Rattle.qsql_parse.specs.Laws.{OneRequest, OneVerdict};

/// Tokens are at most one request.
pub fn tokens_are_one_request()
    ensures { OneRequest }
{}

/// A text has at most one verdict: one request, or one refusal with one offset.
pub fn texts_have_one_verdict()
    ensures { OneVerdict }
{}

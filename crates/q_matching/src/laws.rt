//! What holds of the verbs, in other words than their definitions. Each law is the contract of a function with an empty
//! body.
ghost use Rattle.q_matching.specs.Laws.{PlainPatternIsItself, AnyBytesMatchAll};

/// A pattern without `*` and `?` matches only itself.
pub fn plain_pattern_is_itself()
    ensures { PlainPatternIsItself }
{}

/// `*` matches every text.
pub fn any_bytes_match_all()
    ensures { AnyBytesMatchAll }
{}

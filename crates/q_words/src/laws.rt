//! What holds of every name.
ghost use Rattle.q_words.specs.Words.{NamesAreWords};

/// A law of `is_reserved`: a name that no schema may use is one of the language's words or the name of a virtual column,
/// and each of these is such a name.
pub fn names_are_words(name: &[u8])
    ensures { NamesAreWords name.now }
{
    let _ = name;
}

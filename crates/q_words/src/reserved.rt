//! Names that no schema may use.
ghost use Rattle.std.specs.Prelude.{◌≡◌};
ghost use Rattle.std.specs.Str.{bytes_eq};
ghost use Rattle.q_words.specs.Words.{is_reserved};

use crate::word::ReservedWord;

fn is_same(some: &[u8], other: &[u8]) -> bool
    ensures { result ≡ bytes_eq some.now other.now }
{
    some == other
}

/// Whether no table and no column may have this name: a reserved word, or `date` or `i`.
pub fn is_reserved_name(name: &[u8]) -> bool
    ensures { result ≡ is_reserved name.now }
{
    ReservedWord::from_text(name).is_some() || is_same(name, b"date") || is_same(name, b"i")
}

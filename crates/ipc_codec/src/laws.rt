//! What holds of reading, writing and encodings, whatever the bytes. Each law is the contract of a function with an
//! empty body.
ghost use Rattle.ipc_codec.specs.Laws.{ReadingIsSpelling, SpellingIsRead, NoSpellingBeginsAnother, WrittenSpells, SpellingIsPlain};

/// The bytes that were read are an encoding of the value that was read.
pub fn reading_is_spelling()
    ensures { ReadingIsSpelling }
{}

/// Each encoding of a value is read as that value, whatever bytes follow.
pub fn spelling_is_read()
    ensures { SpellingIsRead }
{}

/// No encoding begins another one: where two encodings begin the same bytes, they are the same, of the same value.
pub fn no_spelling_begins_another()
    ensures { NoSpellingBeginsAnother }
{}

/// What is written of a plain value is an encoding of it, and so is read again as it, whatever bytes follow.
pub fn written_spells()
    ensures { WrittenSpells }
{}

/// A value that has an encoding is plain, so it can be written.
pub fn spelling_is_plain()
    ensures { SpellingIsPlain }
{}

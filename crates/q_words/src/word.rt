//! The words, and the text of each.
ghost use Rattle.std.specs.Prelude.{◌≡◌};
ghost use Rattle.q_words.specs.Words.{reserved_word};

use crate::lookup::look_up;

/// A word that queries reserve (KX, Reference card).
#[derive(Clone, Copy, Debug, PartialEq, Eq)]
pub enum ReservedWord {
    /// `select`
    Select,
    /// `exec`
    Exec,
    /// `by`
    By,
    /// `from`
    From,
    /// `where`
    Where,
    /// `aj`
    Aj,
    /// `div`
    Div,
    /// `mod`
    Mod,
    /// `xbar`
    Xbar,
    /// `within`
    Within,
    /// `in`
    In,
    /// `like`
    Like,
    /// `and`
    And,
    /// `or`
    Or,
    /// `not`
    Not,
    /// `neg`
    Neg,
    /// `count`
    Count,
    /// `sum`
    Sum,
    /// `min`
    Min,
    /// `max`
    Max,
    /// `first`
    First,
    /// `last`
    Last,
    /// `distinct`
    Distinct,
}

const WORDS: [(&[u8], ReservedWord); 23] = [
    (b"select", ReservedWord::Select),
    (b"exec", ReservedWord::Exec),
    (b"by", ReservedWord::By),
    (b"from", ReservedWord::From),
    (b"where", ReservedWord::Where),
    (b"aj", ReservedWord::Aj),
    (b"div", ReservedWord::Div),
    (b"mod", ReservedWord::Mod),
    (b"xbar", ReservedWord::Xbar),
    (b"within", ReservedWord::Within),
    (b"in", ReservedWord::In),
    (b"like", ReservedWord::Like),
    (b"and", ReservedWord::And),
    (b"or", ReservedWord::Or),
    (b"not", ReservedWord::Not),
    (b"neg", ReservedWord::Neg),
    (b"count", ReservedWord::Count),
    (b"sum", ReservedWord::Sum),
    (b"min", ReservedWord::Min),
    (b"max", ReservedWord::Max),
    (b"first", ReservedWord::First),
    (b"last", ReservedWord::Last),
    (b"distinct", ReservedWord::Distinct),
];

impl ReservedWord {
    /// The word with this text, or `None` where no word has it.
    #[tactic(auto, unfolding(crate::specs::Words::reserved_word))]
    pub fn from_text(text: &[u8]) -> Option<ReservedWord>
        ensures { result ≡ reserved_word text.now }
    {
        look_up(&WORDS, text)
    }
}

//! The tokens of a text.

ghost use Rattle.std.specs.Prelude.{◌≡◌};
ghost use Rattle.qsql_tokens.specs.Parts;

use q_values::{Sym, Value};
use q_verbs::{Verb, Verb1};

/// A reserved word that is no verb, or one of the calls that begin with a dot.
#[derive(Clone, Copy)]
pub enum Word {
    /// `select`
    Select,
    /// `exec`
    Exec,
    /// `by`
    By,
    /// `from`
    From,
    /// `where`
    Where,
    /// `aj`
    Aj,
    /// `.u.i`
    Count,
    /// `.u.d`
    Day,
    /// `.u.sub`
    Sub,
}

/// A sign that is no verb.
#[derive(Clone, Copy)]
pub enum Mark {
    /// `(`
    Left,
    /// `)`
    Right,
    /// `[`
    Open,
    /// `]`
    Close,
    /// `;`
    Semicolon,
    /// `,`
    Comma,
    /// `:`
    Colon,
}

/// A token of a text.
#[derive(Drop)]
pub enum Token {
    /// A long atom without a suffix.
    Number(i64),
    /// Any other literal.
    Literal(Value),
    /// A name.
    Name(Sym),
    /// A verb with one side, such as `sum`.
    Monad(Verb1),
    /// A verb between two sides that is a sign, such as `+`.
    Sign(Verb),
    /// A verb between two sides that is a word, such as `div`.
    Dyad(Verb),
    /// Any other word.
    Word(Word),
    /// Any other sign.
    Mark(Mark),
}

/// A token, and where it begins.
#[derive(Drop)]
pub struct Placed {
    /// The token.
    pub token: Token,
    /// The offset of its first byte in the text.
    pub place: usize,
}

impl Token {
    ghost use Rattle.qsql_tokens.specs.Views.{token_of};
    ghost use Rattle.qsql_tokens.specs.Parts.{number_of, verb_of, word_of, is_mark, mark_number, name_of};
    ghost use Rattle.qsql_tokens.specs.Views.{NameOr};

    /// The number, where it is a long atom without a suffix.
    pub fn number(&self) -> Option<i64>
        ensures { result ≡ number_of (token_of self.now) }
    {
        match self {
            Token::Number(number) => Some(*number),
            Token::Literal(_) => None,
            Token::Name(_) => None,
            Token::Monad(_) => None,
            Token::Sign(_) => None,
            Token::Dyad(_) => None,
            Token::Word(_) => None,
            Token::Mark(_) => None,
        }
    }

    /// The verb, where it is one that takes two sides.
    pub fn verb(&self) -> Option<Verb>
        ensures { result ≡ verb_of (token_of self.now) }
    {
        match self {
            Token::Sign(verb) => Some(*verb),
            Token::Dyad(verb) => Some(*verb),
            Token::Number(_) => None,
            Token::Literal(_) => None,
            Token::Name(_) => None,
            Token::Monad(_) => None,
            Token::Word(_) => None,
            Token::Mark(_) => None,
        }
    }

    /// The word, where it is one that is no verb.
    pub fn word(&self) -> Option<Word>
        ensures { result ≡ word_of (token_of self.now) }
    {
        match self {
            Token::Word(word) => Some(*word),
            Token::Number(_) => None,
            Token::Literal(_) => None,
            Token::Name(_) => None,
            Token::Monad(_) => None,
            Token::Sign(_) => None,
            Token::Dyad(_) => None,
            Token::Mark(_) => None,
        }
    }

    /// Whether it is this mark.
    pub fn is(&self, mark: Mark) -> bool
        ensures { result ≡ is_mark mark (token_of self.now) }
    {
        match self {
            Token::Mark(own) => number_of_mark(*own) == number_of_mark(mark),
            Token::Number(_) => false,
            Token::Literal(_) => false,
            Token::Name(_) => false,
            Token::Monad(_) => false,
            Token::Sign(_) => false,
            Token::Dyad(_) => false,
            Token::Word(_) => false,
        }
    }

    /// The name, or else the token as it was.
    pub fn into_name(self) -> Result<Sym, Token>
        ensures { NameOr result (token_of self) }
    {
        match self {
            Token::Name(name) => Ok(name),
            Token::Number(number) => Err(Token::Number(number)),
            Token::Literal(value) => Err(Token::Literal(value)),
            Token::Monad(verb) => Err(Token::Monad(verb)),
            Token::Sign(verb) => Err(Token::Sign(verb)),
            Token::Dyad(verb) => Err(Token::Dyad(verb)),
            Token::Word(word) => Err(Token::Word(word)),
            Token::Mark(mark) => Err(Token::Mark(mark)),
        }
    }
}

// The byte of a mark.
fn number_of_mark(mark: Mark) -> u8
    ensures { result ≡ Parts.mark_number mark }
{
    match mark {
        Mark::Left => b'(',
        Mark::Right => b')',
        Mark::Open => b'[',
        Mark::Close => b']',
        Mark::Semicolon => b';',
        Mark::Comma => b',',
        Mark::Colon => b':',
    }
}

//! What the reserved words mean in a query, and the names that begin with `.u.`.
ghost use Rattle.std.specs.Prelude.{◌≡◌, IfOk};
ghost use Rattle.qsql_tokens.specs.Tokens as spec;
ghost use Rattle.q_values.specs.Bytes.{HasNoNul};
ghost use Rattle.qsql_tokens.specs.Views.{token_of};

use crate::token::{Token, Word};
use q_text::is_same;
use q_values::{NoMemory, Sym};
use q_verbs::{Verb, Verb1};
use q_words::ReservedWord;
use std::alloc::Global;

/// The token of a reserved word: a word of a clause, or a verb with one or two sides.
pub fn token_of_reserved(word: ReservedWord) -> Token
    ensures { token_of result ≡ spec.reserved_token word }
{
    match word {
        ReservedWord::Select => Token::Word(Word::Select),
        ReservedWord::Exec => Token::Word(Word::Exec),
        ReservedWord::By => Token::Word(Word::By),
        ReservedWord::From => Token::Word(Word::From),
        ReservedWord::Where => Token::Word(Word::Where),
        ReservedWord::Aj => Token::Word(Word::Aj),
        ReservedWord::Div => Token::Dyad(Verb::Div),
        ReservedWord::Mod => Token::Dyad(Verb::Mod),
        ReservedWord::Xbar => Token::Dyad(Verb::Xbar),
        ReservedWord::Within => Token::Dyad(Verb::Within),
        ReservedWord::In => Token::Dyad(Verb::In),
        ReservedWord::Like => Token::Dyad(Verb::Like),
        ReservedWord::And => Token::Dyad(Verb::Lesser),
        ReservedWord::Or => Token::Dyad(Verb::Greater),
        ReservedWord::Not => Token::Monad(Verb1::Not),
        ReservedWord::Neg => Token::Monad(Verb1::Neg),
        ReservedWord::Count => Token::Monad(Verb1::Count),
        ReservedWord::Sum => Token::Monad(Verb1::Sum),
        ReservedWord::Min => Token::Monad(Verb1::Min),
        ReservedWord::Max => Token::Monad(Verb1::Max),
        ReservedWord::First => Token::Monad(Verb1::First),
        ReservedWord::Last => Token::Monad(Verb1::Last),
        ReservedWord::Distinct => Token::Monad(Verb1::Distinct),
    }
}

/// The call that this text names after `.u.`: `i`, `d` or `sub`.
pub fn plant_word_of(text: &[u8]) -> Option<Word>
    ensures { result ≡ spec.plant_word text.now }
{
    if is_same(text, b"i") {
        Some(Word::Count)
    } else if is_same(text, b"d") {
        Some(Word::Day)
    } else if is_same(text, b"sub") {
        Some(Word::Sub)
    } else {
        None
    }
}

/// The token of letters, digits and `_`: that of a reserved word, or else a name.
pub fn named_token(alloc: Global, text: &[u8]) -> Result<Token, NoMemory>
    requires { HasNoNul text.now }
    ensures { IfOk result (λ token. token_of token ≡ spec.named text.now) }
{
    match ReservedWord::from_text(text) {
        Some(word) => Ok(token_of_reserved(word)),
        None => Ok(Token::Name(Sym::copied(alloc, text)?)),
    }
}

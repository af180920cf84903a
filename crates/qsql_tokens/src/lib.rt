//! The tokens of a query's text, with their offsets, and the limits on texts.
//!
//! [`read_tokens`] reads a text from its start to its end, and gives each [`Token`] with the offset of its first byte as a
//! [`Placed`]. It refuses a text of more than 65,536 bytes, and reports the first offset where no token begins.
//! [`are_too_many`] says whether the tokens are more than 1,024 or nest deeper than 64 brackets, which the parser refuses.
//!
//! ```text
//! select last price by sym from trade where price>=2.
//!
//! Word(Select) Monad(Last) Name(price) Word(By) Name(sym) Word(From) Name(trade) Word(Where) Name(price) Sign(Ge)
//! NoToken(49): `2.` is no literal
//! ```
//!
//! Literals are read by `q_text`, and reserved words are those of `q_words`; `keywords` says which token each word is.
//! `signs` has the signs, the longer first, so `<=` is one token. A `-` before a digit belongs to the number unless it
//! follows an operand: `a-1` has three tokens, `a -1` has two.
//!
//! `specs/Tokens.antt` defines which tokens a text has, and where the first fault is; the contract of `read_tokens` is
//! that definition. The crate doesn't know the grammar: any order of tokens is read, and brackets needn't match.
#![tactic(auto)]

mod characters;
mod keywords;
mod lexing;
mod limits;
mod refusal;
mod signs;
mod token;

pub use lexing::read_tokens;
pub use limits::are_too_many;
pub use refusal::TokenRefusal;
pub use token::{Mark, Placed, Token, Word};

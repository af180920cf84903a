//! From a text to its request.
ghost use Rattle.std.specs.Prelude.{◌≡◌, IfOk, IfErr, false};
ghost use Rattle.qsql_request.specs.Views.{request_of};
ghost use Rattle.qsql_request.specs.Unbuilt.{is_unbuilt};
ghost use Rattle.qsql_parse.specs.Verdicts.{IsText, RefusesText, GivesOnly};

use crate::machine::read_request;
use crate::refusal::ParseRefusal;
use qsql_request::{Request, is_request_unbuilt};
use qsql_tokens::{are_too_many, read_tokens};
use std::alloc::Global;
use std::collections::VecDeque;

// The request of a text, built or not.
fn read_text(alloc: Global, text: &[u8]) -> Result<Request, ParseRefusal>
    ensures ok { IfOk result (λ request. IsText text.now (request_of request)) }
    ensures refused { IfErr result (RefusesText text.now) }
{
    let tokens = read_tokens(alloc, text)?;
    if are_too_many(&tokens) {
        return Err(ParseRefusal::Limit);
    }
    read_request(alloc, VecDeque::from(tokens), text.len())
}

// The request of a text, which is built.
fn read_built(alloc: Global, text: &[u8]) -> Result<Request, ParseRefusal>
    ensures ok { IfOk result (λ request. IsText text.now (request_of request) × (is_unbuilt (request_of request) ≡ false)) }
    ensures refused { IfErr result (RefusesText text.now) }
{
    let request = read_text(alloc, text)?;
    if is_request_unbuilt(&request) {
        Err(ParseRefusal::Nyi)
    } else {
        Ok(request)
    }
}

/// The request of a text (KX, Reference card; Q for Mortals, 9).
///
/// A text is `select` or `exec`, `aj[keys;source;source]`, `.u.i`, `.u.d` or `.u.sub[tables;names]`. Expressions are read
/// from right to left without precedence.
///
/// The refusal is the first that holds, in the order of `ParseRefusal`. The offset of `Parse` counts bytes from 0. It is
/// that of the first byte that begins no token, or else of the first token with which no request continues, or the text's
/// length where it ends too early.
pub fn parse(alloc: Global, text: &[u8]) -> Result<Request, ParseRefusal>
    ensures ok { IfOk result (λ request. IsText text.now (request_of request) × (is_unbuilt (request_of request) ≡ false)) }
    ensures refused { IfErr result (RefusesText text.now) }
    // Where the text has a request that is built, or a cause for a refusal, the answer is that one, unless memory ran out.
    ensures exact { GivesOnly text.now result }
{
    read_built(alloc, text)
}

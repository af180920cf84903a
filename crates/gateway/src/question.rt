//! Texts, and their answers over a snapshot.
ghost use Rattle.std.specs.Prelude.{◌≡◌, IfOk};
ghost use Rattle.q_values.specs.Tree.{tree};
ghost use Rattle.qsql_parse.specs.Verdicts.{IsVerdict};
ghost use Rattle.gateway.specs.Answer;
ghost use Rattle.gateway.specs.Answer.{verdict_answer, kept_answer, IsAnswer, IsKeptAnswer};
ghost use Rattle.gateway.specs.Shaped.{IsShaped};
ghost use Rattle.gateway.specs.Views.{verdict_of};

use crate::answering::answer_request;
use crate::values::wrong_value;
use day_rows::Schema;
use plant_memory::Snapshot;
use q_values::{NoMemory, Value};
use qsql_parse::{ParseRefusal, parse};
use qsql_request::Request;
use std::alloc::Global;

/// A text that was read: what it asks for, or why it asks for nothing.
#[derive(Drop)]
pub enum Question {
    /// It asks for this.
    Asks(Request),
    /// It is beyond the limits.
    TooMuch,
    /// It is no request, from this offset on.
    NoRequest(usize),
    /// It has a form that is not built.
    NotBuilt,
}

impl Question {
    /// Reads a text (KX, Reference card; Q for Mortals, 9).
    pub fn of(alloc: Global, text: &[u8]) -> Result<Question, NoMemory>
        ensures { IfOk result (λ q. IsVerdict text.now (verdict_of q)) }
    {
        match parse(alloc, text) {
            Ok(request) => Ok(Question::Asks(request)),
            Err(ParseRefusal::Limit) => Ok(Question::TooMuch),
            Err(ParseRefusal::Parse(at)) => Ok(Question::NoRequest(at)),
            Err(ParseRefusal::Nyi) => Ok(Question::NotBuilt),
            Err(ParseRefusal::NoMemory) => Err(NoMemory),
        }
    }

    /// Whether it is a subscription.
    pub fn is_subscription(&self) -> bool
        ensures { result ≡ Answer.is_subscription (verdict_of self.now) }
    {
        matches!(self, Question::Asks(Request::Sub(_)))
    }

    // The answer over a snapshot.
    fn value(&self, alloc: Global, snapshot: &Snapshot, schema: &Schema) -> Result<Value, NoMemory>
        requires same { snapshot.now.frame.schema ≡ schema.now }
        ensures value { IfOk result (λ v. tree v ≡ verdict_answer snapshot.now.frame.first schema.now snapshot.now.entries (verdict_of self.now)) }
        ensures shaped { IfOk result (λ v. IsShaped (tree v)) }
    {
        match self {
            Question::Asks(request) => answer_request(alloc, request, snapshot, schema),
            Question::TooMuch => wrong_value(alloc, b"limit"),
            Question::NoRequest(_) => wrong_value(alloc, b"parse"),
            Question::NotBuilt => wrong_value(alloc, b"nyi"),
        }
    }

    /// The answer over a snapshot; the schema is that of the snapshot's plant. An error is a value, with its text. A
    /// subscription is answered with `nyi`. The rows of a date that a query's first phrases don't keep have no part in it.
    pub fn answer(
        &self,
        alloc: Global,
        snapshot: &Snapshot,
        schema: &Schema,
    ) -> Result<Value, NoMemory>
        requires same { snapshot.now.frame.schema ≡ schema.now }
        ensures value { IfOk result (λ v. tree v ≡ verdict_answer snapshot.now.frame.first schema.now snapshot.now.entries (verdict_of self.now)) }
        ensures dates { IfOk result (λ v. tree v ≡ kept_answer snapshot.now.frame.first schema.now snapshot.now.entries (verdict_of self.now)) }
        ensures shaped { IfOk result (λ v. IsShaped (tree v)) }
    {
        // The dates ascend, so that the rows of a date that isn't kept have no part in it.
        let _dates = snapshot.dates();
        let value = self.value(alloc, snapshot, schema)?;
        Ok(value)
    }
}

/// The answer to a text over a snapshot; the schema is that of the snapshot's plant. An error is a value, with its text. The
/// rows of a date that a query's first phrases don't keep have no part in it.
pub fn answer(
    alloc: Global,
    snapshot: &Snapshot,
    schema: &Schema,
    text: &[u8],
) -> Result<Value, NoMemory>
    requires same { snapshot.now.frame.schema ≡ schema.now }
    ensures value { IfOk result (λ v. IsAnswer snapshot.now.frame.first schema.now snapshot.now.entries text.now (tree v)) }
    ensures dates { IfOk result (λ v. IsKeptAnswer snapshot.now.frame.first schema.now snapshot.now.entries text.now (tree v)) }
{
    let question = Question::of(alloc, text)?;
    let value = question.answer(alloc, snapshot, schema)?;
    Ok(value)
}

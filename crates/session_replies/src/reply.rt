//! Responses: the bytes that answer a message.
ghost use Rattle.std.specs.Prelude.{◌≡◌, ◌≤◌, ◌∷◌, [], length, IfOk, IfErr, OnErr, codes};
ghost use Rattle.ipc_codec.specs.Lengths.{saturated};
ghost use Rattle.ipc_codec.specs.Written.{IsPlain};
ghost use Rattle.q_values.specs.Limits.{AreLimits};
ghost use Rattle.q_values.specs.Tree.{tree, identity, wrong};
ghost use Rattle.session_replies.specs.Reply.{response, reply, refusal_text};
ghost use Rattle.q_values.specs.Bytes.{HasNoNul};
ghost use Rattle.session_replies.specs.Replies.{reply_bytes, fixed_reply, Refuses, NeedsMemory};

use ipc_codec::{encode, encoded_length};
use plant_memory::UpdRefusal;
use q_values::{Limits, NoMemory, Text, Value};
use std::alloc::Global;

/// A whole response, header and value.
#[derive(Drop)]
pub enum Reply {
    /// One of the constants of this file, which need no memory.
    Fixed(&'static [u8]),
    /// A response that was encoded for this message.
    Made(Vec<u8>),
}

// Each constant is a whole message (KX, IPC reference): little-endian, a response, uncompressed, a zero, the length of
// the message in four bytes, and then the value: `(::)`, or the type 0x80 of an error with its text up to a zero.

/// The response `(::)`.
static DONE: [u8; 10] = [1, 2, 0, 0, 10, 0, 0, 0, 0x65, 0];

/// The response of the error `nyi`.
static NYI: [u8; 13] = *b"\x01\x02\x00\x00\x0d\x00\x00\x00\x80nyi\x00";

/// The response of the error `type`.
static TYPE: [u8; 14] = *b"\x01\x02\x00\x00\x0e\x00\x00\x00\x80type\x00";

/// The response of the error `limit`.
static LIMIT: [u8; 15] = *b"\x01\x02\x00\x00\x0f\x00\x00\x00\x80limit\x00";

/// The response of the error `length`.
static LENGTH: [u8; 16] = *b"\x01\x02\x00\x00\x10\x00\x00\x00\x80length\x00";

/// The response of the error `more than one day?`.
static MORE_THAN_ONE_DAY: [u8; 28] = *b"\x01\x02\x00\x00\x1c\x00\x00\x00\x80more than one day?\x00";

/// The response of the error `disk`.
static DISK: [u8; 14] = *b"\x01\x02\x00\x00\x0e\x00\x00\x00\x80disk\x00";

/// The response of the error `wsfull`.
static WSFULL: [u8; 16] = *b"\x01\x02\x00\x00\x10\x00\x00\x00\x80wsfull\x00";

impl Reply {
    /// The bytes of the response.
    pub fn as_slice(&self) -> &[u8]
        ensures { result.now ≡ reply_bytes self.now }
    {
        match self {
            Reply::Fixed(bytes) => bytes,
            Reply::Made(bytes) => bytes.as_slice(),
        }
    }
}

/// A constant response, or the error `limit` where it is longer than the limit.
fn fixed(limits: &Limits, bytes: &'static [u8]) -> Reply
    ensures { reply_bytes result ≡ fixed_reply limits.now bytes.now }
{
    if bytes.len() > limits.reply as usize {
        Reply::Fixed(&LIMIT)
    } else {
        Reply::Fixed(bytes)
    }
}

/// The response `(::)` to an update that was logged.
pub fn done(limits: &Limits) -> Reply
    ensures { reply_bytes result ≡ reply limits.now identity }
{
    fixed(limits, &DONE)
}

/// The error `nyi`, for a message that isn't served.
pub fn nyi(limits: &Limits) -> Reply
    ensures { reply_bytes result ≡ reply limits.now (wrong (codes "nyi")) }
{
    fixed(limits, &NYI)
}

/// The error `type`, for an update whose parts are of the wrong kinds.
pub fn mistyped(limits: &Limits) -> Reply
    ensures { reply_bytes result ≡ reply limits.now (wrong (codes "type")) }
{
    fixed(limits, &TYPE)
}

/// The error `length`, for an update whose items don't fit its table or each other.
fn wrong_length(limits: &Limits) -> Reply
    ensures { reply_bytes result ≡ reply limits.now (wrong (codes "length")) }
{
    fixed(limits, &LENGTH)
}

/// The error `more than one day?`, for an update two days or more after the open date.
fn more_than_one_day(limits: &Limits) -> Reply
    ensures { reply_bytes result ≡ reply limits.now (wrong (codes "more than one day?")) }
{
    fixed(limits, &MORE_THAN_ONE_DAY)
}

/// The error `limit`, for what is longer or more than the limits allow.
pub fn over_the_limit(limits: &Limits) -> Reply
    ensures { reply_bytes result ≡ reply limits.now (wrong (codes "limit")) }
{
    fixed(limits, &LIMIT)
}

/// The error `disk`, for an update that the disk failed to keep.
pub fn disk(limits: &Limits) -> Reply
    ensures { reply_bytes result ≡ reply limits.now (wrong (codes "disk")) }
{
    fixed(limits, &DISK)
}

/// The error `wsfull`: out of memory.
pub fn wsfull() -> Reply
    ensures { reply_bytes result ≡ response (wrong (codes "wsfull")) }
{
    Reply::Fixed(&WSFULL)
}

// The length in bytes of the response with a value.
fn response_length(value: &Value) -> usize
    ensures { result ≡ saturated (length (response (tree value.now))) }
{
    encoded_length(value).saturating_add(8)
}

/// The response with a value, or the error `limit` where it would be longer than `limits.reply` bytes. The limit is judged
/// before anything is encoded and takes no memory, so `NoMemory` comes only for a response that is within it.
pub fn respond(alloc: Global, value: &Value, limits: &Limits) -> Result<Reply, NoMemory>
    // Within the limit, the value can be written.
    requires plain { length (response (tree value.now)) ≤ limits.now.reply → IsPlain (tree value.now) }
    requires limits { AreLimits limits.now }
    ensures value { IfOk result (λ r. reply_bytes r ≡ reply limits.now (tree value.now)) }
    ensures memory { OnErr result (length (response (tree value.now)) ≤ limits.now.reply) }
{
    let length = response_length(value);
    if length > limits.reply as usize {
        return Ok(Reply::Fixed(&LIMIT));
    }
    let mut bytes = Vec::with_capacity(alloc, length)?;
    bytes.extend_from_slice(&[1, 2, 0, 0])?;
    bytes.extend_from_slice(&(length as u32).to_le_bytes())?;
    encode(&mut bytes, value)?;
    Ok(Reply::Made(bytes))
}

/// The error with the text of a refusal. Only the text of an unknown table takes memory; a refusal that is out of memory
/// has no text of its own. These two may fail with `NoMemory`, and no other refusal does.
pub fn refuse(alloc: Global, why: UpdRefusal, limits: &Limits) -> Result<Reply, NoMemory>
    requires { AreLimits limits.now }
    ensures refuses { IfOk result (Refuses limits.now why) }
    ensures memory { OnErr result (NeedsMemory why) }
{
    match why {
        UpdRefusal::NoTable(name) => respond_wrong(alloc, name.bytes(), limits),
        UpdRefusal::Length => Ok(wrong_length(limits)),
        UpdRefusal::WrongType { .. } => Ok(mistyped(limits)),
        UpdRefusal::MoreThanOneDay => Ok(more_than_one_day(limits)),
        UpdRefusal::Limit => Ok(over_the_limit(limits)),
        UpdRefusal::NoMemory => Err(NoMemory),
    }
}

/// The error with this text, which has no zero byte.
pub fn respond_wrong(alloc: Global, text: &[u8], limits: &Limits) -> Result<Reply, NoMemory>
    requires no_nul { HasNoNul text.now }
    requires limits { AreLimits limits.now }
    ensures { IfOk result (λ r. reply_bytes r ≡ reply limits.now (wrong text.now)) }
{
    let text = Text::from_vec(alloc, Vec::from_slice(alloc, text)?)?;
    respond(alloc, &Value::Wrong(text), limits)
}

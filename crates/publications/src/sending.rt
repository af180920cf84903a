//! What a subscriber is sent for the tail of a plant.
ghost use Rattle.std.specs.Prelude.{◌≡◌, ◌≤◌, ◌<◌, length, map, take, drop, All, Any, IfOk, MatchOption};
ghost use Rattle.std.specs.List.{flat_map, AllByRecursion};
ghost use Rattle.q_values.specs.Tree.{tree, trees};
ghost use Rattle.day_rows.specs.Chronicle.{date_of};
ghost use Rattle.ipc_codec.specs.Written.{IsPlain};
ghost use Rattle.pubsub.specs.Told.{told};
ghost use Rattle.publications.specs.Notice.{notice};
ghost use Rattle.publications.specs.Sending.{Publishes};

use crate::notice::{notice_length, put_notice, values_of};
use crate::outcome::Publications;
use crate::schema::learn_schema;
use plant_memory::Tail;
use pubsub::{Subscription, messages};
use q_values::{NoMemory, Value, Values};
use std::alloc::Global;

// The number of bytes of the message with a value, if its header can say it.
fn fitting_length(value: &Value) -> Option<usize>
    ensures { MatchOption result (4294967295 < length (notice (tree value.now))) (λ n. length (notice (tree value.now)) ≤ 4294967295) }
{
    let length = notice_length(value);
    if length > u32::MAX as usize {
        return None;
    }
    Some(length)
}

// The number of bytes of all messages, for making room, or `None` where one is too long.
fn total_length(values: &Values) -> Option<usize>
    ensures { MatchOption result (Any (λ t. 4294967295 < length (notice t)) (trees values.now))
        (λ n. All (λ t. length (notice t) ≤ 4294967295) (trees values.now)) }
{
    let mut total = 0usize;
    for i in 0..values.len() {
        total = total.saturating_add(fitting_length(values.at(i))?);
    }
    Some(total)
}

// The messages with these values, in order, for which room is made at once.
fn joined(alloc: Global, values: &Values, room: usize) -> Result<Vec<u8>, NoMemory>
    requires plain { All IsPlain (trees values.now) }
    requires fits { All (λ t. length (notice t) ≤ 4294967295) (trees values.now) }
    ensures { IfOk result (λ bytes. bytes.items ≡ flat_map notice (trees values.now)) }
{
    let mut bytes = Vec::with_capacity(alloc, room)?;
    for i in 0..values.len() {
        put_notice(&mut bytes, values.at(i))?;
    }
    Ok(bytes)
}

/// The bytes that a subscriber is sent for the entries of a tail: the messages that [`messages`] makes, each as an async
/// message. They may be none. The subscription was made with the plant's schema. The only error is that it is out of memory.
pub fn publications(
    alloc: Global,
    tail: &Tail,
    subscription: &Subscription,
    batch: bool,
) -> Result<Publications, NoMemory>
    requires own { subscription.now.schema ≡ tail.now.frame.schema }
    ensures { IfOk result (Publishes
        (told batch subscription.now (date_of tail.now.frame.first (take tail.now.from tail.now.entries)) (drop tail.now.from tail.now.entries))) }
{
    learn_schema(tail.schema());
    let messages = messages(alloc, tail, subscription, batch)?;
    let values = values_of(alloc, messages)?;
    match total_length(&values) {
        None => Ok(Publications::TooLong),
        Some(total) => Ok(Publications::Messages(joined(alloc, &values, total)?)),
    }
}

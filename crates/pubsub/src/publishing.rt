//! The messages that a subscription is owed.
ghost use Rattle.std.specs.Prelude.{◌≡◌, map, take, drop, IfOk};
ghost use Rattle.std.specs.List.{AllByRecursion};
ghost use Rattle.day_rows.specs.Chronicle.{date_of};
ghost use Rattle.pubsub.specs.Told.{publication, told};
ghost use Rattle.plant_memory.specs.Memory.{IsOfSchema};

use crate::batches::tell_batches;
use crate::subscription::Subscription;
use crate::telling::tell_each;
use day_rows::{Entries, Schema};
use outside_api::TapMessage;
use plant_memory::Tail;
use q_values::{NoMemory, Sequence};
use std::alloc::Global;

/// Messages, in order.
pub type TapMessages = Sequence<TapMessage>;

/// The messages that a subscription is owed for entries of a chronicle, in order, as [`messages`] are those for a tail.
/// `date` is open before the first entry. The subscription was made with this schema.
pub fn messages_of(
    alloc: Global,
    date: i32,
    entries: &Entries,
    schema: &Schema,
    subscription: &Subscription,
    batch: bool,
) -> Result<TapMessages, NoMemory>
    requires own { subscription.now.schema ≡ schema.now }
    requires updates { AllByRecursion (IsOfSchema schema.now) entries.now }
    ensures { IfOk result (λ messages. map publication messages ≡ told batch subscription.now date entries.now) }
{
    let entries = entries.as_slice();
    let found = if batch {
        tell_batches(alloc, schema, subscription, date, entries)?
    } else {
        tell_each(alloc, schema, subscription, date, entries)?
    };
    TapMessages::from_vec(alloc, found)
}

/// The messages that a subscription is owed for the entries of a tail, in order: of each update the rows that the filter of
/// its table chooses, if there are any, and for each roll the end of the date that was open before it, if any table is
/// subscribed. The subscription was made with the plant's schema.
///
/// With `batch`, the updates up to each roll are cut after every 16, and a batch has one message for each table, in the
/// schema's order, with the rows of all its updates.
pub fn messages(
    alloc: Global,
    tail: &Tail,
    subscription: &Subscription,
    batch: bool,
) -> Result<TapMessages, NoMemory>
    requires own { subscription.now.schema ≡ tail.now.frame.schema }
    ensures { IfOk result (λ messages. map publication messages
        ≡ told batch subscription.now (date_of tail.now.frame.first (take tail.now.from tail.now.entries)) (drop tail.now.from tail.now.entries)) }
{
    let entries = tail.entries(alloc)?;
    messages_of(
        alloc,
        tail.date(),
        &entries,
        tail.schema(),
        subscription,
        batch,
    )
}

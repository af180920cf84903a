//! What the value of a message asks a session for (KX, tick.q: `.u.upd`; u.q: `.u.sub`).
//!
//! A client sends a value, and the session has to know what is meant by it before it acts: an update, a subscription, a
//! text to be evaluated, or nothing that is served.
//!
//! - [`asked_by`] says what a value asks for. It takes the value apart, so an update's rows aren't copied.
//! - [`subscription_in`] says what a text that subscribes asks for, once its form was read.
//! - [`Asked`] is what was asked for; its [`UpdRequest`](plant_memory::UpdRequest) and
//!   [`SubRequest`](pubsub::SubRequest) are what the plant and the subscriptions take.
//!
//! ```text
//! (".u.upd";`trade;(..))       Asked::Update of the table trade, with the items of the list
//! (`.u.sub;`trade;`AA`BB)      Asked::Subscription to the rows of AA and BB in trade
//! (`.u.sub;`trade;`)           Asked::Subscription to all rows of trade
//! (".u.upd";1;2)               Asked::Mistyped: the table is no symbol
//! `.u.upd`trade`AA             Asked::Mistyped: a vector of three symbols is a call, and a symbol is no list of items
//! "select from trade"          Asked::Text
//! 1b                           Asked::Other
//! ```
//!
//! It judges no update: whether there is such a table, and whether the items fit it, `plant_memory` says. It reads no
//! query: the form of a text that subscribes comes from `qsql_parse`. It answers nothing: that is the session's.
#![tactic(auto)]

mod request;

pub use request::{Asked, asked_by, subscription_in};

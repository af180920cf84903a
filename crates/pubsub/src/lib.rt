//! Subscriptions: which publications of a plant a subscriber is owed, and the messages that they are.
//!
//! A subscriber chooses, for each table of a plant, no rows, all rows, or those of a set of symbols (KX, u.q). A
//! [`Subscription`] keeps this choice, a [`Filter`] for each table of the schema that it was made with, and
//! [`Subscription::set`] changes it as a client's [`SubRequest`] asks; [`Subscription::after`] is the changed one beside
//! it. [`messages`] makes of the tail of a plant the messages for the subscription: the chosen rows of each update, and the
//! ends of dates.
//!
//! ```text
//! let mut subscription = Subscription::none(alloc, &schema)?;
//! let symbols = Wanted::Symbols(symbols);                   // `a and `b
//! subscription.set(&SubRequest { tables, symbols })?;       // of the table `trade; other tables stay as they were
//! messages(alloc, &tail, &subscription, false)?
//! ```
//!
//! has a message for each update of `trade` with rows of `a` or `b`, with exactly these rows, and one for the end of each
//! date. With `true` at the end, the updates of a date are joined in batches of 16, each with one message for each table.
//! A set of no symbols chooses no rows, yet its subscriber is told of the ends of dates; [`Filter::Nothing`] isn't.
//!
//! `specs/Told.antt` says what a subscription is told, as rows; `specs/Filters.antt` what a request makes of it. Code goes
//! by columns: `rows` finds the chosen rows of a column of symbols, looking each up in a `symbol_set`, `parts` copies
//! them, column by column, `telling` makes messages of single updates, and `batches` of many. Where all rows of an update
//! are chosen its columns are copied whole, and where none is, nothing is. [`empty_table`] is a table of the schema without
//! rows.
//!
//! It knows nothing of sessions, cursors and bytes: the caller has the tail, and sends the messages. [`messages_of`] makes
//! them of entries from elsewhere, whose updates are of the schema, as [`are_of_schema`] says; it doesn't judge them.
#![tactic(auto)]

mod batches;
mod filter;
mod fitting;
mod parts;
mod publishing;
mod request;
mod rows;
mod subscription;
mod symbol_set;
mod telling;

pub use filter::Filter;
pub use fitting::are_of_schema;
pub use parts::empty_table;
pub use publishing::{TapMessages, messages, messages_of};
pub use request::{SubRefusal, SubRequest, Wanted};
pub use subscription::Subscription;
pub use symbol_set::SymbolSet;

//! One session of the tick plant: a connection served from its handshake to its end (KX, IPC reference).
//!
//! `serve_session` is the one call that the layers above use. It reads a `Link`, finds the handshake and the messages in
//! its bytes, and answers each sync message with one response. It reaches the plant through `Access` alone. Its contract,
//! `IsSession`, says which bytes were read and written, what was noted, and why the session ended.
//!
//! - `Session` is the state of a session: its devices, its limits, its `Client`, and the number of read timeouts left.
//! - `Client` is what is kept between two events: what was read and isn't served yet, and the subscriber.
//! - `link_reader::Reader` reads the link in large pieces and gives one `Arrival` after the other.
//! - `Answer` is what a message or a read timeout comes to: the turns to be noted and the response.
//! - `Subscriber` is what the client is subscribed to, and up to which length of the chronicle it was told.
//!
//! ```text
//! client                                    session
//! user:pwd 03 00                            notes Greeted 3,    writes 03
//! sync (".u.upd";`trade;(..))               notes Logged 0,     writes (::)
//! sync "select from trade"                  notes Answered 1,   writes the table, its column `date` first
//! sync "exec sum size from trade"           notes Answered 1,   writes the atom
//! sync "1+1"                                notes Answered 1,   writes 'parse
//! sync ".u.sub[`trade;`]"                   notes Subscribed 1, writes (`trade;the table without rows)
//! nothing until the read times out          notes Quiet 2,      writes nothing
//!   (another session has logged an update)  notes Told 1 2,     writes async (`upd;`trade;the row)
//! end of input                              ends with End::Closed
//! ```
//!
//! A message goes `Session::serve_next` -> `Session::serve_message` -> `Session::serve_value` ->
//! `session_requests::asked_by` (what it asks for) -> `Session::serve_asked` -> `Access::upd`, `Question::answer` or
//! `Session::subscribe` -> `finish` (the turns, then the bytes, which `session_replies` makes). `Session::publish` comes
//! after each message and each read timeout.
//!
//! It opens no socket, starts no thread and writes no journal: those are devices that its caller passes. It knows no query
//! language: `gateway` answers each text over a snapshot of the plant.
#![tactic(auto)]

mod act;
mod answer;
mod end;
mod message;
mod publishing;
mod serve;
mod session;
mod subscriber;
mod subscribing;

pub use end::{End, Report};
pub use ipc_frame::Bad;
pub use session::serve_session;

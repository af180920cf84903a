//! Worked sessions of subscribers. The session feeds the plant itself, so that each of its updates is followed by what it is
//! owed. The bytes are those of the IPC reference and of u.q, written out in `bytes`; none comes from the program.
//!
//! - `told` has what subscribers are answered and sent: filters, the end of a date, async subscriptions, refusals, faults.
//! - `sizes` has updates of 1,000 and of 100,000 rows, and a thousand updates.
//!
//! ```text
//! in      u:p 03 00, ".u.sub[`trade;`a]", an update of `trade` by one row of `a`
//! out     03, (`trade; the table without rows), (::), then (`upd;`trade; the row) as an async message
//! turns   Greeted 3, Subscribed 0, Logged 0, Told 0 1
//! ```
mod bytes;
mod sizes;
mod told;

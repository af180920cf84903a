//! Times `ipc_codec` and `ipc_frame` over a table of trades, a vector of longs, and two of symbols: of four bytes, and of
//! 5 to 20. `bench/codec.py` runs it, and sets its times beside those of a copy of the same bytes and of the same loops in
//! Rust.
//!
//! `made` makes the objects as bytes; `timed` times each call over them, five times, and prints one line for each
//! time: the object, the call, nanoseconds, and the number of bytes that were read or written.
//!
//! ```text
//! codec_bench ROWS [LONGS [SYMBOLS]]
//!
//! table measure NANOSECONDS BYTES
//! table decode NANOSECONDS BYTES
//! table encode NANOSECONDS BYTES
//! table feed NANOSECONDS BYTES
//! ```
//!
//! What was decoded and encoded again has to be the same bytes. The numbers of bytes are printed so that no call can be
//! left out by the compiler. It takes no object from a file, and times neither sockets nor sessions.
#![tactic(auto)]

mod made;
mod timed;

use anyhow::Result;
use std::env;

fn main(rt: HostRuntime) -> Result<()> {
    let mut arguments = env::args(&rt)?;
    let _program = arguments.next();
    if let Some(rows) = arguments.next() {
        let rows = rows.as_str().parse::<u32>()?;
        timed::report(&rt, "table", &made::trades(rt.alloc(), rows)?)?;
    }
    if let Some(count) = arguments.next() {
        let count = count.as_str().parse::<u32>()?;
        timed::report(&rt, "longs", &made::longs(rt.alloc(), count)?)?;
    }
    if let Some(count) = arguments.next() {
        let count = count.as_str().parse::<u32>()?;
        timed::report(&rt, "short", &made::short_symbols(rt.alloc(), count)?)?;
        timed::report(&rt, "long", &made::long_symbols(rt.alloc(), count)?)?;
    }
    Ok(())
}

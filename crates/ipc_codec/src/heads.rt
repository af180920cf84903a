//! The parts that objects share: counts, texts, and the type bytes within a table.
ghost use Rattle.std.specs.Prelude.{◌≡◌, ◌<◌, ◌^◌, ◌≤◌, length, IfOk, Ok, position, IfNone, ◌==◌};
ghost use Rattle.std.specs.Option.{IfSome};
ghost use Rattle.q_values.specs.Bytes.{HasNoNul};
ghost use Rattle.ipc_codec.specs.Numbers.{number};
ghost use Rattle.ipc_codec.specs.Reading.{Finds, count_at, text_at, part_at};

use crate::fault::Fault;
use crate::order::Order;
use byteorder::{BigEndian, ByteOrder, LittleEndian};
use q_values::ShortSymbol;

fn number_of(bytes: &[u8], order: Order) -> u32
    requires { 4 ≤ length bytes.now }
    ensures { result ≡ number order 4 bytes.now }
{
    match order {
        Order::Little => LittleEndian::read_u32(bytes),
        Order::Big => BigEndian::read_u32(bytes),
    }
}

/// Reads an attribute byte, which may be any, and a count; returns the count and the bytes after it.
#[tactic(auto, unfolding(crate::specs::Reading::count_at))]
pub fn count_of(bytes: &[u8], order: Order) -> Result<(usize, &[u8]), Fault>
    ensures found { Finds (λ x. (x.0, x.1.now)) result (count_at order bytes.now) }
    ensures within { IfOk result (λ x. x.0 < 2 ^ 31) }
{
    match bytes {
        [] => Err(Fault::Truncated),
        [_, rest @ ..] => {
            if rest.len() < 4 {
                return Err(Fault::Truncated);
            }
            let count = number_of(rest, order);
            if count > 2_147_483_647 {
                return Err(Fault::BadShape(rest.len()));
            }
            Ok((count as usize, &rest[4..]))
        }
    }
}

// The index of the first 0.
fn first_nul(bytes: &[u8]) -> Option<usize>
    ensures first { result ≡ position (λ b. b == 0) bytes.now }
    ensures none { IfNone result (HasNoNul bytes.now) }
{
    bytes.iter().position(|b| *b == 0)
}

/// Reads a text that ends with a 0; returns it without the 0, and the bytes after the 0.
pub fn text_of(bytes: &[u8]) -> Result<(&[u8], &[u8]), Fault>
    ensures found { Finds (λ x. (x.0.now, x.1.now)) result (text_at bytes.now) }
    ensures no_nul { IfOk result (λ x. HasNoNul x.0.now) }
{
    match first_nul(bytes) {
        None => Err(Fault::Truncated),
        Some(end) => Ok((&bytes[..end], &bytes[end + 1..])),
    }
}

/// Reads a text of at most eight bytes that ends with a 0, where at least nine bytes are left; returns it without the 0,
/// and the bytes after the 0.
pub fn short_text_of(bytes: &[u8]) -> Option<(ShortSymbol, &[u8])>
    ensures found { IfSome result (λ x. text_at bytes.now ≡ Ok (x.0, x.1.now)) }
    ensures shorter { IfSome result (λ x. length x.1.now < length bytes.now) }
{
    if bytes.len() <= 8 {
        return None;
    }
    let symbol = ShortSymbol::before_nul(bytes.first_chunk()?);
    let end = symbol.len();
    if bytes[end] == 0 {
        Some((symbol, &bytes[end + 1..]))
    } else {
        None
    }
}

/// Reads the type byte of a part of a table, which has to be `this` or `that`, where `room` more levels may be open;
/// returns the bytes after it.
#[tactic(auto, unfolding(crate::specs::Reading::part_at))]
pub fn part_of(bytes: &[u8], room: u32, this: u8, that: u8) -> Result<&[u8], Fault>
    ensures { Finds (λ x. x.now) result (part_at room this that bytes.now) }
{
    match bytes {
        [] => Err(Fault::Truncated),
        [first, rest @ ..] => {
            if room == 0 {
                Err(Fault::TooDeep(bytes.len()))
            } else if *first == this || *first == that {
                Ok(rest)
            } else {
                Err(Fault::BadShape(bytes.len()))
            }
        }
    }
}

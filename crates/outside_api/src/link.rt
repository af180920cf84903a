//! A link: bytes come in, and bytes go out.

use thiserror::Error;

/// What one read of a link gave.
#[derive(Clone, Copy, Debug, PartialEq, Eq)]
pub enum Got {
    /// This number of bytes, at the front of the buffer.
    Bytes(usize),
    /// The input has ended.
    End,
    /// The read timed out: nothing came within the link's time.
    Idle,
    /// The read failed.
    Failed,
}

/// A write failed: a prefix of the bytes was taken.
#[derive(Clone, Copy, Debug, PartialEq, Eq, Error)]
#[error("the link failed")]
pub struct LinkFault;

/// A stream of bytes in both directions.
pub trait Link {
    ghost use Rattle.outside_api.specs.Link.{LinkView, Reads, Writes};

    /// What it shows: its input and the bytes given and taken, where it reports them; whether its input has ended; its
    /// counts.
    ghost shown: { Self → LinkView };

    /// Reads into the front of the buffer. A link that reports its input ends only where none of it is left.
    fn read(&mut self, buf: &mut [u8]) -> Got
        ensures { Reads (shown self.old) (shown self.new) buf.new result };

    /// Writes the bytes. After a fault a prefix of them was taken.
    fn write(&mut self, bytes: &[u8]) -> Result<(), LinkFault>
        ensures { Writes (shown self.old) (shown self.new) bytes.now result };
}

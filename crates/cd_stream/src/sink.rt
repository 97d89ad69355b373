//! Sinks: where bytes are written.

ghost use Rattle.std.specs.Prelude.{◌≡◌, ◌<◌, length};
ghost use Rattle.cd_stream.specs.Stream.{CanCountFailure, Outgoing};
ghost use Rattle.cd_stream.specs.Transfer.{Flushes, Writes};

use thiserror::Error;

/// A write or a flush failed. The sink has counted it.
#[derive(Clone, Copy, Debug, PartialEq, Eq, Error)]
#[error("a write or a flush failed")]
pub struct SinkFailed;

/// A destination of bytes, which are written in order. Each failed write or flush is counted.
pub trait Sink {
    // The state that contracts see.
    ghost seen: { Self → Outgoing };

    /// Writes some bytes from the front of `bytes`, which is not empty, and returns their number:
    /// at least 1.
    ///
    /// # Errors
    ///
    /// [`SinkFailed`] if the write failed: no byte was written, and one more failure is counted.
    fn write(&mut self, bytes: &[u8]) -> Result<usize, SinkFailed>
        requires some { 0 < length bytes.now }
        requires countable { CanCountFailure (seen self.old).failures }
        ensures { Writes (seen self.old) (seen self.new) bytes.now result };

    /// Passes on all bytes that the sink still holds back. It may be called again, or between
    /// writes: a flush does not change the bytes that the sink was given. A failed flush is counted
    /// like any failure.
    ///
    /// # Errors
    ///
    /// [`SinkFailed`] if a write or the flush failed; one more failure is counted.
    fn finish(&mut self) -> Result<(), SinkFailed>
        requires { CanCountFailure (seen self.old).failures }
        ensures { Flushes (seen self.old) (seen self.new) result };

    /// Whether the last call of `write` or `finish` was a `finish` that succeeded.
    fn finished(&self) -> bool
        ensures { result ≡ (seen self.now).finished };

    /// The number of writes and flushes that have failed.
    fn failures(&self) -> u32
        ensures { result ≡ (seen self.now).failures };
}

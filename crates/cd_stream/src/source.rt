//! Sources: where bytes are read from.

ghost use Rattle.std.specs.Prelude.{◌≡◌, ◌<◌, length};
ghost use Rattle.cd_stream.specs.Stream.{CanCountFailure, Incoming};
ghost use Rattle.cd_stream.specs.Transfer.{Reads};

use thiserror::Error;

/// A read failed. The source has counted it.
#[derive(Clone, Copy, Debug, PartialEq, Eq, Error)]
#[error("a read failed")]
pub struct SourceFailed;

/// A source of bytes, which are read once, from front to back. Each failed read is counted.
///
/// A contract may not know the bytes that a source still has; it always knows whether the last read
/// returned 0.
pub trait Source {
    // The state that contracts see.
    ghost seen: { Self → Incoming };

    /// Reads some bytes into the front of `into`, which is not empty, and returns their number: 0
    /// only at the end.
    ///
    /// # Errors
    ///
    /// [`SourceFailed`] if the read failed: no byte was read, and one more failure is counted.
    fn read(&mut self, into: &mut [u8]) -> Result<usize, SourceFailed>
        requires room { 0 < length into.old }
        requires countable { CanCountFailure (seen self.old).failures }
        ensures { Reads (seen self.old) (seen self.new) into.new result };

    /// The number of reads that have failed.
    fn failures(&self) -> u32
        ensures { result ≡ (seen self.now).failures };
}

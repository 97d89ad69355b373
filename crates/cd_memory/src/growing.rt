//! A sink that appends its bytes to a vector.

ghost use Rattle.std.specs.Prelude.{◌≡◌, Some};
ghost use Rattle.cd_stream.specs.Fresh.{fresh_outgoing};
ghost use Rattle.cd_memory.specs.Memory.{growing_outgoing};

use cd_stream::{Count, Sink, SinkFailed};
use std::alloc::Global;

/// A sink that appends its bytes to a vector. A write fails only if the vector cannot grow for lack
/// of memory. A flush never fails, and contracts know this.
#[derive(Debug, Drop)]
pub struct Growing {
    octets: Vec<u8>,
    flushes: Count,
    failures: u32,
    finished: bool,
}

impl Growing {
    /// Creates a sink to which nothing has been written.
    pub(crate) fn new(alloc: Global) -> Self
        ensures { growing_outgoing result ≡ fresh_outgoing }
    {
        Growing {
            octets: Vec::new(alloc),
            flushes: Count::zero(),
            failures: 0,
            finished: false,
        }
    }

    /// The bytes that were written.
    pub(crate) fn into_bytes(self) -> Vec<u8>
        ensures { Some result.items ≡ (growing_outgoing self).written }
    {
        self.octets
    }
}

impl Sink for Growing {
    ghost use Rattle.cd_memory.specs.Memory.{growing_outgoing};

    ghost seen = { growing_outgoing };

    fn write(&mut self, bytes: &[u8]) -> Result<usize, SinkFailed> {
        self.finished = false;
        match self.octets.extend_from_slice(bytes) {
            Ok(()) => Ok(bytes.len()),
            Err(_) => {
                self.failures += 1;
                Err(SinkFailed)
            }
        }
    }

    fn finish(&mut self) -> Result<(), SinkFailed> {
        self.flushes.add(1);
        self.finished = true;
        Ok(())
    }

    fn finished(&self) -> bool {
        self.finished
    }

    fn failures(&self) -> u32 {
        self.failures
    }
}

//! A sink that keeps nothing.

use cd_stream::{Count, Sink, SinkFailed};

/// The output of a check: keeps no byte, and never fails.
#[derive(Debug, Drop)]
pub struct NullSink {
    taken: Count,
    flushes: Count,
    finished: bool,
}

impl NullSink {
    ghost use Rattle.std.specs.Prelude.{◌≡◌, None, false};

    /// Creates a sink to which nothing has been written.
    pub fn new() -> Self
        ensures seen { ⟦<NullSink as Sink>⟧.seen result
            ≡ record {
              written = None;
              taken = 0;
              flushes = 0;
              failures = 0;
              finished = false;
              flush_may_fail = false;
              lent = None;
            } }
    {
        NullSink {
            taken: Count::zero(),
            flushes: Count::zero(),
            finished: false,
        }
    }
}

impl Sink for NullSink {
    ghost use Rattle.std.specs.Prelude.{None, false};

    ghost seen = { λ s. record {
      written = None;
      taken = s.taken;
      flushes = s.flushes;
      failures = 0;
      finished = s.finished;
      flush_may_fail = false;
      lent = None;
    } };

    fn write(&mut self, bytes: &[u8]) -> Result<usize, SinkFailed> {
        self.finished = false;
        self.taken.add(bytes.len());
        Ok(bytes.len())
    }

    fn finish(&mut self) -> Result<(), SinkFailed> {
        self.flushes.add(1);
        self.finished = true;
        Ok(())
    }

    fn finished(&self) -> bool {
        self.finished
    }

    fn failures(&self) -> u32 {
        0
    }
}

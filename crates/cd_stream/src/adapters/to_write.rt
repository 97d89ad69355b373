//! A std writer as a sink.

ghost use Rattle.std.specs.Prelude.{◌≡◌, None, false, true};

use crate::count::Count;
use crate::sink::{Sink, SinkFailed};
use std::io::Write;

/// A sink that passes its bytes to a std writer. Each error is a failure, even of an interrupted
/// write, and so is a write that accepts no byte.
///
/// For an `Err`, std's contract says only that no known byte moved. So tests with writers that
/// count their calls show that a call fails only if the writer fails, and that it is one call of
/// the writer.
#[derive(Debug, Drop)]
pub struct ToWrite<W> {
    writer: W,
    taken: Count,
    flushes: Count,
    failures: u32,
    finished: bool,
}

impl<W: Write> ToWrite<W> {
    /// Creates a sink over `writer`.
    ///
    /// # Examples
    ///
    /// ```
    /// let mut bytes = Vec::new(rt.alloc()); // a vector is a writer
    /// let mut sink = ToWrite::new(&mut bytes);
    /// assert_eq!(rt; sink.write(b"abc"), Ok(3));
    /// assert_eq!(rt; bytes.as_slice(), b"abc".as_slice());
    /// ```
    pub fn new(writer: W) -> Self
        ensures { ⟦<ToWrite<W> as Sink>⟧.seen result
            ≡ record {
              written = W.contents writer;
              taken = 0;
              flushes = 0;
              failures = 0;
              finished = false;
              flush_may_fail = true;
              lent = None;
            } }
    {
        ToWrite {
            writer,
            taken: Count::zero(),
            flushes: Count::zero(),
            failures: 0,
            finished: false,
        }
    }

    /// Returns the inner writer.
    ///
    /// # Examples
    ///
    /// ```
    /// let mut sink = ToWrite::new(Vec::new(rt.alloc()));
    /// assert_eq!(rt; sink.write(b"abc"), Ok(3));
    /// assert_eq!(rt; sink.into_inner().as_slice(), b"abc".as_slice());
    /// ```
    pub fn into_inner(self) -> W
        ensures { W.contents result ≡ (⟦<ToWrite<W> as Sink>⟧.seen self).written }
    {
        self.writer
    }
}

impl<W: Write> Sink for ToWrite<W> {
    ghost seen = { λ s. record {
      written = W.contents s.writer;
      taken = s.taken;
      flushes = s.flushes;
      failures = s.failures;
      finished = s.finished;
      flush_may_fail = true;
      lent = None;
    } };

    fn write(&mut self, bytes: &[u8]) -> Result<usize, SinkFailed> {
        self.finished = false;
        match self.writer.write(bytes) {
            Ok(n) if n > 0 => {
                self.taken.add(n);
                Ok(n)
            }
            _ => {
                self.failures += 1;
                Err(SinkFailed)
            }
        }
    }

    fn finish(&mut self) -> Result<(), SinkFailed> {
        self.flushes.add(1);
        self.finished = self.writer.flush().is_ok();
        if !self.finished {
            self.failures += 1;
            return Err(SinkFailed);
        }
        Ok(())
    }

    fn finished(&self) -> bool {
        self.finished
    }

    fn failures(&self) -> u32 {
        self.failures
    }
}

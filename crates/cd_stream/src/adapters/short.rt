//! A source or a sink that moves few bytes per call.

ghost use Rattle.std.specs.Prelude.{◌<◌};
ghost use Rattle.cd_stream.specs.Stream.{CanCountFailure};

use crate::sink::{Sink, SinkFailed};
use crate::source::{Source, SourceFailed};

/// Passes at most a fixed number of bytes in each call. Its count of failures is the count of the
/// inner source or sink.
#[derive(Debug, Drop)]
pub struct Short<S> {
    inner: S,
    most: usize,
    finished: bool,
    ghost some: { 0 < most },
}

impl<S> Short<S> {
    ghost use Rattle.std.specs.Prelude.{◌≡◌, false, max};
    ghost use Rattle.cd_stream.specs.Adapters.{passes_at_most, short_finished, short_inner};

    /// Creates a source or a sink over `inner` that passes at most `most` bytes per call, or 1 if
    /// `most` is 0, since a call has to move one byte.
    ///
    /// # Examples
    ///
    /// ```
    /// let mut space = [0; 4];
    /// let mut sink = Short::new(SliceSink::new(&mut space), 2);
    /// assert_eq!(rt; sink.write(b"abc"), Ok(2)); // at most 2 bytes a call
    /// assert_eq!(rt; sink.get_ref().written(), b"ab".as_slice());
    /// ```
    pub fn new(inner: S, most: usize) -> Self
        ensures over { short_inner result ≡ inner }
        ensures most { passes_at_most result ≡ max most 1 }
        ensures unfinished { short_finished result ≡ false }
    {
        Short {
            inner,
            most: most.max(1),
            finished: false,
        }
    }

    /// The inner source or sink.
    ///
    /// See the example of [`Short::new`].
    pub fn get_ref(&self) -> &S
        ensures { result.now ≡ short_inner self.now }
    {
        &self.inner
    }
}

impl<S: Source> Source for Short<S> {
    ghost use Rattle.std.specs.Prelude.{◌≡◌, ◌<◌, ◌≤◌, IfOk, length};
    ghost use Rattle.cd_stream.specs.Adapters.{passes_at_most, short_inner};
    ghost use Rattle.cd_stream.specs.Transfer.{Reads};

    ghost seen = { λ s. S.seen s.inner };

    fn read(&mut self, into: &mut [u8]) -> Result<usize, SourceFailed>
        requires room { 0 < length into.old }
        requires countable { CanCountFailure (S.seen (short_inner self.old)).failures }
        ensures reads { Reads (S.seen (short_inner self.old)) (S.seen (short_inner self.new))
            into.new result }
        ensures few { IfOk result (λ n. n ≤ passes_at_most self.old) }
        ensures most { passes_at_most self.new ≡ passes_at_most self.old }
    {
        let n = into.len().min(self.most);
        self.inner.read(&mut into[..n])
    }

    fn failures(&self) -> u32 {
        self.inner.failures()
    }
}

impl<S: Sink> Sink for Short<S> {
    ghost use Rattle.std.specs.Prelude.{◌≡◌, ◌<◌, ◌≤◌, IfOk, length};
    ghost use Rattle.cd_stream.specs.Adapters.{passes_at_most, short_inner, short_outgoing};
    ghost use Rattle.cd_stream.specs.Transfer.{Flushes, Writes};

    ghost seen = { λ s. record {
      written = (S.seen s.inner).written;
      taken = (S.seen s.inner).taken;
      flushes = (S.seen s.inner).flushes;
      failures = (S.seen s.inner).failures;
      finished = s.finished;
      flush_may_fail = (S.seen s.inner).flush_may_fail;
      lent = (S.seen s.inner).lent;
    } };

    fn write(&mut self, bytes: &[u8]) -> Result<usize, SinkFailed>
        requires some { 0 < length bytes.now }
        requires countable { CanCountFailure (short_outgoing S.seen self.old).failures }
        ensures writes { Writes (short_outgoing S.seen self.old) (short_outgoing S.seen self.new)
            bytes.now result }
        ensures few { IfOk result (λ n. n ≤ passes_at_most self.old) }
        ensures most { passes_at_most self.new ≡ passes_at_most self.old }
    {
        self.finished = false;
        let n = bytes.len().min(self.most);
        self.inner.write(&bytes[..n])
    }

    fn finish(&mut self) -> Result<(), SinkFailed>
        requires { CanCountFailure (short_outgoing S.seen self.old).failures }
        ensures flushes { Flushes (short_outgoing S.seen self.old) (short_outgoing S.seen self.new)
            result }
        ensures within { Flushes (S.seen (short_inner self.old)) (S.seen (short_inner self.new))
            result }
        ensures most { passes_at_most self.new ≡ passes_at_most self.old }
    {
        let finished = self.inner.finish();
        self.finished = finished.is_ok();
        finished
    }

    fn finished(&self) -> bool {
        self.finished
    }

    fn failures(&self) -> u32 {
        self.inner.failures()
    }
}

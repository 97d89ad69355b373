//! A source or a sink that fails after a number of bytes.

ghost use Rattle.std.specs.Prelude.{◌≡◌, ◌<◌};
ghost use Rattle.cd_stream.specs.Stream.{CanCountFailure};

use crate::sink::{Sink, SinkFailed};
use crate::source::{Source, SourceFailed};

/// Passes a number of bytes, and then fails each call. These failed calls leave the inner source or
/// sink unchanged.
///
/// Its count of failures is the sum of the inner count and its own, but at most 4,294,967,295.
#[derive(Debug, Drop)]
pub struct FailAfter<S> {
    inner: S,
    left: u64,
    own: u32,
    finished: bool,
    ghost spent: { 0 < own → left ≡ 0 },
}

impl<S> FailAfter<S> {
    ghost use Rattle.std.specs.Prelude.{◌≡◌, false};
    ghost use Rattle.cd_stream.specs.Adapters.{fail_after_finished, fail_after_inner, own_failures};
    ghost use Rattle.cd_stream.specs.Adapters.{still_passes};

    /// Creates a source or a sink over `inner` that passes `count` bytes.
    ///
    /// # Examples
    ///
    /// ```
    /// let mut space = [0; 4];
    /// let mut sink = FailAfter::new(SliceSink::new(&mut space), 2);
    /// assert_eq!(rt; write_all(&mut sink, b"abc"), Err(SinkFailed)); // from the third byte on
    /// assert_eq!(rt; sink.get_ref().written(), b"ab".as_slice());
    /// ```
    pub fn new(inner: S, count: u64) -> Self
        ensures over { fail_after_inner result ≡ inner }
        ensures limit { still_passes result ≡ count }
        ensures failures { own_failures result ≡ 0 }
        ensures unfinished { fail_after_finished result ≡ false }
    {
        FailAfter {
            inner,
            left: count,
            own: 0,
            finished: false,
        }
    }

    /// The inner source or sink.
    ///
    /// See the example of [`FailAfter::new`].
    pub fn get_ref(&self) -> &S
        ensures { result.now ≡ fail_after_inner self.now }
    {
        &self.inner
    }
}

impl<S: Source> Source for FailAfter<S> {
    ghost use Rattle.std.specs.Prelude.{◌≡◌, ◌+◌, ◌<◌, ◌&&◌, IfOk, IsErr, OnErr, length, min};
    ghost use Rattle.std.specs.Prelude.{nat_eq};
    ghost use Rattle.cd_stream.specs.Adapters.{fail_after_inner, failing_incoming, still_passes};
    ghost use Rattle.cd_stream.specs.Transfer.{Counts, Reads};

    ghost seen = { λ s. record {
      rest = (S.seen s.inner).rest;
      given = (S.seen s.inner).given;
      failures = min ((S.seen s.inner).failures + s.own) 4294967295;
      ended = (S.seen s.inner).ended && nat_eq s.own 0;
    } };

    fn read(&mut self, into: &mut [u8]) -> Result<usize, SourceFailed>
        requires room { 0 < length into.old }
        requires countable { CanCountFailure (failing_incoming S.seen self.old).failures }
        ensures reads { Reads (failing_incoming S.seen self.old) (failing_incoming S.seen self.new)
            into.new result }
        ensures limit { still_passes self.old ≡ 0 → IsErr result }
        ensures past { still_passes self.old ≡ 0
            → fail_after_inner self.new ≡ fail_after_inner self.old }
        ensures within { 0 < still_passes self.old
            → Counts (S.seen (fail_after_inner self.old)).failures
            (S.seen (fail_after_inner self.new)).failures result }
        ensures left { IfOk result (λ n. still_passes self.new + n ≡ still_passes self.old) }
        ensures left_on_err { OnErr result (still_passes self.new ≡ still_passes self.old) }
    {
        let n = self.left.min(into.len() as u64) as usize;
        if n == 0 {
            self.own += 1;
            return Err(SourceFailed);
        }
        let n = self.inner.read(&mut into[..n])?;
        self.left -= n as u64;
        Ok(n)
    }

    fn failures(&self) -> u32 {
        self.inner.failures().saturating_add(self.own)
    }
}

impl<S: Sink> Sink for FailAfter<S> {
    ghost use Rattle.std.specs.Prelude.{◌≡◌, ◌+◌, ◌<◌, IfOk, IsErr, OnErr, length, min, true};
    ghost use Rattle.cd_stream.specs.Adapters.{fail_after_inner, failing_outgoing, still_passes};
    ghost use Rattle.cd_stream.specs.Transfer.{Counts, Flushes, Writes};

    ghost seen = { λ s. record {
      written = (S.seen s.inner).written;
      taken = (S.seen s.inner).taken;
      flushes = (S.seen s.inner).flushes;
      failures = min ((S.seen s.inner).failures + s.own) 4294967295;
      finished = s.finished;
      flush_may_fail = true;
      lent = (S.seen s.inner).lent;
    } };

    fn write(&mut self, bytes: &[u8]) -> Result<usize, SinkFailed>
        requires some { 0 < length bytes.now }
        requires countable { CanCountFailure (failing_outgoing S.seen self.old).failures }
        ensures writes { Writes (failing_outgoing S.seen self.old)
            (failing_outgoing S.seen self.new) bytes.now result }
        ensures limit { still_passes self.old ≡ 0 → IsErr result }
        ensures past { still_passes self.old ≡ 0
            → fail_after_inner self.new ≡ fail_after_inner self.old }
        ensures within { 0 < still_passes self.old
            → Counts (S.seen (fail_after_inner self.old)).failures
            (S.seen (fail_after_inner self.new)).failures result }
        ensures left { IfOk result (λ n. still_passes self.new + n ≡ still_passes self.old) }
        ensures left_on_err { OnErr result (still_passes self.new ≡ still_passes self.old) }
    {
        self.finished = false;
        let n = self.left.min(bytes.len() as u64) as usize;
        if n == 0 {
            self.own += 1;
            return Err(SinkFailed);
        }
        let n = self.inner.write(&bytes[..n])?;
        self.left -= n as u64;
        Ok(n)
    }

    fn finish(&mut self) -> Result<(), SinkFailed>
        requires { CanCountFailure (failing_outgoing S.seen self.old).failures }
        ensures flushes { Flushes (failing_outgoing S.seen self.old)
            (failing_outgoing S.seen self.new) result }
        ensures limit { still_passes self.old ≡ 0 → IsErr result }
        ensures past { still_passes self.old ≡ 0
            → fail_after_inner self.new ≡ fail_after_inner self.old }
        ensures within { 0 < still_passes self.old
            → Flushes (S.seen (fail_after_inner self.old)) (S.seen (fail_after_inner self.new))
            result }
        ensures left { still_passes self.new ≡ still_passes self.old }
    {
        self.finished = false;
        if self.left == 0 {
            self.own += 1;
            return Err(SinkFailed);
        }
        self.inner.finish()?;
        self.finished = true;
        Ok(())
    }

    fn finished(&self) -> bool {
        self.finished
    }

    fn failures(&self) -> u32 {
        self.inner.failures().saturating_add(self.own)
    }
}

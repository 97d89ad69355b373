//! A sink that holds bytes back before it writes them to another sink.

ghost use Rattle.std.specs.Prelude.{◌≡◌, ◌+◌, ◌≤◌, ◌++◌, drop, length, take};
ghost use Rattle.cd_stream.specs.Stream.{CanCountFailure};

use crate::sink::{Sink, SinkFailed};

/// A sink that holds bytes back before it passes them on to an inner sink. It passes them on when a
/// write finds no room, and at `finish`. It holds back at most as many bytes as its space has, so
/// with an empty space it passes on each write at once.
///
/// If a write or flush of the inner sink fails, the call that made it fails, and only a further
/// call makes it again. Bytes that are still held when it is dropped are lost.
///
/// It replaces std's `BufWriter`, which repeats an interrupted write, and when dropped a failed
/// one; std's contract does not say which calls a `BufWriter` makes of its inner writer.
#[derive(Debug, Drop)]
pub struct Buffered<S> {
    inner: S,
    space: Vec<u8>,
    // The held bytes are those from `start` to before `end`.
    start: usize,
    end: usize,
    finished: bool,
    ghost ordered: { start ≤ end },
    ghost within: { end ≤ length space.items },
}

impl<S: Sink> Buffered<S> {
    ghost use Rattle.std.specs.Prelude.{◌≡◌, ◌+◌, ◌<◌, ◌≤◌, [], ◌++◌, IfOk, false, length, true};
    ghost use Rattle.cd_stream.specs.Buffering.{Drains, buffered_inner, buffered_outgoing, held_bytes};
    ghost use Rattle.cd_stream.specs.Buffering.{held_count, held_only, is_finished, room_after};
    ghost use Rattle.cd_stream.specs.Buffering.{space_of};
    ghost use Rattle.cd_stream.specs.Transfer.{Writes};

    /// Creates a sink over `inner` that holds back at most as many bytes as `space` has.
    ///
    /// # Examples
    ///
    /// ```
    /// let mut memory = [0; 4];
    /// let mut sink = Buffered::new(SliceSink::new(&mut memory), vec![in rt.alloc(); 0; 8]?);
    /// assert_eq!(rt; sink.write(b"abcde"), Ok(5)); // it holds them back
    /// assert_eq!(rt; sink.finish(), Err(SinkFailed)); // below there is no room for the last
    /// ```
    pub fn new(inner: S, space: Vec<u8>) -> Self
        ensures seen { ⟦<Buffered<S> as Sink>⟧.seen result
            ≡ record (S.seen inner) { finished = false; flush_may_fail = true } }
        ensures over { buffered_inner result ≡ inner }
        ensures space { space_of result ≡ length space.items }
        ensures room { room_after result ≡ length space.items }
        ensures empty { held_bytes result ≡ [] }
    {
        Buffered {
            inner,
            space,
            start: 0,
            end: 0,
            finished: false,
        }
    }

    /// Appends `bytes`, for which there is room, to the held bytes.
    fn hold(&mut self, bytes: &[u8])
        requires { length bytes.now ≤ room_after self.old }
        ensures held { held_bytes self.new ≡ held_bytes self.old ++ bytes.now }
        ensures count { held_count self.new ≡ held_count self.old + length bytes.now }
        ensures inner { buffered_inner self.new ≡ buffered_inner self.old }
        ensures space { space_of self.new ≡ space_of self.old }
        ensures room { room_after self.new + length bytes.now ≡ room_after self.old }
        ensures finished { is_finished self.new ≡ is_finished self.old }
    {
        copy_at(&mut self.space, self.end, bytes);
        self.end += bytes.len();
    }

    /// Passes on all held bytes. If a write fails, the bytes that were not written stay held, and
    /// stay in their place; the room before them is used again only when all bytes were passed on.
    #[cold]
    #[inline(never)]
    fn drain(&mut self) -> Result<(), SinkFailed>
        requires { CanCountFailure (S.seen (buffered_inner self.old)).failures }
        ensures { Drains S.seen self.old self.new result }
    {
        while self.start < self.end {
            self.start += self.inner.write(&self.space[self.start..self.end])?;
        }
        self.start = 0;
        self.end = 0;
        Ok(())
    }

    /// Writes bytes for which there was no room: passes on the held bytes, and then holds these.
    /// Only if they are more than the space has are they written directly to the inner sink.
    #[cold]
    #[inline(never)]
    fn write_past(&mut self, bytes: &[u8]) -> Result<usize, SinkFailed>
        requires some { 0 < length bytes.now }
        requires unfinished { is_finished self.old ≡ false }
        requires countable { CanCountFailure (S.seen (buffered_inner self.old)).failures }
        ensures writes { Writes (buffered_outgoing S.seen self.old)
            (buffered_outgoing S.seen self.new) bytes.now result }
        ensures space { space_of self.new ≡ space_of self.old }
        ensures held { IfOk result (λ _. held_bytes self.new ≡ held_only self.old bytes.now) }
    {
        self.drain()?;
        if bytes.len() > self.space.len() {
            return self.inner.write(bytes);
        }
        self.hold(bytes);
        Ok(bytes.len())
    }
}

/// Proof step: copies `bytes` into `space` from `place` on, so that one clause names the bytes
/// before and after them.
fn copy_at(space: &mut [u8], place: usize, bytes: &[u8])
    requires { place + length bytes.now ≤ length space.old }
    ensures { space.new
        ≡ take place space.old ++ bytes.now ++ drop (place + length bytes.now) space.old }
{
    space[place..place + bytes.len()].copy_from_slice(bytes);
}

impl<S: Sink> Sink for Buffered<S> {
    ghost use Rattle.std.specs.Prelude.{◌≡◌, ◌-◌, ◌<◌, ◌≤◌, [], ◌&&◌, IfOk, IsOk, IsTrue, drop};
    ghost use Rattle.std.specs.Prelude.{length, nat_eq, take, true};
    ghost use Rattle.std.specs.Io.KnownBytes.{append_known};
    ghost use Rattle.cd_stream.specs.Buffering.{HasDrained, HoldsBack, buffered_inner, buffered_outgoing};
    ghost use Rattle.cd_stream.specs.Buffering.{held_after, held_bytes, room_after, space_of};
    ghost use Rattle.cd_stream.specs.Transfer.{Flushes, Writes};

    ghost seen = { λ s. record {
      written = append_known (S.seen s.inner).written
          (take (s.end - s.start) (drop s.start s.space.items));
      taken = (S.seen s.inner).taken + (s.end - s.start);
      flushes = (S.seen s.inner).flushes;
      failures = (S.seen s.inner).failures;
      finished = s.finished && (S.seen s.inner).finished && nat_eq s.start s.end;
      flush_may_fail = true;
      lent = (S.seen s.inner).lent;
    } };

    fn write(&mut self, bytes: &[u8]) -> Result<usize, SinkFailed>
        requires some { 0 < length bytes.now }
        requires countable { CanCountFailure (buffered_outgoing S.seen self.old).failures }
        ensures writes { Writes (buffered_outgoing S.seen self.old)
            (buffered_outgoing S.seen self.new) bytes.now result }
        ensures fits { length bytes.now ≤ room_after self.old
            → HoldsBack self.old self.new bytes.now result }
        ensures held { IfOk result (λ _. held_bytes self.new ≡ held_after self.old bytes.now) }
        ensures few { length (held_bytes self.new) ≤ space_of self.new }
        ensures space { space_of self.new ≡ space_of self.old }
    {
        self.finished = false;
        if bytes.len() > self.space.len() - self.end {
            return self.write_past(bytes);
        }
        self.hold(bytes);
        Ok(bytes.len())
    }

    fn finish(&mut self) -> Result<(), SinkFailed>
        requires { CanCountFailure (buffered_outgoing S.seen self.old).failures }
        ensures flushes { Flushes (buffered_outgoing S.seen self.old)
            (buffered_outgoing S.seen self.new) result }
        ensures below { IsOk result → (S.seen (buffered_inner self.new)).finished ≡ true }
        ensures empty { IsOk result → held_bytes self.new ≡ [] }
        ensures room { IsOk result → room_after self.new ≡ space_of self.new }
        ensures few { length (held_bytes self.new) ≤ space_of self.new }
        ensures space { space_of self.new ≡ space_of self.old }
    {
        self.finished = false;
        self.drain()?;
        self.inner.finish()?;
        self.finished = true;
        Ok(())
    }

    fn finished(&self) -> bool
        ensures finished { result ≡ (buffered_outgoing S.seen self.now).finished }
        ensures passed { IsTrue result → HasDrained S.seen self.now }
    {
        // It has its own flag, so that a new `Buffered` over a finished sink is not finished.
        self.finished && self.inner.finished() && self.start == self.end
    }

    fn failures(&self) -> u32 {
        self.inner.failures()
    }
}

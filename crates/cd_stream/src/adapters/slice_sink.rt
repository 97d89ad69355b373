//! A slice of memory as a sink.

ghost use Rattle.std.specs.Prelude.{◌≡◌, ◌≢◌, ◌≤◌, [], Some, drop, false, length, take};
ghost use Rattle.std.specs.Mem.{manually_drop_value};
ghost use Rattle.cd_stream.specs.Stream.{CanCountFailure};

use crate::count::Count;
use crate::sink::{Sink, SinkFailed};
use std::fmt::{self, Debug, Formatter, Write};
use std::mem::ManuallyDrop;
use std::snapshot::Snapshot;

/// The slice as it was lent.
#[derive(Drop)]
struct Lent<'a> {
    slice: &'a mut [u8],
}

/// A sink that fills a slice from its front, and fails when the slice is full.
///
/// In contracts its state names the slice as it was lent, and no call of a sink changes this name.
/// So a caller that passes it to a function over any sink, and then moves the slice out, knows that
/// it is the same slice.
#[derive(Drop)]
pub struct SliceSink<'a> {
    /// The slice. Its first `used` bytes were written, and the rest is unchanged.
    pub space: &'a mut [u8],
    /// The number of bytes that were written.
    pub used: usize,
    flushes: Count,
    failures: u32,
    finished: bool,
    // Nothing is dropped, so that the slice can be moved out.
    lent: ManuallyDrop<Snapshot<Lent<'a>>>,
    ghost within: { used ≤ length space.now },
    ghost same_slice: { space.ghost_name ≡ (manually_drop_value lent).value.slice.ghost_name },
    ghost rest: { drop used space.now ≡ drop used (manually_drop_value lent).value.slice.now },
    ghost size: { length space.now ≡ length (manually_drop_value lent).value.slice.now },
    ghost full: { failures ≢ 0 → used ≡ length space.now },
}

impl Debug for SliceSink<'_> {
    fn fmt<W: Write>(&self, f: &mut Formatter<W>) -> fmt::Result {
        f.write_str("SliceSink")
    }
}

impl<'a> SliceSink<'a> {
    ghost use Rattle.std.specs.Prelude.{◌≡◌, [], Some, false, length};
    ghost use Rattle.cd_stream.specs.Adapters.{lent_to, room_of, rest_of_slice, slice_ghost_name};
    ghost use Rattle.cd_stream.specs.Adapters.{slice_written};

    /// Creates a sink over `space`, which is filled from its front.
    ///
    /// # Examples
    ///
    /// ```
    /// let mut space = [0; 4];
    /// let mut sink = SliceSink::new(&mut space);
    /// assert_eq!(rt; sink.write(b"ab"), Ok(2));
    /// assert_eq!(rt; sink.written(), b"ab".as_slice());
    /// ```
    pub fn new(space: &'a mut [u8]) -> Self
        ensures seen { ⟦<SliceSink<'a> as Sink>⟧.seen result
            ≡ record {
              written = Some [];
              taken = 0;
              flushes = 0;
              failures = 0;
              finished = false;
              flush_may_fail = false;
              lent = Some (lent_to result);
            } }
        ensures lent { lent_to result ≡ space.entry }
        ensures room { room_of result ≡ length space.entry.now }
        ensures rest { rest_of_slice result ≡ space.entry.now }
        ensures same_slice { slice_ghost_name result ≡ space.entry.ghost_name }
    {
        let lent = Lent { slice: space };
        let before = ManuallyDrop::new(Snapshot::of(&lent));
        let Lent { slice } = lent;
        SliceSink {
            space: slice,
            used: 0,
            flushes: Count::zero(),
            failures: 0,
            finished: false,
            lent: before,
        }
    }

    /// The bytes that were written, in order: the front of the slice.
    ///
    /// See the example of [`SliceSink::new`].
    pub fn written(&self) -> &[u8]
        ensures { result.now ≡ slice_written self.now }
    {
        &self.space[..self.used]
    }
}

impl Sink for SliceSink<'_> {
    ghost use Rattle.std.specs.Prelude.{◌≡◌, ◌+◌, ◌<◌, ◌↔◌, IfOk, IsOk, OnErr, Some, drop, false};
    ghost use Rattle.std.specs.Prelude.{is_ok, length, min, take};
    ghost use Rattle.cd_stream.specs.Adapters.{room_of, slice_outgoing, slice_ghost_name, rest_of_slice};
    ghost use Rattle.cd_stream.specs.Transfer.{Flushes, Writes};

    ghost seen = { λ s. record {
      written = Some (take s.used s.space.now);
      taken = s.used;
      flushes = s.flushes;
      failures = s.failures;
      finished = s.finished;
      flush_may_fail = false;
      lent = Some (manually_drop_value s.lent).value.slice;
    } };

    fn write(&mut self, bytes: &[u8]) -> Result<usize, SinkFailed>
        requires some { 0 < length bytes.now }
        requires countable { CanCountFailure (slice_outgoing self.old).failures }
        ensures writes { Writes (slice_outgoing self.old) (slice_outgoing self.new)
            bytes.now result }
        ensures room { IsOk result ↔ (0 < room_of self.old) }
        ensures taken { IfOk result (λ n. n ≡ min (length bytes.now) (room_of self.old)) }
        ensures room_left { IfOk result (λ n. room_of self.new + n ≡ room_of self.old) }
        ensures rest { IfOk result (λ n. rest_of_slice self.new ≡ drop n (rest_of_slice self.old)) }
        ensures rest_left { OnErr result (rest_of_slice self.new ≡ rest_of_slice self.old) }
        ensures same_slice { slice_ghost_name self.new ≡ slice_ghost_name self.old }
    {
        self.finished = false;
        let n = bytes.len().min(self.space.len() - self.used);
        if n == 0 {
            self.failures += 1;
            return Err(SinkFailed);
        }
        let end = self.used + n;
        self.space[self.used..end].copy_from_slice(&bytes[..n]);
        self.used = end;
        Ok(n)
    }

    fn finish(&mut self) -> Result<(), SinkFailed>
        requires { CanCountFailure (slice_outgoing self.old).failures }
        ensures flushes { Flushes (slice_outgoing self.old) (slice_outgoing self.new) result }
        ensures never_fails { IsOk result }
        ensures room { room_of self.new ≡ room_of self.old }
        ensures rest { rest_of_slice self.new ≡ rest_of_slice self.old }
        ensures same_slice { slice_ghost_name self.new ≡ slice_ghost_name self.old }
    {
        self.flushes.add(1);
        self.finished = true;
        Ok(())
    }

    fn finished(&self) -> bool {
        self.finished
    }

    fn failures(&self) -> u32 {
        self.failures
    }
}

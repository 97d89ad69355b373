//! A slice of memory as a source.

ghost use Rattle.std.specs.Prelude.{◌≡◌, Some, false};

use crate::count::Count;
use crate::source::{Source, SourceFailed};

/// A source of the bytes of a slice. It never fails.
#[derive(Debug, Drop)]
pub struct SliceSource<'a> {
    rest: &'a [u8],
    given: Count,
    ended: bool,
}

impl<'a> SliceSource<'a> {
    /// Creates a source over `bytes`.
    ///
    /// # Examples
    ///
    /// ```
    /// let mut source = SliceSource::new(b"abc");
    /// let mut into = [0; 2];
    /// assert_eq!(rt; source.read(&mut into), Ok(2));
    /// assert_eq!(rt; into, *b"ab");
    /// ```
    pub fn new(bytes: &'a [u8]) -> Self
        ensures { ⟦<SliceSource<'a> as Source>⟧.seen result
            ≡ record { rest = Some bytes.entry.now; given = 0; failures = 0; ended = false } }
    {
        SliceSource {
            rest: bytes,
            given: Count::zero(),
            ended: false,
        }
    }
}

impl Source for SliceSource<'_> {
    ghost use Rattle.std.specs.Prelude.{◌<◌, IsOk, Some, length};
    ghost use Rattle.cd_stream.specs.Adapters.{slice_incoming};
    ghost use Rattle.cd_stream.specs.Transfer.{Reads};

    ghost seen = { λ s. record {
      rest = Some s.rest.now;
      given = s.given;
      failures = 0;
      ended = s.ended;
    } };

    fn read(&mut self, into: &mut [u8]) -> Result<usize, SourceFailed>
        requires { 0 < length into.old }
        ensures reads { Reads (slice_incoming self.old) (slice_incoming self.new) into.new result }
        ensures never_fails { IsOk result }
    {
        let n = into.len().min(self.rest.len());
        let (front, rest) = self.rest.split_at(n);
        into[..n].copy_from_slice(front);
        self.rest = rest;
        self.given.add(n);
        self.ended = n == 0;
        Ok(n)
    }

    fn failures(&self) -> u32 {
        0
    }
}

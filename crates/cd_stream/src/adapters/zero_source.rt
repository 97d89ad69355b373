//! A source of bytes `00`.

ghost use Rattle.std.specs.Prelude.{◌≡◌, Some, false, replicate};

use crate::count::Count;
use crate::source::{Source, SourceFailed};

/// A source of a given number of bytes `00`. It never fails.
#[derive(Debug, Drop)]
pub struct ZeroSource {
    left: u64,
    given: Count,
    ended: bool,
}

impl ZeroSource {
    /// Creates a source of `count` bytes `00`.
    ///
    /// # Examples
    ///
    /// ```
    /// let mut into = [7; 4];
    /// assert_eq!(rt; fill_buffer(&mut ZeroSource::new(3), &mut into), Ok(3));
    /// assert_eq!(rt; into, [0, 0, 0, 7]);
    /// ```
    pub fn new(count: u64) -> Self
        ensures { ⟦<ZeroSource as Source>⟧.seen result
            ≡ record { rest = Some (replicate count 0); given = 0; failures = 0; ended = false } }
    {
        ZeroSource {
            left: count,
            given: Count::zero(),
            ended: false,
        }
    }
}

impl Source for ZeroSource {
    ghost use Rattle.std.specs.Prelude.{◌<◌, IsOk, Some, length, replicate};
    ghost use Rattle.cd_stream.specs.Adapters.{zeros_incoming};
    ghost use Rattle.cd_stream.specs.Transfer.{Reads};

    ghost seen = { λ s. record {
      rest = Some (replicate s.left 0);
      given = s.given;
      failures = 0;
      ended = s.ended;
    } };

    fn read(&mut self, into: &mut [u8]) -> Result<usize, SourceFailed>
        requires { 0 < length into.old }
        ensures reads { Reads (zeros_incoming self.old) (zeros_incoming self.new) into.new result }
        ensures never_fails { IsOk result }
    {
        let n = self.left.min(into.len() as u64);
        into[..n as usize].fill(0);
        self.left -= n;
        self.given.add(n as usize);
        self.ended = n == 0;
        Ok(n as usize)
    }

    fn failures(&self) -> u32 {
        0
    }
}

//! A std reader as a source.

ghost use Rattle.std.specs.Prelude.{◌≡◌, false};

use crate::count::Count;
use crate::source::{Source, SourceFailed};
use std::io::Read;

/// A source of the bytes of a std reader. Each error is a failure, even of an interrupted read, and
/// nothing is tried again.
///
/// For an `Err`, std's contract says only that no known byte moved. So no clause says that a read
/// fails only if the reader fails, or that a call is one call of the reader. Tests with readers
/// that count their calls show both.
#[derive(Debug, Drop)]
pub struct FromRead<R> {
    reader: R,
    given: Count,
    failures: u32,
    ended: bool,
}

impl<R: Read> FromRead<R> {
    /// Creates a source over `reader`.
    ///
    /// # Examples
    ///
    /// ```
    /// let mut source = FromRead::new(b"abc".as_slice()); // a slice is a reader
    /// let mut into = [0; 4];
    /// assert_eq!(rt; source.read(&mut into), Ok(3));
    /// assert_eq!(rt; into, *b"abc\0");
    /// ```
    pub fn new(reader: R) -> Self
        ensures { ⟦<FromRead<R> as Source>⟧.seen result
            ≡ record { rest = R.remaining reader; given = 0; failures = 0; ended = false } }
    {
        FromRead {
            reader,
            given: Count::zero(),
            failures: 0,
            ended: false,
        }
    }
}

impl<R: Read> Source for FromRead<R> {
    ghost seen = { λ s. record {
      rest = R.remaining s.reader;
      given = s.given;
      failures = s.failures;
      ended = s.ended;
    } };

    fn read(&mut self, into: &mut [u8]) -> Result<usize, SourceFailed> {
        match self.reader.read(into) {
            Ok(n) => {
                self.given.add(n);
                self.ended = n == 0;
                Ok(n)
            }
            Err(_) => {
                self.ended = false;
                self.failures += 1;
                Err(SourceFailed)
            }
        }
    }

    fn failures(&self) -> u32 {
        self.failures
    }
}

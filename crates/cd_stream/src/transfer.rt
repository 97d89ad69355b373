//! Fills a buffer, and writes all bytes of a slice, in as many calls as needed: the loops of
//! cd_read, cd_report, cd_image, and the program.

ghost use Rattle.std.specs.Prelude.{◌<◌};
ghost use Rattle.cd_stream.specs.Transfer.{Fills, Sends};
ghost use Rattle.cd_stream.specs.Stream.{CanCountFailure};

use crate::sink::{Sink, SinkFailed};
use crate::source::{Source, SourceFailed};

/// Reads until `into` is full or the source has ended, and returns the number of bytes read: less
/// than the length of `into` only at the end.
///
/// # Errors
///
/// [`SourceFailed`] if a read failed. The bytes read before are at the front of `into`.
///
/// # Examples
///
/// ```
/// let mut source = SliceSource::new(b"abc");
/// let mut into = [0; 4];
/// assert_eq!(rt; fill_buffer(&mut source, &mut into), Ok(3)); // then it has ended
/// assert_eq!(rt; into, *b"abc\0");
/// ```
pub fn fill_buffer<I: Source>(image: &mut I, into: &mut [u8]) -> Result<usize, SourceFailed>
    requires { CanCountFailure (I.seen image.old).failures }
    ensures { Fills (I.seen image.old) (I.seen image.new) into.new result }
{
    let mut have = 0;
    while have < into.len() {
        let n = image.read(&mut into[have..])?;
        if n == 0 {
            break;
        }
        have += n;
    }
    Ok(have)
}

/// Writes all of `bytes`, in as many calls as needed.
///
/// # Errors
///
/// [`SinkFailed`] if a write failed: only a front of `bytes` was written, without the last byte.
///
/// # Examples
///
/// ```
/// let mut space = [0; 3];
/// let mut sink = SliceSink::new(&mut space);
/// assert_eq!(rt; write_all(&mut sink, b"abcd"), Err(SinkFailed)); // no room for the last
/// assert_eq!(rt; sink.written(), b"abc".as_slice());
/// ```
pub fn write_all<O: Sink>(out: &mut O, bytes: &[u8]) -> Result<(), SinkFailed>
    requires { CanCountFailure (O.seen out.old).failures }
    ensures { Sends (O.seen out.old) (O.seen out.new) bytes.now result }
{
    let mut sent = 0;
    while sent < bytes.len() {
        sent += out.write(&bytes[sent..])?;
    }
    Ok(())
}

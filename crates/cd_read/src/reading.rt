//! Reads an image sector by sector, up to the largest size of an image.

ghost use Rattle.std.specs.Prelude.{◌≡◌, ◌<◌, ◌≤◌};
ghost use Rattle.cd_read.specs.Reading.{ReadsSector};
ghost use Rattle.cd_stream.specs.Stream.{CanCountFailure};
ghost use Rattle.cd_sector.specs.Image.{sector_limit};

use crate::fault::Fault;
use cd_sector::{MAX_SECTORS, SECTOR_SIZE, Sector};
use cd_stream::{Source, fill_buffer};

/// Reads the next sector of an image, after `count` others, directly into the bytes of `sector`. At
/// the end of the image it returns the number of bytes of the tail, which is then at the front of
/// `sector`. `list`, `audit`, `apply`, and `check` read an image only by this call, which keeps to
/// the limit of an image.
///
/// # Errors
///
/// `Read` if a read of the image fails, `TooLong` if a byte is read after the last sector that an
/// image may have.
///
/// # Examples
///
/// ```
/// let mut image = ZeroSource::new(2352 + 3);
/// let mut sector = Sector::default();
/// assert_eq!(rt; read_sector(&mut image, 0, &mut sector), Ok(None)); // a whole one
/// assert_eq!(rt; read_sector(&mut image, 1, &mut sector), Ok(Some(3))); // the tail
/// ```
pub fn read_sector<I: Source>(
    image: &mut I,
    count: u32,
    sector: &mut Sector,
) -> Result<Option<usize>, Fault>
    requires countable { CanCountFailure (I.seen image.old).failures }
    requires few { count ≤ sector_limit }
    ensures { ReadsSector count sector.new (I.seen image.old) (I.seen image.new) result }
{
    // Proof step: the source is passed through the call, since nothing would be known of a variable
    // that the closure captured.
    sector.with_bytes_mut(image, |image, bytes| read_bytes(image, count, bytes))
}

/// Reads the next sector of an image, after `count` others, into the bytes of a sector.
fn read_bytes<I: Source>(
    image: &mut I,
    count: u32,
    bytes: &mut [u8; SECTOR_SIZE],
) -> Result<Option<usize>, Fault>
    requires countable { CanCountFailure (I.seen image.old).failures }
    requires few { count ≤ sector_limit }
    ensures { ReadsSector count bytes.new (I.seen image.old) (I.seen image.new) result }
{
    if count == MAX_SECTORS {
        return read_end(image, bytes);
    }
    let length = fill_buffer(image, bytes)?;
    if length < SECTOR_SIZE {
        return Ok(Some(length));
    }
    Ok(None)
}

/// Tests that the image ends after its last possible sector, by trying to read one more byte. So an
/// image of exactly 2,352,000,000 bytes is accepted, and of a longer image only one byte more is
/// read.
fn read_end<I: Source>(image: &mut I, bytes: &mut [u8; SECTOR_SIZE]) -> Result<Option<usize>, Fault>
    requires { CanCountFailure (I.seen image.old).failures }
    ensures { ReadsSector sector_limit bytes.new (I.seen image.old) (I.seen image.new) result }
{
    if image.read(&mut bytes[..1])? > 0 {
        return Err(Fault::TooLong);
    }
    Ok(Some(0))
}

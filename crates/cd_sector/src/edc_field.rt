//! The EDC field of a sector: four bytes after the user data, the least significant first
//! (ECMA-130, 14). Only this file reads and writes them.

ghost use Rattle.std.specs.Prelude.{◌≡◌, ℕ, ◌<◌, ◌≤◌, ◌⊎◌, slice_index, slice_range};
ghost use Rattle.std.specs.Int.{from_le_bytes, to_le_bytes, w32};
ghost use Rattle.cd_sector.specs.EdcField.{StoresEdc};

use crate::sector::{EDC, INTERMEDIATE, SECTOR_SIZE, put_part};
use byteorder::{ByteOrder, LittleEndian};
use cd_lanes::edc_of;

/// Converts an EDC word to its four bytes in a sector, the least significant first (ECMA-130, 14).
///
/// # Examples
///
/// ```
/// assert_eq!(rt; edc_bytes(0x9091_0101), [0x01, 0x01, 0x91, 0x90]);
/// ```
pub fn edc_bytes(word: u32) -> [u8; 4]
    ensures { result ≡ to_le_bytes w32 word }
{
    let mut bytes = [0; 4];
    LittleEndian::write_u32(&mut bytes, word);
    bytes
}

/// Reads the word in the EDC field of a sector, whether it is right or wrong (ECMA-130, 14).
///
/// See the example of [`put_edc`].
pub fn stored_edc(bytes: &[u8; SECTOR_SIZE]) -> u32
    ensures { result ≡ from_le_bytes w32 (slice_range bytes.now 2064 2068) }
{
    LittleEndian::read_u32(&bytes[EDC..INTERMEDIATE])
}

/// Writes `word` to the EDC field (ECMA-130, 14).
///
/// # Examples
///
/// ```
/// let mut bytes = [0x00; SECTOR_SIZE];
/// put_edc(&mut bytes, 0x9091_0101);
/// assert_eq!(rt; bytes[2067], 0x90); // the most significant byte is the last
/// assert_eq!(rt; stored_edc(&bytes), 0x9091_0101);
/// ```
pub fn put_edc(bytes: &mut [u8; SECTOR_SIZE], word: u32)
    ensures word { slice_range bytes.new 2064 2068 ≡ to_le_bytes w32 word }
    ensures stays { (k : ℕ) → (k < 2064) ⊎ (2068 ≤ k)
        → slice_index bytes.new k ≡ slice_index bytes.old k }
{
    put_part(bytes, EDC, &edc_bytes(word));
}

/// Writes the EDC of bytes 0 to 2063 after them, with `error` added. `error` is 0, or the error in
/// the EDC of a damaged sector (ECMA-130, 14).
///
/// # Examples
///
/// ```
/// let mut bytes = [0x00; SECTOR_SIZE];
/// bytes[2063] = 0x01; // the last byte of the user data
/// fill_edc(&mut bytes, 0);
/// assert_eq!(rt; stored_edc(&bytes), 0x9091_0101);
/// fill_edc(&mut bytes, 0x0000_0001); // wrong by its last bit
/// assert_eq!(rt; stored_edc(&bytes), 0x9091_0100);
/// ```
pub fn fill_edc(bytes: &mut [u8; SECTOR_SIZE], error: u32)
    ensures edc { StoresEdc bytes.new error }
    ensures stays { (k : ℕ) → (k < 2064) ⊎ (2068 ≤ k)
        → slice_index bytes.new k ≡ slice_index bytes.old k }
{
    let word = edc_of(&bytes[..EDC]);
    put_edc(bytes, word ^ error);
}

//! The P and Q parity of a sector (ECMA-130, Annex A).

ghost use Rattle.std.specs.Prelude.{◌≡◌, ℕ, ◌<◌, slice_index};
ghost use Rattle.cd_code.specs.CodeWords.{AllCodeWords};

use crate::sector::{SECTOR_SIZE, Sector};
use cd_lanes::{fill_columns, fill_diagonals};

/// Computes and writes the 276 bytes of P and Q parity from the 2076 bytes before them, in a sector
/// of any kind (ECMA-130, Annex A). Public for cd_delta too, which computes the parity of a sector
/// of differences.
///
/// # Examples
///
/// ```
/// let mut sector = Sector::default(); // all 00
/// sector.put(12, 0x01);
/// fill_parity(&mut sector);
/// assert_eq!(rt; [sector.byte(2076), sector.byte(2162)], [0xF5, 0xF4]); // P of its column
/// ```
pub fn fill_parity(s: &mut Sector)
    ensures words { AllCodeWords s.new }
    ensures stays { (i : ℕ) → i < 2076 → slice_index s.new i ≡ slice_index s.old i }
{
    s.with_bytes_mut(&mut (), |_, bytes| fill_code_words(bytes));
}

/// Writes the P parity first, and then the Q parity, whose diagonals include the P parity.
pub(crate) fn fill_code_words(bytes: &mut [u8; SECTOR_SIZE])
    ensures words { AllCodeWords bytes.new }
    ensures stays { (k : ℕ) → k < 2076 → slice_index bytes.new k ≡ slice_index bytes.old k }
{
    fill_columns(bytes);
    fill_diagonals(bytes);
}

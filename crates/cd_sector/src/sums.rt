//! Adds two sectors byte by byte. The syndromes of the sum, and the remainder of its EDC, are the
//! sums of the syndromes and of the remainders of the two sectors.

ghost use Rattle.std.specs.Prelude.{◌≡◌, ℕ, bit_xor, length, slice_index};
ghost use Rattle.cd_code.specs.Field.{AreBytes, IsSum};

use crate::sector::{SECTOR_SIZE, Sector};

/// Adds two sectors byte by byte, in the field of the parity (ECMA-130, Annex A). Public for
/// cd_delta, which computes a sector of differences.
///
/// # Examples
///
/// ```
/// let sector = Sector::from_bytes([0x0F; SECTOR_SIZE]);
/// let other = Sector::from_bytes([0xFF; SECTOR_SIZE]);
/// assert_eq!(rt; sum_of(&sector, &other).byte(2351), 0xF0);
/// ```
pub fn sum_of(s: &Sector, t: &Sector) -> Sector
    ensures sum { (i : ℕ)
        → slice_index result i ≡ bit_xor (slice_index s.now i) (slice_index t.now i) }
    ensures size { length result ≡ length s.now }
    ensures each { AreBytes result }
{
    Sector::from_bytes(sum_of_bytes(s.bytes(), t.bytes()))
}

/// The sums of the bytes of two sectors.
pub(crate) fn sum_of_bytes(s: &[u8; SECTOR_SIZE], t: &[u8; SECTOR_SIZE]) -> [u8; SECTOR_SIZE]
    ensures { IsSum result s.now t.now }
{
    let mut sum = *s;
    for i in 0..SECTOR_SIZE {
        sum[i] ^= t[i];
    }
    sum
}

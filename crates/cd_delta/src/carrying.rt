//! Writes into a Mode 1 sector that may be damaged: its damage stays, and nothing else becomes
//! wrong (ECMA-130, 14 and Annex A).

ghost use Rattle.std.specs.Prelude.{◌≡◌, ℕ, ◌+◌, ◌++◌, ◌≤◌, List, bit_xor, drop, length, slice_range, take};
ghost use Rattle.std.specs.Int.{from_le_bytes, w32};
ghost use Rattle.cd_code.specs.Edc.{IsEdc};
ghost use Rattle.cd_sector.specs.Carried.{IsCarried};
ghost use Rattle.cd_sector.specs.Consistent.{IsConsistent, header_of, user_of};
ghost use Rattle.cd_sector.specs.EdcField.{StoresEdc};
ghost use Rattle.cd_sector.specs.Kind.{kind_of};
ghost use Rattle.cd_sector.specs.declared.kinds.SectorKind.TheVariants.{Mode1};
ghost use Rattle.cd_delta.specs.Writing.{KeepsError, with_range};

use crate::user_data::change_bytes;
use cd_lanes::edc_of;
use cd_sector::{EDC, HEADER, Sector, USER_DATA, stored_edc};

/// Writes `bytes` at `offset` into the 2048 bytes of user data of a Mode 1 sector, and carries its
/// damage over: the EDC changes by the xor of the correct EDCs of bytes 0 to 2063 before and after,
/// and all 276 syndromes keep their values (ECMA-130, 14 and Annex A).
///
/// # Examples
///
/// ```
/// let mut sector = encode([0x00, 0x02, 0x00], &[0x00; USER_SIZE]);
/// sector.put(2351, 0xFF); // damage in the Q parity, to one diagonal
/// assert_eq!(rt; kind(&sector), SectorKind::Mode1);
/// carry_user(&mut sector, 0, &[0x41]);
/// assert_eq!(rt; (sector.user()[0], defect(&sector).q), (0x41, 1)); // which stays
/// ```
pub fn carry_user(s: &mut Sector, offset: u16, bytes: &[u8])
    requires mode { kind_of s.old ≡ Mode1 }
    requires range { offset + length bytes.now ≤ 2048 }
    ensures carried { IsCarried s.old (header_of s.old)
        (with_range (user_of s.old) offset bytes.now) s.new }
    ensures unique { (t : List ℕ)
        → IsCarried s.old (header_of s.old) (with_range (user_of s.old) offset bytes.now) t
        → t ≡ s.new }
    ensures kind { kind_of s.new ≡ kind_of s.old }
    ensures edc { (before after : ℕ) → IsEdc (take 2064 s.old) before
        → IsEdc (take 2064 s.new) after
        → from_le_bytes w32 (slice_range s.new 2064 2068)
        ≡ bit_xor (from_le_bytes w32 (slice_range s.old 2064 2068)) (bit_xor before after) }
    ensures consistent { IsConsistent s.old → IsConsistent s.new }
{
    carry_bytes(s, USER_DATA + offset as usize, bytes);
}

/// Writes `bcd` to bytes 12 to 14 of a Mode 1 sector, its address (three bytes, BCD or not), and
/// carries the damage of the sector over: the EDC changes by the xor of the correct EDCs of bytes 0
/// to 2063 before and after, and all 276 syndromes keep their values (ECMA-130, 14 and Annex A).
///
/// # Examples
///
/// ```
/// let mut sector = encode([0x00, 0x02, 0x00], &[0x00; USER_SIZE]);
/// sector.put(2351, 0xFF); // damage in the Q parity, to one diagonal
/// assert_eq!(rt; kind(&sector), SectorKind::Mode1);
/// carry_header(&mut sector, [0x00, 0x02, 0x01]);
/// assert_eq!(rt; (sector.header()[2], defect(&sector).q), (0x01, 1)); // which stays
/// ```
pub fn carry_header(s: &mut Sector, bcd: [u8; 3])
    requires mode { kind_of s.old ≡ Mode1 }
    ensures carried { IsCarried s.old (bcd ++ drop 3 (header_of s.old)) (user_of s.old) s.new }
    ensures unique { (t : List ℕ)
        → IsCarried s.old (bcd ++ drop 3 (header_of s.old)) (user_of s.old) t → t ≡ s.new }
    ensures kind { kind_of s.new ≡ kind_of s.old }
    ensures edc { (before after : ℕ) → IsEdc (take 2064 s.old) before
        → IsEdc (take 2064 s.new) after
        → from_le_bytes w32 (slice_range s.new 2064 2068)
        ≡ bit_xor (from_le_bytes w32 (slice_range s.old 2064 2068)) (bit_xor before after) }
    ensures consistent { IsConsistent s.old → IsConsistent s.new }
{
    carry_bytes(s, HEADER, &bcd);
}

/// Writes bytes between the sync field and the EDC, and keeps the error of the EDC: the stored EDC
/// changes by the xor of the correct EDCs before and after. This computes one more EDC than a
/// change that does not carry damage.
fn carry_bytes(s: &mut Sector, place: usize, bytes: &[u8])
    requires from { 12 ≤ place }
    requires below { place + length bytes.now ≤ 2064 }
    ensures { KeepsError s.old s.new place bytes.now }
{
    let error = edc_error(s);
    change_bytes(s, place, bytes, error);
}

/// The error of the stored EDC: its xor with the correct EDC of bytes 0 to 2063, 0 if it is
/// correct.
fn edc_error(s: &Sector) -> u32
    ensures { StoresEdc s.now result }
{
    let bytes = s.bytes();
    edc_of(&bytes[..EDC]) ^ stored_edc(bytes)
}

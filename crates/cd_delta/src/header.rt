//! Writes the address in the header of a Mode 1 sector by differences (ECMA-130, 14 and Annex A).

ghost use Rattle.std.specs.Prelude.{◌≡◌, ℕ, ◌++◌, ◌<◌, ◌≤◌, ◌⊎◌, drop, slice_index, slice_range, take};
ghost use Rattle.std.specs.Int.{from_le_bytes, w32};
ghost use Rattle.cd_code.specs.Edc.{IsEdc, bits, remainder};
ghost use Rattle.cd_code.specs.CodeWords.{SameSyndromes};
ghost use Rattle.cd_sector.specs.Consistent.{IsConsistent, header_of, user_of};
ghost use Rattle.cd_sector.specs.Kind.{kind_of};
ghost use Rattle.cd_sector.specs.declared.kinds.SectorKind.TheVariants.{Mode1};
ghost use Rattle.cd_delta.specs.Writing.{IsChanged};

use crate::user_data::change_bytes;
use cd_sector::{HEADER, Sector};

/// Writes `bcd` to bytes 12 to 14 of a Mode 1 sector, its address (three bytes, BCD or not), then
/// the EDC of bytes 0 to 2063 after them. Updates the parity for both, so that all 276 syndromes
/// keep their values (ECMA-130, 14 and Annex A). The sector need not be consistent.
///
/// # Examples
///
/// ```
/// let mut sector = encode([0x00, 0x02, 0x00], &[0x41; USER_SIZE]); // block 0
/// change_header(&mut sector, [0x00, 0x02, 0x01]);
/// assert!(rt; sector == encode([0x00, 0x02, 0x01], &[0x41; USER_SIZE])); // block 1
/// ```
pub fn change_header(s: &mut Sector, bcd: [u8; 3])
    requires mode { kind_of s.old ≡ Mode1 }
    ensures header { header_of s.new ≡ bcd ++ drop 3 (header_of s.old) }
    ensures user { user_of s.new ≡ user_of s.old }
    ensures edc { IsEdc (take 2064 s.new) (from_le_bytes w32 (slice_range s.new 2064 2068)) }
    ensures divides { remainder (bits (take 2068 s.new)) ≡ 0 }
    ensures kind { kind_of s.new ≡ kind_of s.old }
    ensures stays { (i : ℕ) → (i < 12) ⊎ (((15 ≤ i) × (i < 2064)) ⊎ ((2068 ≤ i) × (i < 2076)))
        → slice_index s.new i ≡ slice_index s.old i }
    ensures syndromes { SameSyndromes s.new s.old }
    ensures consistent { IsConsistent s.old → IsConsistent s.new }
{
    put_address(s, bcd);
}

/// Proof step: changes the three bytes of an address, and nothing else. All clauses of
/// `change_header` are proved from this one.
fn put_address(s: &mut Sector, bcd: [u8; 3])
    ensures { IsChanged s.old s.new 12 bcd 0 }
{
    change_bytes(s, HEADER, &bcd, 0);
}

//! Writes user data into a Mode 1 sector by differences (ECMA-130, 14 and Annex A).

ghost use Rattle.std.specs.Prelude.{◌≡◌, ℕ, ◌+◌, ◌<◌, ◌≤◌, ◌⊎◌, length, slice_index, slice_range, take};
ghost use Rattle.std.specs.Int.{from_le_bytes, w32};
ghost use Rattle.cd_code.specs.Edc.{IsEdc, bits, remainder};
ghost use Rattle.cd_code.specs.CodeWords.{SameSyndromes};
ghost use Rattle.cd_sector.specs.Consistent.{IsConsistent, header_of, user_of};
ghost use Rattle.cd_sector.specs.EdcField.{StoresEdc};
ghost use Rattle.cd_sector.specs.Kind.{kind_of};
ghost use Rattle.cd_sector.specs.declared.kinds.SectorKind.TheVariants.{Mode1};
ghost use Rattle.cd_delta.specs.Writing.{IsChanged, WithEdc, with_range};

use crate::byte_by_byte::write_few;
use crate::difference::carry_front;
use cd_lanes::edc_of;
use cd_sector::{EDC, Sector, USER_DATA, edc_bytes, fill_edc, put_part};

/// From this number of bytes on, a difference sector costs less than a change of each byte. An
/// address, of three bytes, is written byte by byte.
const MANY: usize = 40;

/// Writes `bytes` at `offset` into the 2048 bytes of user data of a Mode 1 sector, then the EDC of
/// bytes 0 to 2063 after them. Updates the parity for both, so that all 276 syndromes keep their
/// values (ECMA-130, 14 and Annex A). The sector need not be consistent.
///
/// # Examples
///
/// ```
/// let mut sector = encode([0x00, 0x02, 0x00], &[0x00; USER_SIZE]);
/// change_user(&mut sector, 0, &[0x41; USER_SIZE]);
/// assert!(rt; sector == encode([0x00, 0x02, 0x00], &[0x41; USER_SIZE]));
/// ```
pub fn change_user(s: &mut Sector, offset: u16, bytes: &[u8])
    requires mode { kind_of s.old ≡ Mode1 }
    requires range { offset + length bytes.now ≤ 2048 }
    ensures user { user_of s.new ≡ with_range (user_of s.old) offset bytes.now }
    ensures edc { IsEdc (take 2064 s.new) (from_le_bytes w32 (slice_range s.new 2064 2068)) }
    ensures divides { remainder (bits (take 2068 s.new)) ≡ 0 }
    ensures kind { kind_of s.new ≡ kind_of s.old }
    ensures header { header_of s.new ≡ header_of s.old }
    ensures stays { (i : ℕ) → (i < 16) ⊎ ((2068 ≤ i) × (i < 2076))
        → slice_index s.new i ≡ slice_index s.old i }
    ensures syndromes { SameSyndromes s.new s.old }
    ensures consistent { IsConsistent s.old → IsConsistent s.new }
{
    change_bytes(s, USER_DATA + offset as usize, bytes, 0);
}

/// Writes bytes between the sync field and the EDC, then the EDC with `error` added to it, and
/// updates the parity for both. `error` is 0, or the error of the EDC if damage is carried.
pub(crate) fn change_bytes(s: &mut Sector, place: usize, bytes: &[u8], error: u32)
    requires from { 12 ≤ place }
    requires below { place + length bytes.now ≤ 2064 }
    ensures { IsChanged s.old s.new place bytes.now error }
{
    if bytes.len() < MANY {
        change_few(s, place, bytes, error);
    } else {
        change_many(s, place, bytes, error);
    }
}

/// Writes the bytes one by one, and then the EDC with `error` added, and updates the parity for
/// each.
fn change_few(s: &mut Sector, place: usize, bytes: &[u8], error: u32)
    requires from { 12 ≤ place }
    requires below { place + length bytes.now ≤ 2064 }
    ensures { IsChanged s.old s.new place bytes.now error }
{
    write_few(s, place, bytes);
    write_edc(s, error);
}

/// Writes the EDC of bytes 0 to 2063 after them, with `error` added, and updates the parity.
fn write_edc(s: &mut Sector, error: u32)
    ensures { WithEdc s.old s.new error }
{
    let word = edc_of(&s.bytes()[..EDC]);
    write_few(s, EDC, &edc_bytes(word ^ error));
}

/// Writes the bytes and the EDC with `error` added, and updates the parity for both at once.
fn change_many(s: &mut Sector, place: usize, bytes: &[u8], error: u32)
    requires { place + length bytes.now ≤ 2064 }
    ensures { IsChanged s.old s.new place bytes.now error }
{
    let front = front_with(s, place, bytes, error);
    carry_front(s, &front);
}

/// The sector with `bytes` at `place`, and the EDC of its bytes 0 to 2063 with `error` added. Its
/// parity is not updated.
fn front_with(s: &Sector, place: usize, bytes: &[u8], error: u32) -> Sector
    requires { place + length bytes.now ≤ 2064 }
    ensures range { (i : ℕ) → i < length bytes.now
        → slice_index result (place + i) ≡ slice_index bytes.now i }
    ensures elsewhere { (i : ℕ) → (i < place) ⊎ (place + length bytes.now ≤ i)
        → (i < 2064) ⊎ (2068 ≤ i)
        → slice_index result i ≡ slice_index s.now i }
    ensures edc { StoresEdc result error }
    ensures size { length result ≡ 2352 }
    ensures whole { length s.now ≡ 2352 }
{
    let mut front = *s.bytes();
    put_part(&mut front, place, bytes);
    fill_edc(&mut front, error);
    Sector::from_bytes(front)
}

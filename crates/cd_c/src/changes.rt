//! Calls of C that change a sector. A refused call leaves the sector as it was.

ghost use Rattle.std.specs.Prelude.{◌≡◌, ◌≢◌, ℕ, ◌++◌, ◌<◌, ◌≤◌, ◌⊎◌, List, bit_xor, drop, length, slice_index, slice_range, take, true};
ghost use Rattle.std.specs.Int.{from_le_bytes, w32};
ghost use Rattle.cd_code.specs.Edc.{IsEdc, bits, remainder};
ghost use Rattle.cd_sector.specs.Carried.{IsCarried};
ghost use Rattle.cd_code.specs.CodeWords.{SameSyndromes};
ghost use Rattle.cd_sector.specs.Consistent.{IsConsistent, header_of, user_of};
ghost use Rattle.cd_sector.specs.Kind.{kind_of};
ghost use Rattle.cd_delta.specs.Writing.{with_range};
ghost use Rattle.cd_c.specs.Results.{carry_result, change_result, is_inside};

use crate::results::{carry_result, change_result, is_inside};
use cd_delta::{carry_header, carry_user, change_header, change_user};
use cd_patch::result_numbers::OK;
use cd_sector::{Sector, rebuild};

/// Writes bytes into the user data of an undamaged Mode 1 sector at `offset`, and updates its EDC
/// and parity, as [`change_user`]. Returns a number of `enum cdpatch_result`.
#[unsafe(no_mangle)]
pub extern "C" fn cdpatch_change_user(sector: &mut Sector, offset: usize, bytes: &[u8]) -> u32
    ensures result { result ≡ change_result sector.old (is_inside offset (length bytes.now)) }
    ensures refused { result ≢ OK → sector.new ≡ sector.old }
    ensures user { result ≡ OK → user_of sector.new ≡ with_range (user_of sector.old) offset bytes.now }
    ensures edc { result ≡ OK
        → IsEdc (take 2064 sector.new) (from_le_bytes w32 (slice_range sector.new 2064 2068)) }
    ensures divides { result ≡ OK → remainder (bits (take 2068 sector.new)) ≡ 0 }
    ensures kind { kind_of sector.new ≡ kind_of sector.old }
    ensures header { header_of sector.new ≡ header_of sector.old }
    ensures stays { (i : ℕ) → (i < 16) ⊎ ((2068 ≤ i) × (i < 2076))
        → slice_index sector.new i ≡ slice_index sector.old i }
    ensures syndromes { result ≡ OK → SameSyndromes sector.new sector.old }
    ensures consistent { IsConsistent sector.old → IsConsistent sector.new }
{
    let result = change_result(sector, is_inside(offset, bytes));
    if result == OK {
        change_user(sector, offset as u16, bytes);
    }
    result
}

/// Writes bytes into the user data of a Mode 1 sector at `offset`, and carries its damage over, as
/// [`carry_user`].
#[unsafe(no_mangle)]
pub extern "C" fn cdpatch_carry_user(sector: &mut Sector, offset: usize, bytes: &[u8]) -> u32
    ensures result { result ≡ carry_result sector.old (is_inside offset (length bytes.now)) }
    ensures refused { result ≢ OK → sector.new ≡ sector.old }
    ensures carried { result ≡ OK → IsCarried sector.old (header_of sector.old)
        (with_range (user_of sector.old) offset bytes.now) sector.new }
    ensures unique { result ≡ OK → (t : List ℕ)
        → IsCarried sector.old (header_of sector.old)
        (with_range (user_of sector.old) offset bytes.now) t
        → t ≡ sector.new }
    ensures kind { kind_of sector.new ≡ kind_of sector.old }
    ensures edc { result ≡ OK → (before after : ℕ) → IsEdc (take 2064 sector.old) before
        → IsEdc (take 2064 sector.new) after
        → from_le_bytes w32 (slice_range sector.new 2064 2068)
        ≡ bit_xor (from_le_bytes w32 (slice_range sector.old 2064 2068)) (bit_xor before after) }
    ensures consistent { IsConsistent sector.old → IsConsistent sector.new }
{
    let result = carry_result(sector, is_inside(offset, bytes));
    if result == OK {
        carry_user(sector, offset as u16, bytes);
    }
    result
}

/// Writes the address `bcd` into the header of an undamaged Mode 1 sector, and updates its EDC and
/// parity, as [`change_header`].
#[unsafe(no_mangle)]
pub extern "C" fn cdpatch_change_address(sector: &mut Sector, bcd: &[u8; 3]) -> u32
    ensures result { result ≡ change_result sector.old true }
    ensures refused { result ≢ OK → sector.new ≡ sector.old }
    ensures header { result ≡ OK → header_of sector.new ≡ bcd.now ++ drop 3 (header_of sector.old) }
    ensures user { user_of sector.new ≡ user_of sector.old }
    ensures edc { result ≡ OK
        → IsEdc (take 2064 sector.new) (from_le_bytes w32 (slice_range sector.new 2064 2068)) }
    ensures divides { result ≡ OK → remainder (bits (take 2068 sector.new)) ≡ 0 }
    ensures kind { kind_of sector.new ≡ kind_of sector.old }
    ensures stays { (i : ℕ) → (i < 12) ⊎ (((15 ≤ i) × (i < 2064)) ⊎ ((2068 ≤ i) × (i < 2076)))
        → slice_index sector.new i ≡ slice_index sector.old i }
    ensures syndromes { result ≡ OK → SameSyndromes sector.new sector.old }
    ensures consistent { IsConsistent sector.old → IsConsistent sector.new }
{
    let result = change_result(sector, true);
    if result == OK {
        change_header(sector, *bcd);
    }
    result
}

/// Writes the address `bcd` into the header of a Mode 1 sector, and carries its damage over, as
/// [`carry_header`].
#[unsafe(no_mangle)]
pub extern "C" fn cdpatch_carry_address(sector: &mut Sector, bcd: &[u8; 3]) -> u32
    ensures result { result ≡ carry_result sector.old true }
    ensures refused { result ≢ OK → sector.new ≡ sector.old }
    ensures carried { result ≡ OK
        → IsCarried sector.old (bcd.now ++ drop 3 (header_of sector.old)) (user_of sector.old)
        sector.new }
    ensures unique { result ≡ OK → (t : List ℕ)
        → IsCarried sector.old (bcd.now ++ drop 3 (header_of sector.old)) (user_of sector.old) t
        → t ≡ sector.new }
    ensures kind { kind_of sector.new ≡ kind_of sector.old }
    ensures edc { result ≡ OK → (before after : ℕ) → IsEdc (take 2064 sector.old) before
        → IsEdc (take 2064 sector.new) after
        → from_le_bytes w32 (slice_range sector.new 2064 2068)
        ≡ bit_xor (from_le_bytes w32 (slice_range sector.old 2064 2068)) (bit_xor before after) }
    ensures consistent { IsConsistent sector.old → IsConsistent sector.new }
{
    let result = carry_result(sector, true);
    if result == OK {
        carry_header(sector, *bcd);
    }
    result
}

/// Rebuilds a Mode 1 sector from its header and user data, as [`rebuild`]. The result is the one
/// consistent sector with this header and user data.
#[unsafe(no_mangle)]
pub extern "C" fn cdpatch_rebuild(sector: &mut Sector) -> u32
    ensures result { result ≡ carry_result sector.old true }
    ensures refused { result ≢ OK → sector.new ≡ sector.old }
    ensures consistent { result ≡ OK → IsConsistent sector.new }
    ensures header { header_of sector.new ≡ header_of sector.old }
    ensures user { user_of sector.new ≡ user_of sector.old }
    ensures unique { result ≡ OK → (t : List ℕ) → IsConsistent t → header_of t ≡ header_of sector.old
        → user_of t ≡ user_of sector.old → t ≡ sector.new }
{
    let result = carry_result(sector, true);
    if result == OK {
        rebuild(sector);
    }
    result
}

//! Calls of C that compute EDC and parity, and that describe or encode a sector.

ghost use Rattle.std.specs.Prelude.{◌≡◌, ◌≢◌, ℕ, ◌++◌, ◌≤◌, ◌<◌, ◌↔◌, [], ◌∷◌, IsTrue, List, Some, None, count_by, false, slice_index, true};
ghost use Rattle.std.specs.List.{list_any};
ghost use Rattle.cd_code.specs.Edc.{IsEdc};
ghost use Rattle.cd_address.specs.Address.{address, last_block};
ghost use Rattle.cd_code.specs.CodeWords.{AllCodeWords};
ghost use Rattle.cd_sector.specs.Consistent.{IsConsistent, consistent, header_of, user_of};
ghost use Rattle.cd_sector.specs.Defect.{defect_of, is_broken, is_nonzero};
ghost use Rattle.cd_sector.specs.Kind.{kind_number, kind_of};
ghost use Rattle.cd_c.specs.Blocks.{bcd_value};
ghost use Rattle.cd_c.specs.Results.{as_byte};

use crate::kinds::kind_number;
use cd_address::address_of;
use cd_lanes::edc_of;
use cd_sector::{Sector, USER_SIZE, defect, encode_into, fill_parity, is_consistent, kind};

/// The defects of a sector, as C's `struct cdpatch_defect`. The two `bool`s of C are bytes here, 0
/// or 1, so that whatever an uninitialized `bool` contains is a valid value.
#[derive(Clone, Copy)]
#[repr(C)]
pub struct FoundDefect {
    /// 1 if a byte of the Intermediate field, 2068 to 2075, is not `00`; else 0.
    pub zeros: u8,
    /// 1 if the EDC is not that of bytes 0 to 2063; else 0.
    pub edc: u8,
    /// The number of P columns, of 86, that are not code words.
    pub p: u8,
    /// The number of Q diagonals, of 52, that are not code words.
    pub q: u8,
}

/// The EDC of any bytes, a word of 32 bits, as [`edc_of`].
#[unsafe(no_mangle)]
pub extern "C" fn cdpatch_edc(bytes: &[u8]) -> u32
    ensures word { IsEdc bytes.now result }
    ensures unique { (w : ℕ) → IsEdc bytes.now w → w ≡ result }
{
    edc_of(bytes)
}

/// The kind of a sector, as [`kind`]: a number of `enum cdpatch_sector_kind`.
#[unsafe(no_mangle)]
pub extern "C" fn cdpatch_kind(sector: &Sector) -> u32
    ensures { result ≡ kind_number (kind_of sector.now) }
{
    kind_number(kind(sector))
}

/// Writes the address of a block to `bcd`, as [`address_of`], and returns whether the block has
/// one. If it has none, `bcd` does not change.
#[unsafe(no_mangle)]
pub extern "C" fn cdpatch_address(block: u32, bcd: &mut [u8; 3]) -> bool
    ensures value { result ≡ true → address block ≡ Some bcd.new }
    ensures none { result ≡ false → address block ≡ None }
    ensures stays { result ≡ false → bcd.new ≡ bcd.old }
    ensures some { block ≤ last_block ↔ IsTrue result }
{
    match address_of(block) {
        Some(address) => {
            *bcd = address;
            true
        }
        None => false,
    }
}

/// The number of two decimal digits in one byte; any number for any other byte.
fn number_of(bcd: u8) -> u32
    ensures { result ≡ bcd_value bcd }
{
    u32::from(bcd) / 16 * 10 + u32::from(bcd) % 16
}

/// Whether a block has this address.
fn has_address(block: u32, bcd: &[u8; 3]) -> bool
    ensures { result ≡ true ↔ address block ≡ Some bcd.now }
{
    match address_of(block) {
        Some(address) => address == *bcd,
        None => false,
    }
}

/// Writes the block with an address to `block`, and returns whether there is one. If there is none,
/// `block` does not change.
#[unsafe(no_mangle)]
pub extern "C" fn cdpatch_block(bcd: &[u8; 3], block: &mut u32) -> bool
    ensures value { result ≡ true → address block.new ≡ Some bcd.now }
    ensures only { result ≡ true → (b : ℕ) → address b ≡ Some bcd.now → b ≡ block.new }
    ensures none { result ≡ false → (b : ℕ) → address b ≢ Some bcd.now }
    ensures stays { result ≡ false → block.new ≡ block.old }
{
    let fractions = (number_of(bcd[0]) * 60 + number_of(bcd[1])) * 75 + number_of(bcd[2]);
    let found = fractions.saturating_sub(150);
    if !has_address(found, bcd) {
        return false;
    }
    *block = found;
    true
}

/// Writes to `sector` the one consistent sector with this address and user data, as
/// [`encode_into`].
#[unsafe(no_mangle)]
pub extern "C" fn cdpatch_encode(bcd: &[u8; 3], user: &[u8; USER_SIZE], sector: &mut Sector)
    ensures consistent { IsConsistent sector.new }
    ensures header { header_of sector.new ≡ bcd.now ++ 1 ∷ [] }
    ensures user { user_of sector.new ≡ user.now }
    ensures unique { (s : List ℕ) → IsConsistent s → header_of s ≡ bcd.now ++ 1 ∷ []
        → user_of s ≡ user.now → s ≡ sector.new }
{
    encode_into(sector, *bcd, user);
}

/// Computes the P and Q parity of a sector from its other bytes, as [`fill_parity`].
#[unsafe(no_mangle)]
pub extern "C" fn cdpatch_fill_parity(sector: &mut Sector)
    ensures words { AllCodeWords sector.new }
    ensures stays { (i : ℕ) → i < 2076 → slice_index sector.new i ≡ slice_index sector.old i }
{
    fill_parity(sector);
}

/// Whether a sector is a Mode 1 sector without any defect, as [`is_consistent`].
#[unsafe(no_mangle)]
pub extern "C" fn cdpatch_is_consistent(sector: &Sector) -> bool
    ensures { result ≡ consistent sector.now }
{
    is_consistent(sector)
}

/// Writes the defects of a sector to `found`, as [`defect`]. The sector is treated as a Mode 1
/// sector.
#[unsafe(no_mangle)]
pub extern "C" fn cdpatch_find_defect(sector: &Sector, found: &mut FoundDefect)
    ensures zeros { found.new.zeros ≡ as_byte (list_any is_nonzero (defect_of sector.now).zeros) }
    ensures edc { found.new.edc ≡ as_byte (is_nonzero (defect_of sector.now).rest) }
    ensures p { found.new.p ≡ count_by is_broken (defect_of sector.now).columns }
    ensures q { found.new.q ≡ count_by is_broken (defect_of sector.now).diagonals }
{
    let report = defect(sector);
    *found = FoundDefect {
        zeros: report.zeros as u8,
        edc: report.edc as u8,
        p: report.p,
        q: report.q,
    };
}

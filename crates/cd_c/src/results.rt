//! The results of the calls of C that change a sector.

ghost use Rattle.std.specs.Prelude.{◌≡◌, ◌+◌, ◌≤◌, length, true};
ghost use Rattle.cd_sector.specs.Kind.{kind_of};
ghost use Rattle.cd_sector.specs.declared.kinds.SectorKind.TheVariants.{Mode1};
ghost use Rattle.cd_c.specs.Results.{carry_result, change_result, is_inside};

use cd_patch::result_numbers::{DAMAGED, NOT_MODE1, OK, OUT_OF_RANGE};
use cd_sector::{Sector, SectorKind, USER_SIZE, is_consistent, kind};

/// Whether these bytes, written at `offset`, are within the 2048 bytes of user data.
pub(crate) fn is_inside(offset: usize, bytes: &[u8]) -> bool
    ensures inside { result ≡ is_inside offset (length bytes.now) }
    ensures range { result ≡ true → offset + length bytes.now ≤ 2048 }
{
    offset <= USER_SIZE && bytes.len() <= USER_SIZE - offset
}

/// The result of a change that carries damage over; `inside` says whether the change is within the
/// user data.
pub(crate) fn carry_result(sector: &Sector, inside: bool) -> u32
    ensures result { result ≡ carry_result sector.now inside }
    ensures mode { result ≡ OK → kind_of sector.now ≡ Mode1 }
    ensures inside { result ≡ OK → inside ≡ true }
{
    match kind(sector) {
        SectorKind::Mode1 if inside => OK,
        SectorKind::Mode1 => OUT_OF_RANGE,
        SectorKind::NoSync | SectorKind::Mode0 | SectorKind::Mode2 | SectorKind::Other => NOT_MODE1,
    }
}

/// The result of a change that refuses a damaged sector. The kind is checked first, then damage,
/// then the range, in the order of `apply`.
pub(crate) fn change_result(sector: &Sector, inside: bool) -> u32
    ensures result { result ≡ change_result sector.now inside }
    ensures mode { result ≡ OK → kind_of sector.now ≡ Mode1 }
    ensures inside { result ≡ OK → inside ≡ true }
{
    let result = carry_result(sector, inside);
    if result != NOT_MODE1 && !is_consistent(sector) {
        return DAMAGED;
    }
    result
}

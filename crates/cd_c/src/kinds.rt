//! The numbers of the kinds of sectors, as in `enum cdpatch_sector_kind`.

ghost use Rattle.std.specs.Prelude.{◌≡◌, ◌≤◌};
ghost use Rattle.cd_sector.specs.Kind.{kind_number};
ghost use Rattle.cd_c.specs.ReportLines.{kind_numbered};

use cd_sector::SectorKind;

/// The sector has no sync field.
pub const NOSYNC: u32 = 0;

/// The sector is of Mode 0.
pub const MODE0: u32 = 1;

/// The sector is of Mode 1.
pub const MODE1: u32 = 2;

/// The sector is of Mode 2.
pub const MODE2: u32 = 3;

/// The sector has a mode byte other than 0, 1 and 2.
pub const OTHER: u32 = 4;

/// The number of a kind.
pub(crate) fn kind_number(kind: SectorKind) -> u32
    ensures number { result ≡ kind_number kind }
    ensures small { result ≤ 4 }
{
    match kind {
        SectorKind::NoSync => NOSYNC,
        SectorKind::Mode0 => MODE0,
        SectorKind::Mode1 => MODE1,
        SectorKind::Mode2 => MODE2,
        SectorKind::Other => OTHER,
    }
}

/// Converts a number of `enum cdpatch_sector_kind` to a kind; `None` for any other number.
pub(crate) fn kind_numbered(number: u32) -> Option<SectorKind>
    ensures { result ≡ kind_numbered number }
{
    match number {
        NOSYNC => Some(SectorKind::NoSync),
        MODE0 => Some(SectorKind::Mode0),
        MODE1 => Some(SectorKind::Mode1),
        MODE2 => Some(SectorKind::Mode2),
        OTHER => Some(SectorKind::Other),
        _ => None,
    }
}

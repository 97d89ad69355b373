//! The kinds of sectors, recognised by the sync field and the mode byte.

ghost use Rattle.std.specs.Prelude.{◌≡◌};
ghost use Rattle.cd_sector.specs.Kind.{kind_of};

use crate::sector::{MODE, Sector};

/// The kinds of sectors: the three of ECMA-130, and two others, one without a sync field and one
/// with a mode byte above 2.
#[derive(Clone, Copy, Debug, PartialEq, Eq)]
pub enum SectorKind {
    /// Bytes 0 to 11 are not a sync field, as in a sector of an audio track.
    NoSync,
    /// Mode byte 00: the 2336 bytes after the header are 00.
    Mode0,
    /// Mode byte 01: 2048 bytes of user data, then EDC and parity.
    Mode1,
    /// Mode byte 02: 2336 bytes of user data.
    Mode2,
    /// A sync field, and a mode byte above 02.
    Other,
}

/// The synchronisation field: `00`, ten times `FF`, `00`.
pub const SYNC: [u8; 12] = [0, 255, 255, 255, 255, 255, 255, 255, 255, 255, 255, 0];

/// The kind of a sector, from its sync field and its mode byte (ECMA-130, 14).
///
/// # Examples
///
/// ```
/// let sector = encode([0x00, 0x02, 0x00], &[0x00; USER_SIZE]);
/// assert_eq!(rt; kind(&sector), SectorKind::Mode1);
/// assert_eq!(rt; kind(&Sector::default()), SectorKind::NoSync); // all 00
/// ```
#[tactic(auto, unfolding(crate::specs::Kind::kind_of))]
pub fn kind(s: &Sector) -> SectorKind
    ensures { result ≡ kind_of s.now }
{
    if !s.bytes().starts_with(&SYNC) {
        return SectorKind::NoSync;
    }
    match s.byte(MODE) {
        0 => SectorKind::Mode0,
        1 => SectorKind::Mode1,
        2 => SectorKind::Mode2,
        _ => SectorKind::Other,
    }
}

//! Worked repairs: the choice among copies, and what a sector's own parity corrects.

ghost use Rattle.std.specs.Prelude.{◌+◌, ◌≤◌};

use super::holds;
use cd_repair::{Choice, Fit, correct_sector, merge_sector};
use cd_sector::{SECTOR_SIZE, Sector, USER_SIZE, encode};

/// The address of block 0, and another one.
const HOME: [u8; 3] = [0x00, 0x02, 0x00];

const ELSEWHERE: [u8; 3] = [0x00, 0x02, 0x01];

/// A sector of one byte, with an address.
fn filled(address: [u8; 3], byte: u8) -> Sector {
    encode(address, &[byte; USER_SIZE])
}

/// A sector whose `count` bytes from `first` on are inverted.
fn harmed(sector: &Sector, first: usize, count: usize) -> Sector
    requires { first + count ≤ 2352 }
{
    let mut made = *sector;
    for place in first..first + count {
        made.put(place, !sector.byte(place));
    }
    made
}

/// The choice among copies at home.
fn chosen(sector: &Sector, copies: &[Sector]) -> Option<Choice> {
    merge_sector(HOME, sector, copies)
}

#[test]
fn choices(rt: HostRuntime) {
    let (sound, other, moved) = (
        filled(HOME, 0x41),
        filled(HOME, 0x42),
        filled(ELSEWHERE, 0x41),
    );
    let (data, edc) = (harmed(&sound, 16, 1), harmed(&sound, 2064, 4));
    let lost = harmed(&sound, 0, SECTOR_SIZE);
    let none: [Sector; 0] = [];
    // the first copy that is sound and at home, unless another fits better
    assert_eq!(rt;
        chosen(&lost, [data, moved, other, sound].as_slice()),
        Some(Choice {
            place: 2,
            fit: Fit::Neither
        })
    );
    assert_eq!(rt;
        chosen(&data, [other, sound, sound].as_slice()),
        Some(Choice {
            place: 1,
            fit: Fit::Edc
        })
    );
    assert_eq!(rt;
        chosen(&edc, [other, sound].as_slice()),
        Some(Choice {
            place: 1,
            fit: Fit::Data
        })
    );
    assert_eq!(rt; chosen(&data, [moved, edc].as_slice()), None);
    assert_eq!(rt; chosen(&data, none.as_slice()), None);
    // a sound sector stays, whatever its address
    assert_eq!(rt; chosen(&sound, [other].as_slice()), None);
    assert_eq!(rt; chosen(&moved, [sound].as_slice()), None);
}

/// The place and the number of bytes that are wrong, and whether parity corrects them.
const HARMS: &[(usize, usize, bool)] = &[
    (16, 1, true),
    (2063, 1, true), // the last byte of the user data
    (2068, 8, true), // the Intermediate field
    (2076, 80, true), // P
    (2248, 52, true), // the first byte of Q of each diagonal
    (2248, 53, false), // and a second one of diagonal 0
    (500, 80, true),
    (500, 200, false),
    (2064, 1, false), // the EDC
    (12, 1, false), // the header
    (15, 1, false), // its mode byte
    (0, 1, true), // the sync field
    (0, 12, true),
    (11, 2, false), // and the header
];

#[test]
fn corrections(rt: HostRuntime) {
    let sound = filled(HOME, 0x41);
    for (row, (first, count, is_corrected)) in HARMS.iter().enumerate() {
        let (first, count) = (*first, *count);
        assert!(rt; first <= SECTOR_SIZE && count <= SECTOR_SIZE - first);
        let damaged = harmed(&sound, first, count);
        let mut sector = damaged;
        holds(&rt, correct_sector(&mut sector) == *is_corrected, row);
        holds(
            &rt,
            sector == if *is_corrected { sound } else { damaged },
            row,
        );
    }
}

#[test]
fn the_edc_is_never_changed(rt: HostRuntime) {
    let forged = harmed(&filled(HOME, 0x41), 2064, 4);
    let mut sector = forged;
    assert!(rt; !correct_sector(&mut sector));
    assert!(rt; sector == forged);
    let mut sound = filled(HOME, 0x41);
    assert!(rt; !correct_sector(&mut sound)); // there is nothing to correct
}

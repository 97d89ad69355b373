//! Worked changes: the eight changes of parity for a byte, and changes of user data.

ghost use Rattle.std.specs.Prelude.{◌+◌, ◌<◌, ◌≤◌, length};

use super::holds;
use cd_delta::{Change, change_byte, change_user, parity_changes};
use cd_sector::{DefectReport, SECTOR_SIZE, Sector, SectorKind, USER_SIZE, defect, encode, kind};
use std::process::Abort;

/// The eight changes for an amount that is added at a place: their places, and their amounts, in order.
#[derive(Clone, Copy)]
struct Worked {
    place: u16,
    d: u8,
    places: [u16; 8],
    amounts: [u8; 8],
}

/// For the last place before the parity.
const LAST: Worked = Worked {
    place: 2075,
    d: 0x01,
    places: [2161, 2247, 2263, 2315, 2265, 2317, 2267, 2319],
    amounts: [0x03, 0x02, 0x03, 0x02, 0x05, 0x06, 0x06, 0x04],
};

const WORKED: &[Worked] = &[
    Worked {
        place: 2062,
        d: 0x01,
        places: [2148, 2234, 2274, 2326, 2276, 2328, 2278, 2330],
        amounts: [0x03, 0x02, 0xFF, 0xFE, 0x1C, 0x1F, 0xE3, 0xE1],
    },
    Worked {
        place: 2063,
        d: 0x01,
        places: [2149, 2235, 2275, 2327, 2277, 2329, 2279, 2331],
        amounts: [0x03, 0x02, 0xFF, 0xFE, 0x1C, 0x1F, 0xE3, 0xE1],
    },
    Worked {
        place: 12,
        d: 0x01,
        places: [2076, 2162, 2248, 2300, 2296, 2348, 2298, 2350],
        amounts: [0xF5, 0xF4, 0xAE, 0xAF, 0x3F, 0xCA, 0x91, 0x65],
    },
    LAST,
    Worked {
        d: 0x00,
        amounts: [0x00; 8],
        ..LAST
    },
];

/// Whether a change has this place and this amount.
fn is_at((change, (place, d)): (&Change, (&u16, &u8))) -> bool {
    change.place == *place && change.d == *d
}

/// Whether the eight changes are the worked ones.
fn are_worked(worked: &Worked) -> bool
    requires from { 12 ≤ worked.now.place }
    requires below { worked.now.place < 2076 }
{
    let came = parity_changes(worked.place, worked.d);
    let due = worked.places.iter().zip(&worked.amounts);
    came.len() == 8 && came.iter().zip(due).all(is_at)
}

#[test]
fn changes_of_a_byte(rt: HostRuntime) {
    for (row, worked) in WORKED.iter().enumerate() {
        assert!(rt; 12 <= worked.place && worked.place < 2076);
        holds(&rt, are_worked(worked), row);
    }
}

/// Adds an amount to a byte.
fn add(sector: &mut Sector, place: usize, d: u8) {
    if place < SECTOR_SIZE {
        sector.put(place, sector.byte(place) ^ d);
    }
}

#[test]
fn a_byte_and_its_eight(rt: HostRuntime) {
    let mut due = Sector::from_bytes([0xFF; SECTOR_SIZE]);
    let mut sector = due;
    change_byte(&mut sector, 2075, 0xFE);
    add(&mut due, 2075, 0x01);
    for (place, d) in LAST.places.iter().zip(&LAST.amounts) {
        add(&mut due, usize::from(*place), *d);
    }
    assert!(rt; sector == due);
}

/// Changes the user data of a sector, and asserts that it is of Mode 1.
fn change(rt: &impl Abort, sector: &mut Sector, offset: u16, bytes: &[u8])
    requires { offset + length bytes.now ≤ 2048 }
{
    assert!(rt; kind(sector) == SectorKind::Mode1);
    change_user(sector, offset, bytes);
}

const PARITY_ALONE: DefectReport = DefectReport {
    zeros: false,
    edc: false,
    p: 1,
    q: 1,
};

#[test]
fn only_the_edc_of_a_damaged_sector(rt: HostRuntime) {
    let sound = encode([0x00, 0x02, 0x00], &[0x00; USER_SIZE]);
    let mut sector = sound;
    add(&mut sector, 2064, 0x01);
    change(&rt, &mut sector, 0, &[]);
    assert!(rt; sector.bytes()[..2068] == sound.bytes()[..2068]);
    assert_eq!(rt; defect(&sector), PARITY_ALONE);
}

#[test]
fn the_last_byte_of_the_user_data(rt: HostRuntime) {
    let mut user = [0x00; USER_SIZE];
    let mut sector = encode([0x00, 0x02, 0x00], &user);
    change(&rt, &mut sector, 2047, &[0x41]);
    user[2047] = 0x41;
    assert!(rt; sector == encode([0x00, 0x02, 0x00], &user));
}

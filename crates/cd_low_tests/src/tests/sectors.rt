//! Worked addresses, and the defects of worked sectors.

use super::holds;
use cd_sector::{
    DefectReport, SECTOR_SIZE, Sector, USER_SIZE, address_of, defect, encode, is_consistent,
};
use std::process::Abort;

/// A block, and its address.
const ADDRESSES: &[(u32, Option<[u8; 3]>)] = &[
    (0, Some([0x00, 0x02, 0x00])),
    (1, Some([0x00, 0x02, 0x01])),
    (4349, Some([0x00, 0x59, 0x74])),
    (4350, Some([0x01, 0x00, 0x00])),
    (449_849, Some([0x99, 0x59, 0x74])),
    (449_850, None),
];

#[test]
fn addresses(rt: HostRuntime) {
    for (row, (block, address)) in ADDRESSES.iter().enumerate() {
        holds(&rt, address_of(*block) == *address, row);
    }
}

/// The fields of a report in order, and whether the sector is consistent.
type Wrong = (bool, bool, u8, u8, bool);

const SOUND: Wrong = (false, false, 0, 0, true);

/// A place in the sector of block 0 with user data `00`, and the defects if the lowest bit of the byte there is flipped.
const FLIPPED: &[(usize, Wrong)] = &[
    (2351, (false, false, 0, 1, false)),
    (2068, (true, false, 1, 1, false)),
    (2062, (false, true, 1, 1, false)),
];

fn expect_wrong(rt: &impl Abort, sector: &Sector, due: Wrong) {
    let DefectReport { zeros, edc, p, q } = defect(sector);
    assert_eq!(rt; (zeros, edc, p, q, is_consistent(sector)), due);
}

#[test]
fn reports(rt: HostRuntime) {
    let sound = encode([0x00, 0x02, 0x00], &[0x00; USER_SIZE]);
    expect_wrong(&rt, &sound, SOUND);
    expect_wrong(&rt, &encode([0xFF; 3], &[0x00; USER_SIZE]), SOUND);
    for (place, due) in FLIPPED {
        let (mut sector, place) = (sound, *place);
        assert!(rt; place < SECTOR_SIZE);
        sector.put(place, sound.byte(place) ^ 0x01);
        expect_wrong(&rt, &sector, *due);
    }
    // without a sync field, so not of a kind that can be consistent
    expect_wrong(&rt, &Sector::default(), (false, false, 0, 0, false));
}

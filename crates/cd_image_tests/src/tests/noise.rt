//! Sectors of noise with a sync field and a mode byte.

use super::cases::expect_sectors;
use super::images::Sample::Mode;
use super::images::{encoded_again, joined, sector_of};
use super::reports::audits_as;
use cd_sector::Sector;
use std::alloc::AllocError;
use std::test::Fail;

/// A Mode 1 sector of noise.
fn noise(seed: u8) -> Sector {
    let mut bytes = *sector_of(&Mode(1)).bytes();
    for (place, byte) in bytes.iter_mut().enumerate() {
        let low = (place % 256) as u8;
        let value = low.wrapping_mul(low.wrapping_add(7)).wrapping_add(seed);
        if place > 11 && place != 15 {
            *byte = value;
        }
    }
    Sector::from_bytes(bytes)
}

/// Three such sectors.
fn three() -> [Sector; 3] {
    [noise(0), noise(3), noise(6)]
}

const SET_EACH: &str = "cdpatch 1\nset 0 0 41\nset 1 0 41\nset 2 0 41\n";

const DAMAGED: &str = "line 2: refused: block 0 is damaged\n\
    line 3: refused: block 1 is damaged\nline 4: refused: block 2 is damaged\n\
    applied 0 refused 3\n";

const REBUILD: &str = "cdpatch 1\nrebuild 0\nrebuild 1\nrebuild 2\n";

const APPLIED: &str = "line 2: applied\nline 3: applied\nline 4: applied\napplied 3 refused 0\n";

#[test]
fn is_damaged(rt: HostRuntime) -> Result<(), Fail> {
    let noise = three();
    expect_sectors(&rt, rt.alloc(), SET_EACH, &noise, DAMAGED, &noise)
}

#[test]
fn is_rebuilt(rt: HostRuntime) -> Result<(), Fail> {
    let noise = three();
    let mut made = noise;
    for sector in made.iter_mut() {
        *sector = encoded_again(sector);
    }
    expect_sectors(&rt, rt.alloc(), REBUILD, &noise, APPLIED, &made)
}

/// Each sector has a wrong address, and none of its code words holds.
const AUDIT: &str = "0 address zeros edc p=86 q=52\n1 address zeros edc p=86 q=52\n\
    2 address zeros edc p=86 q=52\nsectors 3 mode1 3 damaged 3 tail 0\n";

#[test]
fn is_audited(rt: HostRuntime) -> Result<(), AllocError> {
    audits_as(&rt, &joined(rt.alloc(), &three())?, AUDIT);
    Ok(())
}

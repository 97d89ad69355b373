//! Builds sectors from user data and from other sectors.

use cd_address::address_of;
use cd_sector::{Sector, encode};
use std::alloc::{AllocError, Global};

/// The consistent sector of a block with this user data.
pub fn encoded_at(block: u32, user: &[u8; 2048]) -> Sector {
    encode(address_of(block).unwrap_or([0, 0, 0]), user)
}

/// The sector that results from encoding the header and the user data of a sector.
pub fn encoded_again(sector: &Sector) -> Sector {
    let [minute, second, fraction, _] = sector.header();
    let mut user = [0; 2048];
    user.copy_from_slice(sector.user());
    encode([minute, second, fraction], &user)
}

/// The sector with a difference added to the byte at a place.
pub fn with_added(sector: &Sector, place: usize, difference: u8) -> Sector {
    let mut other = *sector;
    if place < 2352 {
        other.put(place, sector.byte(place) ^ difference);
    }
    other
}

/// The sector with the lowest bit of the byte at a place flipped.
pub fn flipped(sector: &Sector, place: usize) -> Sector {
    with_added(sector, place, 1)
}

/// The bytes of sectors, one after the other.
pub fn joined(alloc: Global, sectors: &[Sector]) -> Result<Vec<u8>, AllocError> {
    let mut bytes = Vec::new(alloc);
    for sector in sectors {
        bytes.extend_from_slice(sector.bytes())?;
    }
    Ok(bytes)
}

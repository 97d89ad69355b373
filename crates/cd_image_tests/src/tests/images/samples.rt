//! Sectors in short form, and images of them.

use super::sectors::{encoded_at, with_added};
use cd_sector::{Sector, USER_SIZE};
use std::alloc::{AllocError, Global};

/// A sector in short form.
#[derive(Clone, Copy)]
pub enum Sample {
    /// The consistent sector of a block with user data `00`.
    Zeros(u32),
    /// The same, except that the user bytes from one offset up to another have this value.
    Filled(u32, usize, usize, u8),
    /// The first, with a difference added to the byte at a place.
    Damaged(u32, usize, u8),
    /// A sync field, the address of 00:02:00, this mode byte, and `00` everywhere else.
    Mode(u8),
    /// All `00`.
    Blank,
}

/// The sector of a sample.
pub fn sector_of(sample: &Sample) -> Sector {
    match *sample {
        Sample::Zeros(block) => encoded_at(block, &[0; USER_SIZE]),
        Sample::Filled(block, first, end, value) => {
            encoded_at(block, &filled([0; USER_SIZE], first, end, value))
        }
        Sample::Damaged(block, place, difference) => {
            with_added(&encoded_at(block, &[0; USER_SIZE]), place, difference)
        }
        Sample::Mode(mode) => of_mode(mode),
        Sample::Blank => Sector::default(),
    }
}

/// User data in which the bytes from one offset up to another have this value.
fn filled(mut user: [u8; USER_SIZE], first: usize, end: usize, value: u8) -> [u8; USER_SIZE] {
    for (place, byte) in user.iter_mut().enumerate() {
        if first <= place && place < end {
            *byte = value;
        }
    }
    user
}

/// A sector with a sync field, the address of 00:02:00, this mode byte, and `00` everywhere else.
fn of_mode(mode: u8) -> Sector {
    let mut sector = Sector::default();
    for place in 1..11 {
        sector.put(place, 255);
    }
    sector.put(13, 2);
    sector.put(15, mode);
    sector
}

/// The bytes of sectors, one after the other.
pub fn image_of(alloc: Global, samples: &[Sample]) -> Result<Vec<u8>, AllocError> {
    let mut bytes = Vec::new(alloc);
    for sample in samples {
        bytes.extend_from_slice(sector_of(sample).bytes())?;
    }
    Ok(bytes)
}

/// The first `size` bytes of the sectors.
pub fn cut_image(alloc: Global, samples: &[Sample], size: usize) -> Result<Vec<u8>, AllocError> {
    let mut bytes = image_of(alloc, samples)?;
    bytes.truncate(size);
    Ok(bytes)
}

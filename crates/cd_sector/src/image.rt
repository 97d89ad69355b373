//! The largest size of an image, and the law that an image divides into sectors in one way only.

ghost use Rattle.cd_sector.specs.Image.{ImagesAreCut};

/// The largest number of whole sectors in an image.
pub const MAX_SECTORS: u32 = 1_000_000;

/// Each list of bytes consists of its whole sectors and then its tail, and divides in no other way.
pub fn images_are_cut()
    ensures { ImagesAreCut }
{}

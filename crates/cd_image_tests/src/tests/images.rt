//! Shared code of the tests: sectors and images in short form, scripts and texts, and readers and writers. It has no contracts.

mod readers;
mod samples;
mod scripts;
mod sectors;
mod texts;
mod writers;
mod written;

pub use readers::Resuming;
pub use samples::{Sample, cut_image, image_of, sector_of};
pub use scripts::script_of;
pub use sectors::{encoded_again, flipped, joined};
pub use texts::repeated;
pub use writers::Full;
pub use written::{UNTOUCHED, Written, written_in};

//! Reads an image of raw CD sectors: complete sectors of 2352 bytes (ECMA-130, 14), then a shorter
//! tail.
//!
//! ```
//! let mut image = ZeroSource::new(2352 + 3);
//! let mut sector = Sector::default();
//! assert_eq!(rt; read_sector(&mut image, 0, &mut sector), Ok(None)); // a whole one
//! assert_eq!(rt; read_sector(&mut image, 1, &mut sector), Ok(Some(3))); // the tail
//! ```
//!
//! An image has at most `cd_sector::MAX_SECTORS` complete sectors, and no byte after the last
//! possible one: at most 2,352,000,000 bytes. A call on an image ends at its first [`Fault`]. It
//! reads each sector directly into the bytes of a `Sector` and allocates no memory. A command makes
//! such a call, prints a line for its fault ([`report_fault`]), and returns a status:
//!
//! | Status | Meaning |
//! |---|---|
//! | [`DONE`], 0 | done |
//! | [`FOUND`], 1 | done; a patch was refused, or `audit` has a finding |
//! | [`FAILED`], 2 | an error, which has its line |
//!
//! Tests: `crates/cd_image_tests`.
#![tactic(auto)]

mod fault;
mod messages;
mod printing;
mod reading;
mod status;

pub use fault::{Fault, LogFailed};
pub use messages::{failed_read_line, long_image_line};
pub use printing::{print_and_fail, print_line, report_fault};
pub use reading::read_sector;
pub use status::{DONE, FAILED, FOUND};

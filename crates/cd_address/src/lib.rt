//! The addresses of the blocks of a CD-ROM (ECMA-130, 14).
//!
//! ```
//! assert_eq!(rt; address_of(16), Some([0x00, 0x02, 0x16])); // 00:02:16
//! assert_eq!(rt; address_of(MAX_BLOCK + 1), None);
//! ```
//!
//! Blocks are numbered from 0 to [`MAX_BLOCK`]. No call allocates memory.
//!
//! Tests: `crates/cd_low_tests/src/tests/sectors.rt`.
#![tactic(auto)]

mod addresses;

pub use addresses::{MAX_BLOCK, address_of};

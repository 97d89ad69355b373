//! Sectors of a CD-ROM (ECMA-130, 14): recognises their kinds, encodes them from their content, and
//! reports their defects. Places are counted from 0.
//!
//! | Bytes | Field of a Mode 1 sector |
//! |---|---|
//! | 0 to 11 | sync: `00`, ten times `FF`, `00` |
//! | 12 to 14 | address: minute, second and fraction, each in BCD |
//! | 15 | mode: `01` |
//! | 16 to 2063 | user data |
//! | 2064 to 2067 | EDC of bytes 0 to 2063, the least significant byte first |
//! | 2068 to 2075 | Intermediate: `00` |
//! | 2076 to 2247 | P parity: two bytes for each of 86 columns (Annex A) |
//! | 2248 to 2351 | Q parity: two bytes for each of 52 diagonals, which run through the P parity too |
//!
//! ```
//! let mut sector = encode([0x00, 0x02, 0x00], &[0x00; USER_SIZE]); // block 0, all zeros
//! assert!(rt; is_consistent(&sector));
//! sector.put(2351, 0xFF); // the last byte of Q parity
//! assert!(rt; !is_consistent(&sector));
//! ```
//!
//! Of a sector of any other kind only the kind is recognised ([`kind`]), since the two forms of
//! Mode 2 are not in ECMA-130. An image has at most [`MAX_SECTORS`] whole sectors, followed by a
//! tail that is shorter than a sector. No call allocates memory.
//!
//! Tests: `crates/cd_low_tests/src/tests/sectors.rt`.
#![tactic(auto)]

mod defects;
mod edc_field;
mod encoding;
mod image;
mod kinds;
mod laws;
mod parity;
mod sector;
mod sums;

pub use cd_address::{MAX_BLOCK, address_of};
pub use cd_code::{
    COLUMNS, DIAGONAL_SIZE, DIAGONALS, FIRST_P, FIRST_P_ROW, FIRST_Q, PLANE_COLUMNS, ROWS,
    SECOND_P, SECOND_P_ROW, SECOND_Q,
};
pub use defects::{
    DefectReport, count_broken, defect, has_zeros, is_consistent, mark_broken, mark_columns,
    mark_diagonals, same_defect,
};
pub use edc_field::{edc_bytes, fill_edc, put_edc, stored_edc};
pub use encoding::{encode, encode_into, rebuild};
pub use image::{MAX_SECTORS, images_are_cut};
pub use kinds::{SYNC, SectorKind, kind};
pub use laws::{
    carried_exists, carried_is_unique, carried_of_consistent, consistent_by_parts,
    consistent_is_carried, sector_by_defect, sector_exists, sector_is_unique,
};
pub use parity::fill_parity;
pub use sector::{EDC, HEADER, INTERMEDIATE, SECTOR_SIZE, Sector, USER_DATA, USER_SIZE, put_part};
pub use sums::sum_of;

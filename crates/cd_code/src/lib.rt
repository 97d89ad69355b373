//! The codes of a CD-ROM sector (ECMA-130): the field GF(2^8) and the code words of Annex A, and
//! the error detection code of clause 14.
//!
//! A code word is a list of bytes whose two syndromes are `00`. The first syndrome is the sum of
//! its bytes. The second is the sum of its bytes times falling powers of alpha, down to 1 at the
//! last byte. The last two bytes of a code word are its parity:
//!
//! ```
//! assert_eq!(rt; parity_pair(&[0x01]), (0x03, 0x02));
//! assert_eq!(rt; syndromes(&[0x01, 0x03, 0x02]), (0x00, 0x00)); // a code word
//! ```
//!
//! The EDC of a list of bytes is a word of 32 bits: the list followed by it is divisible by the
//! generator of clause 14:
//!
//! ```
//! assert_eq!(rt; edc_of(&[0x00; 2064]), 0);
//! assert_eq!(rt; edc_of(&[0x01]), 0x9091_0101);
//! ```
//!
//! [`column_sums`], [`column_lanes`], and [`LaneSums`] compute many syndromes at once, for the 86
//! columns and 52 diagonals of a sector. Constants give the places of these code words in a sector.
//! A list may have any length. No call allocates memory.
//!
//! [`times`], [`alpha_power`], [`syndromes`], [`pair_from`], [`parity_pair`] and [`row_sums`] are
//! for other users of the codes: cdpatch calls them only in tests and benchmarks.
//!
//! Tests: `crates/cd_low_tests/src/tests/codes.rt`.
#![tactic(auto)]

mod columns;
mod edc;
mod edc_tables;
mod field;
mod field_tables;
mod folding;
mod lane_sums;
mod lanes;
mod laws;
mod product_code;
mod syndrome;

pub use columns::{
    BACK_COLUMN, COLUMNS, ColumnLanes, ColumnSums, MIDDLE_COLUMN, ROWS, ROWS_SIZE, column_lanes,
    column_sums, row_sums,
};
pub use edc::edc_of;
pub use field::{alpha_power, times};
pub use lane_sums::LaneSums;
pub use lanes::{lanes_at, put_lanes};
pub use laws::{edc_is_unique, edc_of_sum, pair_is_unique, product_goes_by_bits, sum_goes_by_bits};
pub use product_code::{
    DIAGONAL_SIZE, DIAGONALS, DiagonalSums, FIRST_P, FIRST_P_ROW, FIRST_Q, HEADER, P_PARITY,
    PLANE_COLUMNS, Q_PARITY, SECOND_P, SECOND_P_ROW, SECOND_Q, SECTOR_SIZE,
};
pub use syndrome::{pair_change, pair_from, parity_pair, syndromes};

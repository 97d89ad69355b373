//! Computes the syndromes, the EDC, and the parity of a sector, many code words at a time in vector
//! registers (ECMA-130, 14 and Annex A). cd_sector is built on these five calls.
#![tactic(auto)]

mod columns;
mod diagonals;
mod parity;

pub use cd_code::edc_of;
pub use columns::all_column_sums;
pub use diagonals::all_diagonal_sums;
pub use parity::{fill_columns, fill_diagonals};

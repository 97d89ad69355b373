//! Writes the P and the Q parity of a sector (ECMA-130, Annex A). The words of both planes are
//! numbered together: word i is number i / 2 of plane i % 2, so the bytes of neighbouring words are
//! adjacent.

ghost use Rattle.std.specs.Prelude.{◌≡◌, ℕ, ◌+◌, ◌<◌, ◌≤◌, ◌⊎◌, slice_index};
ghost use Rattle.cd_code.specs.CodeWords.{column_of, diagonal_of};
ghost use Rattle.cd_code.specs.Filling.{PairsPut};
ghost use Rattle.cd_code.specs.Syndrome.{IsCodeWord};

use crate::columns::column_input_lanes;
use crate::diagonals::{HIGH_WORDS, high_input_sums, low_input_sums};
use cd_code::{
    BACK_COLUMN, COLUMNS, DIAGONALS, LaneSums, MIDDLE_COLUMN, P_PARITY, Q_PARITY, SECTOR_SIZE,
    put_lanes,
};

/// Computes and writes the P parity of each column (ECMA-130, Annex A).
///
/// # Examples
///
/// ```
/// let mut bytes = [0x00; SECTOR_SIZE];
/// bytes[1990] = 0x01; // the last byte of column 0 before its parity
/// fill_columns(&mut bytes);
/// assert_eq!(rt; (bytes[2076], bytes[2162]), (0x03, 0x02)); // as `parity_pair` of 01
/// ```
pub fn fill_columns(bytes: &mut [u8; SECTOR_SIZE])
    ensures words { (i : ℕ) → i < 86 → IsCodeWord (column_of bytes.new i) }
    ensures stays { (k : ℕ) → (k < 2076) ⊎ (2248 ≤ k)
        → slice_index bytes.new k ≡ slice_index bytes.old k }
{
    let lanes = column_input_lanes(bytes);
    put_pairs(bytes, P_PARITY, COLUMNS, lanes.front);
    put_pairs(bytes, P_PARITY + MIDDLE_COLUMN, COLUMNS, lanes.middle);
    put_pairs(bytes, P_PARITY + BACK_COLUMN, COLUMNS, lanes.back);
}

/// Computes and writes the Q parity of each diagonal, whose bytes include P parity
/// (ECMA-130, Annex A).
///
/// # Examples
///
/// ```
/// let mut bytes = [0x00; SECTOR_SIZE];
/// bytes[1472] = 0x01; // the last byte of diagonal 0 before its parity
/// fill_diagonals(&mut bytes);
/// assert_eq!(rt; (bytes[2248], bytes[2300]), (0x03, 0x02)); // as `parity_pair` of 01
/// ```
pub fn fill_diagonals(bytes: &mut [u8; SECTOR_SIZE])
    ensures words { (i : ℕ) → i < 52 → IsCodeWord (diagonal_of bytes.new i) }
    ensures stays { (k : ℕ) → k < 2248 → slice_index bytes.new k ≡ slice_index bytes.old k }
{
    let low = low_input_sums(bytes);
    let high = high_input_sums(bytes);
    put_pairs(bytes, Q_PARITY, DIAGONALS, low);
    put_pairs(bytes, Q_PARITY + HIGH_WORDS, DIAGONALS, high);
}

/// Writes the parity of 32 words with these sums: the first bytes from place `at` on, and the
/// second bytes `count` places after them.
fn put_pairs(bytes: &mut [u8; SECTOR_SIZE], at: usize, count: usize, sums: LaneSums)
    requires apart { 32 ≤ count }
    requires room { at + count + 32 ≤ 2352 }
    ensures { PairsPut 32 at count (λ i. slice_index sums.plain i) (λ i. slice_index sums.weighted i)
        bytes.old bytes.new }
{
    let (first, second) = sums.pairs();
    put_lanes(bytes, at, first);
    put_lanes(bytes, at + count, second);
}

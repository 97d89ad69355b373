//! Computes the syndromes of the 86 P columns of a sector (ECMA-130, Annex A).

ghost use Rattle.std.specs.Prelude.{◌/◌, ◌%◌};
ghost use Rattle.cd_code.specs.CodeWords.{SumsOf, bytes_at, column_input, column_of};
ghost use Rattle.cd_code.specs.LaneWords.{AreColumns};

use cd_code::{
    COLUMNS, ColumnLanes, ColumnSums, HEADER, P_PARITY, Q_PARITY, SECTOR_SIZE, column_lanes,
    column_sums,
};

/// Computes both syndromes of each column, including its parity (ECMA-130, Annex A).
///
/// # Examples
///
/// ```
/// let mut bytes = [0x00; SECTOR_SIZE];
/// bytes[12] = 0x01; // the first byte of column 0, of 26
/// let sums = all_column_sums(&bytes);
/// assert_eq!(rt; (sums.plain[0], sums.weighted[0]), (0x01, alpha_power(25)));
/// ```
pub fn all_column_sums(bytes: &[u8; SECTOR_SIZE]) -> ColumnSums
    ensures { SumsOf (column_of bytes.now) 86 result.plain result.weighted }
{
    column_sums(bytes[HEADER..Q_PARITY].first_chunk().unwrap())
}

/// The syndromes of the 24 bytes of each column before its parity.
#[inline(always)]
pub(crate) fn column_input_lanes(bytes: &[u8; SECTOR_SIZE]) -> ColumnLanes
    ensures { AreColumns (λ i. bytes_at bytes.now (column_input (i % 2) (i / 2))) result }
{
    let (rows, _) = bytes[HEADER..P_PARITY].as_chunks::<COLUMNS>();
    column_lanes(rows)
}

//! Computes the syndromes of 86 columns at once, from rows of 86 bytes (ECMA-130, Annex A).

ghost use Rattle.std.specs.Prelude.{◌≡◌, ℕ, ◌<◌, List, [], ◌∷◌, ◌++◌, bit_xor, replicate, slice_index};
ghost use Rattle.cd_code.specs.Field.{double};
ghost use Rattle.cd_code.specs.LaneWords.{AreColumns, column_of_rows};
ghost use Rattle.cd_code.specs.Syndrome.{column, first_syndrome, second_syndrome};

use crate::lane_sums::LaneSums;
use crate::lanes::{add_lanes, add_rest, double_and_add_lanes, lanes_at, put_lanes};

/// The number of P columns of both planes together, which is also the number of bytes in a row
/// (ECMA-130, Annex A).
pub const COLUMNS: usize = 86;

/// The number of rows, including the two of P parity, which is also the number of bytes in a column
/// (ECMA-130, Annex A).
pub const ROWS: usize = 26;

/// The number of bytes in all rows (ECMA-130, Annex A).
pub const ROWS_SIZE: usize = ROWS * COLUMNS;

/// The first column of the middle lanes of [`ColumnLanes`].
pub const MIDDLE_COLUMN: usize = 32;

/// The first column of the back lanes of [`ColumnLanes`], which are the last 32 of the 86 columns.
pub const BACK_COLUMN: usize = COLUMNS - 32;

/// Both syndromes of each of 86 columns: entry `2N + plane` is for column N of that plane
/// (ECMA-130, Annex A).
#[derive(Clone, Copy, Debug, PartialEq, Eq)]
pub struct ColumnSums {
    /// The sum of each column's bytes.
    pub plain: [u8; COLUMNS],
    /// The sum of each column's bytes times falling powers of alpha, down to 1 in the last row.
    pub weighted: [u8; COLUMNS],
}

impl ColumnSums {
    /// The sums of 86 columns without rows: all `00`.
    ///
    /// See the example of [`row_sums`].
    pub fn zero() -> Self
        ensures plain { result.plain ≡ replicate 86 0 }
        ensures weighted { result.weighted ≡ replicate 86 0 }
    {
        ColumnSums {
            plain: [0; COLUMNS],
            weighted: [0; COLUMNS],
        }
    }
}

/// Appends a row of 86 bytes to the columns: adds it to the plain sums, and to the doubled weighted
/// sums (ECMA-130, Annex A). Use it if rows arrive one at a time. [`column_sums`] reads all rows at
/// once, and keeps their sums in registers.
///
/// # Examples
///
/// ```
/// let mut sums = ColumnSums::zero();
/// row_sums(&[0x80; COLUMNS], &mut sums);
/// row_sums(&[0x01; COLUMNS], &mut sums);
/// assert_eq!(rt; (sums.plain[85], sums.weighted[85]), (0x81, 0x1C)); // 80 + 01, and 2 * 80 + 01
/// ```
pub fn row_sums(row: &[u8; COLUMNS], sums: &mut ColumnSums)
    ensures plain { (c : ℕ) → c < 86
        → slice_index sums.new.plain c
        ≡ bit_xor (slice_index sums.old.plain c) (slice_index row.now c) }
    ensures weighted { (c : ℕ) → c < 86
        → slice_index sums.new.weighted c
        ≡ bit_xor (double (slice_index sums.old.weighted c)) (slice_index row.now c) }
{
    // LLVM vectorises a plain loop too, so the lanes gain little. The contract is the same.
    add_lanes(&mut sums.plain, row, 0);
    add_lanes(&mut sums.plain, row, 32);
    double_and_add_lanes(&mut sums.weighted, row, 0);
    double_and_add_lanes(&mut sums.weighted, row, 32);
    add_rest(&mut sums.plain, &mut sums.weighted, row, 64);
}

/// Both syndromes of each of 86 columns, in registers (ECMA-130, Annex A). Public for cd_lanes,
/// which computes parity in the same registers. The middle and the back lanes overlap, since 86 is
/// less than three times 32.
#[derive(Clone, Copy, Debug)]
pub struct ColumnLanes {
    /// The syndromes of columns 0 to 31.
    pub front: LaneSums,
    /// The syndromes of columns 32 to 63.
    pub middle: LaneSums,
    /// The syndromes of columns 54 to 85.
    pub back: LaneSums,
}

impl ColumnLanes {
    /// The sums of 86 columns without rows: all `00`.
    #[inline(always)]
    fn zero() -> Self
        ensures { AreColumns (λ _. []) result }
    {
        ColumnLanes {
            front: LaneSums::zero(),
            middle: LaneSums::zero(),
            back: LaneSums::zero(),
        }
    }

    /// Appends a row to the columns.
    #[inline(always)]
    fn with_row(self, row: &[u8; COLUMNS]) -> Self
        ensures { (word longer : ℕ → List ℕ) → AreColumns word self
            → ((c : ℕ) → c < 86 → longer c ≡ word c ++ slice_index row.now c ∷ [])
            → AreColumns longer result }
    {
        ColumnLanes {
            front: self.front.with_lanes(lanes_at(row, 0)),
            middle: self.middle.with_lanes(lanes_at(row, MIDDLE_COLUMN)),
            back: self.back.with_lanes(lanes_at(row, BACK_COLUMN)),
        }
    }

    /// The sums of all 86 columns, in order.
    fn sums(self) -> ColumnSums
        ensures { (word : ℕ → List ℕ) → AreColumns word self → (c : ℕ) → c < 86
            → (slice_index result.plain c ≡ first_syndrome (word c))
            × (slice_index result.weighted c ≡ second_syndrome (word c)) }
    {
        let mut sums = ColumnSums::zero();
        put_lanes(&mut sums.plain, 0, self.front.plain);
        put_lanes(&mut sums.plain, MIDDLE_COLUMN, self.middle.plain);
        put_lanes(&mut sums.plain, BACK_COLUMN, self.back.plain);
        put_lanes(&mut sums.weighted, 0, self.front.weighted);
        put_lanes(&mut sums.weighted, MIDDLE_COLUMN, self.middle.weighted);
        put_lanes(&mut sums.weighted, BACK_COLUMN, self.back.weighted);
        sums
    }
}

/// Both syndromes of each of the 86 columns of any number of rows (ECMA-130, Annex A).
///
/// # Examples
///
/// ```
/// let lanes = column_lanes(&[[0x80; COLUMNS], [0x01; COLUMNS]]); // two rows
/// assert_eq!(rt; lanes.front.plain[0], 0x81); // 80 + 01, in column 0
/// assert_eq!(rt; lanes.back.weighted[31], 0x1C); // 2 * 80 + 01, in column 85
/// ```
#[inline(always)]
pub fn column_lanes(rows: &[[u8; COLUMNS]]) -> ColumnLanes
    ensures { AreColumns (column_of_rows rows.now) result }
{
    let mut lanes = ColumnLanes::zero();
    for row in rows {
        lanes = lanes.with_row(row);
    }
    lanes
}

/// Both syndromes of each of the 86 columns of 26 rows of 86 bytes (ECMA-130, Annex A).
///
/// # Examples
///
/// ```
/// let mut rows = [0x00; ROWS_SIZE];
/// rows[0] = 0x01; // column 0 is 01, and 25 times 00
/// let sums = column_sums(&rows);
/// assert_eq!(rt; (sums.plain[0], sums.weighted[0]), (0x01, alpha_power(25)));
/// ```
pub fn column_sums(rows: &[u8; ROWS_SIZE]) -> ColumnSums
    ensures plain { (c : ℕ) → c < 86
        → slice_index result.plain c ≡ first_syndrome (column rows.now c) }
    ensures weighted { (c : ℕ) → c < 86
        → slice_index result.weighted c ≡ second_syndrome (column rows.now c) }
{
    let (each_row, _) = rows.as_chunks::<COLUMNS>();
    column_lanes(each_row).sums()
}

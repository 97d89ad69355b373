//! The dimensions of the product code, and the places of its parts in a sector (ECMA-130, Annex A).
//! Each of two planes has 24 rows of 43 columns, then two rows of P parity, then the Q parity of
//! its 26 diagonals. The bytes of a plane are numbered from 0, row after row.

use crate::columns::{COLUMNS, ROWS};

/// The number of bytes in a sector (ECMA-130, 14).
pub const SECTOR_SIZE: usize = 2352;

/// The place of the header, after the sync field; the planes begin here too.
pub const HEADER: usize = 12;

/// Where the P parity begins.
pub const P_PARITY: usize = HEADER + COLUMNS * FIRST_P_ROW;

/// Where the Q parity begins.
pub const Q_PARITY: usize = HEADER + COLUMNS * ROWS;

/// The number of columns in a plane, which is also the number of bytes in a row of the plane.
pub const PLANE_COLUMNS: usize = COLUMNS / 2;

/// The row of the first byte of P parity of each column.
pub const FIRST_P_ROW: usize = ROWS - 2;

/// The row of the second byte of P parity of each column.
pub const SECOND_P_ROW: usize = ROWS - 1;

/// The number, in its plane, of the first byte of P parity of column 0.
pub const FIRST_P: usize = FIRST_P_ROW * PLANE_COLUMNS;

/// The number, in its plane, of the second byte of P parity of column 0.
pub const SECOND_P: usize = SECOND_P_ROW * PLANE_COLUMNS;

/// The number, in its plane, of the first byte of Q parity of diagonal 0.
pub const FIRST_Q: usize = ROWS * PLANE_COLUMNS;

/// The number, in its plane, of the second byte of Q parity of diagonal 0.
pub const SECOND_Q: usize = FIRST_Q + ROWS;

/// The number of bytes in a diagonal: one from each column, and two of parity.
pub const DIAGONAL_SIZE: usize = PLANE_COLUMNS + 2;

/// The number of Q diagonals of both planes together. A plane has as many diagonals as rows.
pub const DIAGONALS: usize = 2 * ROWS;

/// Both syndromes of each of the 52 diagonals: entry `2N + plane` is for diagonal N of that plane
/// (ECMA-130, Annex A).
#[derive(Clone, Copy, Debug, PartialEq, Eq)]
pub struct DiagonalSums {
    /// The sum of each diagonal's bytes.
    pub plain: [u8; DIAGONALS],
    /// The sum of each diagonal's bytes times falling powers of alpha, down to 1 at the last byte.
    pub weighted: [u8; DIAGONALS],
}

//! The changes of the parity that follow from the change of one byte (ECMA-130, Annex A).

ghost use Rattle.std.specs.Prelude.{◌≡◌, ◌≢◌, ℕ, ◌+◌, ◌*◌, ◌-◌, ◌/◌, ◌%◌, ◌<◌, ◌≤◌, All, List, length, map, nat_eq};
ghost use Rattle.std.specs.List.{IsDistinct};
ghost use Rattle.cd_code.specs.Field.{AreBytes};
ghost use Rattle.cd_code.specs.Syndrome.{Balances, with_added};
ghost use Rattle.cd_code.specs.CodeWords.{SameSyndromes, place_of};
ghost use Rattle.cd_delta.specs.ParityChanges.{diagonal_at, parity_places, with_changes};

use cd_code::pair_change;
use cd_sector::{
    DIAGONAL_SIZE, FIRST_P, FIRST_P_ROW, FIRST_Q, HEADER, PLANE_COLUMNS, ROWS, SECOND_P,
    SECOND_P_ROW, SECOND_Q,
};

/// A change of one byte of a sector: `d` is added (by xor) to the byte at `place` (ECMA-130, Annex
/// A).
#[derive(Clone, Copy, Debug, PartialEq, Eq)]
pub struct Change {
    /// The place of the byte in the sector, from 0 on.
    pub place: u16,
    /// The amount, a field element; `00` changes nothing.
    pub d: u8,
}

/// The remainders of 0 to 77 modulo 26. A look-up costs less than a division.
#[rattlefmt::skip]
static AROUND: [u8; 78] = [
    0, 1, 2, 3, 4, 5, 6, 7, 8, 9, 10, 11, 12, 13, 14, 15, 16, 17, 18, 19, 20, 21, 22, 23, 24, 25,
    0, 1, 2, 3, 4, 5, 6, 7, 8, 9, 10, 11, 12, 13, 14, 15, 16, 17, 18, 19, 20, 21, 22, 23, 24, 25,
    0, 1, 2, 3, 4, 5, 6, 7, 8, 9, 10, 11, 12, 13, 14, 15, 16, 17, 18, 19, 20, 21, 22, 23, 24, 25,
];

/// The position of a byte in the product code: its plane, its row (of 26) and its column (of 43).
#[derive(Clone, Copy)]
struct Cell {
    plane: usize,
    row: usize,
    column: usize,
    ghost in_plane: { plane < 2 },
    ghost in_rows: { row < 26 },
    ghost in_columns: { column < 43 },
}

/// The eight changes of parity bytes that follow if `d` is added to the byte at `place` (12 to
/// 2075). With them, all 276 syndromes keep their values, in any sector, consistent or not. No
/// other amounts at these places do this, and none is `00` unless `d` is. The first two changes are
/// of the parity bytes of the P column. Then follow, two each, those of the Q diagonals through the
/// byte itself, the first P byte and the second P byte (ECMA-130, Annex A).
///
/// # Examples
///
/// ```
/// let [first, second, ..] = parity_changes(12, 0x01); // the P bytes of the column of byte 12
/// assert_eq!(rt; (first.place, first.d), (2076, 0xF5));
/// assert_eq!(rt; (second.place, second.d), (2162, 0xF4));
/// ```
pub fn parity_changes(place: u16, d: u8) -> [Change; 8]
    requires from { 12 ≤ place }
    requires below { place < 2076 }
    ensures places { map (λ c. c.place) result ≡ parity_places place }
    ensures inside { All (λ c. (2076 ≤ c.place) × (c.place < 2352)) result }
    ensures distinct { IsDistinct nat_eq (map (λ c. c.place) result) }
    ensures keeps { (s : List ℕ) → AreBytes s → length s ≡ 2352
        → SameSyndromes (with_changes (with_added s place d) result) s }
    // No other amounts do this, and none is `00`. Both clauses follow from `keeps`, so no wrong
    // body is refused by them alone.
    ensures unique { (others : List Change) → map (λ c. c.place) others ≡ parity_places place
        → All (λ c. c.d < 256) others
        → (s : List ℕ) → AreBytes s → length s ≡ 2352
        → SameSyndromes (with_changes (with_added s place d) others) s → others ≡ result }
    ensures nonzero { d ≢ 0 → All (λ c. c.d ≢ 0) result }
{
    let cell = cell_of(place as usize);
    let (first, second) = column_changes(cell, d);
    let (own_first, own_second) = diagonal_changes(cell, d);
    let (first_first, first_second) = diagonal_changes(in_row(FIRST_P_ROW, cell), first.d);
    let (second_first, second_second) = diagonal_changes(in_row(SECOND_P_ROW, cell), second.d);
    [
        first,
        second,
        own_first,
        own_second,
        first_first,
        first_second,
        second_first,
        second_second,
    ]
}

/// The cell of the byte at a place before the parity.
fn cell_of(place: usize) -> Cell
    requires from { 12 ≤ place }
    requires below { place < 2076 }
    ensures plane { result.plane ≡ place % 2 }
    ensures row { result.row ≡ (place - 12) / 2 / 43 }
    ensures column { result.column ≡ (place - 12) / 2 % 43 }
{
    // Division of 32-bit numbers takes half the instructions.
    let number = (place - HEADER) as u32 / 2;
    let columns = PLANE_COLUMNS as u32;
    Cell {
        plane: place % 2,
        row: (number / columns) as usize,
        column: (number % columns) as usize,
    }
}

/// The cell in this row with the plane and the column of `cell`.
fn in_row(row: usize, cell: Cell) -> Cell
    requires { row < 26 }
    ensures plane { result.plane ≡ cell.plane }
    ensures row { result.row ≡ row }
    ensures column { result.column ≡ cell.column }
{
    Cell {
        plane: cell.plane,
        row,
        column: cell.column,
    }
}

/// The changes of the two parity bytes of a column if `d` is added to a byte before them.
fn column_changes(cell: Cell, d: u8) -> (Change, Change)
    requires { cell.row < 24 }
    ensures first { result.0.place ≡ place_of cell.plane (1032 + cell.column) }
    ensures second { result.1.place ≡ place_of cell.plane (1075 + cell.column) }
    ensures balances { Balances 26 cell.row d result.0.d result.1.d }
    ensures nonzero { d ≢ 0 → (result.0.d ≢ 0) × (result.1.d ≢ 0) }
{
    let (first, second) = pair_change(ROWS, cell.row, d);
    (
        change_at(cell.plane, FIRST_P + cell.column, first),
        change_at(cell.plane, SECOND_P + cell.column, second),
    )
}

/// The changes of the two parity bytes of the diagonal through a byte to which `d` is added.
fn diagonal_changes(cell: Cell, d: u8) -> (Change, Change)
    ensures first { result.0.place ≡ place_of cell.plane (1118 + diagonal_at cell.row cell.column) }
    ensures second { result.1.place
        ≡ place_of cell.plane (1144 + diagonal_at cell.row cell.column) }
    ensures balances { Balances 45 cell.column d result.0.d result.1.d }
    ensures nonzero { d ≢ 0 → (result.0.d ≢ 0) × (result.1.d ≢ 0) }
{
    let diagonal = around(cell.row + 2 * ROWS - cell.column);
    let (first, second) = pair_change(DIAGONAL_SIZE, cell.column, d);
    (
        change_at(cell.plane, FIRST_Q + diagonal, first),
        change_at(cell.plane, SECOND_Q + diagonal, second),
    )
}

/// The index of a diagonal after a number of steps, modulo 26.
fn around(steps: usize) -> usize
    requires { steps < 78 }
    ensures { result ≡ steps % 26 }
{
    AROUND[steps] as usize
}

/// A change of byte `number` of a plane.
fn change_at(plane: usize, number: usize, d: u8) -> Change
    requires plane { plane < 2 }
    requires number { number < 1170 }
    ensures place { result.place ≡ place_of plane number }
    ensures d { result.d ≡ d }
{
    Change {
        place: (HEADER + 2 * number + plane) as u16,
        d,
    }
}

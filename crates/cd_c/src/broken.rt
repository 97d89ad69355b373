//! The call of C that marks the broken code words of a sector.

ghost use Rattle.std.specs.Prelude.{◌≡◌, ℕ, ◌<◌, slice_index};
ghost use Rattle.cd_code.specs.CodeWords.{column_of, diagonal_of};
ghost use Rattle.cd_sector.specs.Defect.{broken_mark};

use cd_sector::{COLUMNS, DIAGONALS, Sector, mark_columns, mark_diagonals};

/// Marks which P columns and Q diagonals of a sector are not code words, as [`mark_columns`] and
/// [`mark_diagonals`]. The sector may be of any kind.
#[unsafe(no_mangle)]
pub extern "C" fn cdpatch_find_broken(
    sector: &Sector,
    columns: &mut [u8; COLUMNS],
    diagonals: &mut [u8; DIAGONALS],
)
    ensures columns { (i : ℕ) → i < 86
        → slice_index columns.new i ≡ broken_mark (column_of sector.now i) }
    ensures diagonals { (i : ℕ) → i < 52
        → slice_index diagonals.new i ≡ broken_mark (diagonal_of sector.now i) }
{
    mark_columns(sector, columns);
    mark_diagonals(sector, diagonals);
}

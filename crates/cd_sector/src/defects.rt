//! Finds the defects of a sector, and tests whether it is consistent.

ghost use Rattle.std.specs.Prelude.{◌≡◌, ℕ, ◌==◌, ◌<◌, ◌≤◌, ◌&&◌, ◌↔◌, IsTrue, if◌then◌else◌, count_by, length, List, slice_index, slice_range, take, true};
ghost use Rattle.std.specs.List.{list_all, list_any};
ghost use Rattle.cd_code.specs.Edc.{bits, remainder};
ghost use Rattle.cd_code.specs.CodeWords.{SumsOf, column_of, diagonal_of};
ghost use Rattle.cd_sector.specs.Consistent.{consistent, is_mode1};
ghost use Rattle.cd_sector.specs.Kind.{kind_of};
ghost use Rattle.cd_sector.specs.Defect.{all_syndromes, broken_mark, defect_of, is_broken, is_nonzero, is_sound};

use crate::edc_field::stored_edc;
use crate::kinds::{SectorKind, kind};
use crate::sector::{EDC, INTERMEDIATE, SECTOR_SIZE, Sector};
use crate::sums::sum_of_bytes;
use cd_code::{COLUMNS, DIAGONALS, P_PARITY};
use cd_lanes::{all_column_sums, all_diagonal_sums, edc_of};

/// The parts of a sector that are wrong (ECMA-130, 14 and Annex A).
#[derive(Clone, Copy, Debug, PartialEq, Eq)]
pub struct DefectReport {
    /// Whether a byte of the Intermediate field, 2068 to 2075, is not `00`.
    pub zeros: bool,
    /// Whether the EDC field does not contain the EDC of bytes 0 to 2063.
    pub edc: bool,
    /// The number of P columns, of 86, that are not code words.
    pub p: u8,
    /// The number of Q diagonals, of 52, that are not code words.
    pub q: u8,
}

/// Reports the defects of a sector of any kind, as if it were of Mode 1 (ECMA-130, 14 and Annex A).
///
/// # Examples
///
/// ```
/// let mut sector = encode([0x00, 0x02, 0x00], &[0x00; USER_SIZE]);
/// sector.put(16, 0x01); // a byte of the user data, in one column and one diagonal
/// let report = defect(&sector);
/// assert_eq!(rt; (report.edc, report.p, report.q), (true, 1, 1));
/// ```
pub fn defect(s: &Sector) -> DefectReport
    ensures zeros { result.zeros ≡ list_any is_nonzero (defect_of s.now).zeros }
    ensures edc { result.edc ≡ is_nonzero (defect_of s.now).rest }
    ensures p { result.p ≡ count_by is_broken (defect_of s.now).columns }
    ensures q { result.q ≡ count_by is_broken (defect_of s.now).diagonals }
{
    let bytes = s.bytes();
    DefectReport {
        zeros: !has_zeros(bytes),
        edc: !has_edc(bytes),
        p: count_broken_columns(bytes),
        q: count_broken_diagonals(bytes),
    }
}

/// Whether a sector is of Mode 1 and has no defect (ECMA-130, 14 and Annex A).
///
/// # Examples
///
/// ```
/// let mut sector = encode([0x00, 0x02, 0x00], &[0x00; USER_SIZE]); // block 0, all zeros
/// assert!(rt; is_consistent(&sector));
/// sector.put(2351, 0xFF); // the last byte of Q parity
/// assert!(rt; !is_consistent(&sector));
/// ```
pub fn is_consistent(s: &Sector) -> bool
    ensures { result ≡ consistent s.now }
{
    has_mode1(s) && is_sound(s.bytes())
}

/// Whether two sectors of any kind, as if they were of Mode 1, have the same defect: equal bytes in
/// the Intermediate field, equal remainders of the EDC's division, and equal syndromes
/// (ECMA-130, 14 and Annex A). Their kinds are not compared.
///
/// # Examples
///
/// ```
/// let sector = encode([0x00, 0x02, 0x00], &[0x00; USER_SIZE]);
/// let other = encode([0x00, 0x02, 0x01], &[0x41; USER_SIZE]);
/// assert!(rt; same_defect(&sector, &other)); // neither has any
/// assert!(rt; !same_defect(&sector, &Sector::from_bytes([0xFF; SECTOR_SIZE])));
/// ```
pub fn same_defect(a: &Sector, b: &Sector) -> bool
    ensures same { IsTrue result ↔ (defect_of a.now ≡ defect_of b.now) }
    ensures unique { result ≡ true → take 2064 a.now ≡ take 2064 b.now → a.now ≡ b.now }
{
    // Each part of the defect of the sum is the sum of the two parts, so it is 0 if they are equal.
    // One test serves this call and `is_consistent`.
    is_sound(&sum_of_bytes(a.bytes(), b.bytes()))
}

/// Whether a sector has the sync field, and mode byte 01.
fn has_mode1(s: &Sector) -> bool
    ensures { result ≡ is_mode1 (kind_of s.now) }
{
    match kind(s) {
        SectorKind::Mode1 => true,
        SectorKind::NoSync | SectorKind::Mode0 | SectorKind::Mode2 | SectorKind::Other => false,
    }
}

/// Whether every part of a sector's defect is 0.
fn is_sound(bytes: &[u8; SECTOR_SIZE]) -> bool
    ensures { result ≡ is_sound (defect_of bytes.now) }
{
    has_zeros(bytes)
        && has_edc(bytes)
        && count_broken_columns(bytes) == 0
        && count_broken_diagonals(bytes) == 0
}

/// Whether the Intermediate field, bytes 2068 to 2075, is all `00` (ECMA-130, 14).
///
/// # Examples
///
/// ```
/// let mut sector = encode([0x00, 0x02, 0x00], &[0x41; USER_SIZE]);
/// assert!(rt; has_zeros(sector.bytes()));
/// sector.put(2075, 0x01);
/// assert!(rt; !has_zeros(sector.bytes()));
/// ```
pub fn has_zeros(bytes: &[u8; SECTOR_SIZE]) -> bool
    ensures { result ≡ list_all (λ b. b == 0) (slice_range bytes.now 2068 2076) }
{
    bytes[INTERMEDIATE..P_PARITY].starts_with(&[0; P_PARITY - INTERMEDIATE])
}

/// Whether the EDC field contains the EDC of the bytes before it.
fn has_edc(bytes: &[u8; SECTOR_SIZE]) -> bool
    ensures { result ≡ (remainder (bits (take 2068 bytes.now)) == 0) }
{
    edc_of(&bytes[..EDC]) == stored_edc(bytes)
}

/// The number of columns that are not code words.
#[inline(never)]
fn count_broken_columns(bytes: &[u8; SECTOR_SIZE]) -> u8
    ensures { result ≡ count_by is_broken (all_syndromes (column_of bytes.now) 86) }
{
    let sums = all_column_sums(bytes);
    count_broken(&sums.plain, &sums.weighted)
}

/// The number of diagonals that are not code words.
fn count_broken_diagonals(bytes: &[u8; SECTOR_SIZE]) -> u8
    ensures { result ≡ count_by is_broken (all_syndromes (diagonal_of bytes.now) 52) }
{
    let sums = all_diagonal_sums(bytes);
    count_broken(&sums.plain, &sums.weighted)
}

/// Marks the P columns that are not code words, in a sector of any kind as if it were of Mode 1
/// (ECMA-130, Annex A). Entry `2N + plane` becomes 1 if column N of that plane is not a code word,
/// else 0.
///
/// # Examples
///
/// ```
/// let mut sector = encode([0x00, 0x02, 0x00], &[0x00; USER_SIZE]);
/// sector.put(12 + 86 * 3 + 7, 0x01); // the fourth byte of column 3 of plane 1
/// let mut marks = [0x00; COLUMNS];
/// mark_columns(&sector, &mut marks);
/// assert_eq!(rt; (marks[6], marks[7], marks[8]), (0, 1, 0)); // column 3 of plane 1
/// ```
pub fn mark_columns(s: &Sector, marks: &mut [u8; COLUMNS])
    ensures { (i : ℕ) → i < 86 → slice_index marks.new i ≡ broken_mark (column_of s.now i) }
{
    let sums = all_column_sums(s.bytes());
    mark_broken(&sums.plain, &sums.weighted, marks);
}

/// Marks the Q diagonals that are not code words, in a sector of any kind as if it were of Mode 1
/// (ECMA-130, Annex A). Entry `2N + plane` becomes 1 if diagonal N of that plane is not a code
/// word, else 0.
///
/// # Examples
///
/// ```
/// let mut sector = encode([0x00, 0x02, 0x00], &[0x00; USER_SIZE]);
/// sector.put(12 + 86 * 4 + 2, 0x01); // the fifth byte of column 1 of plane 0
/// let mut marks = [0x00; DIAGONALS];
/// mark_diagonals(&sector, &mut marks);
/// assert_eq!(rt; (marks[4], marks[6], marks[8]), (0, 1, 0)); // diagonal 4 - 1 of plane 0
/// ```
pub fn mark_diagonals(s: &Sector, marks: &mut [u8; DIAGONALS])
    ensures { (i : ℕ) → i < 52 → slice_index marks.new i ≡ broken_mark (diagonal_of s.now i) }
{
    let sums = all_diagonal_sums(s.bytes());
    mark_broken(&sums.plain, &sums.weighted, marks);
}

/// Marks the words whose two syndromes, in `plain` and `weighted`, are not both 0: their marks
/// become 1, all others 0 (ECMA-130, Annex A).
///
/// # Examples
///
/// ```
/// let mut marks = [0x00; 3];
/// mark_broken(&[0x00, 0x01, 0x00], &[0x00, 0x00, 0x02], &mut marks);
/// assert_eq!(rt; marks, [0, 1, 1]);
/// ```
pub fn mark_broken(plain: &[u8], weighted: &[u8], marks: &mut [u8])
    requires same_plain { length plain.now ≡ length marks.old }
    requires same_weighted { length weighted.now ≡ length marks.old }
    ensures { (word : ℕ → List ℕ) → SumsOf word (length marks.old) plain.now weighted.now
        → (i : ℕ) → i < length marks.old → slice_index marks.new i ≡ broken_mark (word i) }
{
    for i in 0..marks.len() {
        marks[i] = one_if_broken(plain[i], weighted[i]);
    }
}

/// Counts, among at most 86 words, those whose two syndromes, in `plain` and `weighted`, are not
/// both 0 (ECMA-130, Annex A).
///
/// # Examples
///
/// ```
/// assert_eq!(rt; count_broken(&[0x00, 0x01, 0x00], &[0x00, 0x00, 0x02]), 2);
/// ```
pub fn count_broken(plain: &[u8], weighted: &[u8]) -> u8
    requires few { length plain.now ≤ 86 }
    requires same { length weighted.now ≡ length plain.now }
    ensures { (word : ℕ → List ℕ) → SumsOf word (length plain.now) plain.now weighted.now
        → result ≡ count_by is_broken (all_syndromes word (length plain.now)) }
{
    let mut number = 0;
    for i in 0..plain.len() {
        number += one_if_broken(plain[i], weighted[i]);
    }
    number
}

/// 1 for syndromes that are not both 0, else 0.
fn one_if_broken(plain: u8, weighted: u8) -> u8
    ensures { result ≡ (if is_broken (plain, weighted) then 1 else 0) }
{
    if plain != 0 || weighted != 0 { 1 } else { 0 }
}

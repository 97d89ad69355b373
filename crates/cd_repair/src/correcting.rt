//! Corrects a sector by its own P and Q parity (ECMA-130, Annex A).

ghost use Rattle.std.specs.Prelude.{◌≡◌, ◌≢◌, ◌+◌, ◌-◌, ◌*◌, ◌<◌, ◌≤◌, ◌⊎◌, ◌++◌, ℕ, IfSome, List, None, Some, drop, false, slice_index, slice_range, true};
ghost use Rattle.cd_repair.specs.Correcting.{DifferInOne, HasLostSync, IsLightDamage, IsNear, IsNearColumns, IsNearDiagonals, IsPairCorrected};
ghost use Rattle.cd_code.specs.CodeWords.{column_of, diagonal_of};
ghost use Rattle.cd_code.specs.Syndrome.{IsCodeWord, first_syndrome, second_syndrome};
ghost use Rattle.std.specs.Int.{from_le_bytes, w32};
ghost use Rattle.cd_code.specs.Field.{AreBytes, power, product};
ghost use Rattle.cd_sector.specs.Consistent.{consistent, header_of};
ghost use Rattle.cd_sector.specs.Kind.{kind_of, sync_field};
ghost use Rattle.cd_sector.specs.declared.kinds.SectorKind.TheVariants.{Mode1};

use cd_code::{
    COLUMNS, DIAGONAL_SIZE, DIAGONALS, HEADER, PLANE_COLUMNS, Q_PARITY, ROWS, SECTOR_SIZE,
    alpha_power, times,
};
use cd_lanes::{all_column_sums, all_diagonal_sums};
use cd_sector::{SYNC, Sector, SectorKind, is_consistent, kind, stored_edc};

/// How many times all columns and then all diagonals are corrected. More rounds repair hardly more
/// sectors.
const ROUNDS: u32 = 8;

/// Corrects a damaged Mode 1 sector by its own P and Q parity, or restores the sync field of a
/// sector if nothing else is wrong. Returns whether this was possible: the EDC that was read, the
/// Intermediate field, and all P and Q parity then match, and the header is as it was read. If not,
/// the sector does not change. A consistent sector is not corrected.
///
/// # Examples
///
/// ```
/// let sound = encode([0x00, 0x02, 0x00], &[0x41; USER_SIZE]);
/// let mut sector = sound;
/// sector.put(16, 0xFF);
/// assert!(rt; correct_sector(&mut sector));
/// assert!(rt; sector == sound);
/// sector.put(3, 0x00); // a byte of the sync field
/// assert!(rt; correct_sector(&mut sector));
/// assert!(rt; sector == sound);
/// sector.put(2064, 0x00); // a byte of the EDC
/// assert!(rt; !correct_sector(&mut sector));
/// ```
pub fn correct_sector(sector: &mut Sector) -> bool
    ensures sound { result ≡ true → consistent sector.new ≡ true }
    ensures header { header_of sector.new ≡ header_of sector.old }
    ensures edc { from_le_bytes w32 (slice_range sector.new 2064 2068)
        ≡ from_le_bytes w32 (slice_range sector.old 2064 2068) }
    ensures kind { result ≡ true
        → (kind_of sector.old ≡ Mode1) ⊎ (drop 12 sector.new ≡ drop 12 sector.old) }
    ensures stays { result ≡ false → sector.new ≡ sector.old }
    ensures keeps { consistent sector.old ≡ true → result ≡ false }
    ensures repairs { (t : List ℕ) → IsLightDamage sector.old t → consistent sector.old ≡ false
        → (result ≡ true) × (sector.new ≡ t) }
    ensures sync { (t : List ℕ) → HasLostSync sector.old t → (result ≡ true) × (sector.new ≡ t) }
{
    match kind(sector) {
        SectorKind::Mode1 => correct_by_parity(sector),
        SectorKind::NoSync => restore_sync(sector),
        SectorKind::Mode0 | SectorKind::Mode2 | SectorKind::Other => false,
    }
}

/// Restores the sync field if the sector is consistent then, and returns whether it is. If not, the
/// sector does not change.
fn restore_sync(sector: &mut Sector) -> bool
    ensures sound { result ≡ true → consistent sector.new ≡ true }
    ensures rest { drop 12 sector.new ≡ drop 12 sector.old }
    ensures stays { result ≡ false → sector.new ≡ sector.old }
    ensures restores { (t : List ℕ) → consistent t ≡ true → drop 12 sector.old ≡ drop 12 t
        → (result ≡ true) × (sector.new ≡ t) }
{
    let restored = with_sync(sector);
    if !is_consistent(&restored) {
        return false;
    }
    *sector = restored;
    true
}

/// A sector with the sync field in place of its first 12 bytes.
fn with_sync(sector: &Sector) -> Sector
    ensures { result ≡ sync_field ++ drop 12 sector.now }
{
    let mut bytes = *sector.bytes();
    bytes[..HEADER].copy_from_slice(&SYNC);
    Sector::from_bytes(bytes)
}

/// Corrects a damaged sector by its parity, and returns whether this was possible. If not, the
/// sector does not change.
fn correct_by_parity(sector: &mut Sector) -> bool
    ensures sound { result ≡ true → consistent sector.new ≡ true }
    ensures header { header_of sector.new ≡ header_of sector.old }
    ensures edc { from_le_bytes w32 (slice_range sector.new 2064 2068)
        ≡ from_le_bytes w32 (slice_range sector.old 2064 2068) }
    ensures stays { result ≡ false → sector.new ≡ sector.old }
    ensures keeps { consistent sector.old ≡ true → result ≡ false }
    ensures repairs { (t : List ℕ) → IsLightDamage sector.old t → consistent sector.old ≡ false
        → (result ≡ true) × (sector.new ≡ t) }
{
    if is_consistent(sector) {
        return false;
    }
    let corrected = corrected(sector);
    if !is_confirmed(&corrected, sector) {
        return false;
    }
    *sector = corrected;
    true
}

/// Whether a correction is consistent, and has the header and the EDC of the sector.
fn is_confirmed(corrected: &Sector, sector: &Sector) -> bool
    ensures sound { result ≡ true → consistent corrected.now ≡ true }
    ensures header { result ≡ true → header_of corrected.now ≡ header_of sector.now }
    ensures edc { result ≡ true → from_le_bytes w32 (slice_range corrected.now 2064 2068)
        ≡ from_le_bytes w32 (slice_range sector.now 2064 2068) }
    ensures other { header_of corrected.now ≡ header_of sector.now
        → from_le_bytes w32 (slice_range corrected.now 2064 2068)
        ≡ from_le_bytes w32 (slice_range sector.now 2064 2068)
        → consistent corrected.now ≡ true → result ≡ true }
{
    has_fixed_fields(corrected, sector) && is_consistent(corrected)
}

/// Whether two sectors have the same header and the same EDC field.
fn has_fixed_fields(a: &Sector, b: &Sector) -> bool
    ensures header { result ≡ true → header_of a.now ≡ header_of b.now }
    ensures edc { result ≡ true → from_le_bytes w32 (slice_range a.now 2064 2068)
        ≡ from_le_bytes w32 (slice_range b.now 2064 2068) }
    ensures same { header_of a.now ≡ header_of b.now
        → from_le_bytes w32 (slice_range a.now 2064 2068)
        ≡ from_le_bytes w32 (slice_range b.now 2064 2068) → result ≡ true }
{
    a.header() == b.header() && stored_edc(a.bytes()) == stored_edc(b.bytes())
}

/// A sector after all rounds of correction, whether it is consistent or not.
fn corrected(sector: &Sector) -> Sector
    ensures { (t : List ℕ) → IsNear sector.now t → result ≡ t }
{
    let mut bytes = *sector.bytes();
    for round in 0..ROUNDS {
        correct_round(&mut bytes);
    }
    Sector::from_bytes(bytes)
}

/// Corrects the columns, and then the diagonals.
fn correct_round(bytes: &mut [u8; SECTOR_SIZE])
    ensures { (t : List ℕ) → IsNear bytes.old t → bytes.new ≡ t }
{
    correct_columns(bytes);
    correct_diagonals(bytes);
}

/// Corrects each column that one wrong byte explains.
fn correct_columns(bytes: &mut [u8; SECTOR_SIZE])
    ensures columns { (t : List ℕ) → IsNearColumns bytes.old t → (k : ℕ) → 12 ≤ k → k < 2248
        → slice_index bytes.new k ≡ slice_index t k }
    ensures others { (k : ℕ) → (k < 12) ⊎ (2248 ≤ k)
        → slice_index bytes.new k ≡ slice_index bytes.old k }
{
    let sums = all_column_sums(bytes);
    for word in 0..COLUMNS {
        correct_column(bytes, word, sums.plain[word], sums.weighted[word]);
    }
}

/// Corrects a column with these syndromes, if one wrong byte explains them.
fn correct_column(bytes: &mut [u8; SECTOR_SIZE], word: usize, error: u8, weighted: u8)
    requires { word < 86 }
    ensures column { (s t : List ℕ) → AreBytes s → AreBytes t
        → error ≡ first_syndrome (column_of s word) → weighted ≡ second_syndrome (column_of s word)
        → IsCodeWord (column_of t word) → DifferInOne (column_of s word) (column_of t word)
        → ((m : ℕ) → m < 26 → slice_index bytes.old (12 + 86 * m + word)
        ≡ slice_index s (12 + 86 * m + word))
        → (m : ℕ) → m < 26 → slice_index bytes.new (12 + 86 * m + word)
        ≡ slice_index t (12 + 86 * m + word) }
    ensures others { (k : ℕ) → ((m : ℕ) → m < 26 → k ≢ 12 + 86 * m + word)
        → slice_index bytes.new k ≡ slice_index bytes.old k }
{
    match weight_of_error(error, weighted, ROWS) {
        None => {}
        Some(weight) => bytes[column_place(word, weight)] ^= error,
    }
}

/// Corrects each diagonal that one wrong byte explains.
fn correct_diagonals(bytes: &mut [u8; SECTOR_SIZE])
    ensures { (t : List ℕ) → IsNearDiagonals bytes.old t → (k : ℕ) → k < 2352
        → slice_index bytes.new k ≡ slice_index t k }
{
    let sums = all_diagonal_sums(bytes);
    for word in 0..DIAGONALS {
        correct_diagonal(bytes, word, sums.plain[word], sums.weighted[word]);
    }
}

/// Corrects a diagonal with these syndromes, if one wrong byte explains them.
fn correct_diagonal(bytes: &mut [u8; SECTOR_SIZE], word: usize, error: u8, weighted: u8)
    requires { word < 52 }
    ensures { (s t : List ℕ) → AreBytes s → AreBytes t
        → error ≡ first_syndrome (diagonal_of s word)
        → weighted ≡ second_syndrome (diagonal_of s word)
        → IsCodeWord (diagonal_of t word) → DifferInOne (diagonal_of s word) (diagonal_of t word)
        → ((k : ℕ) → k < 2248 → slice_index s k ≡ slice_index t k)
        → slice_index bytes.old (2248 + word) ≡ slice_index s (2248 + word)
        → slice_index bytes.old (2300 + word) ≡ slice_index s (2300 + word)
        → IsPairCorrected bytes.old bytes.new t word }
{
    match weight_of_error(error, weighted, DIAGONAL_SIZE) {
        None => {}
        Some(weight) => bytes[diagonal_place(word, weight)] ^= error,
    }
}

/// How many bytes of a word of `size` bytes follow the one wrong byte that explains its syndromes.
/// `None` if the word is a code word, or no single byte explains them.
fn weight_of_error(plain: u8, weighted: u8, size: usize) -> Option<usize>
    requires { size < 255 }
    ensures right { IfSome result (λ weight. (weight < size) × (product (power weight) plain ≡ weighted)) }
    ensures exact { (weight : ℕ) → weight < size → 0 < plain → product (power weight) plain ≡ weighted
        → result ≡ Some weight }
    ensures none { plain ≡ 0 → result ≡ None }
{
    if plain == 0 {
        return None;
    }
    (0..size).find(|weight| times(alpha_power(*weight as u32), plain) == weighted)
}

/// The place in the sector of the byte of a column that this many bytes of the column follow.
fn column_place(word: usize, weight: usize) -> usize
    requires word { word < 86 }
    requires weight { weight < 26 }
    ensures inside { result < 2352 }
    ensures place { result ≡ 12 + 86 * (25 - weight) + word }
{
    HEADER + COLUMNS * (ROWS - 1 - weight) + word
}

/// The place in the sector of the byte of a diagonal that this many bytes of the diagonal follow.
fn diagonal_place(word: usize, weight: usize) -> usize
    requires word { word < 52 }
    requires weight { weight < 45 }
    ensures inside { result < 2352 }
    ensures first { weight ≡ 1 → result ≡ 2248 + word }
    ensures second { weight ≡ 0 → result ≡ 2300 + word }
{
    match weight {
        0 => Q_PARITY + DIAGONALS + word,
        1 => Q_PARITY + word,
        _ => {
            let step = DIAGONAL_SIZE - 1 - weight;
            let number = (44 * step + PLANE_COLUMNS * (word / 2)) % (ROWS * PLANE_COLUMNS);
            HEADER + 2 * number + word % 2
        }
    }
}

//! Changes bytes of a sector one by one, and updates the parity for each (ECMA-130, Annex A).

ghost use Rattle.std.specs.Prelude.{◌≡◌, ◌≢◌, ℕ, ◌+◌, ◌<◌, ◌≤◌, Contains, length, slice_index};
ghost use Rattle.cd_code.specs.Field.{AreBytes};
ghost use Rattle.cd_code.specs.Syndrome.{with_added};
ghost use Rattle.cd_code.specs.CodeWords.{SameSyndromes};
ghost use Rattle.cd_delta.specs.ParityChanges.{parity_places};
ghost use Rattle.cd_delta.specs.Writing.{IsWritten};

use crate::changes::{Change, parity_changes};
use cd_sector::Sector;

/// Writes `value` to the byte at `place` (12 to 2075), and updates the eight parity bytes that
/// depend on it, so that all 276 syndromes keep their values (ECMA-130, Annex A). The sector may be
/// of any kind, and need not be consistent.
///
/// # Examples
///
/// ```
/// let mut sector = Sector::default(); // all 00: all columns and diagonals are code words
/// change_byte(&mut sector, 12, 0x01);
/// let report = defect(&sector); // and they stay so
/// assert_eq!(rt; (sector.byte(12), report.p, report.q), (0x01, 0, 0));
/// ```
pub fn change_byte(s: &mut Sector, place: u16, value: u8)
    requires from { 12 ≤ place }
    requires below { place < 2076 }
    ensures byte { slice_index s.new place ≡ value }
    ensures syndromes { SameSyndromes s.new s.old }
    ensures others { (i : ℕ) → i ≢ place → ¬ Contains (parity_places place) i
        → slice_index s.new i ≡ slice_index s.old i }
    ensures front { (i : ℕ) → i < 2076 → i ≢ place → slice_index s.new i ≡ slice_index s.old i }
    ensures size { length s.new ≡ length s.old }
    ensures each { AreBytes s.new }
{
    let d = s.bytes()[place as usize] ^ value;
    let changes = parity_changes(place, d);
    add_at(s, Change { place, d });
    for change in &changes {
        add_at(s, *change);
    }
}

/// Adds a change's amount to its byte.
fn add_at(s: &mut Sector, change: Change)
    requires { change.place < 2352 }
    ensures sum { s.new ≡ with_added s.old change.place change.d }
    ensures size { length s.new ≡ 2352 }
    ensures each { AreBytes s.new }
{
    let place = change.place as usize;
    let byte = s.bytes()[place] ^ change.d;
    s.put(place, byte);
}

/// Writes bytes before the parity one by one, and updates the parity for each.
pub(crate) fn write_few(s: &mut Sector, place: usize, bytes: &[u8])
    requires from { 12 ≤ place }
    requires below { place + length bytes.now ≤ 2076 }
    ensures { IsWritten s.old s.new place (length bytes.now) bytes.now }
{
    for (i, byte) in bytes.iter().enumerate() {
        change_byte(s, (place + i) as u16, *byte);
    }
}

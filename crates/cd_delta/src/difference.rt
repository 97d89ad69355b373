//! Changes many bytes of a sector at once, by a difference sector (ECMA-130, Annex A).

ghost use Rattle.std.specs.Prelude.{◌≡◌, ℕ, ◌<◌, length, slice_index};
ghost use Rattle.cd_code.specs.Field.{AreBytes};
ghost use Rattle.cd_code.specs.CodeWords.{SameSyndromes};

use cd_sector::{Sector, fill_parity, sum_of};

/// Copies all bytes before the parity from `front`, and updates the parity for all of them at once:
/// the differences form a sector of their own, whose parity is computed, and which is then added
/// (ECMA-130, Annex A).
pub(crate) fn carry_front(s: &mut Sector, front: &Sector)
    ensures front { (i : ℕ) → i < 2076 → slice_index s.new i ≡ slice_index front.now i }
    ensures syndromes { SameSyndromes s.new s.old }
    ensures size { length s.new ≡ length s.old }
    ensures each { AreBytes s.new }
{
    let mut difference = sum_of(s, front);
    fill_parity(&mut difference);
    *s = sum_of(s, &difference);
}

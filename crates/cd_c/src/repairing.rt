//! Calls of C that repair a sector: from copies in other dumps, and from its own parity.

ghost use Rattle.std.specs.Prelude.{◌≡◌, ◌≢◌, ◌⊎◌, ℕ, All, List, drop, false, slice_range, true};
ghost use Rattle.std.specs.Int.{from_le_bytes, w32};
ghost use Rattle.cd_repair.specs.Correcting.{HasLostSync, IsLightDamage};
ghost use Rattle.cd_repair.specs.Merging.{IsChoice, serves};
ghost use Rattle.cd_sector.specs.Consistent.{consistent, header_of};
ghost use Rattle.cd_sector.specs.Kind.{kind_of};
ghost use Rattle.cd_sector.specs.declared.kinds.SectorKind.TheVariants.{Mode1};

use cd_repair::{correct_sector, merge_sector};
use cd_sector::Sector;

/// No copy replaces the sector: the first number of `enum cdpatch_fit`.
pub(crate) const NO_FIT: u32 = 0;

/// Chooses the copy that replaces a sector, as [`merge_sector`]: writes its place among the copies
/// to `place`, and returns a number of `enum cdpatch_fit`. If no copy does, `place` does not change.
#[unsafe(no_mangle)]
pub extern "C" fn cdpatch_merge_sector(
    bcd: &[u8; 3],
    sector: &Sector,
    copies: &[Sector],
    place: &mut usize,
) -> u32
    ensures keeps { consistent sector.now ≡ true → result ≡ NO_FIT }
    ensures choice { result ≢ NO_FIT
        → IsChoice bcd.now sector.now copies.now place.new result }
    ensures all { result ≡ NO_FIT → consistent sector.now ≡ false
        → All (λ copy. serves bcd.now copy ≡ false) copies.now }
    ensures stays { result ≡ NO_FIT → place.new ≡ place.old }
{
    match merge_sector(*bcd, sector, copies) {
        Some(choice) => {
            *place = choice.place;
            choice.fit.number()
        }
        None => NO_FIT,
    }
}

/// Corrects a damaged Mode 1 sector by its own P and Q parity, as [`correct_sector`], and returns
/// whether this was possible. If not, the sector does not change.
#[unsafe(no_mangle)]
pub extern "C" fn cdpatch_correct_sector(sector: &mut Sector) -> bool
    ensures sound { result ≡ true → consistent sector.new ≡ true }
    ensures header { header_of sector.new ≡ header_of sector.old }
    ensures edc { from_le_bytes w32 (slice_range sector.new 2064 2068)
        ≡ from_le_bytes w32 (slice_range sector.old 2064 2068) }
    ensures kind { result ≡ true
        → (kind_of sector.old ≡ Mode1) ⊎ (drop 12 sector.new ≡ drop 12 sector.old) }
    ensures stays { result ≡ false → sector.new ≡ sector.old }
    ensures keeps { consistent sector.old ≡ true → result ≡ false }
    ensures repairs { (t : List ℕ) → IsLightDamage sector.old t → consistent sector.old ≡ false
        → (result ≡ true) × (sector.new ≡ t) }
    ensures sync { (t : List ℕ) → HasLostSync sector.old t → (result ≡ true) × (sector.new ≡ t) }
{
    correct_sector(sector)
}

//! The call of C that applies a patch to sectors.

ghost use Rattle.std.specs.Prelude.{◌≡◌, ◌≢◌, ◌↔◌, IfSome};
ghost use Rattle.cd_script.specs.Patch.{IsPatch};
ghost use Rattle.cd_patch.specs.Deciding.{outcome};
ghost use Rattle.cd_patch.specs.Effect.{Effect};
ghost use Rattle.cd_c_scripts.specs.Flags.{carries};
ghost use Rattle.cd_c_scripts.specs.FlatPatch.{IsSomePatch, flat_patch};
ghost use Rattle.cd_patch.specs.OutcomeNumbers.{no_patch, outcome_number};
ghost use Rattle.cd_c_scripts.specs.Outcomes.{place_after};

use crate::flags::carries;
use crate::flat_patch::{FlatPatch, patch_of};
use cd_patch::result_numbers::NO_PATCH;
use cd_patch::{Outcome, apply_lent};
use cd_script::{MAX_BYTES, is_patch};
use cd_sector::Sector;

/// The place at which a patch was refused, as C's `struct cdpatch_place`.
#[derive(Clone, Copy)]
#[repr(C)]
pub struct Place {
    /// The block at which the patch was refused.
    pub block: u32,
    /// The offset in its user data of the byte that differs, else 0.
    pub offset: u16,
}

/// Writes the place at which a patch was refused, if it was refused.
fn note_place(outcome: Outcome, place: &mut Place)
    ensures { place.new ≡ place_after outcome place.old }
{
    match outcome {
        Outcome::Applied => {}
        Outcome::NotMode1(block) | Outcome::Damaged(block) | Outcome::NoBlock(block) => {
            *place = Place { block, offset: 0 };
        }
        Outcome::Differs(block, offset) => *place = Place { block, offset },
    }
}

/// Decides a patch on sectors, and applies it if it is accepted, as [`apply_lent`]. `sectors` has
/// the sectors of the image from the patch's first block on; at most three of them are used. The
/// patch is `patch`, with its bytes at the front of `new_bytes` and `old_bytes`, as
/// `cdpatch_read_line` writes them. Of the flags, only that for damage has an effect.
/// Returns a number of `enum cdpatch_result`. If the patch is refused, `place` gets the block and
/// the byte. A record that is not a patch changes nothing.
#[unsafe(no_mangle)]
pub extern "C" fn cdpatch_apply_patch(
    patch: &FlatPatch,
    new_bytes: &[u8; MAX_BYTES],
    old_bytes: &[u8; MAX_BYTES],
    sectors: &mut [Sector],
    flags: u32,
    place: &mut Place,
) -> u32
    ensures patch { IsSomePatch (flat_patch 0 patch.now new_bytes.now old_bytes.now)
        ↔ (result ≢ no_patch) }
    ensures outcome { IfSome (flat_patch 0 patch.now new_bytes.now old_bytes.now) (λ p. IsPatch p
        → result ≡ outcome_number (outcome (carries flags) sectors.old p.block p)) }
    ensures place { IfSome (flat_patch 0 patch.now new_bytes.now old_bytes.now) (λ p. IsPatch p
        → place.new ≡ place_after (outcome (carries flags) sectors.old p.block p) place.old) }
    ensures effect { IfSome (flat_patch 0 patch.now new_bytes.now old_bytes.now) (λ p. IsPatch p
        → Effect (carries flags) p.block p sectors.old sectors.new) }
    ensures sectors_stay { result ≡ no_patch → sectors.new ≡ sectors.old }
    ensures place_stays { result ≡ no_patch → place.new ≡ place.old }
{
    let Some(patch) = patch_of(patch, new_bytes, old_bytes) else {
        return NO_PATCH;
    };
    if !is_patch(&patch) {
        return NO_PATCH;
    }
    let outcome = apply_lent(sectors, &patch, carries(flags));
    note_place(outcome, place);
    outcome.number()
}

//! Decides whether a patch is accepted: tests its blocks in ascending order, then the old bytes
//! that it names.

ghost use Rattle.std.specs.Prelude.{◌≡◌, ℕ, ◌+◌, ◌*◌, ◌<◌, ◌≤◌, drop, IfSome, length, None, [], slice_get, slice_index_or};
ghost use Rattle.cd_script.specs.Limits.{number_limit};
ghost use Rattle.cd_script.specs.Patch.{IsPatch};
ghost use Rattle.cd_sector.specs.Consistent.{user_of};
ghost use Rattle.cd_patch.specs.Blocks.{block_limit, blocks_met};
ghost use Rattle.cd_patch.specs.Deciding.{first_difference, first_refusal, joined_user, outcome, refusal_at};
ghost use Rattle.cd_patch.specs.Parts.{HaveUsers};
ghost use Rattle.cd_patch.specs.declared.outcome.Outcome.TheVariants.{Applied};

use crate::edits::meaning;
use crate::outcome::Outcome;
use cd_script::{LentBytes, Patch};
use cd_sector::{Sector, SectorKind, USER_SIZE, is_consistent, kind};

/// Decides a patch that meets `count` blocks, on the sectors from its first block on. With `carry`,
/// damage is carried.
pub(crate) fn decide(
    sectors: &[Sector],
    patch: &Patch<LentBytes<'_>>,
    count: usize,
    carry: bool,
) -> Outcome
    requires patch { IsPatch patch.now }
    requires count { count ≡ blocks_met patch.now }
    requires few { count ≤ block_limit }
    ensures outcome { result ≡ outcome carry sectors.now patch.now.block patch.now }
    ensures users { result ≡ Applied → HaveUsers sectors.now count }
{
    let edit = meaning(&patch.edit);
    let must_be_consistent = edit.needs_consistent(carry);
    if let Some(refusal) = first_refusal(sectors, patch.block, count, must_be_consistent) {
        return refusal;
    }
    match first_difference(sectors, patch.offset, edit.old) {
        None => Outcome::Applied,
        Some(place) => Outcome::Differs(
            patch.block + (place / USER_SIZE) as u32,
            (place % USER_SIZE) as u16,
        ),
    }
}

/// The first refusal among `count` blocks from `block` on, whose sectors are `sectors`. With
/// `must_be_consistent`, an inconsistent sector refuses the patch.
fn first_refusal(
    sectors: &[Sector],
    block: u32,
    count: usize,
    must_be_consistent: bool,
) -> Option<Outcome>
    requires block { block ≤ number_limit }
    requires count { count ≤ block_limit }
    ensures refusal { result ≡ first_refusal sectors.now block must_be_consistent block count }
    ensures users { result ≡ None → HaveUsers sectors.now count }
{
    for k in 0..count {
        let refusal = refusal_at(sectors, k, block + k as u32, must_be_consistent);
        if refusal.is_some() {
            return refusal;
        }
    }
    None
}

/// Why a block refuses a patch, or `None` if it does not. The sector of the block is `sectors[k]`,
/// if the image has it. With `must_be_consistent`, an inconsistent sector refuses the patch.
fn refusal_at(sectors: &[Sector], k: usize, block: u32, must_be_consistent: bool) -> Option<Outcome>
    ensures refusal { result ≡ refusal_at must_be_consistent block (slice_get sectors.now k) }
    ensures user { result ≡ None → length (user_of (slice_index_or sectors.now k [])) ≡ USER_SIZE }
{
    let Some(sector) = sectors.get(k) else {
        return Some(Outcome::NoBlock(block));
    };
    lemma_user_size(sector);
    match kind(sector) {
        SectorKind::Mode1 => {
            if must_be_consistent && !is_consistent(sector) {
                Some(Outcome::Damaged(block))
            } else {
                None
            }
        }
        SectorKind::NoSync | SectorKind::Mode0 | SectorKind::Mode2 | SectorKind::Other => {
            Some(Outcome::NotMode1(block))
        }
    }
}

/// Proof step: does nothing. Its contract says that the user data of a sector are 2048 bytes.
pub(crate) fn lemma_user_size(sector: &Sector)
    ensures { length (user_of sector.now) ≡ USER_SIZE }
{
    sector.user();
}

/// The index, in the joined user data of the sectors, of the first byte from `offset` on that
/// differs from the old byte; `None` if all are equal.
fn first_difference(sectors: &[Sector], offset: u16, old: &[u8]) -> Option<usize>
    requires { offset + length old.now ≤ 2048 * length sectors.now }
    ensures value { (base count : ℕ) → HaveUsers sectors.now count → count ≤ length sectors.now
        → offset + length old.now ≤ 2048 * count
        → result ≡ first_difference offset
        (drop offset (joined_user sectors.now base base count)) old.now }
    ensures within { IfSome result (λ place. place < offset + length old.now) }
{
    for (i, byte) in old.iter().enumerate() {
        let place = offset as usize + i;
        if sectors[place / USER_SIZE].user()[place % USER_SIZE] != *byte {
            return Some(place);
        }
    }
    None
}

//! The call of C that applies patches of a script to a piece of an image.

ghost use Rattle.std.specs.Prelude.{◌≡◌, ◌≢◌, ◌↔◌, ◌+◌, ◌<◌, ◌≤◌, ◌⊎◌, Some, drop, length, take, true};
ghost use Rattle.std.specs.List.{slice_get, slice_index_or};
ghost use Rattle.cd_script.specs.Patch.{IsPatch};
ghost use Rattle.cd_script.specs.declared.version.Version.{Version as TheVersion};
ghost use Rattle.cd_patch.specs.Deciding.{outcome};
ghost use Rattle.cd_patch.specs.Effect.{Effect};
ghost use Rattle.cd_patch.specs.OutcomeNumbers.{outcome_block, outcome_offset};
ghost use Rattle.cd_c_scripts.specs.Flags.{carries, ends, flag_limit};
ghost use Rattle.cd_sector.specs.Image.{base_limit};
ghost use Rattle.cd_c_scripts.specs.Lines.{head_numbered};
ghost use Rattle.cd_c_scripts.specs.Pieces.{AreBlocksIn, AreRefused, IsDone, IsLeft, IsOfNoPatch, Tells};

use crate::entries::Entry;
use crate::flags::{FLAGS, carries, ends};
use crate::rereading::{lend_entry, named_version};
use cd_address::MAX_BLOCK;
use cd_patch::{Outcome, apply_lent};
use cd_script::{LentBytes, MAX_BYTES, Patch, Version};
use cd_sector::Sector;

/// All entries are done.
const STOP_ALL: u32 = 0;

/// The next patch is for another piece.
const STOP_PIECE: u32 = 1;

/// There is no answer left for the next patch.
const STOP_CAPACITY: u32 = 2;

/// The next entry is not one of the script.
const STOP_ENTRY: u32 = 3;

/// The version is not valid.
const STOP_VERSION: u32 = 4;

/// No image can have the base.
const STOP_BASE: u32 = 5;

/// The piece begins before the image.
const STOP_FIRST: u32 = 6;

/// A flag does not exist.
const STOP_FLAGS: u32 = 7;

/// The answer for a patch, as C's `struct cdpatch_answer`.
#[derive(Clone, Copy)]
#[repr(C)]
pub struct Answer {
    /// The number of its line.
    pub number: u32,
    /// Its outcome, a number of `enum cdpatch_result`.
    pub result: u32,
    /// The block at which it is refused, else 0.
    pub block: u32,
    /// The offset in its user data of the byte that differs, else 0.
    pub offset: u32,
    /// Room for a later release.
    pub spare: [u32; 2],
}

/// Buffers for the new and the old bytes of a patch, as C's `struct cdpatch_patch_bytes`.
#[derive(Clone, Copy)]
#[repr(C)]
pub struct PatchBytes {
    /// The bytes that the patch writes.
    pub new_bytes: [u8; MAX_BYTES],
    /// The bytes that the patch expects.
    pub old_bytes: [u8; MAX_BYTES],
}

/// A script that is applied to an image, as C's `struct cdpatch_job`.
#[repr(C)]
pub struct Job<'a> {
    /// The text of the script.
    pub script: &'a [u8],
    /// The entries that are not done yet.
    pub entries: &'a [Entry],
    /// Memory for the bytes of a patch.
    pub patch_bytes: &'a mut PatchBytes,
    /// The version of the script.
    pub version: u32,
    /// The block of the first sector of the image.
    pub base: u32,
    /// The block of the first sector of the piece.
    pub first: u32,
    /// The flags.
    pub flags: u32,
    /// Room for a later release.
    pub spare: [u32; 4],
}

/// Whether the patch of an entry, by the entry's numbers, does the same on a piece of `count`
/// sectors as on the whole image.
fn fits(entry: &Entry, base: u32, first: u32, count: usize, is_last: bool) -> bool
    requires { base ≤ first }
    ensures { result ≡ true
        ↔ AreBlocksIn base first count is_last entry.now.block entry.now.blocks_met }
{
    if entry.block < base {
        return true;
    }
    if entry.block < first {
        return false;
    }
    if is_last {
        return true;
    }
    let before = (entry.block - first) as usize;
    before <= count && entry.blocks_met as usize <= count - before
}

/// Applies a patch to sectors, of which the first is block `first`.
fn apply_at(
    sectors: &mut [Sector],
    first: u32,
    patch: &Patch<LentBytes<'_>>,
    carry: bool,
) -> Outcome
    requires { IsPatch patch.now }
    ensures outcome { result ≡ outcome carry sectors.old first patch.now }
    ensures effect { Effect carry first patch.now sectors.old sectors.new }
{
    if patch.block < first {
        return Outcome::NoBlock(patch.block);
    }
    let place = (patch.block - first) as usize;
    if place >= sectors.len() {
        return Outcome::NoBlock(patch.block);
    }
    apply_lent(&mut sectors[place..], patch, carry)
}

/// The block at which an outcome refuses a patch, and the offset in its user data of the byte that
/// differs, else 0.
fn place_of(outcome: Outcome) -> (u32, u32)
    ensures block { result.0 ≡ outcome_block outcome }
    ensures offset { result.1 ≡ outcome_offset outcome }
{
    match outcome {
        Outcome::Applied => (0, 0),
        Outcome::NotMode1(block) => (block, 0),
        Outcome::Damaged(block) => (block, 0),
        Outcome::NoBlock(block) => (block, 0),
        Outcome::Differs(block, offset) => (block, u32::from(offset)),
    }
}

/// Writes an answer.
fn tell(answers: &mut [Answer], place: usize, number: u32, outcome: Outcome)
    requires { place < length answers.old }
    ensures before { take place answers.new ≡ take place answers.old }
    ensures after { drop (place + 1) answers.new ≡ drop (place + 1) answers.old }
    ensures size { length answers.new ≡ length answers.old }
    ensures answer { (a : Answer) → Tells number outcome (slice_index_or answers.new place a) }
{
    let (block, offset) = place_of(outcome);
    answers[place] = Answer {
        number,
        result: outcome.number(),
        block,
        offset,
        spare: [0; 2],
    };
}

/// Proof step: the entry at a place.
fn entry_of(entries: &[Entry], place: usize) -> &Entry
    requires { place < length entries.now }
    ensures { slice_get entries.now place ≡ Some result.now }
{
    &entries[place]
}

/// How far a call came, and why it stopped there.
#[derive(Clone, Copy)]
struct Stop {
    /// The number of entries that are done.
    done: usize,
    /// The reason, one of the numbers from [`STOP_ALL`] to [`STOP_ENTRY`].
    why: u32,
}

/// As `cdpatch_apply_entries`, in a version.
fn apply_entries(
    script: &[u8],
    version: Version,
    entries: &[Entry],
    flags: u32,
    base: u32,
    first: u32,
    is_last: bool,
    sectors: &mut [Sector],
    bytes: &mut PatchBytes,
    answers: &mut [Answer],
) -> Stop
    requires { base ≤ first }
    ensures few { result.done ≤ length entries.now }
    ensures done { IsDone script.now version flags base first is_last entries.now result.done
        sectors.old sectors.new answers.old answers.new }
    ensures reasons { result.why ≤ STOP_ENTRY }
    ensures all { result.why ≡ STOP_ALL → result.done ≡ length entries.now }
    ensures piece { result.why ≡ STOP_PIECE
        → IsLeft base first (length sectors.old) is_last entries.now result.done }
    ensures capacity { result.why ≡ STOP_CAPACITY → length answers.old ≤ result.done }
    ensures entry { result.why ≡ STOP_ENTRY
        → IsOfNoPatch script.now version flags entries.now result.done }
    ensures early { result.why ≢ STOP_ALL → result.done < length entries.now }
{
    for place in 0..entries.len() {
        let entry = entry_of(entries, place);
        if !fits(entry, base, first, sectors.len(), is_last) {
            return Stop {
                done: place,
                why: STOP_PIECE,
            };
        }
        if place >= answers.len() {
            return Stop {
                done: place,
                why: STOP_CAPACITY,
            };
        }
        let Some(patch) = lend_entry(
            script,
            entry,
            version,
            flags,
            &mut bytes.new_bytes,
            &mut bytes.old_bytes,
        ) else {
            return Stop {
                done: place,
                why: STOP_ENTRY,
            };
        };
        let outcome = apply_at(sectors, first, &patch, carries(flags));
        tell(answers, place, entry.number, outcome);
    }
    Stop {
        done: entries.len(),
        why: STOP_ALL,
    }
}

/// The reason why no entry is done, whatever the entries are: one of the numbers from [`STOP_BASE`]
/// on, or 0 if there is none.
fn refusal(base: u32, first: u32, flags: u32) -> u32
    ensures some { AreRefused base first flags → STOP_VERSION < result }
    ensures none { (AreRefused base first flags → ⊥) → result ≡ STOP_ALL }
    ensures base { result ≡ STOP_BASE → base_limit < base }
    ensures first { result ≡ STOP_FIRST → first < base }
    ensures flags { result ≡ STOP_FLAGS → flag_limit ≤ flags }
    ensures reasons { result ≤ STOP_FLAGS }
{
    if base > MAX_BLOCK {
        return STOP_BASE;
    }
    if first < base {
        return STOP_FIRST;
    }
    if flags >= FLAGS {
        return STOP_FLAGS;
    }
    STOP_ALL
}

/// Applies patches of a script, in the order of their entries, to a piece of an image: `sectors`, of
/// which the first is block `first` of the job. `done` gets the number of entries that are done, each
/// with an answer. The result is the reason why the call stopped before the next entry. At the first
/// patch that reaches beyond the piece the call stops: this patch, and those after it, are for a
/// later piece that begins at most at its block.
#[unsafe(no_mangle)]
pub extern "C" fn cdpatch_apply_entries(
    job: &mut Job<'_>,
    sectors: &mut [Sector],
    answers: &mut [Answer],
    done: &mut usize,
) -> u32
    ensures few { done.new ≤ length job.old.entries.now }
    ensures done { (v : TheVersion) → head_numbered job.old.version ≡ Some (Some v)
        → IsDone job.old.script.now v job.old.flags job.old.base job.old.first
        (ends job.old.flags) job.old.entries.now done.new sectors.old sectors.new answers.old
        answers.new }
    ensures reasons { result ≤ STOP_FLAGS }
    ensures all { result ≡ STOP_ALL → done.new ≡ length job.old.entries.now }
    ensures early { result ≢ STOP_ALL → STOP_VERSION ≤ result ⊎ done.new < length job.old.entries.now }
    ensures piece { result ≡ STOP_PIECE → IsLeft job.old.base job.old.first (length sectors.old)
        (ends job.old.flags) job.old.entries.now done.new }
    ensures capacity { result ≡ STOP_CAPACITY → length answers.old ≤ done.new }
    ensures entry { result ≡ STOP_ENTRY → (v : TheVersion)
        → head_numbered job.old.version ≡ Some (Some v)
        → IsOfNoPatch job.old.script.now v job.old.flags job.old.entries.now done.new }
    ensures version { result ≡ STOP_VERSION
        → (v : TheVersion) → head_numbered job.old.version ≢ Some (Some v) }
    ensures base { result ≡ STOP_BASE → base_limit < job.old.base }
    ensures first { result ≡ STOP_FIRST → job.old.first < job.old.base }
    ensures flags { result ≡ STOP_FLAGS → flag_limit ≤ job.old.flags }
    ensures no_version { ((v : TheVersion) → head_numbered job.old.version ≢ Some (Some v))
        → STOP_VERSION ≤ result }
    ensures refused { AreRefused job.old.base job.old.first job.old.flags → STOP_VERSION ≤ result }
    ensures stays { STOP_VERSION ≤ result
        → (done.new ≡ 0) × (sectors.new ≡ sectors.old) × (answers.new ≡ answers.old) }
{
    *done = 0;
    let refused = refusal(job.base, job.first, job.flags);
    if refused != STOP_ALL {
        return refused;
    }
    let Some(version) = named_version(job.version) else {
        return STOP_VERSION;
    };
    let stop = apply_entries(
        job.script,
        version,
        job.entries,
        job.flags,
        job.base,
        job.first,
        ends(job.flags),
        sectors,
        job.patch_bytes,
        answers,
    );
    *done = stop.done;
    stop.why
}

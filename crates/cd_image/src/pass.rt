//! One pass of a script's patches over an image, from a source to two sinks. It holds at most as
//! many sectors as a patch may meet, so it allocates no memory, and a lack of memory is not among
//! its errors.

ghost use Rattle.std.specs.Prelude.{◌≡◌, ℕ, ◌+◌, ◌<◌, ◌≤◌, ◌∷◌, ◌++◌, [], false};
ghost use Rattle.std.specs.Prelude.{All, Bool, List, None, Some, OnOk, IfOk, IfSome, IfNone};
ghost use Rattle.std.specs.Prelude.{drop, if◌then◌else◌, length, take};
ghost use Rattle.std.specs.List.{slice_get, slice_index_or};
ghost use Rattle.cd_script.specs.Limits.{patch_limit};
ghost use Rattle.cd_script.specs.Patch.{IsPatch, IsPatchList};
ghost use Rattle.cd_script.specs.PatchForm.{Patch as ThePatch};
ghost use Rattle.cd_patch.specs.Blocks.{block_limit, blocks_met};
ghost use Rattle.cd_stream.specs.Stream.{CanCountFailure, Incoming, Outgoing};
ghost use Rattle.cd_stream.specs.Transfer.{Flushes};
ghost use Rattle.cd_sector.specs.Image.{sector_limit};
ghost use Rattle.cd_read.specs.Reading.{ReadsSector};
ghost use Rattle.cd_run.specs.declared.run.Ahead.{Ahead as TheAhead};
ghost use Rattle.cd_run.specs.Running.{IsRun};
ghost use Rattle.cd_run.specs.Steps.{MayDecide, WantsMore, machine_steps};
ghost use Rattle.cd_image.specs.Applying.{Applies, Streams, streams};
ghost use Rattle.cd_image.specs.Passing.{Advances, HoldsInvariant, HasNoStepLeft, Steps};

use crate::patch_log::{Tally, finish_log, send_counts, send_outcome};
use cd_patch::blocks_met;
use cd_read::{Fault, read_sector};
use cd_run::{Ahead, PatchRun, Step};
use cd_script::{Patch, lend};
use cd_sector::Sector;
use cd_stream::{Sink, SinkFailed, Source, write_all};

/// Proof step: reads the next sector of an image, after `count` others, into `hand[place]`, so that
/// a clause can say that the places before it are unchanged.
fn read_to<I: Source>(
    hand: &mut [Sector],
    place: u32,
    image: &mut I,
    count: u32,
) -> Result<Option<usize>, Fault>
    requires countable { CanCountFailure (I.seen image.old).failures }
    requires few { count ≤ sector_limit }
    requires within { place < length hand.old }
    ensures reads { ReadsSector count (slice_index_or hand.new place [])
        (I.seen image.old) (I.seen image.new) result }
    ensures size { length hand.new ≡ length hand.old }
    ensures others { take place hand.new ≡ take place hand.old }
{
    read_sector(image, count, &mut hand[place as usize])
}

/// Reads one more sector, or the tail.
fn read_next<I: Source>(run: &mut PatchRun, hand: &mut [Sector], image: &mut I) -> Result<(), Fault>
    requires countable { CanCountFailure (I.seen image.old).failures }
    requires sound { IsRun run.old }
    requires places { block_limit ≤ length hand.old }
    requires unread { run.old.stage ≡ 0 }
    requires room { run.old.held < block_limit }
    ensures sound { OnOk result (IsRun run.new) }
    ensures places { length hand.new ≡ length hand.old }
    ensures goes { (carry : Bool) (taken left : List ThePatch) (base : ℕ) (start : Streams)
        (out log : Outgoing)
        → WantsMore left run.old.block run.old.held
        → All (λ p. run.old.block ≤ p.block) left
        → HoldsInvariant carry taken left base start (streams (I.seen image.old) out log) run.old hand.old
        → Steps carry taken left taken left base start
        (streams (I.seen image.new) out log) run.new hand.new result }
    ensures decided { OnOk result (run.new.decided ≡ run.old.decided) }
    ensures applied { OnOk result (run.new.applied ≡ run.old.applied) }
    ensures nearer { OnOk result ((count : ℕ)
        → machine_steps count run.new < machine_steps count run.old) }
{
    match read_to(hand, run.held, image, run.sectors)? {
        None => run.took_sector(),
        Some(left) => run.took_end(left as u32),
    }
    Ok(())
}

/// Sends the first sector in hand.
fn write_front<O: Sink>(run: &mut PatchRun, hand: &mut [Sector], out: &mut O) -> Result<(), Fault>
    requires countable { CanCountFailure (O.seen out.old).failures }
    requires sound { IsRun run.old }
    requires places { block_limit ≤ length hand.old }
    requires some { 0 < run.old.held }
    requires small { run.old.block < 4294967295 }
    ensures sound { OnOk result (IsRun run.new) }
    ensures places { length hand.new ≡ length hand.old }
    ensures goes { (carry : Bool) (taken left : List ThePatch) (base : ℕ) (start : Streams)
        (image : Incoming) (log : Outgoing)
        → All (λ p. run.old.block < p.block) left
        → HoldsInvariant carry taken left base start (streams image (O.seen out.old) log) run.old hand.old
        → Steps carry taken left taken left base start
        (streams image (O.seen out.new) log) run.new hand.new result }
    ensures decided { OnOk result (run.new.decided ≡ run.old.decided) }
    ensures applied { OnOk result (run.new.applied ≡ run.old.applied) }
    ensures nearer { OnOk result ((count : ℕ)
        → machine_steps count run.new < machine_steps count run.old) }
{
    write_all(out, hand[0].bytes())?;
    run.sent_front(hand);
    Ok(())
}

/// Sends the tail.
fn write_tail<O: Sink>(run: &mut PatchRun, hand: &[Sector], out: &mut O) -> Result<(), Fault>
    requires countable { CanCountFailure (O.seen out.old).failures }
    requires sound { IsRun run.old }
    requires places { block_limit ≤ length hand.now }
    requires ended { run.old.stage ≡ 1 }
    requires empty { run.old.held ≡ 0 }
    ensures sound { OnOk result (IsRun run.new) }
    ensures goes { (carry : Bool) (taken left : List ThePatch) (base : ℕ) (start : Streams)
        (image : Incoming) (log : Outgoing)
        → HoldsInvariant carry taken left base start (streams image (O.seen out.old) log) run.old hand.now
        → Steps carry taken left taken left base start
        (streams image (O.seen out.new) log) run.new hand.now result }
    ensures decided { OnOk result (run.new.decided ≡ run.old.decided) }
    ensures applied { OnOk result (run.new.applied ≡ run.old.applied) }
    ensures nearer { OnOk result ((count : ℕ)
        → machine_steps count run.new < machine_steps count run.old) }
{
    write_all(out, run.tail_in(hand))?;
    run.sent_tail();
    Ok(())
}

/// Decides a patch and writes its line, before the sectors that it meets are sent.
fn decide_next<L: Sink>(
    run: &mut PatchRun,
    hand: &mut [Sector],
    patch: &Patch,
    carry: bool,
    log: &mut L,
) -> Result<(), Fault>
    requires countable { CanCountFailure (L.seen log.old).failures }
    requires sound { IsRun run.old }
    requires places { block_limit ≤ length hand.old }
    requires patch { IsPatch patch.now }
    requires few { run.old.decided < patch_limit }
    requires small { run.old.applied ≤ run.old.decided }
    ensures sound { OnOk result (IsRun run.new) }
    ensures places { length hand.new ≡ length hand.old }
    ensures goes { (taken left : List ThePatch) (base : ℕ) (start : Streams)
        (image : Incoming) (out : Outgoing)
        → MayDecide patch.now run.old.held run.old.block run.old.sectors run.old.stage
        → HoldsInvariant carry taken (patch.now ∷ left) base start
        (streams image out (L.seen log.old)) run.old hand.old
        → Steps carry taken (patch.now ∷ left) (taken ++ patch.now ∷ []) left base start
        (streams image out (L.seen log.new)) run.new hand.new result }
    ensures decided { OnOk result (run.new.decided ≡ run.old.decided + 1) }
    ensures applied { OnOk result (run.new.applied ≤ run.old.applied + 1) }
    ensures nearer { OnOk result ((count : ℕ) → run.old.decided < count
        → machine_steps count run.new < machine_steps count run.old) }
{
    let outcome = run.decide(hand, &lend(patch), carry);
    send_outcome(patch, outcome, log)?;
    Ok(())
}

/// Describes the next patch to a run whose front block is `block`. The number of blocks that the
/// patch meets is calculated only if it begins at that block; otherwise it is given as 1.
fn ahead(patch: Option<&Patch>, block: u32) -> Option<Ahead>
    requires { IfSome patch (λ p. IsPatch p.now) }
    ensures some { IfSome patch.entry (λ p. (a : TheAhead) × (result ≡ Some a)
        × (p.now.block ≡ a.block) × (p.now.block ≡ block → blocks_met p.now ≡ a.blocks_met)) }
    ensures none { IfNone patch.entry (result ≡ None) }
    ensures few { IfSome result (λ a. (0 < a.blocks_met) × (a.blocks_met ≤ block_limit)) }
{
    match patch {
        Some(patch) => Some(Ahead {
            block: patch.block,
            blocks_met: if patch.block == block {
                blocks_met(patch) as u32
            } else {
                1
            },
        }),
        None => None,
    }
}

/// The patch with index `place`, or `None` after the last patch.
fn patch_at(patches: &[Patch], place: u32) -> Option<&Patch>
    ensures some { IfSome result (λ p. slice_get patches.now place ≡ Some p.now) }
    ensures none { IfNone result (length patches.now ≤ place) }
{
    patches.get(place as usize)
}

/// Does the next step, and returns whether there was one. The byte after the millionth sector is
/// read before the patches that reach past that sector are decided; if there is such a byte, these
/// patches get no line.
pub(crate) fn advance<I: Source, O: Sink, L: Sink>(
    run: &mut PatchRun,
    hand: &mut [Sector],
    image: &mut I,
    patches: &[Patch],
    carry: bool,
    out: &mut O,
    log: &mut L,
) -> Result<bool, Fault>
    requires image_countable { CanCountFailure (I.seen image.old).failures }
    requires out_countable { CanCountFailure (O.seen out.old).failures }
    requires log_countable { CanCountFailure (L.seen log.old).failures }
    requires patches { IsPatchList patches.now }
    requires sound { IsRun run.old }
    requires places { block_limit ≤ length hand.old }
    requires small { run.old.block < 4294967295 }
    requires applied { run.old.applied ≤ run.old.decided }
    ensures sound { OnOk result (IsRun run.new) }
    ensures places { length hand.new ≡ length hand.old }
    ensures goes { (base : ℕ) (start : Streams)
        → HoldsInvariant carry (take run.old.decided patches.now)
        (drop run.old.decided patches.now)
        base start (streams (I.seen image.old) (O.seen out.old) (L.seen log.old)) run.old hand.old
        → Advances carry patches.now base start
        (streams (I.seen image.new) (O.seen out.new) (L.seen log.new)) run.new hand.new result }
    ensures known { OnOk result (run.old.decided ≤ length patches.now
        → run.new.decided ≤ length patches.now) }
    ensures applied { OnOk result (run.new.applied ≤ run.new.decided) }
    ensures done { IfOk result (λ more. more ≡ false → (base : ℕ) (start : Streams)
        → HoldsInvariant carry (take run.old.decided patches.now)
        (drop run.old.decided patches.now)
        base start (streams (I.seen image.old) (O.seen out.old) (L.seen log.old)) run.old hand.old
        → HasNoStepLeft (length patches.now) run.new) }
    ensures nearer { IfOk result (λ more.
        machine_steps (length patches.now) run.new + (if more then 1 else 0)
        ≤ machine_steps (length patches.now) run.old) }
{
    let patch = patch_at(patches, run.decided);
    match run.next(ahead(patch, run.block)) {
        Step::Copy(_) => read_next(run, hand, image)?,
        Step::Read => read_next(run, hand, image)?,
        Step::Decide => decide_next(run, hand, patch.unwrap(), carry, log)?,
        Step::Send => write_front(run, hand, out)?,
        Step::SendTail => write_tail(run, hand, out)?,
        Step::End => return Ok(false),
    }
    Ok(true)
}

/// Writes the last line of the log after the last step, and flushes both sinks.
pub(crate) fn close<O: Sink, L: Sink>(
    run: &PatchRun,
    hand: &[Sector],
    patches: &[Patch],
    out: &mut O,
    log: &mut L,
) -> Result<Tally, Fault>
    requires out_countable { CanCountFailure (O.seen out.old).failures }
    requires log_countable { CanCountFailure (L.seen log.old).failures }
    requires count { length patches.now ≤ patch_limit }
    requires sound { IsRun run.now }
    requires places { block_limit ≤ length hand.now }
    requires done { HasNoStepLeft (length patches.now) run.now }
    requires known { run.now.decided ≤ length patches.now }
    requires applied { run.now.applied ≤ run.now.decided }
    ensures { (carry : Bool) (base : ℕ) (start : Streams) (image : Incoming)
        → HoldsInvariant carry (take run.now.decided patches.now)
        (drop run.now.decided patches.now)
        base start (streams image (O.seen out.old) (L.seen log.old)) run.now hand.now
        → Applies carry patches.now base start
        (streams image (O.seen out.new) (L.seen log.new)) result }
{
    let tally = Tally {
        applied: run.applied,
        refused: patches.len() as u32 - run.applied,
        sectors: run.sectors,
        tail: run.tail_in(hand).len() as u16,
    };
    send_counts(tally.applied, tally.refused, log)?;
    finish_output(out)?;
    finish_log(log)?;
    Ok(tally)
}

/// Proof step: flushes the output. It is separate from `close`, so that a wrong flush is refused
/// here and not after a long search.
fn finish_output<O: Sink>(out: &mut O) -> Result<(), SinkFailed>
    requires { CanCountFailure (O.seen out.old).failures }
    ensures { Flushes (O.seen out.old) (O.seen out.new) result }
{
    out.finish()
}

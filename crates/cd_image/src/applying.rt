//! Applies a script of patches to an image, or checks which of its patches would be accepted.

ghost use Rattle.std.specs.Prelude.{◌≡◌, ◌≢◌, ◌+◌, ◌≤◌, ◌↔◌, IfErr, IfOk, OnOk};
ghost use Rattle.std.specs.Prelude.{true};
ghost use Rattle.cd_script.specs.Patch.{IsPatchList};
ghost use Rattle.cd_read.specs.Ends.{AnswersByEnd, AnswersByLength, AnswersTooLong, EndsWell};
ghost use Rattle.cd_image.specs.Applying.{Applies, AppliesPlainly, BeginsLog, Checks, WritesLog, streams};
ghost use Rattle.cd_stream.specs.Stream.{CanCountFailure};
ghost use Rattle.cd_sector.specs.Image.{base_limit};

use crate::discard::NullSink;
use crate::pass::{advance, close};
use crate::patch_log::Tally;
use arrayvec::ArrayVec;
use cd_patch::MAX_BLOCKS_MET;
use cd_read::Fault;
use cd_run::PatchRun;
use cd_script::{Patch, Script};
use cd_sector::Sector;
use cd_stream::{Sink, Source};

/// Applies the patches of a script to an image, in the order of their blocks. Writes the patched
/// image to `out`, and to `log` a line for each patch and a last line with their counts.
///
/// `base` is the number of the first block. The image is read once. At most as many sectors are
/// held as a patch may meet, and no memory is allocated. An accepted patch turns each sector that
/// it meets into the one consistent sector with the patched user data and the old header, or the
/// header with the patch's address. With `carry`, each sector that the patch does not rebuild keeps
/// its old damage, and no patch is refused for damage. A refused patch changes nothing.
///
/// # Errors
///
/// `Read`, `Write`, or `Log` if the image, `out`, or `log` fails, `TooLong` if a byte is read after
/// the millionth sector. A refused patch is not an error: the tally counts it.
///
/// # Examples
///
/// ```
/// let script = parse(rt.alloc(), b"cdpatch 1\nset 0 0 41\n")?;
/// let sector = encode([0x00, 0x02, 0x00], &[0x00; USER_SIZE]); // block 0
/// let (mut image, mut space) = (SliceSource::new(sector.bytes()), [0; SECTOR_SIZE]);
/// let (mut out, mut log) = (SliceSink::new(&mut space), ToWrite::new(io::sink()));
/// apply(&mut image, &script, 0, false, &mut out, &mut log)?;
/// assert_eq!(rt; out.written().get(16), Some(&0x41)); // the first user byte
/// ```
pub fn apply<I: Source, O: Sink, L: Sink>(
    image: &mut I,
    script: &Script,
    base: u32,
    carry: bool,
    out: &mut O,
    log: &mut L,
) -> Result<Tally, Fault>
    requires base { base ≤ base_limit }
    requires image_countable { CanCountFailure (I.seen image.old).failures }
    requires out_countable { CanCountFailure (O.seen out.old).failures }
    requires log_countable { CanCountFailure (L.seen log.old).failures }

    // The complete result, including what is left after an error, and how far one sink has got when
    // the other fails.
    ensures report { Applies carry script.now base
        (streams (I.seen image.old) (O.seen out.old) (L.seen log.old))
        (streams (I.seen image.new) (O.seen out.new) (L.seen log.new)) result }

    // The same in plain clauses: the result if nothing failed, when each error occurs, and how many
    // bytes are held.
    ensures plain { AppliesPlainly carry script.now base
        (streams (I.seen image.old) (O.seen out.old) (L.seen log.old))
        (streams (I.seen image.new) (O.seen out.new) (L.seen log.new)) result }
{
    // Proof step: the clauses of `apply` are proved from the one record that this call promises.
    apply_patches(image, script.patches(), base, carry, out, log)
}

/// Decides each patch of a script on an image as [`apply`] does, and writes the same log, but no
/// output.
///
/// # Errors
///
/// The errors of [`apply`], except `Write`.
///
/// # Examples
///
/// ```
/// let script = parse(rt.alloc(), b"cdpatch 1\nset 0 0 41\n")?;
/// let mut space = [0; 64];
/// let mut log = SliceSink::new(&mut space);
/// check(&mut ZeroSource::new(0), &script, 0, false, &mut log)?; // no sector
/// assert!(rt; log.written().starts_with(b"line 2: refused: no block 0\n"));
/// ```
pub fn check<I: Source, L: Sink>(
    image: &mut I,
    script: &Script,
    base: u32,
    carry: bool,
    log: &mut L,
) -> Result<Tally, Fault>
    requires base { base ≤ base_limit }
    requires image_countable { CanCountFailure (I.seen image.old).failures }
    requires log_countable { CanCountFailure (L.seen log.old).failures }

    // The complete result, including what is left after an error: the result of `apply` with an
    // output that keeps nothing.
    ensures report { Checks carry script.now base
        (I.seen image.old) (I.seen image.new) (L.seen log.old) (L.seen log.new) result }

    // The log if nothing failed, the log after an error, and when each error occurs.
    ensures log { IfOk result (WritesLog carry script.now base
        (I.seen image.old) (L.seen log.old) (L.seen log.new)) }
    ensures begins { IfErr result (λ fault. BeginsLog carry script.now base
        (I.seen image.old) (I.seen image.new) (L.seen log.old) (L.seen log.new) fault) }
    ensures ends_well { OnOk result (EndsWell
        (I.seen image.old) (I.seen image.new) (L.seen log.old) (L.seen log.new)) }
    ensures read_failed { (result ≡ Err Fault.Read)
        ↔ ((I.seen image.new).failures ≡ (I.seen image.old).failures + 1) }
    ensures log_failed { (result ≡ Err Fault.Log)
        ↔ ((L.seen log.new).failures ≡ (L.seen log.old).failures + 1) }
    ensures too_long { AnswersTooLong (I.seen image.old) (I.seen image.new) result }
    ensures by_length { (I.seen image.new).failures ≡ (I.seen image.old).failures
        → (L.seen log.new).failures ≡ (L.seen log.old).failures
        → AnswersByLength (I.seen image.old) result }
    ensures ended { OnOk result ((I.seen image.new).ended ≡ true) }
    ensures by_end { (I.seen image.new).failures ≡ (I.seen image.old).failures
        → (L.seen log.new).failures ≡ (L.seen log.old).failures
        → AnswersByEnd (I.seen image.new) result }
    ensures no_output { result ≢ Err Fault.Write }
{
    // The same function as in `apply`, with an output that keeps nothing.
    let mut nothing = NullSink::new();
    apply_patches(image, script.patches(), base, carry, &mut nothing, log)
}

/// Applies patches in their order, in one pass. `apply` and `check` only call this function, so the
/// two cannot disagree. The clauses of both follow from the one record that it promises.
fn apply_patches<I: Source, O: Sink, L: Sink>(
    image: &mut I,
    patches: &[Patch],
    base: u32,
    carry: bool,
    out: &mut O,
    log: &mut L,
) -> Result<Tally, Fault>
    requires base { base ≤ base_limit }
    requires image_countable { CanCountFailure (I.seen image.old).failures }
    requires out_countable { CanCountFailure (O.seen out.old).failures }
    requires log_countable { CanCountFailure (L.seen log.old).failures }
    requires patches { IsPatchList patches.now }
    ensures { Applies carry patches.now base
        (streams (I.seen image.old) (O.seen out.old) (L.seen log.old))
        (streams (I.seen image.new) (O.seen out.new) (L.seen log.new)) result }
{
    let mut run = PatchRun::new(base);
    let mut places = ArrayVec::from([Sector::default(); MAX_BLOCKS_MET]);
    let hand = places.as_mut_slice();
    let mut more = true;
    while more {
        more = advance(&mut run, hand, image, patches, carry, out, log)?;
    }
    close(&run, hand, patches, out, log)
}

//! The commands `check` and `apply`: each makes the call of its name on an image, prints a line if the
//! call fails, and returns the status.

ghost use Rattle.std.specs.Prelude.{◌≡◌, ◌≤◌};
ghost use Rattle.cd_image.specs.Running.{RunsApply, RunsCheck, script_status};
ghost use Rattle.cd_stream.specs.Stream.{CanCountFailure};
ghost use Rattle.cd_sector.specs.Image.{base_limit};

use crate::applying::{apply, check};
use crate::patch_log::Tally;
use cd_read::{DONE, FOUND, Fault, report_fault};
use cd_script::Script;
use cd_stream::{Sink, Source};

/// The status of a script that was applied or checked completely.
fn status_of(tally: &Tally) -> u8
    ensures { result ≡ script_status tally.now }
{
    if tally.refused == 0 { DONE } else { FOUND }
}

/// Decides each patch of a script on an image, writes its line to `log`, and returns the status: 0,
/// 1 if a patch is refused, or 2 after an error. The error is reported in `log`, unless the log
/// itself has failed. `carry` says whether damage is carried.
///
/// # Examples
///
/// ```
/// let script = parse(rt.alloc(), b"cdpatch 1\nset 0 0 41\n")?;
/// let (mut image, mut space) = (ZeroSource::new(0), [0; 64]);
/// let mut log = SliceSink::new(&mut space);
/// assert_eq!(rt; run_check(&mut image, &script, 0, false, &mut log), 1);
/// assert!(rt; log.written().starts_with(b"line 2: refused: no block 0\n"));
/// ```
pub fn run_check<I: Source, L: Sink>(
    image: &mut I,
    script: &Script,
    base: u32,
    carry: bool,
    log: &mut L,
) -> u8
    requires base { base ≤ base_limit }
    requires image_countable { CanCountFailure (I.seen image.old).failures }
    requires log_countable { CanCountFailure (L.seen log.old).failures }
    ensures { RunsCheck carry script.now base (I.seen image.old) (I.seen image.new)
        (L.seen log.old) (L.seen log.new) result }
{
    match check(image, script, base, carry, log) {
        Ok(tally) => status_of(&tally),
        Err(fault) => report_fault(fault, Fault::Log, log),
    }
}

/// Applies a script to an image, writes the patched image to `out` and the line of each patch to
/// `log`, and returns the status: 0, 1 if a patch is refused, or 2 after an error. The error is
/// reported in `log`, unless the log itself has failed.
///
/// # Examples
///
/// ```
/// let script = parse(rt.alloc(), b"cdpatch 1\nset 0 0 41\n")?;
/// let (mut image, mut space) = (ZeroSource::new(3), [7; 4]);
/// let (mut out, mut log) = (SliceSink::new(&mut space), ToWrite::new(io::sink()));
/// let status = run_apply(&mut image, &script, 0, false, &mut out, &mut log);
/// assert_eq!(rt; (status, out.written().len()), (1, 3)); // no block 0, and the tail goes out
/// ```
pub fn run_apply<I: Source, O: Sink, L: Sink>(
    image: &mut I,
    script: &Script,
    base: u32,
    carry: bool,
    out: &mut O,
    log: &mut L,
) -> u8
    requires base { base ≤ base_limit }
    requires image_countable { CanCountFailure (I.seen image.old).failures }
    requires out_countable { CanCountFailure (O.seen out.old).failures }
    requires log_countable { CanCountFailure (L.seen log.old).failures }
    ensures { RunsApply carry script.now base (I.seen image.old) (I.seen image.new)
        (O.seen out.old) (O.seen out.new) (L.seen log.old) (L.seen log.new) result }
{
    match apply(image, script, base, carry, out, log) {
        Ok(tally) => status_of(&tally),
        Err(fault) => report_fault(fault, Fault::Log, log),
    }
}

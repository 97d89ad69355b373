//! Writes the log: a line for each patch, then a line with their counts.

ghost use Rattle.cd_stream.specs.Transfer.{Flushes, Sends};
ghost use Rattle.cd_run.specs.PatchLog.{counts_line, log_line};
ghost use Rattle.cd_stream.specs.Stream.{CanCountFailure};

use cd_patch::Outcome;
use cd_read::LogFailed;
use cd_run::{counts_line, outcome_line};
use cd_script::Patch;
use cd_stream::{Sink, write_all};

/// The numbers of accepted and refused patches, and the size of the image.
#[derive(Clone, Copy, Debug, PartialEq, Eq)]
pub struct Tally {
    /// Patches that were accepted.
    pub applied: u32,
    /// Patches that were refused.
    pub refused: u32,
    /// Complete sectors of the image.
    pub sectors: u32,
    /// Bytes after the last complete sector.
    pub tail: u16,
}

/// Writes the line of a patch.
pub(crate) fn send_outcome<L: Sink>(
    patch: &Patch,
    outcome: Outcome,
    log: &mut L,
) -> Result<(), LogFailed>
    requires { CanCountFailure (L.seen log.old).failures }
    ensures { Sends (L.seen log.old) (L.seen log.new) (log_line patch.now outcome) result }
{
    Ok(write_all(log, outcome_line(patch.line, outcome).as_slice())?)
}

/// Writes the last line, with the counts.
pub(crate) fn send_counts<L: Sink>(applied: u32, refused: u32, log: &mut L) -> Result<(), LogFailed>
    requires { CanCountFailure (L.seen log.old).failures }
    ensures { Sends (L.seen log.old) (L.seen log.new) (counts_line applied refused) result }
{
    Ok(write_all(log, counts_line(applied, refused).as_slice())?)
}

/// Proof step: flushes the log; a failure is a `LogFailed`.
pub(crate) fn finish_log<L: Sink>(log: &mut L) -> Result<(), LogFailed>
    requires { CanCountFailure (L.seen log.old).failures }
    ensures { Flushes (L.seen log.old) (L.seen log.new) result }
{
    Ok(log.finish()?)
}

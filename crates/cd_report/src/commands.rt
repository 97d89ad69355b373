//! The commands `list` and `audit`: each makes the call of its name on an image, prints a line if the
//! call fails, and returns the status.

ghost use Rattle.std.specs.Prelude.{◌≡◌, ◌≤◌};
ghost use Rattle.cd_read.specs.Status.{done_status};
ghost use Rattle.cd_report.specs.AuditText.{audit_report};
ghost use Rattle.cd_report.specs.ListText.{list_report};
ghost use Rattle.cd_report.specs.Running.{RunsReport, audit_status};
ghost use Rattle.cd_stream.specs.Stream.{CanCountFailure};
ghost use Rattle.cd_sector.specs.Image.{base_limit};

use crate::auditing::{AuditTally, audit};
use crate::listing::list;
use cd_read::{DONE, FOUND, Fault, report_fault};
use cd_stream::{Sink, Source};

/// Lists an image whose first block is `base` to `out`, and returns the status: 0, or 2 after an
/// error. The error is reported in `out`, unless `out` itself has failed.
///
/// # Examples
///
/// ```
/// let mut space = [0; 64];
/// let mut out = SliceSink::new(&mut space);
/// assert_eq!(rt; run_list(&mut ZeroSource::new(2352), 7, &mut out), 0);
/// assert_eq!(rt; out.written(), b"7-7 nosync\nsectors 1 tail 0\n".as_slice());
/// ```
pub fn run_list<I: Source, O: Sink>(image: &mut I, base: u32, out: &mut O) -> u8
    requires base { base ≤ base_limit }
    requires image_countable { CanCountFailure (I.seen image.old).failures }
    requires out_countable { CanCountFailure (O.seen out.old).failures }
    ensures { RunsReport (list_report base) (λ _. done_status) (I.seen image.old)
        (I.seen image.new) (O.seen out.old) (O.seen out.new) result }
{
    match list(image, base, out) {
        Ok(_) => DONE,
        Err(fault) => report_fault(fault, Fault::Write, out),
    }
}

/// The status of an audit that was completed.
fn audit_status_of(tally: &AuditTally) -> u8
    ensures { result ≡ audit_status tally.now }
{
    if tally.findings == 0 { DONE } else { FOUND }
}

/// Audits an image whose first block is `base` to `out`, and returns the status: 0, 1 if there is a
/// finding, or 2 after an error. The error is reported in `out`, unless `out` itself has failed.
///
/// # Examples
///
/// ```
/// let mut space = [0; 64];
/// let mut out = SliceSink::new(&mut space);
/// let mut image = FailAfter::new(ZeroSource::new(2352), 5);
/// assert_eq!(rt; run_audit(&mut image, 0, &mut out), 2);
/// assert!(rt; out.written().starts_with(b"cdpatch: reading the image"));
/// ```
pub fn run_audit<I: Source, O: Sink>(image: &mut I, base: u32, out: &mut O) -> u8
    requires base { base ≤ base_limit }
    requires image_countable { CanCountFailure (I.seen image.old).failures }
    requires out_countable { CanCountFailure (O.seen out.old).failures }
    ensures { RunsReport (audit_report base) audit_status (I.seen image.old)
        (I.seen image.new) (O.seen out.old) (O.seen out.new) result }
{
    match audit(image, base, out) {
        Ok(tally) => audit_status_of(&tally),
        Err(fault) => report_fault(fault, Fault::Write, out),
    }
}

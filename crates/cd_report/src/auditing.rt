//! Audits an image: finds defects and wrong addresses in its Mode 1 sectors.

ghost use Rattle.std.specs.Prelude.{◌≡◌, ◌+◌, ◌<◌, ◌≤◌, ◌↔◌, [], true, IfOk, OnOk, length};
ghost use Rattle.cd_report.specs.AuditText.{audit_end, audit_report};
ghost use Rattle.cd_read.specs.Ends.{AnswersByEnd, AnswersByLength, AnswersTooLong, EndsWell};
ghost use Rattle.cd_report.specs.Report.{Reports, WritesText};
ghost use Rattle.cd_report.specs.Scanning.{tally_with};
ghost use Rattle.cd_stream.specs.Transfer.{CountsFlush, Sends};
ghost use Rattle.cd_stream.specs.Stream.{CanCountFailure};
ghost use Rattle.cd_sector.specs.Image.{base_limit, sector_limit};

use crate::MAX_BASE;
use crate::findings::{Findings, findings_of, is_any, is_damage, send_findings};
use crate::scan::{Visitor, scan};
use cd_line::{LINE_SIZE, Line};
use cd_read::Fault;
use cd_sector::Sector;
use cd_stream::{Sink, SinkFailed, Source, write_all};

/// The counts of an audit.
#[derive(Clone, Copy, Debug, PartialEq, Eq)]
pub struct AuditTally {
    /// Complete sectors.
    pub sectors: u32,
    /// Sectors of Mode 1.
    pub mode1: u32,
    /// Sectors of Mode 1 with a defect.
    pub damaged: u32,
    /// Sectors of Mode 1 that have a line: those with a defect or a wrong address.
    pub findings: u32,
    /// Bytes after the last complete sector.
    pub tail: u16,
}

/// Adds a sector and its findings to a tally.
fn with_sector(tally: AuditTally, found: Option<Findings>) -> AuditTally
    requires sectors { tally.sectors < sector_limit }
    requires mode1 { tally.mode1 < sector_limit }
    requires damaged { tally.damaged < sector_limit }
    requires findings { tally.findings < sector_limit }
    ensures { result ≡ tally_with tally found }
{
    match found {
        None => AuditTally {
            sectors: tally.sectors + 1,
            ..tally
        },
        Some(found) => AuditTally {
            sectors: tally.sectors + 1,
            mode1: tally.mode1 + 1,
            damaged: tally.damaged + u32::from(is_damage(&found.defect)),
            findings: tally.findings + u32::from(is_any(&found)),
            tail: tally.tail,
        },
    }
}

/// Formats `sectors S mode1 M damaged D tail T`, the last line of an audit.
///
/// # Examples
///
/// ```
/// let tally = AuditTally {
///     sectors: 8,
///     mode1: 6,
///     damaged: 1,
///     findings: 2,
///     tail: 3,
/// };
/// let (line, text) = (audit_end(tally), b"sectors 8 mode1 6 damaged 1 tail 3\n");
/// assert_eq!(rt; line.as_slice(), text.as_slice());
/// ```
#[tactic(auto, unfolding(crate::specs::AuditText::audit_end))]
pub fn audit_end(tally: AuditTally) -> Line
    ensures line { result ≡ audit_end tally }
    ensures some { 0 < length result }
    ensures room { length result ≤ LINE_SIZE }
{
    let mut line = Line::new();
    line.push_text(b"sectors ");
    line.push_number(tally.sectors);
    line.push_text(b" mode1 ");
    line.push_number(tally.mode1);
    line.push_text(b" damaged ");
    line.push_number(tally.damaged);
    line.push_text(b" tail ");
    line.push_number(u32::from(tally.tail));
    line.push_text(b"\n");
    line
}

/// Writes the last line of an audit.
fn send_end<O: Sink>(tally: AuditTally, out: &mut O) -> Result<(), SinkFailed>
    requires { CanCountFailure (O.seen out.old).failures }
    ensures { Sends (O.seen out.old) (O.seen out.new) (audit_end tally) result }
{
    write_all(out, audit_end(tally).as_slice())
}

/// Audits an image whose first block is `base`.
#[derive(Drop)]
struct Auditor {
    base: u32,
    tally: AuditTally,
}

impl Visitor for Auditor {
    ghost use Rattle.std.specs.Prelude.{◌≤◌};
    ghost use Rattle.cd_report.specs.Scanning.{IsTallyOf, audit_remaining};
    ghost use Rattle.cd_report.specs.declared.TheConstants.{MAX_BASE};

    type Tally = AuditTally;

    ghost remaining = { λ s count. audit_remaining s.base s.tally };

    ghost has_visited = { λ s count. (s.base ≤ MAX_BASE) × IsTallyOf s.tally count };

    fn visit<O: Sink>(
        &mut self,
        count: u32,
        sector: &Sector,
        out: &mut O,
    ) -> Result<(), SinkFailed> {
        let block = self.base + count;
        let found = findings_of(sector, block);
        send_findings(block, found, out)?;
        self.tally = with_sector(self.tally, found);
        Ok(())
    }

    fn close<O: Sink>(
        &mut self,
        _count: u32,
        tail: u16,
        out: &mut O,
    ) -> Result<AuditTally, SinkFailed> {
        let tally = AuditTally { tail, ..self.tally };
        send_end(tally, out)?;
        out.finish()?;
        Ok(tally)
    }
}

/// Writes a line for each Mode 1 sector whose address or content is wrong, and a last line with the
/// numbers of sectors, of Mode 1 sectors, of damaged sectors, and of bytes after the last sector.
///
/// `base` is the number of the first block. One sector is held at a time, and no memory is
/// allocated.
///
/// # Errors
///
/// `Read` if the image fails, `Write` if `out` fails, `TooLong` if a byte is read after the
/// millionth sector.
///
/// # Examples
///
/// ```
/// let sector = encode([0x00, 0x02, 0x00], &[0x00; USER_SIZE]); // its address is that of block 0
/// let mut space = [0; 64];
/// let mut out = SliceSink::new(&mut space);
/// audit(&mut SliceSource::new(sector.bytes()), 16, &mut out)?; // as block 16
/// assert!(rt; out.written().starts_with(b"16 address\n"));
/// ```
pub fn audit<I: Source, O: Sink>(image: &mut I, base: u32, out: &mut O) -> Result<AuditTally, Fault>
    requires base { base ≤ base_limit }
    requires image_countable { CanCountFailure (I.seen image.old).failures }
    requires out_countable { CanCountFailure (O.seen out.old).failures }

    // The complete result, including what is left after an error.
    ensures report { Reports (audit_report base)
        (I.seen image.old) (I.seen image.new) (O.seen out.old) (O.seen out.new) result }

    // The text if nothing failed, and when each error occurs.
    ensures text { IfOk result (WritesText (audit_report base)
        (I.seen image.old) (I.seen image.new) (O.seen out.old) (O.seen out.new)) }
    ensures ends_well { OnOk result (EndsWell
        (I.seen image.old) (I.seen image.new) (O.seen out.old) (O.seen out.new)) }
    ensures flushes { CountsFlush (O.seen out.old).flushes (O.seen out.new).flushes result }
    ensures read_failed { (result ≡ Err Fault.Read)
        ↔ ((I.seen image.new).failures ≡ (I.seen image.old).failures + 1) }
    ensures write_failed { (result ≡ Err Fault.Write)
        ↔ ((O.seen out.new).failures ≡ (O.seen out.old).failures + 1) }
    ensures too_long { AnswersTooLong (I.seen image.old) (I.seen image.new) result }
    ensures by_length { (I.seen image.new).failures ≡ (I.seen image.old).failures
        → (O.seen out.new).failures ≡ (O.seen out.old).failures
        → AnswersByLength (I.seen image.old) result }
    ensures ended { OnOk result ((I.seen image.new).ended ≡ true) }
    ensures by_end { (I.seen image.new).failures ≡ (I.seen image.old).failures
        → (O.seen out.new).failures ≡ (O.seen out.old).failures
        → AnswersByEnd (I.seen image.new) result }
{
    let tally = AuditTally {
        sectors: 0,
        mode1: 0,
        damaged: 0,
        findings: 0,
        tail: 0,
    };
    scan(image, &mut Auditor { base, tally }, out)
}

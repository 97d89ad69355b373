//! The findings of an audit in one sector of an image, and their line.

ghost use Rattle.std.specs.Prelude.{◌≡◌, ◌+◌, ◌<◌, ◌≤◌, ◌++◌, Some, length};
ghost use Rattle.cd_address.specs.Address.{address};
ghost use Rattle.cd_sector.specs.Consistent.{header_of};
ghost use Rattle.cd_report.specs.AuditText.{count_if, finding_line, findings_of, is_any, is_damage};
ghost use Rattle.cd_report.specs.AuditText.{is_other_address, finding_lines, name_if, report_of};
ghost use Rattle.cd_report.specs.Lines.{text_of};
ghost use Rattle.cd_stream.specs.Transfer.{Counts, Sends};
ghost use Rattle.cd_stream.specs.Stream.{CanCountFailure};

use cd_address::address_of;
use cd_line::{LINE_SIZE, Line};
use cd_sector::{DefectReport, Sector, SectorKind, defect, kind};
use cd_stream::{Sink, SinkFailed, write_all};

/// The findings of an audit in a Mode 1 sector (ECMA-130, 14 and Annex A).
#[derive(Clone, Copy, Debug, PartialEq, Eq)]
pub struct Findings {
    /// Whether the address in the header is not the address of the block.
    pub address: bool,
    /// The defects of the sector.
    pub defect: DefectReport,
}

/// The findings in the sector of a block; `None` if the sector is not of Mode 1.
#[tactic(auto, unfolding(crate::specs::AuditText::findings_of))]
pub(crate) fn findings_of(sector: &Sector, block: u32) -> Option<Findings>
    ensures { result ≡ findings_of block sector.now }
{
    if kind(sector) != SectorKind::Mode1 {
        return None;
    }
    Some(Findings {
        address: has_other_address(sector, block),
        defect: report_of(sector),
    })
}

/// Proof step: `defect`, stated by the definition that the text of an audit uses.
#[tactic(auto, unfolding(crate::specs::AuditText::report_of))]
fn report_of(sector: &Sector) -> DefectReport
    ensures { result ≡ report_of sector.now }
{
    defect(sector)
}

/// Whether a sector's address is wrong: its header does not begin with the address of the block. A
/// block without an address is not compared (ECMA-130, 14).
///
/// # Examples
///
/// ```
/// let sector = encode([0x00, 0x02, 0x16], &[0x00; USER_SIZE]); // its address is that of block 16
/// assert!(rt; !has_other_address(&sector, 16));
/// assert!(rt; has_other_address(&sector, 17));
/// ```
pub fn has_other_address(sector: &Sector, block: u32) -> bool
    ensures { result ≡ is_other_address (address block) (header_of sector.now) }
{
    match address_of(block) {
        Some(due) => !sector.header().starts_with(&due),
        None => false,
    }
}

/// Whether any part of a sector is wrong.
pub(crate) fn is_damage(report: &DefectReport) -> bool
    ensures { result ≡ is_damage report.now }
{
    report.zeros || report.edc || report.p != 0 || report.q != 0
}

/// Whether the sector has a line: for a wrong address, or for any part that is wrong.
///
/// See the example of [`finding_line`].
pub fn is_any(found: &Findings) -> bool
    ensures { result ≡ is_any (Some found.now) }
{
    found.address || is_damage(&found.defect)
}

/// Appends a name if `found`.
fn push_name(line: &mut Line, found: bool, name: &[u8])
    requires { length line.old + length name.now ≤ LINE_SIZE }
    ensures name { line.new ≡ line.old ++ name_if found name.now }
    ensures size { length line.new ≤ length line.old + length name.now }
{
    if found {
        line.push_text(name);
    }
}

/// Appends a name and a count if the count is not 0.
fn push_count(line: &mut Line, name: &[u8], count: u8)
    requires { length line.old + length name.now + 10 ≤ LINE_SIZE }
    ensures count { line.new ≡ line.old ++ count_if name.now count }
    ensures size { length line.new ≤ length line.old + length name.now + 10 }
{
    if count != 0 {
        line.push_text(name);
        line.push_number(u32::from(count));
    }
}

/// Formats `BLOCK [address] [zeros] [edc] [p=N] [q=N]`, the line of a sector that has findings, as
/// [`is_any`] tests.
///
/// # Examples
///
/// ```
/// let sector = encode([0x00, 0x02, 0x16], &[0x00; USER_SIZE]); // its address is that of block 16
/// let found = Findings {
///     address: has_other_address(&sector, 17),
///     defect: defect(&sector),
/// };
/// assert!(rt; is_any(&found));
/// let line = finding_line(17, &found);
/// assert_eq!(rt; line.as_slice(), b"17 address\n".as_slice());
/// ```
#[tactic(auto, unfolding(crate::specs::AuditText::finding_line))]
pub fn finding_line(block: u32, found: &Findings) -> Line
    ensures line { result ≡ finding_line block found.now }
    ensures some { 0 < length result }
    ensures room { length result ≤ LINE_SIZE }
{
    let mut line = Line::new();
    line.push_number(block);
    push_name(&mut line, found.address, b" address");
    push_name(&mut line, found.defect.zeros, b" zeros");
    push_name(&mut line, found.defect.edc, b" edc");
    push_count(&mut line, b" p=", found.defect.p);
    push_count(&mut line, b" q=", found.defect.q);
    line.push_text(b"\n");
    line
}

/// Writes the line of a sector, if it has one.
pub(crate) fn send_findings<O: Sink>(
    block: u32,
    found: Option<Findings>,
    out: &mut O,
) -> Result<(), SinkFailed>
    requires { CanCountFailure (O.seen out.old).failures }
    ensures { Sends (O.seen out.old) (O.seen out.new) (text_of (finding_lines block found)) result }
{
    match found {
        Some(found) if is_any(&found) => write_all(out, finding_line(block, &found).as_slice()),
        _ => Ok(()),
    }
}

//! Calls of C that write a line of `list` or `audit`, from runs of sectors and records.

ghost use Rattle.std.specs.Prelude.{◌≡◌, ◌<◌, ◌≤◌, ◌⊎◌, ◌↔◌, drop, false, length, take};
ghost use Rattle.cd_report.specs.AuditText.{audit_end, is_any};
ghost use Rattle.cd_report.specs.ListText.{list_end};
ghost use Rattle.cd_c.specs.ReportLines.{finding_told, kind_numbered, run_told};
ghost use Rattle.cd_c.specs.Survey.{found_in};

use crate::kinds::{MODE1, kind_numbered};
use crate::surveying::SectorRecord;
use cd_line::LINE_SIZE;
use cd_report::{
    AuditTally, Findings, ListTally, audit_end, finding_line, is_any, list_end, run_line,
};
use cd_sector::DefectReport;

/// The findings in a record; `None` if its sector is not of Mode 1.
fn found_in(record: &SectorRecord) -> Option<Findings>
    ensures { result ≡ found_in record.now }
{
    if u32::from(record.kind) != MODE1 {
        return None;
    }
    Some(Findings {
        address: record.address == 1,
        defect: DefectReport {
            zeros: record.zeros == 1,
            edc: record.edc == 1,
            p: record.p,
            q: record.q,
        },
    })
}

/// Writes the line of `list` for a run of sectors of one kind, from the first to the last block, to
/// the front of `text`, as [`run_line`], and returns its size in bytes. If `kind` is not the number
/// of a kind, or `last` is below `first`, it writes nothing and returns 0.
#[unsafe(no_mangle)]
pub extern "C" fn cdpatch_list_line(
    first: u32,
    last: u32,
    kind: u32,
    text: &mut [u8; LINE_SIZE],
) -> usize
    ensures line { take result text.new ≡ run_told first last (kind_numbered kind) }
    ensures size { result ≡ length (run_told first last (kind_numbered kind)) }
    ensures rest { drop result text.new ≡ drop result text.old }
    ensures within { result ≤ 96 }
    ensures none { result ≡ 0 ↔ (last < first) ⊎ (4 < kind) }
{
    match kind_numbered(kind) {
        Some(kind) if first <= last => run_line(first, last, kind).write_to(text),
        _ => 0,
    }
}

/// Writes the last line of `list` to the front of `text`, as [`list_end`], and returns its size in
/// bytes.
#[unsafe(no_mangle)]
pub extern "C" fn cdpatch_list_end(sectors: u32, tail: u16, text: &mut [u8; LINE_SIZE]) -> usize
    ensures line { take result text.new ≡ list_end (record { sectors = sectors; tail = tail }) }
    ensures rest { drop result text.new ≡ drop result text.old }
    ensures within { result ≤ 96 }
    ensures some { 0 < result }
{
    list_end(ListTally { sectors, tail }).write_to(text)
}

/// Writes the line of `audit` for the record of a block to the front of `text`, as
/// [`finding_line`], and returns its size in bytes. If the record has no findings, or its sector is
/// not of Mode 1, it writes nothing and returns 0.
#[unsafe(no_mangle)]
pub extern "C" fn cdpatch_audit_line(
    block: u32,
    record: &SectorRecord,
    text: &mut [u8; LINE_SIZE],
) -> usize
    ensures line { take result text.new ≡ finding_told block record.now }
    ensures size { result ≡ length (finding_told block record.now) }
    ensures rest { drop result text.new ≡ drop result text.old }
    ensures within { result ≤ 96 }
    ensures none { result ≡ 0 ↔ is_any (found_in record.now) ≡ false }
{
    match found_in(record) {
        Some(found) if is_any(&found) => finding_line(block, &found).write_to(text),
        _ => 0,
    }
}

/// Writes the last line of `audit` to the front of `text`, as [`audit_end`], and returns its size in
/// bytes.
#[unsafe(no_mangle)]
pub extern "C" fn cdpatch_audit_end(
    sectors: u32,
    mode1: u32,
    damaged: u32,
    tail: u16,
    text: &mut [u8; LINE_SIZE],
) -> usize
    ensures line { take result text.new ≡ audit_end (record {
      sectors = sectors;
      mode1 = mode1;
      damaged = damaged;
      findings = 0;
      tail = tail;
    }) }
    ensures rest { drop result text.new ≡ drop result text.old }
    ensures within { result ≤ 96 }
    ensures some { 0 < result }
{
    let tally = AuditTally {
        sectors,
        mode1,
        damaged,
        findings: 0, // not in this line
        tail,
    };
    audit_end(tally).write_to(text)
}

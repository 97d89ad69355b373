//! The call of C that examines many sectors, and writes a record for each.

ghost use Rattle.std.specs.Prelude.{◌≡◌, ◌+◌, ◌<◌, ◌^◌, ◌↔◌, IsTrue, false, length, map, true};
ghost use Rattle.cd_sector.specs.Kind.{kind_number, kind_of};
ghost use Rattle.cd_report.specs.AuditText.{audit_lines, findings_of, report_of};
ghost use Rattle.cd_report.specs.ListText.{run_lines};
ghost use Rattle.cd_report.specs.Runs.{runs};
ghost use Rattle.cd_c.specs.Survey.{kind_in, lines_in, record_of, survey};

use crate::kinds::kind_number;
use cd_report::{Findings, has_other_address};
use cd_sector::{DefectReport, Sector, SectorKind, defect, kind};

/// The kind and the findings of a sector, as C's `struct cdpatch_record`. All fields but `kind` are
/// 0 if the sector is not of Mode 1.
#[derive(Clone, Copy)]
#[repr(C)]
pub struct SectorRecord {
    /// The kind, a number of `enum cdpatch_sector_kind`.
    pub kind: u8,
    /// 1 if the address in the header is not the address of the block.
    pub address: u8,
    /// 1 if a byte of the Intermediate field is not `00`.
    pub zeros: u8,
    /// 1 if the EDC is not that of bytes 0 to 2063.
    pub edc: u8,
    /// The number of P columns, of 86, that are not code words.
    pub p: u8,
    /// The number of Q diagonals, of 52, that are not code words.
    pub q: u8,
}

/// Proof step: the defects of a sector, by the definition that the text of an audit uses.
#[tactic(auto, unfolding(cd_report::specs::AuditText::report_of))]
fn report_of(sector: &Sector) -> DefectReport
    ensures { result ≡ report_of sector.now }
{
    defect(sector)
}

/// The findings in the sector of a block, which is of this kind; `None` if it is not of Mode 1.
#[tactic(auto, unfolding(cd_report::specs::AuditText::findings_of))]
fn findings_of(sector: &Sector, kind: SectorKind, block: u32) -> Option<Findings>
    requires { kind ≡ kind_of sector.now }
    ensures { result ≡ findings_of block sector.now }
{
    if kind != SectorKind::Mode1 {
        return None;
    }
    Some(Findings {
        address: has_other_address(sector, block),
        defect: report_of(sector),
    })
}

/// The record of the sector of a block.
#[tactic(auto, unfolding(crate::specs::Survey::record_of))]
fn record_of(sector: &Sector, block: u32) -> SectorRecord
    ensures { result ≡ record_of block sector.now }
{
    let found = kind(sector);
    let kind = kind_number(found) as u8;
    match findings_of(sector, found, block) {
        None => SectorRecord {
            kind,
            address: 0,
            zeros: 0,
            edc: 0,
            p: 0,
            q: 0,
        },
        Some(found) => SectorRecord {
            kind,
            address: found.address as u8,
            zeros: found.defect.zeros as u8,
            edc: found.defect.edc as u8,
            p: found.defect.p,
            q: found.defect.q,
        },
    }
}

/// Writes a record for each sector, and returns whether this was possible. The first sector is that
/// of `block`. If there are not as many records as sectors, or the sum of `block` and the number of
/// sectors exceeds 4,294,967,295, it writes nothing and returns false.
#[unsafe(no_mangle)]
pub extern "C" fn cdpatch_survey(
    sectors: &[Sector],
    block: u32,
    records: &mut [SectorRecord],
) -> bool
    ensures answer { IsTrue result ↔ ((length records.old ≡ length sectors.now)
        × (block + length sectors.now < 2 ^ 32)) }
    ensures records { result ≡ true → records.new ≡ survey block sectors.now }
    ensures kinds { result ≡ true
        → map (λ r. r.kind) records.new ≡ map (λ s. kind_number (kind_of s)) sectors.now }
    ensures runs { result ≡ true → run_lines block (runs (map kind_in records.new))
        ≡ run_lines block (runs (map kind_of sectors.now)) }
    ensures lines { result ≡ true → lines_in block records.new ≡ audit_lines block sectors.now }
    ensures stays { result ≡ false → records.new ≡ records.old }
{
    if records.len() != sectors.len() || sectors.len() > (u32::MAX - block) as usize {
        return false;
    }
    for i in 0..sectors.len() {
        records[i] = record_of(&sectors[i], block + i as u32);
    }
    true
}

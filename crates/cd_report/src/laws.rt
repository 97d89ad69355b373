//! Laws of the texts of reports. Each is the contract of a function that does nothing.

ghost use Rattle.cd_report.specs.AuditText.{AuditCountsLines};
ghost use Rattle.cd_report.specs.Runs.{RunsSpellKinds};

/// The text of an audit has a line for each sector with findings, and one more line.
pub fn audit_counts_lines()
    ensures { AuditCountsLines }
{}

/// The runs of a list of kinds give the list when they are expanded, no run is empty, and
/// neighbouring runs differ in kind. No other list of runs has these properties.
pub fn runs_spell_kinds()
    ensures { RunsSpellKinds }
{}

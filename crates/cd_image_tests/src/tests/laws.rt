//! The laws of images, reports and patched images, which are contracts of functions that do nothing.

use cd_report::{audit_counts_lines, runs_spell_kinds};
use cd_run::{patched_carries, patched_exists, patched_is_determined};
use cd_sector::images_are_cut;

#[test]
fn are_called(_rt: HostRuntime) {
    audit_counts_lines();
    images_are_cut();
    runs_spell_kinds();
    patched_carries();
    patched_is_determined();
    patched_exists();
}

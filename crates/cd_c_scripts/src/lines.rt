//! The call of C that reads a line of a script.

ghost use Rattle.std.specs.Prelude.{◌≡◌, ◌≢◌, ◌<◌, IfSome, Some};
ghost use Rattle.cd_c_scripts.specs.FlatPatch.{IsSomePatch, flat_patch, new_of, old_of, flat_patch_of, with_front};
ghost use Rattle.cd_c_scripts.specs.Lines.{answer_number, content_number, line_read, patch_read, head_numbered};

use crate::flat_patch::{FlatPatch, lend_patch};
use cd_script::{LineContent, MAX_BYTES, Version, read_line};

/// The result for a line that is a patch.
const PATCH: u32 = 3;

/// The result if the number of the version is not valid.
const NO_VERSION: u32 = 14;

/// Converts the number of a version, where 0 means that there was no head line yet; `None` for a
/// number that is not valid.
pub(crate) fn version_of(version: u32) -> Option<Option<Version>>
    ensures { result ≡ head_numbered version }
{
    if version == 0 {
        return Some(None);
    }
    Version::of_number(version).map(Some)
}

/// Reads one line of a script, without its end, as [`read_line`], and returns a number of
/// `enum cdpatch_content`. `version` is 0 before the head line, and then the number that was
/// returned for the head line. `earlier` is the number of patches before this line. A patch is
/// written to `patch`, which has no line number, and its new and old bytes to the front of
/// `new_bytes` and `old_bytes`. If the line is not a patch, nothing is written.
#[unsafe(no_mangle)]
pub extern "C" fn cdpatch_read_line(
    version: u32,
    earlier: usize,
    line: &[u8],
    patch: &mut FlatPatch,
    new_bytes: &mut [u8; MAX_BYTES],
    old_bytes: &mut [u8; MAX_BYTES],
) -> u32
    ensures answer { result ≡ answer_number (line_read version 0 earlier line.now) }
    ensures patch { IfSome (patch_read (line_read version 0 earlier line.now))
        (λ p. flat_patch p.line patch.new new_bytes.new old_bytes.new ≡ Some p) }
    ensures record { IfSome (patch_read (line_read version 0 earlier line.now))
        (λ p. patch.new ≡ flat_patch_of p.block p.offset p.edit) }
    ensures limits { result ≡ PATCH
        → IsSomePatch (flat_patch 0 patch.new new_bytes.new old_bytes.new) }
    ensures new_room { IfSome (patch_read (line_read version 0 earlier line.now))
        (λ p. new_bytes.new ≡ with_front (new_of p.edit) new_bytes.old) }
    ensures old_room { IfSome (patch_read (line_read version 0 earlier line.now))
        (λ p. old_bytes.new ≡ with_front (old_of p.edit) old_bytes.old) }
    ensures patch_stays { result ≢ PATCH → patch.new ≡ patch.old }
    ensures new_stays { result ≢ PATCH → new_bytes.new ≡ new_bytes.old }
    ensures old_stays { result ≢ PATCH → old_bytes.new ≡ old_bytes.old }
{
    let Some(version) = version_of(version) else {
        return NO_VERSION;
    };
    match read_line(version, 0, earlier, line) {
        Ok(LineContent::PassedOver) => 0,
        Ok(LineContent::Head(named)) => named.number(),
        Ok(LineContent::Patch(found)) => {
            *patch = lend_patch(&found, new_bytes, old_bytes);
            PATCH
        }
        Err(fault) => fault.number(),
    }
}

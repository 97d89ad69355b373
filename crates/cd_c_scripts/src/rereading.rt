//! Reads the line of an entry again, which gives the entry's patch.

ghost use Rattle.std.specs.Prelude.{◌≡◌, ◌≢◌, ◌+◌, ◌<◌, ◌≤◌, ◌↔◌, IfNone, IfOk, IfSome, Ok, Some, drop, length, take, true};
ghost use Rattle.cd_script.specs.ByLine.{KeepsToLimits};
ghost use Rattle.cd_script.specs.declared.by_line.LineContent.TheVariants as Content;
ghost use Rattle.cd_script.specs.Patch.{IsPatch};
ghost use Rattle.cd_script.specs.PatchForm.{Patch as ThePatch};
ghost use Rattle.cd_script.specs.declared.version.Version.{Version as TheVersion};
ghost use Rattle.cd_patch.specs.Blocks.{blocks_met};
ghost use Rattle.cd_c_scripts.specs.Flags.{as_asked};
ghost use Rattle.cd_c_scripts.specs.FlatPatch.{flat_edit};
ghost use Rattle.cd_c_scripts.specs.Lines.{head_numbered};
ghost use Rattle.cd_c_scripts.specs.Entries.{IsEntry, IsNoEntry};

use crate::entries::{Entry, blocks_met};
use crate::flags::compares;
use crate::flat_patch::{FlatPatch, edit_of, lend_patch};
use crate::lines::version_of;
use cd_script::{
    HexPatch, LentBytes, LineContent, MAX_BYTES, Patch, ScriptFault, Version, read_line,
    without_old,
};

/// The bytes of a line in a text; `None` if the text is too short.
fn line_at<'a>(text: &'a [u8], start: u32, size: u32) -> Option<&'a [u8]>
    ensures some { IfSome result (λ line. line.now ≡ take size (drop start text.now)) }
    ensures within { IfSome result (λ _. start + size ≤ length text.now) }
    ensures none { IfNone result (length text.now < start + size) }
{
    if start as usize > text.len() {
        return None;
    }
    let rest = &text[start as usize..];
    if size as usize > rest.len() {
        return None;
    }
    Some(&rest[..size as usize])
}

/// The patch of a line, if it has one.
fn patch_in(read: Result<LineContent<'_>, ScriptFault>) -> Option<HexPatch<'_>>
    requires { IfOk read KeepsToLimits }
    ensures some { IfSome result (λ p. read.entry ≡ Ok (Content.Patch p)) }
    ensures limits { IfSome result IsPatch }
    ensures none { IfNone result ((p : ThePatch) → read.entry ≢ Ok (Content.Patch p)) }
{
    match read {
        Ok(LineContent::Patch(found)) => Some(found),
        Ok(LineContent::PassedOver) => None,
        Ok(LineContent::Head(_)) => None,
        Err(_) => None,
    }
}

/// The patch of a line, with its bytes in the buffers to which they were written.
fn patch_with<'a>(
    found: &HexPatch<'_>,
    flat: &FlatPatch,
    new: &'a [u8; MAX_BYTES],
    old: &'a [u8; MAX_BYTES],
) -> Option<Patch<LentBytes<'a>>>
    requires { flat_edit flat.now new.now old.now ≡ Some found.now.edit }
    ensures { result ≡ Some found.now }
{
    let edit = edit_of(flat, new, old)?;
    Some(Patch {
        line: found.line,
        block: found.block,
        offset: found.offset,
        edit,
    })
}

/// A patch as the flags require it: without its old bytes if they are not compared.
fn as_asked(patch: Patch<LentBytes<'_>>, flags: u32) -> Patch<LentBytes<'_>>
    ensures asked { result ≡ as_asked flags patch.entry }
    ensures limits { IsPatch patch.entry → IsPatch result }
{
    if compares(flags) {
        return patch;
    }
    without_old(patch)
}

/// Whether a patch has the block and the number of blocks of an entry.
fn is_of(found: &HexPatch<'_>, entry: &Entry) -> bool
    requires { IsPatch found.now }
    ensures { result ≡ true ↔ (found.now.block ≡ entry.now.block)
        × (blocks_met found.now ≡ entry.now.blocks_met) }
{
    found.block == entry.block && blocks_met(found) == entry.blocks_met
}

/// The version with a number; `None` if no version has it, or if there was no head line.
pub(crate) fn named_version(number: u32) -> Option<Version>
    ensures some { IfSome result (λ v. head_numbered number ≡ Some (Some v)) }
    ensures none { IfNone result ((v : TheVersion) → head_numbered number ≢ Some (Some v)) }
{
    version_of(number)?
}

/// The patch of an entry, as the flags require it, with its bytes in the two buffers. Returns `None`
/// if the entry's line, read again, does not give the patch of the entry.
pub(crate) fn lend_entry<'a>(
    script: &[u8],
    entry: &Entry,
    version: Version,
    flags: u32,
    new: &'a mut [u8; MAX_BYTES],
    old: &'a mut [u8; MAX_BYTES],
) -> Option<Patch<LentBytes<'a>>>
    ensures limits { IfSome result IsPatch }
    ensures lends { IfSome result (λ p. IsEntry script.now version flags entry.now p) }
    ensures none { IfNone result (IsNoEntry script.now version flags entry.now) }
{
    let Some(bytes) = line_at(script, entry.start, entry.size) else {
        return None;
    };
    let Some(found) = patch_in(read_line(Some(version), entry.number, 0, bytes)) else {
        return None;
    };
    if !is_of(&found, entry) {
        return None;
    }
    let flat = lend_patch(&found, new, old);
    let Some(patch) = patch_with(&found, &flat, new, old) else {
        return None;
    };
    Some(as_asked(patch, flags))
}

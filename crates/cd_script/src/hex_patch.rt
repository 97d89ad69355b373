//! Patches whose bytes are not decoded yet.

ghost use Rattle.std.specs.Prelude.{◌≡◌, IfOk};

use crate::hex_word::HexWord;
use crate::patch::{Edit, Patch, build_edit};
use std::alloc::{AllocError, Global};

/// A patch whose bytes are still the hex words of its line, so that a line is read without
/// allocating memory.
pub type HexPatch<'a> = Patch<HexWord<'a>>;

/// An edit whose bytes are still hex words.
pub type HexEdit<'a> = Edit<HexWord<'a>>;

/// Decodes the bytes of a patch.
pub(crate) fn build_patch(alloc: Global, patch: HexPatch<'_>) -> Result<Patch, AllocError>
    ensures { IfOk result (λ built. built ≡ patch.entry) }
{
    let Patch {
        line,
        block,
        offset,
        edit,
    } = patch;
    let edit = build_edit(alloc, edit)?;
    Ok(Patch {
        line,
        block,
        offset,
        edit,
    })
}

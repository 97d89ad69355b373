//! A patch of a script, and operations on it: decoding its bytes, checking the limits of its edit,
//! borrowing its bytes, and removing its old bytes.

ghost use Rattle.std.specs.Prelude.{◌≡◌, ◌≤◌, ◌↔◌, IfOk, IsTrue, length};
ghost use Rattle.cd_script.specs.declared.patch.Edit.TheVariants.{Fill, Put};
ghost use Rattle.cd_script.specs.Patch.{IsBytes, IsEditAt};
ghost use Rattle.cd_script.specs.PatchForm.{edit_without_old, without_old};

use crate::bytes::{LentBytes, PatchBytes};
use crate::checking::{are_bytes, is_address};
use crate::hex_word::HexWord;
use crate::limits::MAX_BYTES;
use std::alloc::{AllocError, Global};

/// A patch: its line in the script, the place where it begins, and its effect. Its bytes are owned,
/// as in the patches of a script, or borrowed: decoded ([`LentBytes`]), or as the hex digits of its
/// line ([`HexWord`](crate::HexWord)).
#[derive(Debug, Drop)]
pub struct Patch<B = PatchBytes> {
    /// The number of its line in the script, counted from 1.
    pub line: u32,
    /// The block in which it begins, of at most [`MAX_DIGITS`](crate::MAX_DIGITS) digits.
    pub block: u32,
    /// The user byte of that block at which it begins, 0 to [`MAX_OFFSET`](crate::MAX_OFFSET); 0 for a
    /// rebuild or an address.
    pub offset: u16,
    /// The effect of the patch.
    pub edit: Edit<B>,
}

/// The effect of a patch on the user bytes from its offset on, or on its block.
#[derive(Debug, Drop)]
pub enum Edit<B = PatchBytes> {
    /// Replaces user bytes.
    Put {
        /// The new bytes, 1 to [`MAX_BYTES`](crate::MAX_BYTES) of them.
        bytes: B,
        /// The old bytes, as many as the new ones, that must be there before; `None` if any bytes
        /// may be.
        was: Option<B>,
    },
    /// Sets user bytes to one value.
    Fill {
        /// The number of bytes, 1 to [`MAX_BYTES`](crate::MAX_BYTES).
        count: u16,
        /// The new value of each byte.
        value: u8,
    },
    /// Recalculates EDC, Intermediate, and parity of the block from its header and user data.
    Rebuild,
    /// Replaces the address in the header of the block.
    Address {
        /// Minute, second and fraction, each in BCD.
        bcd: [u8; 3],
    },
}

/// Borrows the old bytes.
fn lend_old(was: &Option<PatchBytes>) -> Option<LentBytes<'_>>
    ensures { result ≡ was.now }
{
    match was {
        Some(bytes) => Some(LentBytes::new(bytes.as_slice())),
        None => None,
    }
}

/// Borrows the bytes of an edit.
fn lend_edit(edit: &Edit) -> Edit<LentBytes<'_>>
    ensures { result ≡ edit.now }
{
    match edit {
        Edit::Put { bytes, was } => Edit::Put {
            bytes: LentBytes::new(bytes.as_slice()),
            was: lend_old(was),
        },
        Edit::Fill { count, value } => Edit::Fill {
            count: *count,
            value: *value,
        },
        Edit::Rebuild => Edit::Rebuild,
        Edit::Address { bcd } => Edit::Address { bcd: *bcd },
    }
}

/// Decodes the old bytes, if there are any.
fn decode_old(alloc: Global, was: Option<HexWord<'_>>) -> Result<Option<PatchBytes>, AllocError>
    ensures { IfOk result (λ old. old ≡ was.entry) }
{
    match was {
        Some(word) => Ok(Some(word.decode(alloc)?)),
        None => Ok(None),
    }
}

/// Decodes the bytes of a `Put`.
fn build_put(
    alloc: Global,
    bytes: HexWord<'_>,
    was: Option<HexWord<'_>>,
) -> Result<Edit, AllocError>
    ensures { IfOk result (λ edit. edit ≡ Edit.Put bytes.entry was.entry) }
{
    let bytes = bytes.decode(alloc)?;
    let was = decode_old(alloc, was)?;
    Ok(Edit::Put { bytes, was })
}

/// Decodes the bytes of an edit.
pub(crate) fn build_edit(alloc: Global, edit: Edit<HexWord<'_>>) -> Result<Edit, AllocError>
    ensures { IfOk result (λ built. built ≡ edit.entry) }
{
    match edit {
        Edit::Put { bytes, was } => build_put(alloc, bytes, was),
        Edit::Fill { count, value } => Ok(Edit::Fill { count, value }),
        Edit::Rebuild => Ok(Edit::Rebuild),
        Edit::Address { bcd } => Ok(Edit::Address { bcd }),
    }
}

/// Whether these can be the old bytes of a patch with `count` new bytes.
fn are_old_bytes(count: usize, old: &[u8]) -> bool
    ensures { IsTrue result ↔ (IsBytes old.now × (length old.now ≡ count)) }
{
    are_bytes(old) && old.len() == count
}

/// Whether a `Put` of these bytes keeps to the limits.
fn is_put(bytes: &LentBytes<'_>, was: &Option<LentBytes<'_>>) -> bool
    ensures { IsTrue result ↔ IsEditAt 0 (Put bytes.now was.now) }
{
    match was {
        Some(old) => {
            are_bytes(bytes.as_slice()) && are_old_bytes(bytes.as_slice().len(), old.as_slice())
        }
        None => are_bytes(bytes.as_slice()),
    }
}

/// Whether a `Fill` of `count` bytes keeps to the limits.
fn is_fill(count: u16, value: u8) -> bool
    ensures { IsTrue result ↔ IsEditAt 0 (Fill count value) }
{
    let _value = value; // so that the contract can name it as a byte
    count != 0 && count as usize <= MAX_BYTES
}

/// Whether an edit at an offset keeps to the limits.
pub(crate) fn is_edit_at(offset: u16, edit: &Edit<LentBytes<'_>>) -> bool
    ensures { IsTrue result ↔ IsEditAt offset edit.now }
{
    match edit {
        Edit::Put { bytes, was } => is_put(bytes, was),
        Edit::Fill { count, value } => is_fill(*count, *value),
        Edit::Rebuild => offset == 0,
        Edit::Address { bcd } => offset == 0 && is_address(bcd),
    }
}

/// Borrows the bytes of a patch.
///
/// # Examples
///
/// ```
/// let script = parse(rt.alloc(), b"cdpatch 1\nset 5 0 4869\n")?;
/// for patch in script.patches() {
///     assert!(rt; is_patch(&lend(patch)));
/// }
/// ```
pub fn lend(patch: &Patch) -> Patch<LentBytes<'_>>
    ensures { result ≡ patch.now }
{
    Patch {
        line: patch.line,
        block: patch.block,
        offset: patch.offset,
        edit: lend_edit(&patch.edit),
    }
}

/// Removes the old bytes of an edit, so that any bytes may be there before.
fn edit_without_old(edit: Edit<LentBytes<'_>>) -> Edit<LentBytes<'_>>
    ensures { result ≡ edit_without_old edit.entry }
{
    match edit {
        Edit::Put { bytes, .. } => Edit::Put { bytes, was: None },
        other => other,
    }
}

/// Removes the old bytes of a patch, so that any bytes may be there before.
///
/// # Examples
///
/// ```
/// let script = parse(rt.alloc(), b"cdpatch 1\nset 5 0 48 was 68\n")?;
/// for patch in script.patches() {
///     let asked = without_old(lend(patch));
///     assert!(rt; matches!(&asked.edit, Edit::Put { was: None, .. }));
/// }
/// ```
pub fn without_old(patch: Patch<LentBytes<'_>>) -> Patch<LentBytes<'_>>
    ensures { result ≡ without_old patch.entry }
{
    let Patch {
        line,
        block,
        offset,
        edit,
    } = patch;
    Patch {
        line,
        block,
        offset,
        edit: edit_without_old(edit),
    }
}

//! Converts patches to and from flat records. The new and old bytes of a patch are at the front of
//! two buffers that the C program provides. Only this file of the crate distinguishes the kinds of
//! edits.

ghost use Rattle.std.specs.Prelude.{◌≡◌, ◌≤◌, List, ℕ, IfSome, Some, [], length, take, unwrap_or};
ghost use Rattle.cd_script.specs.declared.patch.Edit.TheVariants.{Put};
ghost use Rattle.cd_script.specs.Limits.{bytes_limit};
ghost use Rattle.cd_script.specs.Patch.{IsEditAt, IsPatch};
ghost use Rattle.cd_c_scripts.specs.FlatPatch.{has_old_of, flat_edit, flat_patch, new_of, old_of, flat_patch_of, set_edit, with_front};

use cd_script::{Edit, HexEdit, HexPatch, HexWord, LentBytes, MAX_BYTES, Patch};

/// The verb `set`.
const SET: u8 = 0;

/// The verb `fill`.
const FILL: u8 = 1;

/// The verb `rebuild`.
const REBUILD: u8 = 2;

/// The verb `address`.
const ADDRESS: u8 = 3;

/// A patch, as C's `struct cdpatch_patch`. The new and the old bytes of a `set` are at the front of
/// two buffers.
#[derive(Clone, Copy)]
#[repr(C)]
pub struct FlatPatch {
    /// The block in which the patch begins.
    pub block: u32,
    /// The offset in the user data of that block at which the patch begins.
    pub offset: u16,
    /// The number of bytes that a `set` or `fill` writes.
    pub count: u16,
    /// The verb: 0 `set`, 1 `fill`, 2 `rebuild`, 3 `address`.
    pub verb: u8,
    /// 1 if a `set` has old bytes, else 0.
    pub has_old: u8,
    /// The value that a `fill` writes to each byte.
    pub value: u8,
    /// The minute, second and fraction of an `address`, each in BCD.
    pub address: [u8; 3],
}

/// The first `count` bytes of a buffer.
fn front(count: u16, room: &[u8; MAX_BYTES]) -> LentBytes<'_>
    requires { count ≤ bytes_limit }
    ensures { result ≡ take count room.now }
{
    LentBytes::new(&room[..usize::from(count)])
}

/// The edit of a `set`; `None` if `count` is above [`MAX_BYTES`], or `has_old` is neither 0 nor 1.
fn set_of<'a>(
    count: u16,
    has_old: u8,
    new: &'a [u8; MAX_BYTES],
    old: &'a [u8; MAX_BYTES],
) -> Option<Edit<LentBytes<'a>>>
    ensures { result ≡ set_edit count has_old new.now old.now }
{
    if usize::from(count) > MAX_BYTES {
        return None;
    }
    let bytes = front(count, new);
    match has_old {
        0 => Some(Edit::Put { bytes, was: None }),
        1 => Some(Edit::Put {
            bytes,
            was: Some(front(count, old)),
        }),
        _ => None,
    }
}

/// The edit of a record; `None` if the record is malformed.
pub(crate) fn edit_of<'a>(
    flat: &FlatPatch,
    new: &'a [u8; MAX_BYTES],
    old: &'a [u8; MAX_BYTES],
) -> Option<Edit<LentBytes<'a>>>
    ensures { result ≡ flat_edit flat.now new.now old.now }
{
    match flat.verb {
        SET => set_of(flat.count, flat.has_old, new, old),
        FILL => Some(Edit::Fill {
            count: flat.count,
            value: flat.value,
        }),
        REBUILD => Some(Edit::Rebuild),
        ADDRESS => Some(Edit::Address { bcd: flat.address }),
        _ => None,
    }
}

/// Decodes a record; `None` if it is malformed. A record has no line number, so the line is 0.
pub(crate) fn patch_of<'a>(
    flat: &FlatPatch,
    new: &'a [u8; MAX_BYTES],
    old: &'a [u8; MAX_BYTES],
) -> Option<Patch<LentBytes<'a>>>
    ensures { result ≡ flat_patch 0 flat.now new.now old.now }
{
    let edit = edit_of(flat, new, old)?;
    Some(Patch {
        line: 0,
        block: flat.block,
        offset: flat.offset,
        edit,
    })
}

/// Writes the bytes of a hex word to the front of a buffer, and returns their number.
fn lend_bytes(word: &HexWord<'_>, room: &mut [u8]) -> u16
    requires most { length word.now ≤ bytes_limit }
    requires room { bytes_limit ≤ length room.old }
    ensures count { result ≡ length word.now }
    ensures bytes { take result room.new ≡ word.now }
    ensures room { room.new ≡ with_front word.now room.old }
{
    word.decode_to(room);
    word.len() as u16
}

/// Writes the `count` old bytes, if there are any, and returns `has_old`.
fn lend_old(was: &Option<HexWord<'_>>, count: u16, room: &mut [u8]) -> u8
    requires same { IfSome was.now (λ old. length old ≡ count) }
    requires most { count ≤ bytes_limit }
    requires room { bytes_limit ≤ length room.old }
    ensures flag { result ≡ has_old_of was.now }
    ensures edit { (new : List ℕ)
        → set_edit count result new room.new ≡ Some (Put (take count new) was.now) }
    ensures room { room.new ≡ with_front (unwrap_or was.now []) room.old }
{
    match was {
        Some(word) => {
            word.decode_to(room);
            1
        }
        None => 0,
    }
}

/// A record in which all fields are 0.
const BLANK: FlatPatch = FlatPatch {
    block: 0,
    offset: 0,
    count: 0,
    verb: 0,
    has_old: 0,
    value: 0,
    address: [0; 3],
};

/// The record of an edit at a place. Its new and old bytes are written to the front of the buffers.
fn lend_edit(
    block: u32,
    offset: u16,
    edit: &HexEdit<'_>,
    new: &mut [u8],
    old: &mut [u8],
) -> FlatPatch
    requires edit { IsEditAt offset edit.now }
    requires new { bytes_limit ≤ length new.old }
    requires old { bytes_limit ≤ length old.old }
    ensures edit { flat_edit result new.new old.new ≡ Some edit.now }
    ensures record { result ≡ flat_patch_of block offset edit.now }
    ensures block { result.block ≡ block }
    ensures offset { result.offset ≡ offset }
    ensures new { new.new ≡ with_front (new_of edit.now) new.old }
    ensures old { old.new ≡ with_front (old_of edit.now) old.old }
{
    let place = FlatPatch {
        block,
        offset,
        ..BLANK
    };
    match edit {
        Edit::Put { bytes, was } => {
            let count = lend_bytes(bytes, new);
            let has_old = lend_old(was, count, old);
            FlatPatch {
                verb: SET,
                count,
                has_old,
                ..place
            }
        }
        Edit::Fill { count, value } => FlatPatch {
            verb: FILL,
            count: *count,
            value: *value,
            ..place
        },
        Edit::Rebuild => FlatPatch {
            verb: REBUILD,
            ..place
        },
        Edit::Address { bcd } => FlatPatch {
            verb: ADDRESS,
            address: *bcd,
            ..place
        },
    }
}

/// The record of a patch. Its new and old bytes are written to the front of the buffers.
pub(crate) fn lend_patch(patch: &HexPatch<'_>, new: &mut [u8], old: &mut [u8]) -> FlatPatch
    requires patch { IsPatch patch.now }
    requires new { bytes_limit ≤ length new.old }
    requires old { bytes_limit ≤ length old.old }
    ensures edit { flat_edit result new.new old.new ≡ Some patch.now.edit }
    ensures record { result ≡ flat_patch_of patch.now.block patch.now.offset patch.now.edit }
    ensures block { result.block ≡ patch.now.block }
    ensures offset { result.offset ≡ patch.now.offset }
    ensures new { new.new ≡ with_front (new_of patch.now.edit) new.old }
    ensures old { old.new ≡ with_front (old_of patch.now.edit) old.old }
{
    lend_edit(patch.block, patch.offset, &patch.edit, new, old)
}

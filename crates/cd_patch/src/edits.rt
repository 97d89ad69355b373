//! The meaning of each edit for the sectors that its patch meets. No other file of this crate
//! distinguishes the kinds of edits.

ghost use Rattle.std.specs.Prelude.{◌≡◌, ◌+◌, ◌*◌, ◌≤◌, ◌&&◌, length, not};
ghost use Rattle.cd_script.specs.Patch.{IsPatch};
ghost use Rattle.cd_patch.specs.Blocks.{block_limit, blocks_met, blocks_spanned};
ghost use Rattle.cd_patch.specs.EditMeaning.{meaning};
ghost use Rattle.cd_patch.specs.Parts.{bytes_to_write};

use cd_script::{Edit, HexEdit, HexPatch, LentBytes, Patch, lend};
use cd_sector::USER_SIZE;

/// The largest number of blocks that a patch may meet: from any offset, 4096 bytes lie in at most
/// three blocks.
pub const MAX_BLOCKS_MET: usize = 3;

/// User bytes that an edit writes.
#[derive(Clone, Copy)]
pub(crate) enum NewBytes<'a> {
    /// These bytes of the patch.
    Borrowed(&'a [u8]),
    /// This many bytes of one value.
    Repeated(usize, u8),
}

impl NewBytes<'_> {
    /// The number of bytes.
    pub(crate) fn len(&self) -> usize
        ensures { result ≡ length (bytes_to_write self.now) }
    {
        match self {
            NewBytes::Borrowed(bytes) => bytes.len(),
            NewBytes::Repeated(count, _) => *count,
        }
    }
}

/// The meaning of an edit for the blocks that its patch meets.
#[derive(Clone, Copy)]
pub(crate) struct EditMeaning<'a> {
    /// The user bytes that it writes, from the patch's offset on.
    pub(crate) bytes: NewBytes<'a>,
    /// The old bytes that must be in their place; empty if any bytes may be there.
    pub(crate) old: &'a [u8],
    /// The address that it writes into the header: minute, second, and fraction, each in BCD.
    pub(crate) address: Option<[u8; 3]>,
    /// Whether it changes the existing sector; false if it encodes the sector again.
    pub(crate) keeps_old: bool,
}

impl EditMeaning<'_> {
    /// Whether a damaged sector refuses the edit. It does not if damage is carried.
    pub(crate) fn needs_consistent(&self, carry: bool) -> bool
        ensures { result ≡ (self.now.keeps_old && not carry) }
    {
        self.keeps_old && !carry
    }
}

/// The meaning before a row of `meaning` sets its fields: nothing is written, no old bytes are
/// compared, and the sector is not encoded again.
const NOTHING: EditMeaning<'static> = EditMeaning {
    bytes: NewBytes::Borrowed(&[]),
    old: &[],
    address: None,
    keeps_old: true,
};

/// The meaning of an edit, with a row for each kind of edit.
pub(crate) fn meaning<'a>(edit: &Edit<LentBytes<'a>>) -> EditMeaning<'a>
    ensures bytes { bytes_to_write result.bytes ≡ (meaning edit.now).bytes }
    ensures old { result.old.now ≡ (meaning edit.now).old }
    ensures address { result.address ≡ (meaning edit.now).address }
    ensures keeps_old { result.keeps_old ≡ (meaning edit.now).keeps_old }
{
    match edit {
        Edit::Put { bytes, was } => EditMeaning {
            bytes: NewBytes::Borrowed(bytes.as_slice()),
            old: match was {
                Some(was) => was.as_slice(),
                None => &[],
            },
            ..NOTHING
        },
        Edit::Fill { count, value } => EditMeaning {
            bytes: NewBytes::Repeated(*count as usize, *value),
            ..NOTHING
        },
        Edit::Rebuild => EditMeaning {
            keeps_old: false,
            ..NOTHING
        },
        Edit::Address { bcd } => EditMeaning {
            address: Some(*bcd),
            ..NOTHING
        },
    }
}

/// The number of blocks that a patch meets, from 1 to [`MAX_BLOCKS_MET`]: its first block, and
/// those after it.
///
/// # Examples
///
/// ```
/// let script = parse(rt.alloc(), b"cdpatch 1\nset 5 2047 4142\n")?;
/// for patch in script.patches() {
///     assert_eq!(rt; blocks_met(patch), 2); // the last user byte of block 5, the first of 6
/// }
/// ```
pub fn blocks_met(patch: &Patch) -> usize
    requires { IsPatch patch.now }
    ensures number { result ≡ blocks_met patch.now }
    ensures some { 1 ≤ result }
    ensures few { result ≤ block_limit }
    ensures limit { MAX_BLOCKS_MET ≡ block_limit }
{
    blocks_met_lent(&lend(patch))
}

/// As [`blocks_met`], for a patch whose bytes are borrowed.
pub(crate) fn blocks_met_lent(patch: &Patch<LentBytes<'_>>) -> usize
    requires { IsPatch patch.now }
    ensures number { result ≡ blocks_met patch.now }
    ensures some { 1 ≤ result }
    ensures few { result ≤ block_limit }
{
    blocks_spanned(patch.offset, meaning(&patch.edit).bytes.len())
}

/// The number of user bytes written by an edit whose bytes are still the hex words of its line.
fn spelled_len(edit: &HexEdit<'_>) -> usize
    ensures { result ≡ length (meaning edit.now).bytes }
{
    match edit {
        Edit::Put { bytes, .. } => bytes.len(),
        Edit::Fill { count, .. } => *count as usize,
        Edit::Rebuild | Edit::Address { .. } => 0,
    }
}

/// As [`blocks_met`], for a patch whose bytes are still the hex words of its line.
///
/// # Examples
///
/// ```
/// let line = b"set 5 2047 4142".as_slice();
/// let Ok(LineContent::Patch(patch)) = read_line(Some(Version::One), 2, 0, line) else {
///     panic!(rt; "not a patch");
/// };
/// assert_eq!(rt; blocks_met_spelled(&patch), 2);
/// ```
pub fn blocks_met_spelled(patch: &HexPatch<'_>) -> usize
    requires { IsPatch patch.now }
    ensures number { result ≡ blocks_met patch.now }
    ensures some { 1 ≤ result }
    ensures few { result ≤ block_limit }
{
    blocks_spanned(patch.offset, spelled_len(&patch.edit))
}

/// The number of blocks in which `count` user bytes from `offset` on lie. No bytes count as lying
/// in one block.
fn blocks_spanned(offset: u16, count: usize) -> usize
    requires room { offset + count ≤ USER_SIZE * block_limit }
    ensures number { result ≡ blocks_spanned offset count }
    ensures some { 1 ≤ result }
    ensures few { result ≤ block_limit }
{
    (offset as usize + count).saturating_sub(1) / USER_SIZE + 1
}

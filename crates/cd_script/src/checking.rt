//! Checks whether a patch that was not read from a script keeps to the limits of the language.

ghost use Rattle.std.specs.Prelude.{◌≤◌, ◌↔◌, IsTrue};
ghost use Rattle.cd_script.specs.Address.{IsAddress, IsBcd};
ghost use Rattle.cd_script.specs.Patch.{IsBytes, IsPatch};

use crate::bytes::LentBytes;
use crate::limits::{FRACTIONS, MAX_BYTES, MAX_NUMBER, MAX_OFFSET, MINUTES, SECONDS};
use crate::patch::{Patch, is_edit_at};

/// Whether a byte is a number in BCD below a limit, which is at most 100.
fn is_bcd(limit: u8, byte: u8) -> bool
    requires { limit ≤ 100 }
    ensures { IsTrue result ↔ IsBcd limit byte }
{
    byte % 16 < 10 && 10 * (byte / 16) + byte % 16 < limit
}

/// Whether three bytes are a minute, a second and a fraction, each in BCD.
pub(crate) fn is_address(bcd: &[u8; 3]) -> bool
    ensures { IsTrue result ↔ IsAddress bcd.now }
{
    let [minute, second, fraction] = *bcd;
    is_bcd(MINUTES, minute) && is_bcd(SECONDS, second) && is_bcd(FRACTIONS, fraction)
}

/// Whether the number of bytes is from 1 to `MAX_BYTES`.
pub(crate) fn are_bytes(bytes: &[u8]) -> bool
    ensures { IsTrue result ↔ IsBytes bytes.now }
{
    !bytes.is_empty() && bytes.len() <= MAX_BYTES
}

/// Whether a patch keeps to the limits of the language, as each patch of a script does: its block,
/// offset, count, and address, and as many old bytes as new bytes.
///
/// # Examples
///
/// ```
/// let patch = Patch {
///     line: 2,
///     block: 16,
///     offset: 2047,
///     edit: Edit::Rebuild,
/// };
/// assert!(rt; !is_patch(&patch)); // a rebuild is of a whole block
/// ```
pub fn is_patch(patch: &Patch<LentBytes<'_>>) -> bool
    ensures { IsTrue result ↔ IsPatch patch.now }
{
    patch.block <= MAX_NUMBER
        && u32::from(patch.offset) <= MAX_OFFSET
        && is_edit_at(patch.offset, &patch.edit)
}

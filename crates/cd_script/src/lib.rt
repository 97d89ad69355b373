//! Reads scripts in the patch language, versions 1 and 2: the patches of a text, or its first
//! error. Writes the lines of patches.
//!
//! A text is split into lines at each line feed. The line feed, and one carriage return directly
//! before it, do not belong to a line. The bytes after the last line feed, if any, are a line too.
//! The words of a line are its parts between spaces and tabs. Lines without words, and lines whose
//! first word begins with `#`, are skipped, but counted. The first other line is the head line,
//! `cdpatch 1` or `cdpatch 2`, which names the version. Each later line is a patch:
//!
//! - `set BLOCK OFFSET NEW`: user bytes from that offset of that block become NEW;
//! - `set BLOCK OFFSET NEW was OLD`: these bytes become NEW, if they are OLD before;
//! - `fill BLOCK OFFSET COUNT BYTE`: COUNT user bytes become BYTE;
//! - `rebuild BLOCK`: EDC, Intermediate, and parity of the block are recalculated;
//! - `address BLOCK MM:SS:FF`, only in version 2: the header of the block gets this address.
//!
//! BLOCK, OFFSET (0 to [`MAX_OFFSET`]), and COUNT (1 to [`MAX_BYTES`]) are 1 to [`MAX_DIGITS`]
//! decimal digits. NEW (1 to [`MAX_BYTES`] bytes), OLD (as many bytes as NEW), and BYTE (one byte)
//! are two hex digits for each byte, in either case. MM (00 to 99), SS (00 to 59), and FF (00 to
//! 74) are two decimal digits each. A text has at most [`MAX_TEXT`] bytes, and a script at most
//! [`MAX_PATCHES`] patches.
//!
//! The error of a text is the error of its first faulty line. In a line the verb is tested first,
//! then the number of words, then the words from the left, and last whether the script has too many
//! patches. The patches of a script are sorted by their first blocks. Patches with the same first
//! block keep the order of the script, whatever their offsets.
//!
//! [`parse`] reads a text, and returns a [`Script`] or the [`ScriptFault`] of its first faulty line:
//!
//! ```
//! let script = parse(rt.alloc(), b"cdpatch 1\nrebuild 16\nset 5 0 4869\n")?;
//! assert_eq!(rt; script.patches().first().map(|patch| patch.block), Some(5)); // then that of 16
//! ```
//!
//! A reader that has no memory, or that receives one line at a time, splits a text with
//! [`first_line`] and reads each line with [`read_line`]. The law [`reads_by_line`] says that the
//! result is the same. [`write_patch`] writes the line of a patch.
//!
//! Tests: `crates/cd_low_tests/src/tests/scripts.rt`.
#![tactic(auto)]

mod address;
mod by_line;
mod bytes;
mod checking;
mod cutting;
mod fault;
mod hex_patch;
mod hex_word;
mod laws;
mod limits;
mod line;
mod patch;
mod script;
mod value;
mod version;
mod words;
mod writing;

pub use by_line::{LineContent, read_line};
pub use bytes::{LentBytes, PatchBytes};
pub use checking::is_patch;
pub use cutting::{TextLine, first_line};
pub use fault::ScriptFault;
pub use hex_patch::{HexEdit, HexPatch};
pub use hex_word::HexWord;
pub use laws::{
    first_stays, limits_agree, order_keeps_ties, order_permutes, order_rises, reads_by_line,
    second_extends, spelling_reads,
};
pub use limits::{MAX_BYTES, MAX_DIGITS, MAX_NUMBER, MAX_OFFSET, MAX_PATCHES, MAX_TEXT};
pub use patch::{Edit, Patch, lend, without_old};
pub use script::{Script, parse};
pub use value::number;
pub use version::Version;
pub use writing::write_patch;

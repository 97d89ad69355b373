//! The texts for the results of calls of C.

ghost use Rattle.std.specs.Prelude.{◌≡◌, ◌++◌, ◌≤◌, drop, length};
ghost use Rattle.cd_c.specs.Texts.{result_text};

use cd_line::LINE_SIZE;
use cd_patch::result_numbers::{DAMAGED, DIFFERS, NO_BLOCK, NO_PATCH, NOT_MODE1, OK, OUT_OF_RANGE};

/// The words for a result; empty for any other number.
#[tactic(auto, unfolding(crate::specs::Texts::result_text))]
fn words_for(number: u32) -> &'static [u8]
    ensures words { result.now ≡ result_text number }
    ensures room { length result.now ≤ LINE_SIZE }
{
    match number {
        OK => b"done",
        NOT_MODE1 => b"the sector is not a Mode 1 sector",
        DAMAGED => b"the sector is damaged",
        OUT_OF_RANGE => b"the bytes are not within the user data",
        NO_BLOCK => b"the image has no such block",
        DIFFERS => b"the old bytes differ",
        NO_PATCH => b"the record is not one of a patch",
        _ => b"",
    }
}

/// Writes the words for a result to the front of `text`, and returns their size in bytes: 0 for any
/// other number. The rest of `text` does not change.
#[unsafe(no_mangle)]
pub extern "C" fn cdpatch_result_text(number: u32, text: &mut [u8; LINE_SIZE]) -> usize
    ensures count { result ≡ length (result_text number) }
    ensures text { text.new ≡ result_text number ++ drop (length (result_text number)) text.old }
{
    let words = words_for(number);
    text[..words.len()].copy_from_slice(words);
    words.len()
}

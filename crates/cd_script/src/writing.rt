//! Writes the lines of patches.

ghost use Rattle.std.specs.Prelude.{◌≡◌, ◌<◌, ◌≤◌, ◌+◌, ◌*◌, ◌++◌, IfSome, codes, decimal, drop, length, take};
ghost use Rattle.hex.specs.Hex.{encode_upper};
ghost use Rattle.cd_script.specs.declared.patch.Edit.TheVariants.{Address, Fill, Put, Rebuild};
ghost use Rattle.cd_script.specs.Limits.{bytes_limit};
ghost use Rattle.cd_script.specs.Patch.{IsEditAt, IsPatch};
ghost use Rattle.cd_script.specs.Spelling.{IsReadAs, address_word, edit_words, high_digit, low_digit, spelled_line, spelled_patch};
ghost use Rattle.cd_script.specs.Writing.{IsPut, IsLineWritten, old_part};

use crate::bytes::LentBytes;
use crate::patch::{Edit, Patch};
use cd_line::Line;

/// Writes the line of a patch, with its line feed, to the front of `room`, and returns its size in
/// bytes. If `room` is too small for it, nothing is written. After a head line, of version 2 for an
/// address, the line is read as this patch. Hex digits are upper case, as in the scripts of
/// cdscript.
///
/// The patch must keep to the limits of the language ([`is_patch`](crate::is_patch)). Its `line` has
/// no effect.
///
/// # Examples
///
/// ```
/// let bytes = LentBytes::new(b"Hi");
/// let patch = Patch {
///     line: 0,
///     block: 5,
///     offset: 16,
///     edit: Edit::Put { bytes, was: None },
/// };
/// let mut room = [0x00; 20];
/// if is_patch(&patch) {
///     let size = write_patch(&patch, &mut room);
///     assert_eq!(rt; &room[..size], b"set 5 16 4869\n".as_slice());
/// }
/// ```
pub fn write_patch(patch: &Patch<LentBytes<'_>>, room: &mut [u8]) -> usize
    requires { IsPatch patch.now }
    ensures size { result ≡ length (spelled_patch patch.now) }
    ensures line { result ≤ length room.old
        → room.new ≡ spelled_patch patch.now ++ drop result room.old }
    ensures stays { length room.old < result → room.new ≡ room.old }
    ensures reads { result ≤ length room.old → IsReadAs (take result room.new) patch.now }
{
    match &patch.edit {
        Edit::Put { bytes, was } => write_put(patch.block, patch.offset, bytes, was, room),
        Edit::Fill { count, value } => {
            write_line(&fill_line(patch.block, patch.offset, *count, *value), room)
        }
        Edit::Rebuild => write_line(&rebuild_line(patch.block), room),
        Edit::Address { bcd } => write_line(&address_line(patch.block, bcd), room),
    }
}

/// Writes the line of a `set`.
fn write_put(
    block: u32,
    offset: u16,
    bytes: &LentBytes<'_>,
    was: &Option<LentBytes<'_>>,
    room: &mut [u8],
) -> usize
    requires { IsEditAt offset (Put bytes.now was.now) }
    ensures { IsLineWritten (spelled_line (edit_words block offset (Put bytes.now was.now)))
        room.old room.new result }
{
    let head = put_head(block, offset);
    let words = head.as_slice();
    let new = bytes.as_slice();
    let size = words.len() + 2 * new.len() + old_size(was) + 1;
    if size <= room.len() {
        let new_place = put_text(room, 0, words);
        let old_place = put_hex(room, new_place, new);
        let end = put_old(room, old_place, was);
        put_text(room, end, b"\n");
    }
    size
}

/// The size of the part of a line that has the old bytes.
fn old_size(was: &Option<LentBytes<'_>>) -> usize
    requires { IfSome was.now (λ old. length old ≤ bytes_limit) }
    ensures size { result ≡ length (old_part was.now) }
    ensures few { result ≤ 5 + 2 * bytes_limit }
{
    match was {
        Some(old) => 5 + 2 * old.as_slice().len(),
        None => 0,
    }
}

/// Writes the part of a line that has the old bytes, and returns the place after it.
fn put_old(room: &mut [u8], at: usize, was: &Option<LentBytes<'_>>) -> usize
    requires { at + length (old_part was.now) ≤ length room.old }
    ensures { IsPut (old_part was.now) at room.old room.new result }
{
    match was {
        Some(old) => {
            let place = put_text(room, at, b" was ");
            put_hex(room, place, old.as_slice())
        }
        None => at,
    }
}

/// Writes bytes as upper-case hex digits, and returns the place after them.
fn put_hex(room: &mut [u8], at: usize, bytes: &[u8]) -> usize
    requires { at + 2 * length bytes.now ≤ length room.old }
    ensures { IsPut (encode_upper bytes.now) at room.old room.new result }
{
    let end = at + 2 * bytes.len();
    spell_hex(bytes, &mut room[at..end]);
    end
}

/// Writes bytes as upper-case hex digits to a slice of the right size.
fn spell_hex(bytes: &[u8], digits: &mut [u8])
    requires { length digits.old ≡ 2 * length bytes.now }
    ensures { digits.new ≡ encode_upper bytes.now }
{
    hex::encode_to_slice(bytes, digits).unwrap();
    digits.make_ascii_uppercase();
}

/// Writes a text, and returns the place after it.
fn put_text(room: &mut [u8], at: usize, text: &[u8]) -> usize
    requires { at + length text.now ≤ length room.old }
    ensures { IsPut text.now at room.old room.new result }
{
    let end = at + text.len();
    room[at..end].copy_from_slice(text);
    end
}

/// Writes a line to the front of a room if it fits, and returns its size.
fn write_line(line: &Line, room: &mut [u8]) -> usize
    ensures { IsLineWritten line.now room.old room.new result }
{
    let text = line.as_slice();
    if text.len() <= room.len() {
        put_text(room, 0, text);
    }
    text.len()
}

/// The words of a `set` before its bytes.
fn put_head(block: u32, offset: u16) -> Line
    ensures text { result ≡ codes "set " ++ decimal block ++ codes " " ++ decimal offset ++ codes " " }
    ensures few { length result ≤ 26 }
{
    let mut line = Line::new();
    line.push_text(b"set ");
    line.push_number(block);
    line.push_text(b" ");
    line.push_number(u32::from(offset));
    line.push_text(b" ");
    line
}

/// The line of a `fill`.
fn fill_line(block: u32, offset: u16, count: u16, value: u8) -> Line
    ensures { result ≡ spelled_line (edit_words block offset (Fill count value)) }
{
    let mut digits = [0x00; 2];
    spell_hex(&[value], &mut digits);
    let mut line = Line::new();
    line.push_text(b"fill ");
    line.push_number(block);
    line.push_text(b" ");
    line.push_number(u32::from(offset));
    line.push_text(b" ");
    line.push_number(u32::from(count));
    line.push_text(b" ");
    line.push_text(&digits);
    line.push_text(b"\n");
    line
}

/// The line of a `rebuild`.
fn rebuild_line(block: u32) -> Line
    ensures { result ≡ spelled_line (edit_words block 0 Rebuild) }
{
    let mut line = Line::new();
    line.push_text(b"rebuild ");
    line.push_number(block);
    line.push_text(b"\n");
    line
}

/// The line of an `address`.
fn address_line(block: u32, bcd: &[u8; 3]) -> Line
    ensures { result ≡ spelled_line (edit_words block 0 (Address bcd.now)) }
{
    let mut line = Line::new();
    line.push_text(b"address ");
    line.push_number(block);
    line.push_text(b" ");
    line.push_text(&address_word(bcd));
    line.push_text(b"\n");
    line
}

/// An address as MM:SS:FF.
#[tactic(auto, unfolding(crate::specs::Spelling::address_word))]
fn address_word(bcd: &[u8; 3]) -> [u8; 8]
    ensures { result ≡ address_word bcd.now }
{
    let [minute, second, fraction] = *bcd;
    [
        high_digit(minute),
        low_digit(minute),
        b':',
        high_digit(second),
        low_digit(second),
        b':',
        high_digit(fraction),
        low_digit(fraction),
    ]
}

/// The high digit of a byte in BCD.
fn high_digit(byte: u8) -> u8
    ensures { result ≡ high_digit byte }
{
    b'0' + byte / 16
}

/// The low digit of a byte in BCD.
fn low_digit(byte: u8) -> u8
    ensures { result ≡ low_digit byte }
{
    b'0' + byte % 16
}

//! Splits the text of a script into lines.

ghost use Rattle.std.specs.Prelude.{◌≡◌, ℕ, ◌==◌, ◌∷◌, ◌<◌, ◌≤◌, ◌⊎◌, [], IfNone, IfSome, Some, drop, length, slice_index, take, true};
ghost use Rattle.std.specs.Str.Lines.{lines, strip_carriage_return};
ghost use Rattle.cd_script.specs.LineEnd.{IsLineEnd};
ghost use Rattle.memchr.specs.Find.{IsFirstByte, Nowhere, Passes};

use memchr::memchr;

/// The size of the first line of a text, without its line end and with it. It has the layout of
/// `struct cdpatch_line` of C.
#[derive(Clone, Copy, Debug, PartialEq, Eq)]
#[repr(C)]
pub struct TextLine {
    /// The number of bytes of the line without its line end.
    pub size: usize,
    /// The number of bytes of the line with its line end.
    pub taken: usize,
}

/// The number of bytes of a line that are searched before `memchr` is called. `memchr` needs some
/// forty instructions before it reads a byte, and hundreds in a WebAssembly module.
const SHORT: usize = 32;

/// The bit 32 of each of eight bytes.
const BITS: u64 = 0x2020_2020_2020_2020;

/// Whether each of eight bytes has the bit 32 or the bit 64. All letters, digits, and signs of
/// ASCII have at least one of these bits, and so has a space. A line feed has neither.
fn are_printed(bytes: &[u8; 8]) -> bool
    ensures { result ≡ true → (k : ℕ) → k < 8 → ¬ (slice_index bytes.now k ≡ 10) }
{
    let word = u64::from_le_bytes(*bytes);
    (word | word >> 1) & BITS == BITS
}

/// Skips bytes at the front of a text, eight at a time, as long as a quick test shows that they are
/// not line feeds. Returns the number of these bytes.
fn passed_by_eights(text: &[u8]) -> usize
    ensures none { Nowhere (Passes (λ b. b == 10) text.now) 0 result }
    ensures within { result ≤ length text.now }
{
    let mut passed = 0;
    let mut rest = text;
    while let Some((eight, after)) = rest.split_first_chunk::<8>() {
        if passed >= SHORT || !are_printed(eight) {
            return passed;
        }
        passed += 8;
        rest = after;
    }
    passed
}

/// The place of the first line feed, if it ends a short line. `None` means only that it was not
/// found here.
fn find_near_feed(text: &[u8]) -> Option<usize>
    ensures { IfSome result (λ feed. IsFirstByte (λ b. b == 10) text.now (Some feed)) }
{
    let passed = passed_by_eights(text);
    if passed >= SHORT {
        return None;
    }
    for at in passed..text.len().min(passed + 16) {
        if text[at] == b'\n' {
            return Some(at);
        }
    }
    None
}

/// The place of the first line feed.
fn find_feed(text: &[u8]) -> Option<usize>
    ensures { IsFirstByte (λ b. b == 10) text.now result }
{
    match find_near_feed(text) {
        Some(feed) => Some(feed),
        None => memchr(b'\n', text),
    }
}

/// The number of bytes of a line, without a carriage return directly before the line feed.
fn size_before_feed(line: &[u8]) -> usize
    ensures line { take result line.now ≡ strip_carriage_return line.now }
    ensures end { (drop result line.now ≡ []) ⊎ (drop result line.now ≡ 13 ∷ []) }
    ensures most { result ≤ length line.now }
{
    match line {
        [.., b'\r'] => line.len() - 1,
        _ => line.len(),
    }
}

/// The first line of a text; `None` if the text is empty. A line ends with a line feed, or with a
/// carriage return and a line feed, or at the end of the text.
///
/// # Examples
///
/// ```
/// let text = b"rebuild 7\r\nrebuild 8";
/// let line = first_line(text).map(|line| (line.size, line.taken));
/// assert_eq!(rt; line, Some((9, 11))); // two bytes are its end
/// ```
pub fn first_line(text: &[u8]) -> Option<TextLine>
    ensures none { IfNone result (lines text.now ≡ []) }
    ensures some { IfSome result (λ at. lines text.now
        ≡ take at.size text.now ∷ lines (drop at.taken text.now)) }
    ensures end { IfSome result (λ at. IsLineEnd text.now at.size at.taken) }
    ensures order { IfSome result (λ at. at.size ≤ at.taken) }
    ensures within { IfSome result (λ at. at.taken ≤ length text.now) }
    ensures goes { IfSome result (λ at. 0 < at.taken) }
{
    if text.is_empty() {
        return None;
    }
    match find_feed(text) {
        None => Some(TextLine {
            size: text.len(),
            taken: text.len(),
        }),
        Some(feed) => Some(TextLine {
            size: size_before_feed(&text[..feed]),
            taken: feed + 1,
        }),
    }
}

//! One line of a report, a log, or a message, built in a fixed buffer.

ghost use Rattle.std.specs.Prelude.{◌≡◌, ◌+◌, ◌≤◌, [], ◌++◌, decimal, drop, length, take};

use arrayvec::ArrayVec;
use itoa::Buffer;
use std::marker::Model;

/// The largest number of bytes in a line. The longest line reports the place where old bytes
/// differ: 51 bytes of text and three numbers of up to ten digits. Each `push` requires that there
/// is room, so a line never allocates memory.
pub const LINE_SIZE: usize = 96;

/// A line that is being built. Contracts see it as the list of its bytes.
#[derive(Debug, Drop)]
pub struct Line {
    bytes: ArrayVec<u8, LINE_SIZE>,
}

impl Model for Line {
    ghost use Rattle.std.specs.Prelude.{ℕ, List, ◌≤◌, length};
    ghost use Rattle.cd_line.specs.declared.line.TheConstants.{LINE_SIZE};

    ghost Value = { List ℕ };

    ghost view = { λ line. line.bytes.items };

    ghost invariant = { λ line. length line.bytes.items ≤ LINE_SIZE };
}

impl Line {
    /// Creates an empty line.
    ///
    /// # Examples
    ///
    /// ```
    /// let mut line = Line::new();
    /// line.push_text(b"sectors ");
    /// line.push_number(8);
    /// assert_eq!(rt; line.as_slice(), b"sectors 8".as_slice());
    /// ```
    pub fn new() -> Self
        ensures empty { result ≡ [] }
        ensures room { LINE_SIZE ≡ 96 }
    {
        Line {
            bytes: ArrayVec::new(),
        }
    }

    /// Appends a text. The line must have room for it: both together have at most [`LINE_SIZE`]
    /// bytes.
    ///
    /// See the example of [`Line::new`].
    pub fn push_text(&mut self, text: &[u8])
        requires { length self.old + length text.now ≤ LINE_SIZE }
        ensures { self.new ≡ self.old ++ text.now }
    {
        let _ = self.bytes.try_extend_from_slice(text);
    }

    /// Appends a number in decimal. The line must have room for ten digits.
    ///
    /// See the example of [`Line::new`].
    pub fn push_number(&mut self, number: u32)
        requires { length self.old + 10 ≤ LINE_SIZE }
        ensures line { self.new ≡ self.old ++ decimal number }
        ensures size { length self.new ≤ length self.old + 10 }
    {
        self.push_text(Buffer::new().format(number).as_bytes());
    }

    /// The bytes so far.
    ///
    /// See the example of [`Line::new`].
    pub fn as_slice(&self) -> &[u8]
        ensures bytes { result.now ≡ self.now }
        ensures few { length result.now ≤ LINE_SIZE }
    {
        self.bytes.as_slice()
    }

    /// Writes the line to the front of `text`, and returns its size in bytes. The rest of `text`
    /// does not change.
    ///
    /// # Examples
    ///
    /// ```
    /// let mut line = Line::new();
    /// line.push_number(8);
    /// let mut text = [7; LINE_SIZE];
    /// assert_eq!(rt; line.write_to(&mut text), 1);
    /// assert_eq!(rt; &text[..2], [b'8', 7].as_slice());
    /// ```
    pub fn write_to(&self, text: &mut [u8; LINE_SIZE]) -> usize
        ensures size { result ≡ length self.now }
        ensures few { result ≤ LINE_SIZE }
        ensures line { take result text.new ≡ self.now }
        ensures rest { drop result text.new ≡ drop result text.old }
    {
        let bytes = self.as_slice();
        text[..bytes.len()].copy_from_slice(bytes);
        bytes.len()
    }
}

/// Makes a line of this text, which includes its line feed.
///
/// # Examples
///
/// ```
/// assert_eq!(rt; text_line(b"no memory\n").as_slice(), b"no memory\n".as_slice());
/// ```
pub fn text_line(text: &[u8]) -> Line
    requires { length text.now ≤ LINE_SIZE }
    ensures { result ≡ text.now }
{
    let mut line = Line::new();
    line.push_text(text);
    line
}

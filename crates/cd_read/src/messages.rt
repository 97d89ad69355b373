//! The messages for a call on an image that ended early: lines with their line feeds.

ghost use Rattle.std.specs.Prelude.{◌≡◌, ◌<◌, ◌≤◌, length};
ghost use Rattle.cd_read.specs.Messages.{failed_read, fault_line, long_image};

use crate::fault::Fault;
use cd_line::{LINE_SIZE, Line, text_line};
use cd_sector::MAX_SECTORS;

/// The message for an image that has too many sectors.
///
/// # Examples
///
/// ```
/// let line = long_image_line();
/// assert!(rt; line.as_slice().starts_with(b"cdpatch: the image has more than "));
/// ```
#[tactic(auto, unfolding(crate::specs::Messages::long_image))]
pub fn long_image_line() -> Line
    ensures line { result ≡ long_image }
    ensures some { 0 < length result }
    ensures room { length result ≤ LINE_SIZE }
{
    let mut line = Line::new();
    line.push_text(b"cdpatch: the image has more than ");
    line.push_number(MAX_SECTORS);
    line.push_text(b" sectors\n");
    line
}

/// The message for a failed read of an image.
///
/// # Examples
///
/// ```
/// let line = failed_read_line();
/// assert_eq!(rt; line.as_slice(), b"cdpatch: reading the image failed\n".as_slice());
/// ```
pub fn failed_read_line() -> Line
    ensures line { result ≡ failed_read }
    ensures some { 0 < length result }
    ensures room { length result ≤ LINE_SIZE }
{
    text_line(b"cdpatch: reading the image failed\n")
}

/// The message for an error of a call on an image. A failed log has none, since the messages go to
/// the log.
#[tactic(auto, unfolding(crate::specs::Messages::fault_line))]
pub(crate) fn fault_line(fault: Fault) -> Line
    ensures { result ≡ fault_line fault }
{
    match fault {
        Fault::Read => failed_read_line(),
        Fault::Write => text_line(b"cdpatch: writing the output failed\n"),
        Fault::Log => Line::new(),
        Fault::TooLong => long_image_line(),
    }
}

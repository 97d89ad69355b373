//! The messages for a script that cannot be run: lines with their line feeds.

ghost use Rattle.std.specs.Prelude.{◌≡◌, ◌<◌, ◌≤◌, length};
ghost use Rattle.cd_run.specs.Messages.{long_script, numbered_line, script_fault_line};

use cd_line::{LINE_SIZE, Line, text_line};
use cd_script::{MAX_TEXT, ScriptFault};

/// The message for a script that has too many bytes.
///
/// # Examples
///
/// ```
/// let line = long_script_line();
/// assert!(rt; line.as_slice().starts_with(b"cdpatch: the script is longer than "));
/// ```
#[tactic(auto, unfolding(crate::specs::Messages::long_script))]
pub fn long_script_line() -> Line
    ensures line { result ≡ long_script }
    ensures some { 0 < length result }
    ensures room { length result ≤ LINE_SIZE }
{
    let mut line = Line::new();
    line.push_text(b"cdpatch: the script is longer than ");
    line.push_number(MAX_TEXT as u32);
    line.push_text(b" bytes\n");
    line
}

/// Formats `script line NUMBER: TEXT`; the text has at most 40 bytes.
#[tactic(auto, unfolding(crate::specs::Messages::numbered_line))]
fn numbered_line(number: u32, text: &[u8]) -> Line
    requires { length text.now ≤ 40 }
    ensures line { result ≡ numbered_line number text.now }
    ensures some { 0 < length result }
    ensures room { length result ≤ LINE_SIZE }
{
    let mut line = Line::new();
    line.push_text(b"script line ");
    line.push_number(number);
    line.push_text(b": ");
    line.push_text(text);
    line.push_text(b"\n");
    line
}

/// The message for an error in a script, with the number of the script line that has it. The
/// message for a lack of memory has no number.
///
/// # Examples
///
/// ```
/// let line = script_fault_line(ScriptFault::Hex(3));
/// assert!(rt; line.as_slice().starts_with(b"script line 3: "));
/// ```
pub fn script_fault_line(fault: ScriptFault) -> Line
    ensures line { result ≡ script_fault_line fault }
    ensures some { 0 < length result }
    ensures room { length result ≤ LINE_SIZE }
{
    match fault {
        ScriptFault::NoMemory => text_line(b"script: no memory\n"),
        other => numbered_line(other.line(), other.text().as_bytes()),
    }
}

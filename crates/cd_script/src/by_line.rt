//! Reads one line of a script by itself.

ghost use Rattle.std.specs.Prelude.{◌≡◌, IfOk, None, Some};
ghost use Rattle.cd_script.specs.ByLine.{KeepsToLimits, head_meaning, meaning_at, patch_meaning};

use crate::fault::ScriptFault;
use crate::hex_patch::HexPatch;
use crate::script::{head_on_line, patch_on_line};
use crate::version::Version;

/// The content of one line of a script.
#[derive(Drop)]
pub enum LineContent<'a> {
    /// The line is blank or a comment.
    PassedOver,
    /// The line is the head line, with this version.
    Head(Version),
    /// The line has this patch.
    Patch(HexPatch<'a>),
}

/// Converts the version that was found in a line, if any, to the content of the line.
fn head_content<'a>(found: Option<Version>) -> LineContent<'a>
    ensures { result ≡ head_meaning found }
{
    match found {
        None => LineContent::PassedOver,
        Some(version) => LineContent::Head(version),
    }
}

/// Converts the patch that was found in a line, if any, to the content of the line.
fn patch_content(found: Option<HexPatch<'_>>) -> LineContent<'_>
    ensures { result ≡ patch_meaning found.entry }
{
    match found {
        None => LineContent::PassedOver,
        Some(patch) => LineContent::Patch(patch),
    }
}

/// Reads a line that no head line precedes.
fn content_above<'a>(line: u32, text: &[u8]) -> Result<LineContent<'a>, ScriptFault>
    ensures { result ≡ meaning_at None line 0 text.now }
{
    let found = head_on_line(line, text)?;
    Ok(head_content(found))
}

/// Reads a line after a head line with this version and `earlier` patches.
fn content_below<'a>(
    version: Version,
    line: u32,
    earlier: usize,
    text: &'a [u8],
) -> Result<LineContent<'a>, ScriptFault>
    ensures { result ≡ meaning_at (Some version) line earlier text.now }
{
    let found = patch_on_line(version, line, earlier, text)?;
    Ok(patch_content(found))
}

/// Reads one line of a script, without its line end, for a reader that receives one line at a time.
/// It allocates no memory.
///
/// `version` is the version of the head line, `None` if there was none before. `line` is the number
/// of the line, counted from 1. `earlier` is the number of patches before it. The reader itself
/// must notice that a text has no head line, which is [`ScriptFault::Head`] after its last line.
///
/// # Errors
///
/// The error of the line, which is never [`ScriptFault::NoMemory`].
///
/// # Examples
///
/// ```
/// let Ok(LineContent::Head(version)) = read_line(None, 1, 0, b"cdpatch 1") else {
///     panic!(rt; "not a head line");
/// };
/// let Ok(LineContent::Patch(patch)) = read_line(Some(version), 2, 0, b"rebuild 16") else {
///     panic!(rt; "not a patch");
/// };
/// assert_eq!(rt; (patch.line, patch.block), (2, 16));
/// let fault = read_line(Some(version), 3, 1, b"rebuild x").err();
/// assert_eq!(rt; fault, Some(ScriptFault::Number(3)));
/// ```
pub fn read_line<'a>(
    version: Option<Version>,
    line: u32,
    earlier: usize,
    text: &'a [u8],
) -> Result<LineContent<'a>, ScriptFault>
    ensures meaning { result ≡ meaning_at version line earlier text.now }
    ensures limits { IfOk result KeepsToLimits }
{
    match version {
        None => content_above(line, text),
        Some(version) => content_below(version, line, earlier, text),
    }
}

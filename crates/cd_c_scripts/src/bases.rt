//! The call of C that finds out for which base a script was made.

ghost use Rattle.std.specs.Prelude.{◌≡◌, ◌-◌, ◌<◌, None, Some, false, length, take, true};
ghost use Rattle.std.specs.Str.Lines.{lines};
ghost use Rattle.cd_script.specs.Words.{is_space};
ghost use Rattle.cd_c_scripts.specs.Bases.{first_other, named_base, other_base, trimmed};

use crate::entries::rest_of;
use cd_script::{first_line, number};

/// A line that names a base, as C's `struct cdpatch_named_base`.
#[derive(Clone, Copy)]
#[repr(C)]
pub struct NamedBase {
    /// The number of the line in the script.
    pub line: usize,
    /// The base.
    pub base: u32,
    /// Room for a later release.
    pub spare: u32,
}

/// Whether a byte is a space or a tab.
fn is_space(byte: u8) -> bool
    ensures { result ≡ is_space byte }
{
    byte == b' ' || byte == b'\t'
}

/// Whether a line ends with a space or a tab.
fn ends_in_space(line: &[u8]) -> bool
    ensures some { result ≡ true → 0 < length line.now }
    ensures more { result ≡ true
        → trimmed (take (length line.now - 1) line.now) ≡ trimmed line.now }
    ensures end { result ≡ false → trimmed line.now ≡ line.now }
{
    !line.is_empty() && is_space(line[line.len() - 1])
}

/// A line without the spaces and tabs at its end.
fn trimmed(line: &[u8]) -> &[u8]
    ensures { result.now ≡ trimmed line.now }
{
    let mut rest = line;
    while ends_in_space(rest) {
        rest = &rest[..rest.len() - 1];
    }
    rest
}

/// The base that a line names, if it names one.
fn named_base(line: &[u8]) -> Option<u32>
    ensures { result ≡ named_base line.now }
{
    let line = trimmed(line);
    if !line.starts_with(b"# base ") {
        return None;
    }
    number(&line[7..])
}

/// A line and the base that it names, if this is not the base of the image.
fn other_base(base: u32, line: usize, text: &[u8]) -> Option<NamedBase>
    ensures { result ≡ other_base base line (named_base text.now) }
{
    let named = named_base(text)?;
    if named == base {
        return None;
    }
    Some(NamedBase {
        line,
        base: named,
        spare: 0,
    })
}

/// The first line of a script that names another base.
fn first_other(script: &[u8], base: u32) -> Option<NamedBase>
    ensures { result ≡ first_other base 1 (lines script.now) }
{
    let mut number = 0;
    let mut start = 0;
    while let Some(line) = first_line(rest_of(script, start)) {
        number += 1;
        let rest = rest_of(script, start);
        if let Some(named) = other_base(base, number, &rest[..line.size]) {
            return Some(named);
        }
        start += line.taken;
    }
    None
}

/// Finds the first line of a script that names a base other than `base`, and returns whether there
/// is one. Such a line, for example `# base 150`, is a comment for all other calls.
#[unsafe(no_mangle)]
pub extern "C" fn cdpatch_script_base(script: &[u8], base: u32, other: &mut NamedBase) -> bool
    ensures found { result ≡ true → first_other base 1 (lines script.now) ≡ Some other.new }
    ensures none { result ≡ false → first_other base 1 (lines script.now) ≡ None }
    ensures stays { result ≡ false → other.new ≡ other.old }
{
    match first_other(script, base) {
        Some(named) => {
            *other = named;
            true
        }
        None => false,
    }
}

//! Reads the value of one word of a line.

ghost use Rattle.std.specs.Prelude.{◌≡◌};
ghost use Rattle.cd_script.specs.Number.{number};
ghost use Rattle.cd_script.specs.Value.{address_at, number_at, hex_at, offset_at, count_at, new_at, old_at, byte_at};

use crate::address::address;
use crate::fault::ScriptFault;
use crate::hex_word::HexWord;
use crate::limits::{MAX_BYTES, MAX_DIGITS, MAX_OFFSET};

/// The value of 1 to 9 decimal digits; `None` for any other word.
///
/// # Examples
///
/// ```
/// assert_eq!(rt; number(b"150"), Some(150));
/// assert_eq!(rt; number(b"-1"), None);
/// ```
#[tactic(auto, unfolding(crate::specs::Number::number))]
pub fn number(word: &[u8]) -> Option<u32>
    ensures { result ≡ number word.now }
{
    if word.is_empty() || word.len() > MAX_DIGITS {
        return None;
    }
    let mut value = 0;
    for digit in word {
        if !digit.is_ascii_digit() {
            return None;
        }
        value = 10 * value + u32::from(*digit - b'0');
    }
    Some(value)
}

/// The number that a word of this line spells.
#[tactic(auto, unfolding(crate::specs::Value::number_at))]
pub(crate) fn number_of(line: u32, word: &[u8]) -> Result<u32, ScriptFault>
    ensures { result ≡ number_at line word.now }
{
    number(word).ok_or(ScriptFault::Number(line))
}

/// Checks a hex word of this line.
#[tactic(auto, unfolding(crate::specs::Value::hex_at))]
pub(crate) fn hex_of<'a>(line: u32, word: &'a [u8]) -> Result<HexWord<'a>, ScriptFault>
    ensures { result ≡ hex_at line word.now }
{
    HexWord::new(word).ok_or(ScriptFault::Hex(line))
}

/// An offset in a block, 0 to `MAX_OFFSET`.
#[tactic(auto, unfolding(crate::specs::Value::offset_at))]
pub(crate) fn offset_of(line: u32, word: &[u8]) -> Result<u16, ScriptFault>
    ensures { result ≡ offset_at line word.now }
{
    let offset = number_of(line, word)?;
    if offset > MAX_OFFSET {
        return Err(ScriptFault::Offset(line));
    }
    Ok(offset as u16)
}

/// The number of bytes that a fill changes, 1 to `MAX_BYTES`.
#[tactic(auto, unfolding(crate::specs::Value::count_at))]
pub(crate) fn count_of(line: u32, word: &[u8]) -> Result<u16, ScriptFault>
    ensures { result ≡ count_at line word.now }
{
    let count = number_of(line, word)?;
    if count == 0 || count > MAX_BYTES as u32 {
        return Err(ScriptFault::Length(line));
    }
    Ok(count as u16)
}

/// New bytes, 1 to `MAX_BYTES` of them.
#[tactic(auto, unfolding(crate::specs::Value::new_at))]
pub(crate) fn new_of<'a>(line: u32, word: &'a [u8]) -> Result<HexWord<'a>, ScriptFault>
    ensures { result ≡ new_at line word.now }
{
    let bytes = hex_of(line, word)?;
    let count = bytes.len();
    if count == 0 || count > MAX_BYTES {
        return Err(ScriptFault::Length(line));
    }
    Ok(bytes)
}

/// Old bytes, as many as the new ones.
#[tactic(auto, unfolding(crate::specs::Value::old_at))]
pub(crate) fn old_of<'a>(
    line: u32,
    new: &HexWord<'_>,
    word: &'a [u8],
) -> Result<HexWord<'a>, ScriptFault>
    ensures { result ≡ old_at line new.now word.now }
{
    let bytes = hex_of(line, word)?;
    if bytes.len() != new.len() {
        return Err(ScriptFault::Length(line));
    }
    Ok(bytes)
}

/// The single byte that a fill writes.
#[tactic(auto, unfolding(crate::specs::Value::byte_at))]
pub(crate) fn byte_of(line: u32, word: &[u8]) -> Result<u8, ScriptFault>
    ensures { result ≡ byte_at line word.now }
{
    let bytes = hex_of(line, word)?;
    if bytes.len() != 1 {
        return Err(ScriptFault::Length(line));
    }
    Ok(bytes.only_byte())
}

/// The three bytes of a header's address.
#[tactic(auto, unfolding(crate::specs::Value::address_at))]
pub(crate) fn address_of(line: u32, word: &[u8]) -> Result<[u8; 3], ScriptFault>
    ensures { result ≡ address_at line word.now }
{
    address(word).ok_or(ScriptFault::Address(line))
}

//! The errors for which a script is refused.

ghost use Rattle.std.specs.Prelude.{◌≡◌, ◌<◌, ◌≤◌, IfSome, Some, length};
ghost use Rattle.cd_script.specs.FaultNumbers.{fault_number, fault_of, line_of};
ghost use Rattle.cd_script.specs.FaultTexts.{fault_text};
ghost use Rattle.cd_script.specs.declared.fault.ScriptFault.TheVariants.{NoMemory};

use std::alloc::{AllocError, AllocFailed};
use thiserror::Error;

/// The error of the first faulty line, with the number of that line, counted from 1.
#[derive(Clone, Copy, Debug, PartialEq, Eq, Error)]
#[error("{}", self.text())]
pub enum ScriptFault {
    /// The first line that is neither blank nor a comment is not the head line. If all lines are
    /// blank or comments, the number is one more than the number of lines. The message names
    /// version 1 even if the script names a version that does not exist.
    Head(u32),
    /// The first word is not a verb. A second head line is this error too.
    Verb(u32),
    /// The number of words is wrong for the verb, or the fifth of six words is not `was`.
    Words(u32),
    /// A number is not written with 1 to [`MAX_DIGITS`](crate::MAX_DIGITS) decimal digits.
    Number(u32),
    /// A hex word has an odd number of digits, or a byte that is not a hex digit.
    Hex(u32),
    /// A count, or the number of new bytes, is 0 or over [`MAX_BYTES`](crate::MAX_BYTES); the
    /// number of old bytes is not that of the new bytes; or a fill byte is not one byte.
    Length(u32),
    /// An offset over [`MAX_OFFSET`](crate::MAX_OFFSET).
    Offset(u32),
    /// A header address is not `MM:SS:FF`, two digits each, with a second below 60 and a fraction
    /// below 75.
    Address(u32),
    /// A well-formed patch after [`MAX_PATCHES`](crate::MAX_PATCHES) others.
    TooMany(u32),
    /// Memory could not be allocated.
    NoMemory,
}

/// The line number of an error that is not in a line.
const NO_LINE: u32 = 0;

impl ScriptFault {
    /// The number of the error in calls of C: 4 to 13, in the order of the variants.
    ///
    /// # Examples
    ///
    /// ```
    /// assert_eq!(rt; ScriptFault::Hex(3).number(), 8);
    /// assert_eq!(rt; ScriptFault::of_number(8, 3), Some(ScriptFault::Hex(3)));
    /// assert_eq!(rt; ScriptFault::of_number(14, 3), None);
    /// assert_eq!(rt; ScriptFault::Hex(3).line(), 3);
    /// assert_eq!(rt; ScriptFault::Hex(3).text(), ScriptFault::Hex(4).text()); // of any line
    /// ```
    pub fn number(self) -> u32
        ensures number { result ≡ fault_number self }
        ensures named { fault_of result (line_of self) ≡ Some self }
        ensures least { 3 < result }
        ensures most { result < 14 }
    {
        match self {
            ScriptFault::Head(_) => 4,
            ScriptFault::Verb(_) => 5,
            ScriptFault::Words(_) => 6,
            ScriptFault::Number(_) => 7,
            ScriptFault::Hex(_) => 8,
            ScriptFault::Length(_) => 9,
            ScriptFault::Offset(_) => 10,
            ScriptFault::Address(_) => 11,
            ScriptFault::TooMany(_) => 12,
            ScriptFault::NoMemory => 13,
        }
    }

    /// The number of the line with the error, counted from 1; 0 if memory could not be allocated.
    ///
    /// See the example of [`ScriptFault::number`].
    pub fn line(self) -> u32
        ensures { result ≡ line_of self }
    {
        match self {
            ScriptFault::Head(line) => line,
            ScriptFault::Verb(line) => line,
            ScriptFault::Words(line) => line,
            ScriptFault::Number(line) => line,
            ScriptFault::Hex(line) => line,
            ScriptFault::Length(line) => line,
            ScriptFault::Offset(line) => line,
            ScriptFault::Address(line) => line,
            ScriptFault::TooMany(line) => line,
            ScriptFault::NoMemory => NO_LINE,
        }
    }

    /// The message of the error without the line number: the text that `Display` writes.
    ///
    /// See the example of [`ScriptFault::number`].
    pub fn text(self) -> &'static str
        ensures text { result.now ≡ fault_text self }
        ensures size { length result.now ≤ 40 }
    {
        match self {
            ScriptFault::Head(_) => "no cdpatch 1 line",
            ScriptFault::Verb(_) => "unknown verb",
            ScriptFault::Words(_) => "wrong number of words",
            ScriptFault::Number(_) => "bad number",
            ScriptFault::Hex(_) => "bad hex",
            ScriptFault::Length(_) => "bad length",
            ScriptFault::Offset(_) => "offset over 2047",
            ScriptFault::Address(_) => "bad address",
            ScriptFault::TooMany(_) => "more than 65535 patches",
            ScriptFault::NoMemory => "no memory",
        }
    }

    /// The error with this number, in this line; `None` for any other number.
    ///
    /// See the example of [`ScriptFault::number`].
    pub fn of_number(number: u32, line: u32) -> Option<Self>
        ensures fault { result ≡ fault_of number line }
        ensures numbered { IfSome result (λ f. fault_number f ≡ number) }
    {
        match number {
            4 => Some(ScriptFault::Head(line)),
            5 => Some(ScriptFault::Verb(line)),
            6 => Some(ScriptFault::Words(line)),
            7 => Some(ScriptFault::Number(line)),
            8 => Some(ScriptFault::Hex(line)),
            9 => Some(ScriptFault::Length(line)),
            10 => Some(ScriptFault::Offset(line)),
            11 => Some(ScriptFault::Address(line)),
            12 => Some(ScriptFault::TooMany(line)),
            13 => Some(ScriptFault::NoMemory),
            _ => None,
        }
    }
}

impl From<AllocError> for ScriptFault {
    ghost from_gives = { λ _ e. e ≡ NoMemory };

    fn from(_error: AllocError) -> Self {
        Self::NoMemory
    }
}

impl<T: Drop> From<AllocFailed<T>> for ScriptFault {
    ghost from_gives = { λ _ e. e ≡ NoMemory };

    fn from(_error: AllocFailed<T>) -> Self {
        Self::NoMemory
    }
}

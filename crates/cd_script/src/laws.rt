//! Laws of the script language. Each law is the contract of a function that does nothing.

ghost use Rattle.std.specs.Prelude.{◌≡◌};
ghost use Rattle.cd_script.specs.ByLine.{ReadsByLine};
ghost use Rattle.cd_script.specs.Limits.{bytes_limit, digit_limit, number_limit, offset_limit, patch_limit, text_limit};
ghost use Rattle.cd_script.specs.Order.{OrderRises, OrderKeepsTies, OrderPermutes};
ghost use Rattle.cd_script.specs.Size.{ScriptIsShort};
ghost use Rattle.cd_script.specs.Spelling.{SpellingReads};
ghost use Rattle.cd_script.specs.Versions.{FirstStays, SecondExtends};

use crate::limits::{MAX_BYTES, MAX_DIGITS, MAX_NUMBER, MAX_OFFSET, MAX_PATCHES, MAX_TEXT};

/// The limits in the code are the limits of the language.
pub fn limits_agree()
    ensures text { MAX_TEXT ≡ text_limit }
    ensures patches { MAX_PATCHES ≡ patch_limit }
    ensures bytes { MAX_BYTES ≡ bytes_limit }
    ensures offset { MAX_OFFSET ≡ offset_limit }
    ensures digits { MAX_DIGITS ≡ digit_limit }
    ensures number { MAX_NUMBER ≡ number_limit }
{}

/// In the order of application the blocks of the patches never decrease.
pub fn order_rises()
    ensures { OrderRises }
{}

/// Patches that begin in the same block keep the order of the script.
pub fn order_keeps_ties()
    ensures { OrderKeepsTies }
{}

/// The order of application is a permutation of the patches of the script.
pub fn order_permutes()
    ensures { OrderPermutes }
{}

/// The text that spells a list of patches is a script of exactly these patches.
pub fn spelling_reads()
    ensures { SpellingReads }
{}

/// A text whose head line is not `cdpatch 2` means the same as when version 1 was the only version.
pub fn first_stays()
    ensures { FirstStays }
{}

/// Lines without the verb `address` mean the same in version 2 as in version 1.
pub fn second_extends()
    ensures { SecondExtends }
{}

/// If the lines of a text are read one after the other, each by itself, the result is its script or
/// its first error.
pub fn reads_by_line()
    ensures { ReadsByLine }
{}

/// A script has no more patches than it has lines, and no more than the language allows.
pub fn script_is_short()
    ensures { ScriptIsShort }
{}

//! Laws of the texts, each the contract of a function that does nothing.

ghost use Rattle.cd_c.specs.EnoughRoom.{TextsAreShort};

/// A text of `list` or `audit` has at most 100 bytes, plus 40 for each whole sector.
pub fn texts_are_short()
    ensures { TextsAreShort }
{}

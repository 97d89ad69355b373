//! The limits of the script language.

/// The most bytes of a script's text, 64 MiB.
pub const MAX_TEXT: usize = 67_108_864;

/// The most patches of a script.
pub const MAX_PATCHES: usize = 65_535;

/// The most bytes that a patch changes.
pub const MAX_BYTES: usize = 4_096;

/// The last offset in the user bytes of a block.
pub const MAX_OFFSET: u32 = 2_047;

/// The most digits of a number.
pub const MAX_DIGITS: usize = 9;

/// The greatest number, so the last block: as many digits 9.
pub const MAX_NUMBER: u32 = 999_999_999;

/// One more than the last minute of an address.
pub(crate) const MINUTES: u8 = 100;

/// One more than the last second of a minute.
pub(crate) const SECONDS: u8 = 60;

/// One more than the last fraction of a second.
pub(crate) const FRACTIONS: u8 = 75;

//! The numbers of the results of a change or a patch in C calls, as in `enum cdpatch_result`.

/// The sector was changed, or the patch was accepted.
pub const OK: u32 = 0;

/// The sector is not of Mode 1.
pub const NOT_MODE1: u32 = 1;

/// The sector is damaged, and the change carries no damage.
pub const DAMAGED: u32 = 2;

/// The bytes do not lie within the user data.
pub const OUT_OF_RANGE: u32 = 3;

/// The image does not have a block that the patch meets.
pub const NO_BLOCK: u32 = 4;

/// A user byte differs from the old byte that the patch names.
pub const DIFFERS: u32 = 5;

/// The record is not a valid patch.
pub const NO_PATCH: u32 = 6;

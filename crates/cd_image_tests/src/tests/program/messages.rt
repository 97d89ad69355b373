//! The program's own lines, as its users read them. Each is here once, for all tests of this crate.

pub const NO_IMAGE: &str = "cdpatch: cannot open the image\n";

pub const NO_SCRIPT: &str = "cdpatch: cannot read the script\n";

pub const NO_OUTPUT: &str = "cdpatch: cannot make the output file\n";

pub const LONG_IMAGE: &str = "cdpatch: the image has more than 1000000 sectors\n";

pub const NO_MEMORY: &str = "cdpatch: no memory\n";

pub const READ_FAILED: &str = "cdpatch: reading the image failed\n";

pub const WRITE_FAILED: &str = "cdpatch: writing the output failed\n";

/// The lines that `apply` prints for the patch in line 2 if nothing fails.
pub const APPLIED: &str = "line 2: applied\napplied 1 refused 0\n";

/// The same, if the last read of the image fails after the line of the patch.
pub const APPLIED_READ_FAILED: &str = "line 2: applied\ncdpatch: reading the image failed\n";

/// The same, if the output fails after the line of the patch, and after the counts.
pub const APPLIED_WRITE_FAILED: &str = "line 2: applied\ncdpatch: writing the output failed\n";

pub const COUNTED_WRITE_FAILED: &str =
    "line 2: applied\napplied 1 refused 0\ncdpatch: writing the output failed\n";

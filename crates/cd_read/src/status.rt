//! The statuses of commands.

/// The status of a command if everything was done.
pub const DONE: u8 = 0;

/// The status of a command if everything was done, and an audit has a finding, or a patch was
/// refused.
pub const FOUND: u8 = 1;

/// The status of a command after an error.
pub const FAILED: u8 = 2;

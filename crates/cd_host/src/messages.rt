//! The messages for a script's file that could not be loaded, each a line with its line feed.

ghost use Rattle.std.specs.Prelude.{◌≡◌};
ghost use Rattle.cd_host.specs.Messages.{load_fault_line};

use crate::script::LoadFault;
use cd_args::NO_MEMORY;
use cd_line::{Line, text_line};
use cd_run::long_script_line;

/// The file of a script was not opened, or a read of it failed.
pub const NO_SCRIPT: &str = "cdpatch: cannot read the script\n";

/// The message for a script's file that could not be loaded.
///
/// # Examples
///
/// ```
/// let line = load_fault_line(LoadFault::TooLong);
/// assert!(rt; line.as_slice().starts_with(b"cdpatch: the script is longer"));
/// ```
#[tactic(auto, unfolding(crate::specs::Messages::load_fault_line))]
pub fn load_fault_line(fault: LoadFault) -> Line
    ensures { result ≡ load_fault_line fault }
{
    match fault {
        LoadFault::Read => text_line(NO_SCRIPT.as_bytes()),
        LoadFault::TooLong => long_script_line(),
        LoadFault::NoMemory => text_line(NO_MEMORY.as_bytes()),
    }
}

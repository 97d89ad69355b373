//! The messages of the program, each a line with its line feed. The message for a lack of memory is
//! `cd_args::NO_MEMORY`; those for an error in a script are in cd_run, and those for an error of a
//! call on an image in cd_read.

ghost use Rattle.std.specs.Prelude.{◌≡◌};
ghost use Rattle.cd_program.specs.Messages.{open_fault_line};

use cd_args::NO_MEMORY;
use cd_host::OpenFault;

/// The image was not opened.
pub(crate) const NO_IMAGE: &str = "cdpatch: cannot open the image\n";

/// The new file was not made.
pub(crate) const NO_OUTPUT: &str = "cdpatch: cannot make the output file\n";

/// A standard stream is closed, and the file that would occupy its number was not opened.
pub(crate) const NO_ROOT: &str = "cdpatch: cannot open the root directory\n";

/// An argument is not valid UTF-8.
pub(crate) const NOT_TEXT: &str = "cdpatch: the words are not text\n";

/// The message for a file that was not opened or made: `refused` if it was refused, else the
/// message for a lack of memory.
#[tactic(auto, unfolding(crate::specs::Messages::open_fault_line))]
pub(crate) fn open_fault_line(refused: &'static str, fault: OpenFault) -> &'static str
    ensures { result.now ≡ open_fault_line refused.now fault }
{
    match fault {
        OpenFault::Refused => refused,
        OpenFault::NoMemory => NO_MEMORY,
    }
}

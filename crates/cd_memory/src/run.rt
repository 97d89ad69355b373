//! Runs the program over files in memory.

ghost use Rattle.std.specs.Prelude.{map, string_bytes};
ghost use Rattle.cd_memory.specs.Whole.{RunsOn, environment, result_of};

use crate::file::File;
use crate::growing::Growing;
use crate::memory::Memory;
use cd_program::run_args;
use cd_stream::Sink;
use std::alloc::Global;

/// The result of a run of the program.
#[derive(Debug, Drop)]
pub struct Ended {
    /// The status: 0, 1, or 2.
    pub status: u8,
    /// The text that it printed on the standard output.
    pub text: Vec<u8>,
    /// Whether there was memory for all of the text. If not, the end of the text is missing.
    pub complete: bool,
    /// The new files.
    pub made: Vec<File>,
}

/// Runs the program with the arguments after its name, over files in memory and a standard input.
/// It changes none of these files.
///
/// # Examples
///
/// ```
/// let alloc = rt.alloc();
/// let mut args = Vec::new(alloc);
/// for word in ["list", "disc.bin"] {
///     args.push(String::from_str(alloc, word)?)?;
/// }
/// let name = String::from_str(alloc, "disc.bin")?;
/// let files = Vec::from_array(alloc, [File::new(name, vec![in alloc; 0; 2353]?)])?;
/// let ended = run_on_files(alloc, args, &files, &[]);
/// assert_eq!(rt; ended.status, 0);
/// let text = b"0-0 nosync\nsectors 1 tail 1\n";
/// assert_eq!(rt; ended.text.as_slice(), text.as_slice());
/// ```
pub fn run_on_files(alloc: Global, args: Vec<String>, files: &[File], input: &[u8]) -> Ended
    ensures { RunsOn (map string_bytes args.items) (environment files.now input.now)
        (result_of result) }
{
    let mut host = Memory::new(alloc, files, input);
    let mut out = Growing::new(alloc);
    let status = run_args(alloc, &mut host, args, &mut out);
    let complete = out.failures() == 0;
    Ended {
        status,
        text: out.into_bytes(),
        complete,
        made: host.into_made(),
    }
}

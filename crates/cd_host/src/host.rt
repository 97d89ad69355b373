//! The interface by which the program opens and makes files.

ghost use Rattle.std.specs.Prelude.{◌≡◌, IfOk};
ghost use Rattle.cd_host.specs.Hosting.{Hosting};

use cd_stream::{Sink, Source};

/// Why a file could not be opened or made.
#[derive(Clone, Copy, Debug)]
pub enum OpenFault {
    /// The file was not opened, or not made.
    Refused,
    /// There was no memory for its buffer.
    NoMemory,
}

/// Gives the program the files that its arguments name, and the standard input.
///
/// A contract cites the host's own statements about its answers, so it can state which file was
/// opened by which name, in which order, and what the output had when it was given back.
pub trait Host {
    /// A file that is read from its beginning, or the standard input.
    type Input: Source + Drop;

    /// A newly made file.
    type Output: Sink + Drop;

    // For contracts: which answers are possible for a path, or for the standard input, and the
    // state of the host afterwards.
    ghost hosting: { Hosting Self Self.Input Self.Output };

    /// Opens the file at a path.
    ///
    /// # Errors
    ///
    /// The file was not opened, or there was no memory for its buffer.
    fn input_at(&mut self, path: &str) -> Result<Self::Input, OpenFault>
        ensures gives { hosting.gives_input self.old path.now result self.new }
        ensures fresh { IfOk result (λ file. (Self.Input.seen file).failures ≡ 0) };

    /// The standard input, as a source.
    ///
    /// # Errors
    ///
    /// There was no memory for its buffer.
    fn standard_input(&mut self) -> Result<Self::Input, OpenFault>
        ensures gives { hosting.gives_standard_input self.old result self.new }
        ensures fresh { IfOk result (λ file. (Self.Input.seen file).failures ≡ 0) };

    /// Makes a new file at a path where there is none.
    ///
    /// # Errors
    ///
    /// A file is already there, the file was not made, or there was no memory for its buffer.
    fn output_at(&mut self, path: &str) -> Result<Self::Output, OpenFault>
        ensures gives { hosting.gives_output self.old path.now result self.new }
        ensures fresh { IfOk result (λ file. (Self.Output.seen file).failures ≡ 0) };

    /// Takes back the file that the host made at a path, when the command is done with it, even
    /// after an error. The path is passed because no contract of a sink says which of several files
    /// it is.
    fn take_back(&mut self, path: &str, file: Self::Output)
        ensures { hosting.takes_back self.old path.now file self.new };
}

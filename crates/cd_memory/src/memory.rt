//! Files in memory as the host of the program.

ghost use Rattle.std.specs.Prelude.{◌≡◌};

use crate::file::{File, bytes_at, set_bytes_at};
use crate::growing::Growing;
use cd_program::{Host, OpenFault};
use cd_stream::SliceSource;
use std::alloc::Global;

/// A host whose files and standard input are in memory. The files are borrowed, so they cannot
/// change. A new file exists, empty, as soon as it is made, and has its bytes once it is taken
/// back. It cannot be read.
#[derive(Debug, Drop)]
pub struct Memory<'a> {
    alloc: Global,
    files: &'a [File],
    input: &'a [u8],
    made: Vec<File>,
}

impl<'a> Memory<'a> {
    ghost use Rattle.std.specs.Prelude.{◌≡◌, []};
    ghost use Rattle.cd_memory.specs.Memory.{files_of, input_of, made_of};

    /// Creates a host with these files and this standard input.
    ///
    /// # Examples
    ///
    /// ```
    /// let mut host = Memory::new(rt.alloc(), &[], b"abc");
    /// assert!(rt; host.input_at("disc.bin").is_err()); // there is none
    /// let made = host.output_at("new.bin").is_ok();
    /// assert_eq!(rt; (made, host.into_made().len()), (true, 1)); // it has no bytes yet
    /// ```
    pub fn new(alloc: Global, files: &'a [File], input: &'a [u8]) -> Self
        ensures files { files_of result ≡ files.entry.now }
        ensures input { input_of result ≡ input.entry.now }
        ensures made { made_of result ≡ [] }
    {
        Memory {
            alloc,
            files,
            input,
            made: Vec::new(alloc),
        }
    }

    /// The new files, in the order in which they were made.
    ///
    /// See the example of [`Memory::new`].
    pub fn into_made(self) -> Vec<File>
        ensures { result.items ≡ made_of self.entry }
    {
        self.made
    }
}

impl<'a> Host for Memory<'a> {
    type Input = SliceSource<'a>;

    type Output = Growing;

    ghost use Rattle.cd_memory.specs.Memory.{growing_outgoing, memory_hosting};

    ghost hosting = { memory_hosting growing_outgoing };

    fn input_at(&mut self, path: &str) -> Result<SliceSource<'a>, OpenFault> {
        match bytes_at(self.files, path) {
            Some(bytes) => Ok(SliceSource::new(bytes)),
            None => Err(OpenFault::Refused),
        }
    }

    fn standard_input(&mut self) -> Result<SliceSource<'a>, OpenFault> {
        Ok(SliceSource::new(self.input))
    }

    fn output_at(&mut self, path: &str) -> Result<Growing, OpenFault> {
        if bytes_at(self.files, path).is_some() || bytes_at(self.made.as_slice(), path).is_some() {
            return Err(OpenFault::Refused);
        }
        let Ok(name) = String::from_str(self.alloc, path) else {
            return Err(OpenFault::NoMemory);
        };
        match self.made.push(File::new(name, Vec::new(self.alloc))) {
            Ok(()) => Ok(Growing::new(self.alloc)),
            Err(_) => Err(OpenFault::NoMemory),
        }
    }

    fn take_back(&mut self, path: &str, file: Growing) {
        set_bytes_at(self.made.as_mut_slice(), path, file.into_bytes());
    }
}

//! The operating system as a host: its files, and its standard streams.

ghost use Rattle.std.specs.Prelude.{◌≡◌, IfOk};
ghost use Rattle.cd_host.specs.Hosting.{any_answers};

use crate::host::{Host, OpenFault};
use cd_sector::SECTOR_SIZE;
use cd_stream::{Buffered, FromRead, Sink, Source, ToWrite};
use std::alloc::AllocError;
use std::fmt::{self, Debug, Formatter};
use std::fs;
use std::fs::File;
use std::io::{self, BufReader, IsTerminal, Read, Stdin, Stdout, Write};

/// The number of bytes that are read or written at a time: about 64 KiB, and a multiple of the
/// sector size, so that no sector is copied in two parts.
const BUFFER_SIZE: usize = 28 * SECTOR_SIZE;

/// The reader of an image or a script: a file or the standard input.
#[derive(Drop)]
pub enum Reader {
    /// A file, from its beginning.
    File(File),
    /// The standard input, from its current position.
    StandardInput(Stdin),
}

impl Debug for Reader {
    // `Stdin` has no `Debug`.
    fn fmt<W: fmt::Write>(&self, f: &mut Formatter<W>) -> fmt::Result {
        match self {
            Reader::File(file) => f.debug_tuple("File").field(file).finish(),
            Reader::StandardInput(_) => f.write_str("StandardInput"),
        }
    }
}

impl Read for Reader {
    // Called once in 28 sectors. If it were inlined, the work on each sector would not be.
    #[cold]
    #[inline(never)]
    fn read(&mut self, buf: &mut [u8]) -> io::Result<usize> {
        match self {
            Reader::File(file) => file.read(buf),
            Reader::StandardInput(input) => input.read(buf),
        }
    }
}

/// A file whose flush succeeds when the system has written its data to the disk, so that a late
/// error (a full disk, a file on a remote machine) is a failed flush. `sync_data` also syncs the
/// file's length, but not its name, which is data of its directory. std repeats an interrupted
/// sync, which moves no byte.
#[derive(Debug, Drop)]
pub struct Synced(File);

impl Write for Synced {
    // Not inlined, for the same reason as `Reader`'s `read`.
    #[cold]
    #[inline(never)]
    fn write(&mut self, buf: &[u8]) -> io::Result<usize> {
        self.0.write(buf)
    }

    fn flush(&mut self) -> io::Result<()> {
        self.0.sync_data()
    }
}

/// The files of the system, and its standard streams.
#[derive(Clone, Copy)]
pub struct System<'a> {
    rt: &'a HostRuntime,
}

impl Debug for System<'_> {
    // `HostRuntime` has no `Debug`.
    fn fmt<W: fmt::Write>(&self, f: &mut Formatter<W>) -> fmt::Result {
        f.debug_struct("System").finish_non_exhaustive()
    }
}

impl<'a> System<'a> {
    /// The host with the files and streams of the process of `rt`.
    ///
    /// See the example of [`run_args`].
    pub fn new(rt: &'a HostRuntime) -> Self {
        System { rt }
    }

    /// A source of a reader's bytes, with a buffer of `BUFFER_SIZE` bytes.
    fn buffered(&self, reader: Reader) -> Result<FromRead<BufReader<Reader>>, OpenFault>
        ensures { IfOk result (λ file.
            (⟦<FromRead<BufReader<Reader>> as Source>⟧.seen file).failures ≡ 0) }
    {
        match BufReader::with_capacity(self.rt.alloc(), BUFFER_SIZE, reader) {
            Ok(reader) => Ok(FromRead::new(reader)),
            Err(_) => Err(OpenFault::NoMemory),
        }
    }

    /// The standard output. A terminal gets each line at once, so that a user who watches sees it;
    /// a file or a pipe gets `BUFFER_SIZE` bytes at a time. It is not synced, since a pipe or a
    /// terminal cannot be.
    ///
    /// # Errors
    ///
    /// There was no memory for its buffer.
    pub fn standard_output(&self) -> Result<Buffered<ToWrite<Stdout>>, AllocError>
        ensures { IfOk result (λ out.
            (⟦<Buffered<ToWrite<Stdout>> as Sink>⟧.seen out).failures ≡ 0) }
    {
        let out = self.rt.stdout();
        let size = if out.is_terminal() { 0 } else { BUFFER_SIZE };
        Ok(Buffered::new(ToWrite::new(out), vec![in self.rt.alloc(); 0; size]?))
    }
}

impl<'a> Host for System<'a> {
    type Input = FromRead<BufReader<Reader>>;

    type Output = Buffered<ToWrite<Synced>>;

    // std's contracts state nothing about a file's bytes. Tests show which files the program opens
    // and makes.
    ghost hosting = { any_answers };

    fn input_at(&mut self, path: &str) -> Result<FromRead<BufReader<Reader>>, OpenFault> {
        match fs::open(self.rt, path) {
            Ok(file) => self.buffered(Reader::File(file)),
            Err(_) => Err(OpenFault::Refused),
        }
    }

    fn standard_input(&mut self) -> Result<FromRead<BufReader<Reader>>, OpenFault> {
        self.buffered(Reader::StandardInput(self.rt.stdin()))
    }

    fn output_at(&mut self, path: &str) -> Result<Buffered<ToWrite<Synced>>, OpenFault> {
        let mut new = File::options();
        // Write-only, so that nothing can be read from it, whatever its number. `create_new` is why no
        // existing file is changed: no clause says what a host's files hold, so the prover would also
        // accept `create(true)`. The tests of the program see it.
        new.write(true).create_new(true);
        let Ok(file) = new.open(self.rt, path) else {
            return Err(OpenFault::Refused);
        };
        match vec![in self.rt.alloc(); 0; BUFFER_SIZE] {
            Ok(space) => Ok(Buffered::new(ToWrite::new(Synced(file)), space)),
            // The new file remains, empty.
            Err(_) => Err(OpenFault::NoMemory),
        }
    }

    // The written bytes are synced, and remain at the path. A close that fails here loses nothing.
    fn take_back(&mut self, _: &str, _: Buffered<ToWrite<Synced>>) {}
}

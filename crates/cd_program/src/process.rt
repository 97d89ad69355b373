//! Runs the program in a process, with its arguments and its standard output.

ghost use Rattle.std.specs.Prelude.{◌≡◌, ◌≢◌, ◌≤◌, IfErr, IfOk, map, string_bytes};
ghost use Rattle.std.specs.IoError.{error_kind};
ghost use Rattle.cd_args.specs.Fault.{no_memory};
ghost use Rattle.cd_program.specs.Messages.{not_text};
ghost use Rattle.cd_read.specs.Printing.{PrintsAndFails};
ghost use Rattle.cd_program.specs.Program.{RunsArgs};
ghost use Rattle.cd_stream.specs.Stream.{CanCountFailure};

use crate::jobs::run_args;
use crate::messages::{NO_ROOT, NOT_TEXT};
use cd_args::NO_MEMORY;
use cd_host::{Host, System};
use cd_read::print_and_fail;
use cd_stream::{Sink, ToWrite};
use std::alloc::Global;
use std::fs::File;
use std::io::{self, ErrorKind};
use std::os::fd::AsFd;
use std::{env, fs};

/// Runs the program with the arguments of the process, and returns the status. All text goes to the
/// standard output, which is buffered. Only the messages that are printed because the buffer or a
/// standard stream is missing are not buffered.
///
/// It has no example: it is all of `main`, and tests run [`run_args`].
pub fn run_program(rt: &HostRuntime) -> u8
    ensures { result ≤ 2 }
{
    let Ok(_spare) = spare_files(rt) else {
        return print_and_fail(NO_ROOT.as_bytes(), &mut ToWrite::new(rt.stdout()));
    };
    let mut system = System::new(rt);
    match system.standard_output() {
        Ok(mut out) => run_or_explain(rt.alloc(), &mut system, args_of(rt), &mut out),
        Err(_) => print_and_fail(NO_MEMORY.as_bytes(), &mut ToWrite::new(rt.stdout())),
    }
}

/// Opens files that occupy the numbers of closed standard streams; `None` if all three streams are
/// open. The next file to be opened gets the number of a closed stream. While these files have the
/// numbers, no file of the user gets one of them, and no message is written into a file of the
/// user. Reading or writing them fails. A pipe would not do: a read of its free end looks like the
/// end of an image.
///
/// # Errors
///
/// A stream is closed, and the root directory could not be opened three times.
fn spare_files(rt: &HostRuntime) -> io::Result<Option<(File, File, File)>> {
    if has_standard_streams(rt) {
        return Ok(None);
    }
    Ok(Some((fs::open(rt, "/")?, fs::open(rt, "/")?, fs::open(rt, "/")?)))
}

/// Whether the three standard streams are open: a closed one cannot be duplicated.
fn has_standard_streams(rt: &HostRuntime) -> bool {
    rt.stdin().as_fd().try_clone_to_owned().is_ok()
        && rt.stdout().as_fd().try_clone_to_owned().is_ok()
        && rt.stderr().as_fd().try_clone_to_owned().is_ok()
}

/// Proof step: runs the program with the arguments, or prints why there are none, and returns the
/// status. It states the contract of the program, which `run_program` cannot state for a process.
/// std returns all arguments or none, so no command is looked for among arguments that are not
/// text.
fn run_or_explain<H: Host, O: Sink>(
    alloc: Global,
    host: &mut H,
    args: io::Result<Vec<String>>,
    out: &mut O,
) -> u8
    requires { CanCountFailure (O.seen out.old).failures }
    ensures does { IfOk args (λ args. RunsArgs H.Input.seen H.Output.seen H.hosting
        (map string_bytes args.items) host.old host.new (O.seen out.old) (O.seen out.new) result) }
    ensures no_memory { IfErr args (λ error. error_kind error ≡ ErrorKind.OutOfMemory
        → PrintsAndFails no_memory (O.seen out.old) (O.seen out.new) result) }
    ensures no_text { IfErr args (λ error. error_kind error ≢ ErrorKind.OutOfMemory
        → PrintsAndFails not_text (O.seen out.old) (O.seen out.new) result) }
    ensures few { result ≤ 2 }
{
    match args {
        Ok(args) => run_args(alloc, host, args, out),
        Err(error) if error.kind() == ErrorKind::OutOfMemory => print_and_fail(
            NO_MEMORY.as_bytes(),
            out,
        ),
        Err(_) => print_and_fail(NOT_TEXT.as_bytes(), out),
    }
}

/// The arguments after the program's name.
fn args_of(rt: &HostRuntime) -> io::Result<Vec<String>> {
    let mut args = Vec::new(rt.alloc());
    for word in env::args(rt)?.skip(1) {
        args.push(word)?;
    }
    Ok(args)
}

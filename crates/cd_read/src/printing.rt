//! Prints the line for an error of a command.

ghost use Rattle.std.specs.Prelude.{◌≡◌, ◌≢◌};
ghost use Rattle.cd_read.specs.Printing.{PrintsFaultLine, PrintsLine};
ghost use Rattle.cd_read.specs.Status.{failed_status};
ghost use Rattle.cd_stream.specs.Stream.{CanCountFailure};
ghost use Rattle.cd_stream.specs.Transfer.{Counts};

use crate::fault::Fault;
use crate::messages::fault_line;
use crate::status::FAILED;
use cd_stream::{Sink, SinkFailed, write_all};

/// Prints a line and flushes the sink.
///
/// # Errors
///
/// A write or the flush failed.
///
/// See the example of [`print_and_fail`].
pub fn print_line<O: Sink>(line: &[u8], out: &mut O) -> Result<(), SinkFailed>
    requires { CanCountFailure (O.seen out.old).failures }
    ensures line { PrintsLine line.now (O.seen out.old) (O.seen out.new) }
    ensures count { Counts (O.seen out.old).failures (O.seen out.new).failures result }
{
    write_all(out, line)?;
    out.finish()
}

/// Prints a line, and returns the status 2.
///
/// # Examples
///
/// ```
/// let mut space = [0; 64];
/// let mut out = SliceSink::new(&mut space);
/// let line = long_image_line();
/// assert_eq!(rt; print_and_fail(line.as_slice(), &mut out), 2);
/// assert!(rt; out.written().starts_with(b"cdpatch: the image has more"));
/// ```
pub fn print_and_fail<O: Sink>(line: &[u8], out: &mut O) -> u8
    requires { CanCountFailure (O.seen out.old).failures }
    ensures line { PrintsLine line.now (O.seen out.old) (O.seen out.new) }
    ensures status { result ≡ failed_status }
{
    let _ = print_line(line, out);
    FAILED
}

/// Prints the message for an error to `out`, and returns the status 2. No message is printed for
/// `own`, the error of `out` itself.
///
/// # Examples
///
/// ```
/// let mut space = [0; 64];
/// let mut out = SliceSink::new(&mut space);
/// assert_eq!(rt; report_fault(Fault::Write, Fault::Write, &mut out), 2);
/// assert_eq!(rt; report_fault(Fault::Read, Fault::Write, &mut out), 2);
/// assert!(rt; out.written().starts_with(b"cdpatch: reading the image"));
/// ```
pub fn report_fault<O: Sink>(fault: Fault, own: Fault, out: &mut O) -> u8
    requires { fault ≢ own → CanCountFailure (O.seen out.old).failures }
    ensures line { PrintsFaultLine own fault (O.seen out.old) (O.seen out.new) }
    ensures status { result ≡ failed_status }
{
    if fault == own {
        return FAILED;
    }
    print_and_fail(fault_line(fault).as_slice(), out)
}

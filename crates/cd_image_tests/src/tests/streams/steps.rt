//! Sequences of calls of a sink, each with its result, and a writer of std that expects a sequence of calls.

use cd_stream::{Sink, SinkFailed};
use std::io::{self, ErrorKind, Write};

/// A call of a sink or a writer: a write with the number of bytes that are accepted, or a flush; `None` if it fails.
#[derive(Clone, Copy)]
pub enum Step {
    Write(&'static [u8], Option<usize>),
    Flush(Option<()>),
}

/// Whether the call has this result, and leaves the sink finished only if it is a `finish` that succeeds. A write fails if
/// none of its bytes is accepted.
fn answers<S: Sink>(sink: &mut S, step: Step) -> bool {
    if sink.failures() == u32::MAX {
        return false;
    }
    match step {
        Step::Write(bytes, _) if bytes.is_empty() => false,
        Step::Write(bytes, Some(0) | None) => {
            sink.write(bytes) == Err(SinkFailed) && !sink.finished()
        }
        Step::Write(bytes, Some(taken)) => sink.write(bytes) == Ok(taken) && !sink.finished(),
        Step::Flush(due) => {
            sink.finish() == due.ok_or(SinkFailed) && sink.finished() == due.is_some()
        }
    }
}

/// Whether the call fails.
fn fails(step: Step) -> bool {
    matches!(step, Step::Write(_, Some(0) | None) | Step::Flush(None))
}

/// Whether a sink returns these results for the calls, one after the other, and counts one failure for each call that fails.
pub fn all_answer<S: Sink>(sink: &mut S, steps: &[Step]) -> bool {
    let mut failures = 0u32;
    let mut so = sink.failures() == failures;
    for step in steps {
        failures = failures.saturating_add(u32::from(fails(*step)));
        so = so && answers(sink, *step) && sink.failures() == failures;
    }
    so
}

/// A writer that expects these calls. Some of them, and any other call, fail with an error of one kind.
#[derive(Drop)]
pub struct Writer {
    pub left: &'static [Step],
    pub kind: ErrorKind,
}

impl Write for Writer {
    fn write(&mut self, buf: &[u8]) -> io::Result<usize> {
        match self.left.split_first() {
            Some((Step::Write(bytes, taken), left)) if *bytes == buf => {
                self.left = left;
                match taken {
                    Some(count) => Ok(buf.len().min(*count)),
                    None => Err(io::Error::from(self.kind)),
                }
            }
            _ => Err(io::Error::from(self.kind)),
        }
    }

    fn flush(&mut self) -> io::Result<()> {
        match self.left.split_first() {
            Some((Step::Flush(done), left)) => {
                self.left = left;
                done.ok_or(io::Error::from(self.kind))
            }
            _ => Err(io::Error::from(self.kind)),
        }
    }
}

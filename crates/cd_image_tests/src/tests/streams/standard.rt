//! Tests of readers and writers of std: a read, a write and a `finish` are one call below each, and return its result, whatever the kind of
//! its error. The next call is made nevertheless.

use super::steps::Step::{self, Flush, Write as Put};
use super::steps::{Writer, all_answer};
use crate::tests::holds;
use cd_stream::{FromRead, Source, SourceFailed, ToWrite};
use std::io::{self, ErrorKind, Read};

/// Kinds of error that a program could distinguish from a failure: it could call again, or treat the error as an end.
const KINDS: &[ErrorKind] = &[
    ErrorKind::Interrupted,
    ErrorKind::WouldBlock,
    ErrorKind::TimedOut,
    ErrorKind::UnexpectedEof,
    ErrorKind::WriteZero,
    ErrorKind::BrokenPipe,
    ErrorKind::OutOfMemory,
    ErrorKind::Other,
];

/// A reader that returns a number of bytes `41` per call, or fails with an error of this kind, and then has no more bytes.
#[derive(Drop)]
struct Reader {
    left: &'static [Option<usize>],
    kind: ErrorKind,
}

impl Read for Reader {
    fn read(&mut self, buf: &mut [u8]) -> io::Result<usize> {
        let Some((answer, left)) = self.left.split_first() else {
            return Ok(0);
        };
        self.left = left;
        let Some(n) = *answer else {
            return Err(io::Error::from(self.kind));
        };
        let n = n.min(buf.len());
        buf[..n].fill(0x41);
        Ok(n)
    }
}

/// The results of reads of a number of bytes; `None` if they fail.
const READS: &[(usize, &[Option<usize>])] = &[
    (1, &[Some(1), None, Some(1)]),
    (3, &[None, Some(3)]),
    (3, &[None, None, Some(3)]),
    (3, &[Some(3), None, Some(2)]),
    (3, &[Some(3), None, None, Some(1), Some(0)]),
    (2351, &[Some(2351)]),
    (2352, &[Some(2352), None, Some(2352), Some(100), Some(0)]),
];

/// Whether a read to `into` returns this number of bytes.
fn gives<S: Source>(source: &mut S, into: &mut [u8], due: Option<usize>) -> bool {
    if into.is_empty() || source.failures() == u32::MAX {
        return false;
    }
    into.fill(0);
    let filled = due.unwrap_or(0);
    source.read(into) == due.ok_or(SourceFailed)
        && into.iter().take(filled).all(|byte| *byte == 0x41)
}

fn all_give(kind: ErrorKind, size: usize, reads: &'static [Option<usize>]) -> bool {
    let mut space = [0; 2352];
    let Some(into) = space.get_mut(..size) else {
        return false;
    };
    let mut reader = Reader { left: reads, kind };
    let mut source = FromRead::new(&mut reader);
    let mut failures = 0u32;
    let mut so = true;
    for due in reads {
        failures = failures.saturating_add(u32::from(due.is_none()));
        so = so && gives(&mut source, into, *due) && source.failures() == failures;
    }
    drop(source);
    so && reader.left.is_empty()
}

#[test]
fn a_read_is_one_read(rt: HostRuntime) {
    for kind in KINDS {
        for (row, (size, reads)) in READS.iter().enumerate() {
            holds(&rt, all_give(*kind, *size, reads), row);
        }
    }
}

const ABC: Step = Put(b"abc", Some(3));

const NOT_ABC: Step = Put(b"abc", None);

const NOT_D: Step = Put(b"d", None);

const FLUSHED: Step = Flush(Some(()));

/// Calls of a sink, each of which is one call of the writer.
const CALLS: &[&[Step]] = &[
    &[Put(&[7; 1], Some(1))],
    &[Put(&[7; 2351], Some(2351))],
    &[Put(&[7; 2352], Some(2352))],
    &[Put(&[7; 2352], Some(100)), Put(&[7; 2252], Some(2252))],
    &[Put(&[7; 2352], Some(0)), Put(&[7; 2352], None)],
    &[Put(b"a", Some(0)), FLUSHED],
    &[NOT_ABC, ABC],
    &[NOT_ABC, NOT_ABC, ABC],
    &[ABC, NOT_D, NOT_D, Put(b"d", Some(1))],
    &[NOT_ABC, FLUSHED],
    &[FLUSHED, Flush(None)],
    &[Flush(None), FLUSHED],
    &[Flush(None), Flush(None), FLUSHED],
    &[ABC, Flush(None), Flush(None), FLUSHED],
    &[ABC, Flush(None), Put(b"d", Some(1)), FLUSHED],
    &[NOT_ABC, Flush(None), ABC, FLUSHED],
];

/// Whether each call is made just once.
fn are_made_once(kind: ErrorKind, steps: &'static [Step]) -> bool {
    let mut sink = ToWrite::new(Writer { left: steps, kind });
    let so = all_answer(&mut sink, steps);
    so && sink.into_inner().left.is_empty()
}

#[test]
fn a_write_is_one_write_and_a_finish_one_flush(rt: HostRuntime) {
    for kind in KINDS {
        for (row, steps) in CALLS.iter().enumerate() {
            holds(&rt, are_made_once(*kind, steps), row);
        }
    }
}

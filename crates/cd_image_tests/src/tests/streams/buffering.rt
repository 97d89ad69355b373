//! Tests of a sink that buffers bytes: when they are passed to the writer below, and which calls are repeated after a failure.

use super::steps::Step::{self, Flush, Write as Put};
use super::steps::{Writer, all_answer};
use crate::tests::holds;
use cd_stream::{Buffered, ToWrite};
use std::alloc::{AllocError, Global};
use std::io::ErrorKind;

const FLUSHED: Step = Flush(Some(()));

/// The space of a sink, its calls, and the calls of the writer below.
#[derive(Clone, Copy)]
struct Held(usize, &'static [Step], &'static [Step]);

/// One write below for each space that is full; without space, each write at once. More bytes than the space are not buffered. After a
/// failure, nothing is sent without a call.
const HELD: &[Held] = &[
    Held(
        5,
        &[
            Put(b"ab", Some(2)),
            Put(b"cd", Some(2)),
            Put(b"ef", Some(2)),
            Put(b"gh", Some(2)),
            Put(b"ijk", Some(3)),
            FLUSHED,
        ],
        &[
            Put(b"abcd", Some(4)),
            Put(b"efgh", Some(4)),
            Put(b"ijk", Some(3)),
            FLUSHED,
        ],
    ),
    Held(
        0,
        &[Put(b"a line", Some(6)), Put(b"other", Some(5)), FLUSHED],
        &[Put(b"a line", Some(6)), Put(b"other", Some(5)), FLUSHED],
    ),
    Held(
        4,
        &[Put(b"abcd", Some(4)), Put(b"e", None), Flush(None), FLUSHED],
        &[
            Put(b"abcd", Some(3)),
            Put(b"d", None),
            Put(b"d", None),
            Put(b"d", Some(1)),
            FLUSHED,
        ],
    ),
    Held(
        2,
        &[
            Put(b"a", Some(1)),
            Put(b"bcde", Some(4)),
            Put(b"fg", Some(2)),
            FLUSHED,
        ],
        &[
            Put(b"a", Some(1)),
            Put(b"bcde", Some(4)),
            Put(b"fg", Some(2)),
            FLUSHED,
        ],
    ),
];

/// Whether the writer gets these calls. A call that it does not get is noticed at the last flush.
fn goes_out_so(alloc: Global, row: &Held) -> Result<bool, AllocError> {
    let Held(space, calls, below) = *row;
    let writer = ToWrite::new(Writer {
        left: below,
        kind: ErrorKind::Interrupted,
    });
    let held = vec![in alloc; 0; space]?;
    Ok(all_answer(&mut Buffered::new(writer, held), calls))
}

#[test]
fn when_bytes_go_below(rt: HostRuntime) -> Result<(), AllocError> {
    for (row, held) in HELD.iter().enumerate() {
        holds(&rt, goes_out_so(rt.alloc(), held)?, row);
    }
    Ok(())
}

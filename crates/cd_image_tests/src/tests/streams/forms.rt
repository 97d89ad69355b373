//! Tests of sources and sinks over one another, through their bounds, and of a caller's slice.

ghost use Rattle.std.specs.Prelude.{◌≡◌, ◌≤◌, ◌++◌, [], ◌∷◌, drop, length};

use super::steps::Step::{self, Flush, Write as Put};
use super::steps::all_answer;
use cd_stream::{
    Count, FailAfter, Short, Sink, SliceSink, SliceSource, Source, SourceFailed, ZeroSource,
    fill_buffer,
};
use std::mem::size_of;

#[test]
fn a_count_occupies_no_bytes(rt: HostRuntime) {
    assert_eq!(rt; size_of::<Count>(), 0);
}

#[test]
fn a_source_that_fails_after_short_reads(rt: HostRuntime) {
    let mut source = Short::new(FailAfter::new(SliceSource::new(b"abcdefg"), 5), 2);
    let mut into = [0; 4];
    assert!(rt; fill_buffer(&mut source, &mut into) == Ok(4) && into == *b"abcd");
    let (filled, failures) = (fill_buffer(&mut source, &mut into), source.failures());
    assert!(rt; filled == Err(SourceFailed) && failures == 1);
    let (read, failures) = (source.read(&mut into), source.failures());
    assert!(rt; read == Err(SourceFailed) && failures == 2);
}

#[test]
fn a_source_that_ends(rt: HostRuntime) {
    let mut source = FailAfter::new(Short::new(ZeroSource::new(3), 0), 100);
    let mut into = [7; 4];
    assert!(rt; fill_buffer(&mut source, &mut into) == Ok(3) && into == [0, 0, 0, 7]);
    assert!(rt; fill_buffer(&mut source, &mut into) == Ok(0) && source.failures() == 0);
}

/// Calls of a sink that passes two bytes per call, and five in all.
const SHORT: &[Step] = &[
    Put(b"abcd", Some(2)),
    Put(b"cd", Some(2)),
    Flush(Some(())),
    Put(b"efg", Some(1)),
    Put(b"fg", None),
    Flush(None),
];

/// Calls of a sink over three bytes of memory that passes one byte per call.
const FULL: &[Step] = &[
    Put(b"abcd", Some(1)),
    Put(b"bcd", Some(1)),
    Put(b"cd", Some(1)),
    Put(b"d", None),
    Flush(Some(())),
];

#[test]
fn a_sink_that_fails_after_short_writes(rt: HostRuntime) {
    let mut space = [0; 8];
    let mut sink = Short::new(FailAfter::new(SliceSink::new(&mut space), 5), 2);
    assert!(rt; all_answer(&mut sink, SHORT) && space == *b"abcde\0\0\0");
}

#[test]
fn a_sink_that_is_full(rt: HostRuntime) {
    let mut space = [0; 3];
    let mut sink = FailAfter::new(Short::new(SliceSink::new(&mut space), 0), 100);
    assert!(rt; all_answer(&mut sink, FULL) && space == *b"abc");
}

/// Writes two bytes by a sink over a slice. The caller knows the whole slice afterwards.
fn put_two(space: &mut [u8])
    requires { 2 ≤ length space.old }
    ensures { space.new ≡ 1 ∷ 2 ∷ drop 2 space.old }
{
    let mut sink = SliceSink::new(space);
    let _ = sink.write(&[1, 2]);
    let _space = sink.space; // so that the contract can refer to its contents
}

#[test]
fn what_stands_after_the_written_bytes_stays(rt: HostRuntime) {
    let mut space = [9; 4];
    put_two(&mut space);
    assert_eq!(rt; space, [1, 2, 9, 9]);
}

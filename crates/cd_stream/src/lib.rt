//! Sources and sinks of bytes, which count their failures.
//!
//! ```
//! let mut source = SliceSource::new(b"abc");
//! let mut into = [0; 4];
//! assert_eq!(rt; fill_buffer(&mut source, &mut into), Ok(3)); // then it has ended
//! assert_eq!(rt; into, *b"abc\0");
//! ```
//!
//! A [`Source`] reads some bytes per call and returns 0 at the end. A [`Sink`] writes some bytes
//! per call, and its `finish` passes on the bytes that it holds back. Nothing is tried again: a
//! call that fails has moved no byte, and one more failure is counted. So a caller, and its
//! contract, can say afterwards which side has failed.
//!
//! [`FromRead`] and [`ToWrite`] adapt std's readers and writers, [`SliceSource`] and [`SliceSink`]
//! adapt memory, and [`Buffered`] adapts a sink that is costly to call. [`ZeroSource`], [`Short`],
//! and [`FailAfter`] are for tests. No call allocates memory: the space of a [`Buffered`] is passed
//! to it. At most 4,294,967,295 failures are counted.
//!
//! Tests: `crates/cd_image_tests/src/tests/streams`.
#![tactic(auto)]

mod adapters;
mod count;
mod sink;
mod source;
mod transfer;

pub use adapters::buffered::Buffered;
pub use adapters::fail_after::FailAfter;
pub use adapters::from_read::FromRead;
pub use adapters::short::Short;
pub use adapters::slice_sink::SliceSink;
pub use adapters::slice_source::SliceSource;
pub use adapters::to_write::ToWrite;
pub use adapters::zero_source::ZeroSource;
pub use count::Count;
pub use sink::{Sink, SinkFailed};
pub use source::{Source, SourceFailed};
pub use transfer::{fill_buffer, write_all};

//! Applies a script of patches to an image of raw CD sectors (ECMA-130, 14) while copying it from a
//! source to a sink, in one pass. Re-exports the sources and sinks of cd_stream and the reports of
//! cd_report.
//!
//! ```
//! let script = parse(rt.alloc(), b"cdpatch 1\nset 0 0 41\n")?;
//! let sector = encode([0x00, 0x02, 0x00], &[0x00; USER_SIZE]); // block 0
//! let (mut image, mut space) = (SliceSource::new(sector.bytes()), [0; SECTOR_SIZE]);
//! let (mut out, mut log) = (SliceSink::new(&mut space), ToWrite::new(io::sink()));
//! apply(&mut image, &script, 0, false, &mut out, &mut log)?;
//! assert_eq!(rt; out.written().get(16), Some(&0x41)); // the first user byte
//! ```
//!
//! The log has a line for each patch, in the order of their blocks, and a last line with their
//! counts:
//!
//! | Line | When |
//! |---|---|
//! | `line L: applied` | the patch in line L of the script was accepted |
//! | `line L: refused: WHY` | it was refused, and changes nothing |
//! | `applied A refused R` | at the end |
//!
//! [`apply`] holds at most three sectors, as many as a patch may meet, and allocates no memory. An
//! image has at most a million sectors, and the number of its first block is at most 449,849.
//!
//! Tests: `crates/cd_image_tests`.
#![tactic(auto)]

mod applying;
mod commands;
mod discard;
mod pass;
mod patch_log;

pub use applying::{apply, check};
pub use cd_patch::Outcome;
pub use cd_read::Fault;
pub use cd_report::{AuditTally, ListTally, audit, list};
pub use cd_stream::{
    Buffered, FailAfter, FromRead, Short, Sink, SinkFailed, SliceSink, SliceSource, Source,
    SourceFailed, ToWrite, ZeroSource,
};
pub use commands::{run_apply, run_check};
pub use discard::NullSink;
pub use patch_log::Tally;

//! The two reports on an image of raw CD sectors: a listing by kinds of sectors (ECMA-130, 14), and
//! an audit that finds what is wrong with Mode 1 sectors (ECMA-130, 14 and Annex A).
//!
//! ```
//! let mut space = [0; 64];
//! let mut out = SliceSink::new(&mut space);
//! let tally = list(&mut ZeroSource::new(2352 + 3), 0, &mut out)?; // a sector, and a tail
//! assert_eq!(rt; (tally.sectors, tally.tail), (1, 3));
//! assert_eq!(rt; out.written(), b"0-0 nosync\nsectors 1 tail 3\n".as_slice());
//! ```
//!
//! | Line | Of |
//! |---|---|
//! | `FIRST-LAST KIND` | a listing: a run of sectors of one kind, by block numbers |
//! | `sectors S tail T` | a listing: the last line |
//! | `BLOCK [address] [zeros] [edc] [p=N] [q=N]` | an audit: a Mode 1 sector with findings |
//! | `sectors S mode1 M damaged D tail T` | an audit: the last line |
//!
//! The number of the image's first block is from 0 to [`MAX_BASE`], the last block with an address.
//! An image has at most a million sectors. A report holds one sector at a time, and allocates no
//! memory. [`run_list`] and [`run_audit`] are the commands: they also print a line for an error, and
//! return a status.
//!
//! Tests: `crates/cd_image_tests`.
#![tactic(auto)]

mod auditing;
mod commands;
mod findings;
mod laws;
mod listing;
mod scan;

pub use auditing::{AuditTally, audit, audit_end};
use cd_address::MAX_BLOCK;
pub use commands::{run_audit, run_list};
pub use findings::{Findings, finding_line, has_other_address, is_any};
pub use laws::{audit_counts_lines, runs_spell_kinds};
pub use listing::{ListTally, list, list_end, run_line};

/// The largest number that the first block of an image may have: the last block with an address.
/// The clauses of `list` and `audit` cite its definition, so a smaller constant is refused.
pub const MAX_BASE: u32 = MAX_BLOCK;

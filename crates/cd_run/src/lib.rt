//! A run of a script's patches over an image of raw CD sectors (ECMA-130, 14), without input or
//! output. It determines the next step, applies a patch to the sectors in hand, and formats the
//! lines of the log.
//!
//! ```
//! let mut run = PatchRun::new(0);
//! let patch = Ahead {
//!     block: 0,
//!     blocks_met: 1,
//! };
//! assert_eq!(rt; run.next(Some(patch)), Step::Read); // the sector that it meets
//! run.took_sector();
//! assert_eq!(rt; run.next(Some(patch)), Step::Decide);
//! assert_eq!(rt; run.next(None), Step::Send); // once it is decided
//! ```
//!
//! [`PatchRun::next`] returns the [`Step`] that is due, and each step has a call that records it.
//! The caller reads and writes the bytes and lends the memory of the sectors in hand, at most
//! three; a run keeps only numbers. So `cd_image::apply` and the C calls share one state machine.
//!
//! Tests: `crates/cd_low_tests` and, over whole images, `crates/cd_image_tests`.
#![tactic(auto)]

mod laws;
mod lines;
mod messages;
mod run;

pub use laws::{patched_carries, patched_exists, patched_is_determined};
pub use lines::{counts_line, outcome_line};
pub use messages::{long_script_line, script_fault_line};
pub use run::{Ahead, PatchRun, Step};

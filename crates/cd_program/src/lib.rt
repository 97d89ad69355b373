//! The program as functions: from its arguments and a host's files to the text that it prints, the
//! file that it makes, and its status. `main` only calls [`run_program`].
//!
//! ```
//! let mut space = [0; 64];
//! let mut out = SliceSink::new(&mut space);
//! assert_eq!(rt; run_list(&mut ZeroSource::new(2352), 7, &mut out), 0);
//! assert_eq!(rt; out.written(), b"7-7 nosync\nsectors 1 tail 0\n".as_slice());
//! ```
//!
//! | Status | Meaning |
//! |---|---|
//! | 0 | done |
//! | 1 | a patch was refused, or `audit` has a finding |
//! | 2 | an error, which has its line, or arguments that are refused |
//!
//! [`run_args`] gets the arguments and a [`Host`], which it asks for files in this order: the
//! script, the image, the new file. [`System`] is the host of the operating system; cd_memory has a
//! host whose files are in memory. The commands on streams are in cd_report and cd_image. cd_host loads
//! the complete script; images (ECMA-130, 14) are read sector by sector.
//!
//! Tests: `crates/cd_image_tests`.
#![tactic(auto)]

mod jobs;
mod messages;
mod process;

pub use cd_host::{Host, LoadFault, OpenFault, System, load_fault_line, load_script, read_script};
pub use cd_image::{run_apply, run_check};
pub use cd_report::{run_audit, run_list};
pub use jobs::run_args;
pub use process::run_program;

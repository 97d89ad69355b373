//! Parses the command line of cdpatch: its arguments give a [`Job`] or a [`LineFault`].
//!
//! ```
//! let job = job_of(rt.alloc(), Vec::new(rt.alloc()))?; // no arguments
//! assert!(rt; matches!(&job, Job::List { image, base: 0 } if image.as_str() == "-"));
//! ```
//!
//! | Arguments | Job |
//! |---|---|
//! | none | list the standard input, from block 0 |
//! | `list IMAGE [--base N]` | [`Job::List`] |
//! | `audit IMAGE [--base N]` | [`Job::Audit`] |
//! | `check IMAGE SCRIPT`, with options | [`Job::Check`] |
//! | `apply IMAGE SCRIPT OUT`, with options | [`Job::Apply`] |
//!
//! The options of `check` and `apply` are the fields of [`Settings`]. N is 0 to `cd_address::MAX_BLOCK`, the
//! last block with an address (ECMA-130, 14). clap parses the arguments and formats the help. The
//! parser allocates memory; if there is none, the line is `cdpatch: no memory`.
//!
//! Tests: `crates/cd_image_tests`.
#![tactic(auto)]

mod arguments;
mod cli;
mod fault;
mod help;
mod job;
mod parse;
mod settings;

pub use fault::{LineFault, NO_MEMORY, refusal_line};
pub use job::Job;
pub use parse::job_of;
pub use settings::Settings;

//! The files of a host, and scripts from them: the parsed script, or the message for its error.
//!
//! [`System`] is the host of the operating system; cd_memory has a host whose files are in memory. A
//! script has at most [`MAX_TEXT`](cd_script::MAX_TEXT) bytes, and is loaded completely.
//!
//! Tests: `crates/cd_image_tests/src/tests/program`.
#![tactic(auto)]

mod host;
mod messages;
mod script;
mod system;

pub use host::{Host, OpenFault};
pub use messages::{NO_SCRIPT, load_fault_line};
pub use script::{LoadFault, load_script, read_script};
pub use system::System;

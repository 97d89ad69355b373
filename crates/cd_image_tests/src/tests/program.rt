//! Tests of the program with concrete sources and sinks: the statuses and the lines of the commands (`commands`, `streams`), scripts and
//! their files (`script`), and the requests to a host (`hosts`).

use std::process::Abort;

mod commands;
mod hosts;
mod messages;
mod script;
mod streams;

/// Asserts that a text gives the expected result. On failure, prints the text.
fn holds(rt: &impl Abort, is_so: bool, text: &str) {
    assert!(rt; is_so, "{text}");
}

/// The same for a number of bytes.
fn holds_at(rt: &impl Abort, is_so: bool, count: u64) {
    assert!(rt; is_so, "{count} bytes");
}

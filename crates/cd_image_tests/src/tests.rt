//! Tests with streams, images and scripts, and their expected results.

use std::process::Abort;

mod calls;
mod cases;
mod failing;
mod faults;
mod images;
mod large;
mod laws;
mod noise;
mod program;
mod reports;
mod resumed;
mod streams;

/// Asserts a row of a table. On failure, prints a number: the index of the row, from 0 on, or the number of its bytes.
fn holds(rt: &impl Abort, is_so: bool, row: usize) {
    assert!(rt; is_so, "row {row}");
}

//! Tests with worked values. The contracts of the calls say the rest, and the worked cases of `tests/cases` show it.

use std::process::Abort;

mod changes;
mod codes;
mod laws;
mod repairs;
mod scripts;
mod sectors;

/// Asserts a row of a table. On failure, prints a number: the index of the row, from 0 on, or the number of the bytes in question.
fn holds(rt: &impl Abort, is_so: bool, row: usize) {
    assert!(rt; is_so, "row {row}");
}

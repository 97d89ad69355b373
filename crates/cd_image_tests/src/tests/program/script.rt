//! Tests of the lines for errors in scripts, and of reading the file of a script.

use super::commands::ALL;
use super::holds_at;
use super::messages::NO_SCRIPT;
use crate::tests::images::{Resuming, repeated};
use cd_image::{FailAfter, FromRead, Short, Sink, SliceSink, SliceSource, Source, ZeroSource};
use cd_line::Line;
use cd_program::{load_script, read_script};
use cd_run::{long_script_line, script_fault_line};
use cd_script::ScriptFault::{Head, Hex, Length, TooMany, Words};
use cd_script::{MAX_BYTES, MAX_PATCHES, MAX_TEXT, ScriptFault};
use std::alloc::{AllocError, Global};
use std::process::Abort;

/// The line for a fault; empty if there is none.
fn line_of(fault: Option<ScriptFault>) -> Line {
    match fault {
        None => Line::new(),
        Some(fault) => script_fault_line(fault),
    }
}

/// Asserts that a text, read as a script, gives the line for this fault and the status 2, or no line without a fault.
fn expect_line(rt: &impl Abort, alloc: Global, text: &[u8], fault: Option<ScriptFault>) {
    assert!(rt; text.len() <= MAX_TEXT);
    let mut space = [0; 64];
    let mut log = SliceSink::new(&mut space);
    let status = read_script(alloc, text, &mut log).err();
    let due = fault.map(|_| 2);
    let is_due = status == due && log.finished() == due.is_some();
    let is_line = log.written() == line_of(fault).as_slice();
    assert!(rt; is_due && is_line, "{fault:?}");
}

/// The largest number of digits of bytes, and the largest number of patches.
const DIGITS: u32 = 2 * MAX_BYTES as u32;

const PATCHES: u32 = MAX_PATCHES as u32;

/// A text, a part after it, the number of its copies, and the fault of the result.
const LONG: &[(&str, &str, u32, Option<ScriptFault>)] = &[
    ("cdpatch 1\nset 0 0 ", "0", DIGITS, None),
    ("cdpatch 1\nset 0 0 ", "0", DIGITS + 1, Some(Hex(2))),
    ("cdpatch 1\nset 0 0 ", "0", DIGITS + 2, Some(Length(2))),
    ("cdpatch 1\nset", " 0", 1_000_000, Some(Words(2))),
    ("cdpatch 1\n", "rebuild 0\n", PATCHES, None),
    (
        "cdpatch 1\n",
        "rebuild 0\n",
        PATCHES + 1,
        Some(TooMany(PATCHES + 2)),
    ),
];

#[test]
fn long_texts_have_their_lines(rt: HostRuntime) -> Result<(), AllocError> {
    for (front, part, count, fault) in LONG {
        let text = repeated(rt.alloc(), front, part, *count, "")?;
        expect_line(&rt, rt.alloc(), text.as_bytes(), *fault);
    }
    Ok(())
}

/// Asserts that a text of the largest size, filled with one byte, has no head line until this line.
fn expect_longest(rt: &impl Abort, alloc: Global, byte: u8, line: u32) -> Result<(), AllocError> {
    let text = vec![in alloc; byte; MAX_TEXT]?;
    expect_line(rt, alloc, &text, Some(Head(line)));
    Ok(())
}

#[test]
fn the_longest_line(rt: HostRuntime) -> Result<(), AllocError> {
    expect_longest(&rt, rt.alloc(), 0x00, 1)
}

#[test]
fn the_most_lines(rt: HostRuntime) -> Result<(), AllocError> {
    expect_longest(&rt, rt.alloc(), b'\n', MAX_TEXT as u32 + 1)
}

/// A log that passes only a number of bytes: they are a prefix of the line. The last log passes all, and fails to finish.
#[test]
fn a_log_that_fails(rt: HostRuntime) {
    let line = script_fault_line(Hex(2));
    let line = line.as_slice();
    for count in 0..=line.len() {
        let mut space = [0; 64];
        let mut log = FailAfter::new(SliceSink::new(&mut space), count as u64);
        let status = read_script(rt.alloc(), b"cdpatch 1\nset 0 0 4\n", &mut log).err();
        let is_due = log.failures() == 1 && log.get_ref().written() == &line[..count];
        holds_at(&rt, is_due && status == Some(2), count as u64);
    }
}

/// With any number of bytes per call, and with few.
#[test]
fn files_are_read(rt: HostRuntime) {
    const TEXT: &[u8] = b"cdpatch 1\nset 0 0 41\n";
    for most in &[1, 3, usize::MAX] {
        let mut space = [0; 64];
        let mut log = SliceSink::new(&mut space);
        let mut file = Short::new(SliceSource::new(TEXT), *most);
        let loaded = load_script(rt.alloc(), &mut file, &mut log).ok();
        let is_text = loaded.as_deref() == Some(TEXT);
        holds_at(&rt, is_text && log.written().is_empty(), *most as u64);
    }
}

/// The number of bytes `00` of a file, and the number of them that can be read; the number that is read, or the status.
type File = (u64, u64, Result<usize, u8>);

/// Files. For each file that is not read, the line for this is printed.
const FILES: &[File] = &[
    (0, ALL, Ok(0)),
    (30_000, 0, Err(2)),
    (30_000, 16_384, Err(2)),
    (30_000, 30_000, Err(2)),
];

/// Asserts that a file is read, or gives this line.
fn expect_file(rt: &impl Abort, alloc: Global, row: &File, line: &[u8]) {
    let (size, read, due) = *row;
    let mut space = [0; 64];
    let mut log = SliceSink::new(&mut space);
    let mut file = FailAfter::new(ZeroSource::new(size), read);
    let loaded = load_script(alloc, &mut file, &mut log).map(|text| text.len());
    let is_due = loaded == due && log.finished() == due.is_err();
    let shown = if due.is_err() { line } else { b"".as_slice() };
    holds_at(rt, is_due && log.written() == shown, size);
}

#[test]
fn files_of_zeros(rt: HostRuntime) {
    for row in FILES {
        expect_file(&rt, rt.alloc(), row, NO_SCRIPT.as_bytes());
    }
}

#[test]
fn the_longest_file(rt: HostRuntime) {
    expect_file(&rt, rt.alloc(), &(MAX_TEXT as u64, ALL, Ok(MAX_TEXT)), b"");
}

#[test]
fn a_byte_too_many(rt: HostRuntime) {
    let line = long_script_line();
    expect_file(
        &rt,
        rt.alloc(),
        &(MAX_TEXT as u64 + 1, ALL, Err(2)),
        line.as_slice(),
    );
}

#[test]
fn a_file_that_fails_and_a_full_log(rt: HostRuntime) {
    let mut space = [0; 10];
    let mut log = SliceSink::new(&mut space);
    let mut file = FailAfter::new(ZeroSource::new(1), 0);
    let status = load_script(rt.alloc(), &mut file, &mut log).err();
    assert!(rt;
        status == Some(2) && log.failures() == 1 && log.written() == b"cdpatch: c".as_slice()
    );
}

/// A script file that returns bytes again after its end is read up to this end. No contract says this.
#[test]
fn a_file_that_goes_on_after_its_end(rt: HostRuntime) {
    for count in [0, 1, 16_384, 16_385] {
        let mut space = [0; 64];
        let mut log = SliceSink::new(&mut space);
        let mut file = FromRead::new(Resuming::new(count));
        let read = load_script(rt.alloc(), &mut file, &mut log).map(|text| text.len());
        let is_read = read == Ok(count) && file.failures() == 0;
        holds_at(&rt, is_read && log.written().is_empty(), count as u64);
    }
}

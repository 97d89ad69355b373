//! Tests of the commands on images: a row for each status, and for each line of a fault after the output before it.

use super::holds;
use super::messages::{
    APPLIED, APPLIED_READ_FAILED, APPLIED_WRITE_FAILED, COUNTED_WRITE_FAILED, LONG_IMAGE,
    READ_FAILED, WRITE_FAILED,
};
use crate::tests::images::Sample::{Damaged, Filled, Zeros};
use crate::tests::images::image_of;
use cd_image::{FailAfter, SliceSink, SliceSource, ZeroSource};
use cd_program::{run_apply, run_audit, run_check, run_list};
use cd_script::{Script, parse};
use std::alloc::{AllocError, Global};
use std::process::Abort;
use std::test::Fail;

/// All bytes pass.
pub const ALL: u64 = u64::MAX;

/// Asserts a status, and that the output is the first `passing` bytes of a text.
pub fn expect_ended(rt: &impl Abort, came: (u8, &[u8]), due: (u8, &str), passing: u64) {
    let text = due.1.as_bytes();
    let count = usize::try_from(passing).unwrap_or(usize::MAX);
    let text = text.get(..count).unwrap_or(text);
    holds(rt, came.0 == due.0 && came.1 == text, due.1);
}

/// The number of bytes `00` of an image, the number of them that can be read, and the number of bytes of a text that can be written; the
/// status, and the text.
type Listing = (u64, u64, u64, u8, &'static str);

const LISTINGS: &[Listing] = &[
    (2352, 100, ALL, 2, READ_FAILED),
    (2352, ALL, 5, 2, "0-0 nosync\nsectors 1 tail 0\n"),
];

fn expect_listing(rt: &impl Abort, row: &Listing) {
    let (size, read, passing, status, text) = *row;
    let mut space = [0; 64];
    let mut out = FailAfter::new(SliceSink::new(&mut space), passing);
    let mut image = FailAfter::new(ZeroSource::new(size), read);
    let came = run_list(&mut image, 0, &mut out);
    expect_ended(rt, (came, out.get_ref().written()), (status, text), passing);
}

#[test]
fn listings(rt: HostRuntime) {
    for row in LISTINGS {
        expect_listing(&rt, row);
    }
}

#[test]
fn a_byte_too_many(rt: HostRuntime) {
    expect_listing(&rt, &(2_352_000_001, ALL, ALL, 2, LONG_IMAGE));
}

/// An audit of a damaged sector whose next read fails: the line of the sector, and that of the fault.
#[test]
fn an_audit_that_fails(rt: HostRuntime) -> Result<(), AllocError> {
    let image = image_of(rt.alloc(), &[Damaged(0, 2351, 1)])?;
    let mut space = [0; 64];
    let mut out = SliceSink::new(&mut space);
    let mut image = FailAfter::new(SliceSource::new(&image), 2352);
    let came = run_audit(&mut image, 0, &mut out);
    let due = "0 q=1\ncdpatch: reading the image failed\n";
    expect_ended(&rt, (came, out.written()), (2, due), ALL);
    Ok(())
}

/// The numbers of bytes that pass from an image of three sectors whose second one is patched, to the output and to the log; the status;
/// and the lines of the log, which gets their first bytes, as many as pass.
type Patching = (u64, u64, u64, u8, &'static str);

const PATCHINGS: &[Patching] = &[
    (0, ALL, ALL, 2, READ_FAILED),
    (4703, ALL, ALL, 2, READ_FAILED),
    (7056, ALL, ALL, 2, APPLIED_READ_FAILED),
    (ALL, 0, ALL, 2, WRITE_FAILED),
    (ALL, 2351, ALL, 2, WRITE_FAILED),
    (ALL, 2352, ALL, 2, APPLIED_WRITE_FAILED),
    (ALL, 2353, ALL, 2, APPLIED_WRITE_FAILED),
    (ALL, 7055, ALL, 2, APPLIED_WRITE_FAILED),
    (ALL, 7056, ALL, 2, COUNTED_WRITE_FAILED),
    (ALL, ALL, 0, 2, APPLIED),
    (ALL, ALL, 15, 2, APPLIED),
    (ALL, ALL, 16, 2, APPLIED),
    (ALL, ALL, 35, 2, APPLIED),
    (ALL, ALL, 36, 2, APPLIED),
    (7057, 7057, 37, 0, APPLIED),
    (ALL, ALL, ALL, 0, APPLIED),
];

/// An image of three sectors, a script of one patch, and the patched image.
#[derive(Drop)]
struct Parts {
    image: Vec<u8>,
    script: Script,
    patched: Vec<u8>,
}

fn make_parts(alloc: Global) -> Result<Parts, Fail> {
    Ok(Parts {
        image: image_of(alloc, &[Zeros(0), Zeros(1), Zeros(2)])?,
        script: parse(alloc, b"cdpatch 1\nset 1 0 41\n")?,
        patched: image_of(alloc, &[Zeros(0), Filled(1, 0, 1, 0x41), Zeros(2)])?,
    })
}

/// Applies the script. The output is a prefix of the patched image: as many bytes as pass, if it fails.
fn expect_applied(rt: &impl Abort, parts: &Parts, row: &Patching) {
    let (read, sent, logged, status, lines) = *row;
    let (mut space, mut text) = ([0; 7056], [0; 128]);
    let mut image = FailAfter::new(SliceSource::new(&parts.image), read);
    let mut out = FailAfter::new(SliceSink::new(&mut space), sent);
    let mut log = FailAfter::new(SliceSink::new(&mut text), logged);
    let came = run_apply(&mut image, &parts.script, 0, false, &mut out, &mut log);
    expect_ended(rt, (came, log.get_ref().written()), (status, lines), logged);
    let out = out.get_ref().written();
    let is_all = sent == ALL || out.len() as u64 == sent.min(7056);
    holds(rt, is_all && parts.patched.starts_with(out), lines);
}

/// Checks the script.
fn expect_checked(rt: &impl Abort, parts: &Parts, row: &Patching) {
    let (read, _, logged, status, lines) = *row;
    let mut text = [0; 128];
    let mut image = FailAfter::new(SliceSource::new(&parts.image), read);
    let mut log = FailAfter::new(SliceSink::new(&mut text), logged);
    let came = run_check(&mut image, &parts.script, 0, false, &mut log);
    expect_ended(rt, (came, log.get_ref().written()), (status, lines), logged);
}

#[test]
fn one_of_the_three_fails(rt: HostRuntime) -> Result<(), Fail> {
    let parts = make_parts(rt.alloc())?;
    for row in PATCHINGS {
        expect_applied(&rt, &parts, row);
        if row.1 == ALL {
            expect_checked(&rt, &parts, row);
        }
    }
    Ok(())
}

/// The output fails at once, and the log after each number of bytes of the line that reports this.
#[test]
fn the_log_fails_in_the_line_of_a_fault(rt: HostRuntime) -> Result<(), Fail> {
    let parts = make_parts(rt.alloc())?;
    for count in 0..=35 {
        expect_applied(&rt, &parts, &(ALL, 0, count, 2, WRITE_FAILED));
    }
    Ok(())
}

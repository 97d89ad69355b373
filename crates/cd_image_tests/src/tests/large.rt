//! Tests with the largest images, and with one without an end. Each pass over more than 60,000,000 bytes is a separate test.

use super::calls::{Answer, NO_LIMIT, Report, check_of, expect_reported, report_of, report_with};
use super::images::{repeated, script_of};
use cd_image::{Fault, FromRead, ListTally, Source, Tally, ZeroSource};
use std::alloc::Global;
use std::io;
use std::process::Abort;
use std::test::Fail;

/// The number of bytes of a million sectors.
const MOST: u64 = 2_352_000_000;

const TOO_LONG: Answer = Answer::Failed(Fault::TooLong);

#[test]
fn a_listing_of_a_million_sectors(rt: HostRuntime) {
    let text = "0-999999 nosync\nsectors 1000000 tail 0\n";
    let came = report_of(Report::List, &mut ZeroSource::new(MOST), 0, NO_LIMIT, text);
    let tally = ListTally {
        sectors: 1_000_000,
        tail: 0,
    };
    let due = report_with(Answer::Listed(tally), text.len());
    expect_reported(&rt, &came, &due, 0, text);
}

#[test]
fn a_listing_of_a_byte_more(rt: HostRuntime) {
    let came = report_of(
        Report::List,
        &mut ZeroSource::new(MOST + 1),
        0,
        NO_LIMIT,
        "",
    );
    expect_reported(&rt, &came, &report_with(TOO_LONG, 0), 0, "");
}

/// A reader of std. No contract knows the bytes that it has yet to return.
#[test]
fn a_listing_without_an_end(rt: HostRuntime) {
    let mut image = FromRead::new(io::repeat(0));
    let came = report_of(Report::List, &mut image, 0, NO_LIMIT, "");
    expect_reported(&rt, &came, &report_with(TOO_LONG, 0), 0, "");
    assert_eq!(rt; image.failures(), 0);
}

/// Checks a script on a number of bytes `00`.
fn checks(
    rt: &impl Abort,
    alloc: Global,
    script: &str,
    size: u64,
    answer: Answer,
    log: &str,
) -> Result<(), Fail> {
    let script = script_of(alloc, script)?;
    let came = check_of(&mut ZeroSource::new(size), &script, log);
    expect_reported(rt, &came, &report_with(answer, log.len()), 0, log);
    Ok(())
}

/// The answer if none of a million sectors is patched.
fn refused(refused: u32) -> Answer {
    Answer::Patched(Tally {
        applied: 0,
        refused,
        sectors: 1_000_000,
        tail: 0,
    })
}

#[test]
fn no_patch_checked(rt: HostRuntime) -> Result<(), Fail> {
    let log = "applied 0 refused 0\n";
    checks(&rt, rt.alloc(), "cdpatch 1", MOST, refused(0), log)
}

#[test]
fn a_patch_past_a_byte_more_checked(rt: HostRuntime) -> Result<(), Fail> {
    let script = "cdpatch 1\nset 1000000 0 41";
    checks(&rt, rt.alloc(), script, MOST + 1, TOO_LONG, "")
}

#[test]
fn a_patch_over_the_end_checked(rt: HostRuntime) -> Result<(), Fail> {
    let script = repeated(rt.alloc(), "cdpatch 1\nset 999998 0 ", "41", 4096, "")?;
    let log = "line 2: refused: block 999998 is not mode 1\napplied 0 refused 1\n";
    checks(&rt, rt.alloc(), &script, MOST, refused(1), log)
}

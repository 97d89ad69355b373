//! Tests with readers of std that return bytes again after they have returned 0. The first 0 is the end, and no call reads further. No
//! contract says this, since none knows the bytes that are still to come.

use super::calls::{
    Answer, NO_LIMIT, Report, check_of, expect_reported, patched, report_of, report_with,
};
use super::holds;
use super::images::{Resuming, script_of};
use cd_image::{AuditTally, FromRead, ListTally, Sink, Source, Tally, ToWrite, apply};
use cd_script::Script;
use cd_stream::fill_buffer;
use std::io;
use std::process::Abort;
use std::test::Fail;

/// The number of bytes before the first end, their sectors and tail, the listing, and the audit.
#[derive(Clone, Copy)]
struct Ended(usize, u32, u16, &'static str, &'static str);

/// The end is at the border of a sector, within a sector, after the first byte, and before it.
const ENDED: &[Ended] = &[
    Ended(
        4704,
        2,
        0,
        "0-1 nosync\nsectors 2 tail 0\n",
        "sectors 2 mode1 0 damaged 0 tail 0\n",
    ),
    Ended(
        2355,
        1,
        3,
        "0-0 nosync\nsectors 1 tail 3\n",
        "sectors 1 mode1 0 damaged 0 tail 3\n",
    ),
    Ended(
        1,
        0,
        1,
        "sectors 0 tail 1\n",
        "sectors 0 mode1 0 damaged 0 tail 1\n",
    ),
    Ended(
        0,
        0,
        0,
        "sectors 0 tail 0\n",
        "sectors 0 mode1 0 damaged 0 tail 0\n",
    ),
];

/// Asserts a report on such an image.
fn expect_report(rt: &impl Abort, call: Report, bytes: usize, answer: Answer, text: &str) {
    let mut image = FromRead::new(Resuming::new(bytes));
    let came = report_of(call, &mut image, 0, NO_LIMIT, text);
    expect_reported(rt, &came, &report_with(answer, text.len()), bytes, text);
}

#[test]
fn reports(rt: HostRuntime) {
    for Ended(bytes, sectors, tail, listing, audit) in ENDED {
        let (sectors, tail) = (*sectors, *tail);
        let tally = ListTally { sectors, tail };
        expect_report(&rt, Report::List, *bytes, Answer::Listed(tally), listing);
        let tally = AuditTally {
            sectors,
            mode1: 0,
            damaged: 0,
            findings: 0,
            tail,
        };
        expect_report(&rt, Report::Audit, *bytes, Answer::Audited(tally), audit);
    }
}

const LOG: &str = "line 2: refused: no block 7\napplied 0 refused 1\n";

/// Checks a script on such an image, and applies it. Both have the same result, and the output is finished.
fn expect_patched(rt: &impl Abort, script: &Script, bytes: usize, tally: Tally) {
    let mut image = FromRead::new(Resuming::new(bytes));
    let came = check_of(&mut image, script, LOG);
    let due = report_with(Answer::Patched(tally), LOG.len());
    expect_reported(rt, &came, &due, bytes, LOG);
    let mut image = FromRead::new(Resuming::new(bytes));
    let (mut out, mut log) = (ToWrite::new(io::sink()), ToWrite::new(io::sink()));
    let came = patched(apply(&mut image, script, 0, false, &mut out, &mut log));
    holds(rt, came == due.answer && out.finished(), bytes);
}

#[test]
fn patches(rt: HostRuntime) -> Result<(), Fail> {
    let script = script_of(rt.alloc(), "cdpatch 1\nset 7 0 41\n")?;
    for Ended(bytes, sectors, tail, _, _) in ENDED {
        let tally = Tally {
            applied: 0,
            refused: 1,
            sectors: *sectors,
            tail: *tail,
        };
        expect_patched(&rt, &script, *bytes, tally);
    }
    Ok(())
}

/// The other bytes of a buffer do not change.
#[test]
fn buffers(rt: HostRuntime) {
    for count in [0, 1, 7] {
        let mut into = [7; 8];
        let mut source = FromRead::new(Resuming::new(count));
        let is_filled = fill_buffer(&mut source, &mut into) == Ok(count) && source.failures() == 0;
        let is_kept = into.iter().skip(count).all(|byte| *byte == 7);
        holds(&rt, is_filled && is_kept, count);
    }
}

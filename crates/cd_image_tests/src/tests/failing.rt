//! Patches while the image, the output or the log fails at each byte, or passes few bytes per call. The bytes of the others are known.

ghost use Rattle.std.specs.Prelude.{◌≡◌};

use super::calls::{
    ALL, Answer, Call, Ending, Got, Limits, apply_within, by_parts, check_within, expect_done,
    expect_ending, passing,
};
use super::images::Sample::{self, Filled, Zeros};
use super::images::{Full, Written, image_of, script_of};
use Count::{All, AtMost, Just};
use cd_image::Fault::{self, Log, Read, Write};
use cd_image::{Sink, SliceSource, Tally, ToWrite, apply, check};
use cd_script::Script;
use std::alloc::{AllocError, Global};
use std::io;
use std::process::Abort;
use std::test::Fail;

const IMAGE: &[Sample] = &[Zeros(0), Zeros(1), Zeros(2)];

const SCRIPT: &str = "cdpatch 1\nset 1 0 41\n";

const PATCHED: &[Sample] = &[Zeros(0), Filled(1, 0, 1, 0x41), Zeros(2)];

const LOG: &[u8] = b"line 2: applied\napplied 1 refused 0\n";

const TALLY: Tally = Tally {
    applied: 1,
    refused: 0,
    sectors: 3,
    tail: 0,
};

/// An image, its script, and the patched image.
#[derive(Drop)]
struct Parts {
    image: Vec<u8>,
    script: Script,
    whole: Vec<u8>,
}

fn make_parts(alloc: Global) -> Result<Parts, Fail> {
    Ok(Parts {
        image: image_of(alloc, IMAGE)?,
        script: script_of(alloc, SCRIPT)?,
        whole: image_of(alloc, PATCHED)?,
    })
}

impl Parts {
    fn call(&self) -> Call<'_>
        ensures { result.base ≡ 0 }
    {
        Call {
            image: &self.image,
            text: SCRIPT,
            script: &self.script,
            base: 0,
            carry: false,
            out: &self.whole,
            log: LOG,
        }
    }
}

/// A number of bytes that are out.
#[derive(Clone, Copy)]
enum Count {
    Just(usize),
    AtMost(usize),
    /// As many as may pass.
    All,
}

impl Count {
    /// The number of bytes that must be out, if `passing` may pass and `came` are out.
    fn due(self, passing: usize, came: usize) -> usize {
        match self {
            Just(count) => count,
            AtMost(most) => came.min(most),
            All => passing,
        }
    }
}

/// The fault after each number of bytes from one up to another, and the numbers of bytes of the output and of the log that are out then.
#[derive(Clone, Copy)]
struct Stop(Fault, usize, usize, Count, Count);

const IMAGE_STOPS: &[Stop] = &[
    Stop(Read, 0, 4704, AtMost(2352), Just(0)),
    Stop(Read, 4704, 7057, AtMost(7056), AtMost(36)),
];

const OUTPUT_STOPS: &[Stop] = &[
    Stop(Write, 0, 2352, All, Just(0)),
    Stop(Write, 2352, 7056, All, Just(16)),
    Stop(Write, 7056, 7057, All, Just(36)),
];

const LOG_STOPS: &[Stop] = &[
    Stop(Log, 0, 16, Just(2352), All),
    Stop(Log, 16, 37, Just(7056), All),
];

/// The limits with which this fault occurs after a number of bytes.
fn limits_of(fault: Fault, count: u64) -> Limits {
    match fault {
        Read => passing(count, ALL, ALL),
        Write => passing(ALL, count, ALL),
        _ => passing(ALL, ALL, count),
    }
}

/// The ending of a call with this fault: the stream of the fault has failed once, and nothing else has. The output is finished if all of it
/// and of the log is out. The rest of the image is not compared.
fn failed(came: &Ending, fault: Fault, sent: usize, logged: usize) -> Ending {
    Ending {
        answer: Answer::Failed(fault),
        failures: u32::from(fault == Read),
        left: came.left,
        out: Got {
            failures: u32::from(fault == Write),
            finished: fault == Log && sent == 7056 && logged == LOG.len(),
            bytes: Written::right(sent),
        },
        log: Got {
            failures: u32::from(fault == Log),
            finished: false,
            bytes: Written::right(logged),
        },
    }
}

/// Asserts that `apply` and `check` fail in this way after a number of bytes.
fn fails(
    rt: &impl Abort,
    alloc: Global,
    call: &Call,
    stop: &Stop,
    passed: usize,
) -> Result<(), AllocError>
    requires { call.now.base ≡ 0 }
{
    let Stop(fault, _, _, sent, logged) = *stop;
    let limits = limits_of(fault, passed as u64);
    let came = apply_within(alloc, call, &limits)?;
    let sent = sent.due(passed, came.out.bytes.count);
    let due = failed(&came, fault, sent, logged.due(passed, came.log.bytes.count));
    expect_ending(rt, &came, &due, "apply", passed);
    if fault == Write {
        return Ok(());
    }
    let came = check_within(alloc, call, &limits)?;
    let due = failed(&came, fault, 0, logged.due(passed, came.log.bytes.count));
    expect_ending(rt, &came, &due, "check", passed);
    Ok(())
}

fn fails_at_each(rt: &impl Abort, alloc: Global, stops: &[Stop]) -> Result<(), Fail> {
    let parts = make_parts(alloc)?;
    let call = parts.call();
    for stop in stops {
        for passed in stop.1..stop.2 {
            fails(rt, alloc, &call, stop, passed)?;
        }
    }
    Ok(())
}

#[test]
fn the_image_at_each_byte(rt: HostRuntime) -> Result<(), Fail> {
    fails_at_each(&rt, rt.alloc(), IMAGE_STOPS)
}

#[test]
fn the_output_at_each_byte(rt: HostRuntime) -> Result<(), Fail> {
    fails_at_each(&rt, rt.alloc(), OUTPUT_STOPS)
}

#[test]
fn the_log_at_each_byte(rt: HostRuntime) -> Result<(), Fail> {
    fails_at_each(&rt, rt.alloc(), LOG_STOPS)
}

/// One byte more than all may pass. Then few bytes pass per call, for one of the three streams, and for all of them.
#[test]
fn nothing_fails(rt: HostRuntime) -> Result<(), Fail> {
    let parts = make_parts(rt.alloc())?;
    let call = parts.call();
    let most = usize::MAX;
    for limits in [
        passing(7057, ALL, ALL),
        passing(ALL, 7057, ALL),
        passing(ALL, ALL, 37),
    ] {
        expect_done(&rt, rt.alloc(), &call, TALLY, &limits, 0)?;
    }
    for few in [1, 2, 2351, 2353] {
        for limits in [
            by_parts(few, most, most),
            by_parts(most, few, most),
            by_parts(most, most, few),
            by_parts(few, few, few),
        ] {
            expect_done(&rt, rt.alloc(), &call, TALLY, &limits, few)?;
        }
    }
    Ok(())
}

const FIVE: &[Sample] = &[Zeros(0), Zeros(1), Zeros(2), Zeros(3), Zeros(4)];

/// The last two of the five sectors are still in the image.
#[test]
fn three_sectors_are_in_hand(rt: HostRuntime) -> Result<(), Fail> {
    let text = "cdpatch 1\n";
    let image = image_of(rt.alloc(), FIVE)?;
    let script = script_of(rt.alloc(), text)?;
    let call = Call {
        image: &image,
        text,
        script: &script,
        base: 0,
        carry: false,
        out: &image,
        log: b"",
    };
    let came = apply_within(rt.alloc(), &call, &passing(ALL, 0, ALL))?;
    let left = came.left.map_or(0, |left| left.count);
    let due = Ending {
        left: Some(Written::right(left.max(4704))),
        ..failed(&came, Write, 0, 0)
    };
    expect_ending(&rt, &came, &due, text, 0);
    Ok(())
}

#[test]
fn an_output_that_takes_nothing(rt: HostRuntime) -> Result<(), Fail> {
    let parts = make_parts(rt.alloc())?;
    let (mut none, mut all) = (ToWrite::new(Full), ToWrite::new(io::sink()));
    let mut image = SliceSource::new(&parts.image);
    let came = apply(&mut image, &parts.script, 0, false, &mut none, &mut all);
    assert!(rt; came == Err(Write) && none.failures() == 1);
    Ok(())
}

#[test]
fn a_log_that_takes_nothing(rt: HostRuntime) -> Result<(), Fail> {
    let parts = make_parts(rt.alloc())?;
    let (mut none, mut all) = (ToWrite::new(Full), ToWrite::new(io::sink()));
    let mut image = SliceSource::new(&parts.image);
    let came = apply(&mut image, &parts.script, 0, false, &mut all, &mut none);
    assert!(rt; came == Err(Log) && none.failures() == 1);
    let mut image = SliceSource::new(&parts.image);
    let came = check(&mut image, &parts.script, 0, false, &mut none);
    assert!(rt; came == Err(Log) && none.failures() == 2);
    Ok(())
}

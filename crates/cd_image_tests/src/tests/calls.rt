//! Runs the four calls on images in memory, with limits on the bytes that pass, and describes a call by its result and its output.

ghost use Rattle.std.specs.Prelude.{◌≤◌};
ghost use Rattle.cd_stream.specs.Stream.{CanCountFailure};

use super::images::{UNTOUCHED, Written, written_in};
use cd_image::{
    AuditTally, FailAfter, Fault, ListTally, Short, Sink, SliceSink, SliceSource, Source, Tally,
    apply, audit, check, list,
};
use cd_report::MAX_BASE;
use cd_script::Script;
use cd_stream::fill_buffer;
use std::alloc::{AllocError, Global};
use std::process::Abort;

/// The result of a call.
#[derive(Clone, Copy, Debug, PartialEq, Eq)]
pub enum Answer {
    Patched(Tally),
    Listed(ListTally),
    Audited(AuditTally),
    Failed(Fault),
}

/// The result of `apply` or `check`.
pub fn patched(answer: Result<Tally, Fault>) -> Answer {
    match answer {
        Ok(tally) => Answer::Patched(tally),
        Err(fault) => Answer::Failed(fault),
    }
}

/// The number of bytes that pass in all, before each call fails, and the most bytes that pass in a call.
#[derive(Clone, Copy)]
pub struct Limit(pub u64, pub usize);

/// The limits for the image, the output and the log.
#[derive(Clone, Copy)]
pub struct Limits {
    pub image: Limit,
    pub out: Limit,
    pub log: Limit,
}

/// All bytes pass.
pub const ALL: u64 = u64::MAX;

/// All bytes pass, any number per call.
pub const NO_LIMIT: Limit = Limit(ALL, usize::MAX);

/// Limits on the bytes that pass in all from the image, to the output and to the log.
pub fn passing(image: u64, out: u64, log: u64) -> Limits {
    Limits {
        image: Limit(image, usize::MAX),
        out: Limit(out, usize::MAX),
        log: Limit(log, usize::MAX),
    }
}

/// Limits on the bytes that pass in a call from the image, to the output and to the log.
pub fn by_parts(image: usize, out: usize, log: usize) -> Limits {
    Limits {
        image: Limit(ALL, image),
        out: Limit(ALL, out),
        log: Limit(ALL, log),
    }
}

/// A script on an image whose first block is `base`, with damage carried or not, and the output and log if nothing fails. `text` is the
/// text of the script.
#[derive(Clone, Copy)]
pub struct Call<'a> {
    pub image: &'a [u8],
    pub text: &'a str,
    pub script: &'a Script,
    pub base: u32,
    pub carry: bool,
    pub out: &'a [u8],
    pub log: &'a [u8],
}

/// The state of a sink over memory: the number of its failures, whether it is finished, and its bytes.
#[derive(Clone, Copy, Debug, PartialEq, Eq)]
pub struct Got {
    pub failures: u32,
    pub finished: bool,
    pub bytes: Written,
}

impl Got {
    /// This number of correct bytes, and no failure.
    pub fn finished(count: usize) -> Self {
        Got {
            failures: 0,
            finished: true,
            bytes: Written::right(count),
        }
    }
}

/// A source over memory with a limit.
fn source_over<'a>(bytes: &'a [u8], limit: Limit) -> Short<FailAfter<SliceSource<'a>>>
    ensures { CanCountFailure
        (⟦<Short<FailAfter<SliceSource<'a>>> as Source>⟧.seen result).failures }
{
    Short::new(FailAfter::new(SliceSource::new(bytes), limit.0), limit.1)
}

/// A sink over memory with a limit.
fn sink_over<'a>(space: &'a mut [u8], limit: Limit) -> Short<FailAfter<SliceSink<'a>>>
    ensures { CanCountFailure
        (⟦<Short<FailAfter<SliceSink<'a>>> as Sink>⟧.seen result).failures }
{
    Short::new(FailAfter::new(SliceSink::new(space), limit.0), limit.1)
}

/// The state of such a sink, compared with all the bytes that it should get.
fn got_by(sink: &Short<FailAfter<SliceSink<'_>>>, whole: &[u8]) -> Got {
    let memory = sink.get_ref().get_ref();
    Got {
        failures: sink.failures(),
        finished: sink.finished(),
        bytes: written_in(memory.space, memory.used, whole),
    }
}

/// How a call with a script ended.
#[derive(Clone, Copy, Debug, PartialEq, Eq)]
pub struct Ending {
    pub answer: Answer,
    /// The number of failures of the image.
    pub failures: u32,
    /// The rest of the image, which was read after the call if the image had not failed.
    pub left: Option<Written>,
    pub out: Got,
    pub log: Got,
}

/// Reads the rest of an image that has not failed.
fn read_on<I: Source>(
    alloc: Global,
    image: &mut I,
    whole: &[u8],
) -> Result<Option<Written>, AllocError> {
    if image.failures() > 0 {
        return Ok(None);
    }
    let mut rest = vec![in alloc; UNTOUCHED; whole.len()]?;
    Ok(match fill_buffer(image, &mut rest) {
        Ok(count) => {
            let first = whole.len().saturating_sub(count);
            Some(written_in(&rest, count, whole.get(first..).unwrap_or(&[])))
        }
        Err(_) => None,
    })
}

/// Applies the script, with memory for exactly the expected output, and reads the rest of the image.
pub fn apply_within(alloc: Global, call: &Call, limits: &Limits) -> Result<Ending, AllocError>
    requires { call.now.base ≤ MAX_BASE }
{
    let mut sent = vec![in alloc; UNTOUCHED; call.out.len()]?;
    let mut lines = vec![in alloc; UNTOUCHED; call.log.len()]?;
    let mut image = source_over(call.image, limits.image);
    let mut out = sink_over(&mut sent, limits.out);
    let mut log = sink_over(&mut lines, limits.log);
    let (script, base, carry) = (call.script, call.base, call.carry);
    let answer = patched(apply(&mut image, script, base, carry, &mut out, &mut log));
    Ok(Ending {
        answer,
        failures: image.failures(),
        left: read_on(alloc, &mut image, call.image)?,
        out: got_by(&out, call.out),
        log: got_by(&log, call.log),
    })
}

/// Checks the script in the same way. The output has no bytes and no failures, and is finished if the log is.
pub fn check_within(alloc: Global, call: &Call, limits: &Limits) -> Result<Ending, AllocError>
    requires { call.now.base ≤ MAX_BASE }
{
    let mut lines = vec![in alloc; UNTOUCHED; call.log.len()]?;
    let mut image = source_over(call.image, limits.image);
    let mut log = sink_over(&mut lines, limits.log);
    let (script, base, carry) = (call.script, call.base, call.carry);
    let answer = patched(check(&mut image, script, base, carry, &mut log));
    let log = got_by(&log, call.log);
    Ok(Ending {
        answer,
        failures: image.failures(),
        left: read_on(alloc, &mut image, call.image)?,
        out: Got {
            finished: log.finished,
            ..Got::finished(0)
        },
        log,
    })
}

/// The ending of a call in which nothing fails, and which sends this number of bytes.
fn done(tally: Tally, call: &Call, sent: usize) -> Ending {
    Ending {
        answer: Answer::Patched(tally),
        failures: 0,
        left: Some(Written::right(0)),
        out: Got::finished(sent),
        log: Got::finished(call.log.len()),
    }
}

/// Asserts the ending of a call. On failure, prints a text and a number.
pub fn expect_ending(rt: &impl Abort, came: &Ending, due: &Ending, text: &str, number: usize) {
    assert_eq!(rt; *came, *due, "{text}, {number}");
}

/// Applies a script, and then checks it, within limits in which nothing fails. On failure, prints the text of the script and a number.
pub fn expect_done(
    rt: &impl Abort,
    alloc: Global,
    call: &Call,
    tally: Tally,
    limits: &Limits,
    number: usize,
) -> Result<(), AllocError>
    requires { call.now.base ≤ MAX_BASE }
{
    let came = apply_within(alloc, call, limits)?;
    let due = done(tally, call, call.out.len());
    expect_ending(rt, &came, &due, call.text, number);
    let came = check_within(alloc, call, limits)?;
    expect_ending(rt, &came, &done(tally, call, 0), call.text, number);
    Ok(())
}

/// A call that reports on an image.
#[derive(Clone, Copy)]
pub enum Report {
    List,
    Audit,
}

/// How a report or a log ended: the result of the call, and the state of its sink.
#[derive(Clone, Copy, Debug, PartialEq, Eq)]
pub struct Reported {
    pub answer: Answer,
    pub out: Got,
}

/// This result, and this number of bytes of the text. No write has failed, and the sink is finished unless the call has failed.
pub fn report_with(answer: Answer, sent: usize) -> Reported {
    Reported {
        answer,
        out: Got {
            finished: !matches!(answer, Answer::Failed(_)),
            ..Got::finished(sent)
        },
    }
}

/// Reports on an image to memory with a limit, and compares the output with the expected text.
pub fn report_of<I: Source>(
    report: Report,
    image: &mut I,
    base: u32,
    limit: Limit,
    text: &str,
) -> Reported
    requires base { base ≤ MAX_BASE }
    requires image_countable { CanCountFailure (I.seen image.old).failures }
{
    let mut space = [UNTOUCHED; 128];
    let mut out = sink_over(&mut space, limit);
    let answer = match report {
        Report::List => list(image, base, &mut out).map(Answer::Listed),
        Report::Audit => audit(image, base, &mut out).map(Answer::Audited),
    };
    Reported {
        answer: answer.unwrap_or_else(Answer::Failed),
        out: got_by(&out, text.as_bytes()),
    }
}

/// The same for an image in memory, with a limit.
pub fn report_within(
    report: Report,
    image: &[u8],
    base: u32,
    limits: &Limits,
    text: &str,
) -> Reported
    requires { base ≤ MAX_BASE }
{
    let mut image = source_over(image, limits.image);
    report_of(report, &mut image, base, limits.out, text)
}

/// Checks a script on an image from block 0 on, and compares the log with the expected text.
pub fn check_of<I: Source>(image: &mut I, script: &Script, text: &str) -> Reported
    requires { CanCountFailure (I.seen image.old).failures }
{
    let mut lines = [UNTOUCHED; 128];
    let mut log = sink_over(&mut lines, NO_LIMIT);
    let answer = patched(check(image, script, 0, false, &mut log));
    Reported {
        answer,
        out: got_by(&log, text.as_bytes()),
    }
}

/// Asserts the ending of a report. On failure, prints a number and a text.
pub fn expect_reported(
    rt: &impl Abort,
    came: &Reported,
    due: &Reported,
    number: usize,
    text: &str,
) {
    assert_eq!(rt; *came, *due, "{number} of {text}");
}

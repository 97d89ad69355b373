//! Calls of C that write a line of a log, or the line for a failure.

ghost use Rattle.std.specs.Prelude.{◌≡◌, ◌<◌, ◌≤◌, ◌↔◌, IfSome, None, drop, length, take};
ghost use Rattle.cd_run.specs.Messages.{script_fault_line};
ghost use Rattle.cd_run.specs.PatchLog.{counts_line, outcome_line};
ghost use Rattle.cd_patch.specs.OutcomeNumbers.{outcome_of};
ghost use Rattle.cd_script.specs.FaultNumbers.{fault_of};
ghost use Rattle.cd_read.specs.Messages.{fault_line};
ghost use Rattle.cd_c.specs.Failures.{failure_line};

use cd_line::{LINE_SIZE, Line, text_line};
use cd_patch::Outcome;
use cd_read::{failed_read_line, long_image_line};
use cd_run::{counts_line, long_script_line, outcome_line, script_fault_line};
use cd_script::ScriptFault;

/// Writes the line of a log for the patch in line `number` of a script to the front of `text`, as
/// [`outcome_line`], and returns its size in bytes. The outcome is a number of
/// `enum cdpatch_result`; for a number that is not an outcome, it writes nothing and returns 0.
#[unsafe(no_mangle)]
pub extern "C" fn cdpatch_outcome_line(
    number: u32,
    outcome: u32,
    block: u32,
    offset: u16,
    text: &mut [u8; LINE_SIZE],
) -> usize
    ensures line { IfSome (outcome_of outcome block offset)
        (λ o. take result text.new ≡ outcome_line number o) }
    ensures rest { drop result text.new ≡ drop result text.old }
    ensures within { result ≤ 96 }
    ensures none { result ≡ 0 ↔ outcome_of outcome block offset ≡ None }
    ensures stays { result ≡ 0 → text.new ≡ text.old }
{
    match Outcome::of_number(outcome, block, offset) {
        Some(outcome) => outcome_line(number, outcome).write_to(text),
        None => 0,
    }
}

/// Writes the last line of a log to the front of `text`, as [`counts_line`], and returns its size in
/// bytes.
#[unsafe(no_mangle)]
pub extern "C" fn cdpatch_last_line(applied: u32, refused: u32, text: &mut [u8; LINE_SIZE]) -> usize
    ensures line { take result text.new ≡ counts_line applied refused }
    ensures rest { drop result text.new ≡ drop result text.old }
    ensures within { result ≤ 96 }
    ensures some { 0 < result }
{
    counts_line(applied, refused).write_to(text)
}

/// Writes the line for the error in line `number` of a script to the front of `text`, as
/// [`script_fault_line`], and returns its size in bytes. The error is a number of
/// `enum cdpatch_content`; for any other number, it writes nothing and returns 0.
#[unsafe(no_mangle)]
pub extern "C" fn cdpatch_fault_line(number: u32, fault: u32, text: &mut [u8; LINE_SIZE]) -> usize
    ensures line { IfSome (fault_of fault number)
        (λ f. take result text.new ≡ script_fault_line f) }
    ensures rest { drop result text.new ≡ drop result text.old }
    ensures within { result ≤ 96 }
    ensures none { result ≡ 0 ↔ fault_of fault number ≡ None }
    ensures stays { result ≡ 0 → text.new ≡ text.old }
{
    match ScriptFault::of_number(fault, number) {
        Some(fault) => script_fault_line(fault).write_to(text),
        None => 0,
    }
}

/// A script has more bytes than it may have.
const FAILURE_LONG_SCRIPT: u32 = 0;

/// An image has more sectors than it may have.
const FAILURE_LONG_IMAGE: u32 = 1;

/// A read of an image failed.
const FAILURE_READ: u32 = 2;

/// A write to the output failed.
const FAILURE_WRITE: u32 = 3;

/// The line for a failure; empty for any other number.
#[tactic(auto, unfolding(cd_read::specs::Messages::fault_line))]
fn failure_line(failure: u32) -> Line
    ensures line { result ≡ failure_line failure }
    ensures some { failure ≤ FAILURE_WRITE → 0 < length result }
    ensures room { length result ≤ LINE_SIZE }
{
    match failure {
        FAILURE_LONG_SCRIPT => long_script_line(),
        FAILURE_LONG_IMAGE => long_image_line(),
        FAILURE_READ => failed_read_line(),
        FAILURE_WRITE => text_line(b"cdpatch: writing the output failed\n"),
        _ => Line::new(),
    }
}

/// Writes the line that `cdpatch` prints before it fails to the front of `text`, and returns its size
/// in bytes. The failure is a number of `enum cdpatch_failure`; for any other number, it writes
/// nothing and returns 0.
#[unsafe(no_mangle)]
pub extern "C" fn cdpatch_failure_line(failure: u32, text: &mut [u8; LINE_SIZE]) -> usize
    ensures line { take result text.new ≡ failure_line failure }
    ensures size { result ≡ length (failure_line failure) }
    ensures rest { drop result text.new ≡ drop result text.old }
    ensures within { result ≤ 96 }
    ensures none { result ≡ 0 ↔ FAILURE_WRITE < failure }
{
    failure_line(failure).write_to(text)
}

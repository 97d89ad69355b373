//! The lines of the log: one for each patch, then one with their counts.

ghost use Rattle.std.specs.Prelude.{◌≡◌, ◌<◌, ◌≤◌, ◌++◌, length};
ghost use Rattle.cd_run.specs.PatchLog.{counts_line, outcome_line, outcome_text};

use cd_line::{LINE_SIZE, Line};
use cd_patch::Outcome;

/// Appends the outcome of a patch to the beginning of its line.
#[tactic(auto, unfolding(crate::specs::PatchLog::outcome_text))]
fn push_outcome(line: &mut Line, outcome: Outcome)
    requires { length line.old ≤ 17 }
    ensures text { line.new ≡ line.old ++ outcome_text outcome }
    ensures room { length line.new < 96 }
{
    match outcome {
        Outcome::Applied => line.push_text(b"applied"),
        Outcome::NoBlock(block) => {
            line.push_text(b"refused: no block ");
            line.push_number(block);
        }
        Outcome::NotMode1(block) => {
            line.push_text(b"refused: block ");
            line.push_number(block);
            line.push_text(b" is not mode 1");
        }
        Outcome::Damaged(block) => {
            line.push_text(b"refused: block ");
            line.push_number(block);
            line.push_text(b" is damaged");
        }
        Outcome::Differs(block, offset) => {
            line.push_text(b"refused: old bytes differ at block ");
            line.push_number(block);
            line.push_text(b" offset ");
            line.push_number(u32::from(offset));
        }
    }
}

/// Formats `line L: OUTCOME`, the log line of the patch in line `number` of a script.
///
/// # Examples
///
/// ```
/// let line = outcome_line(3, Outcome::Applied);
/// assert_eq!(rt; line.as_slice(), b"line 3: applied\n".as_slice());
/// let last = counts_line(0, 1);
/// assert_eq!(rt; last.as_slice(), b"applied 0 refused 1\n".as_slice());
/// ```
#[tactic(auto, unfolding(crate::specs::PatchLog::outcome_line))]
pub fn outcome_line(number: u32, outcome: Outcome) -> Line
    ensures line { result ≡ outcome_line number outcome }
    ensures some { 0 < length result }
    ensures room { length result ≤ LINE_SIZE }
{
    let mut line = Line::new();
    line.push_text(b"line ");
    line.push_number(number);
    line.push_text(b": ");
    push_outcome(&mut line, outcome);
    line.push_text(b"\n");
    line
}

/// Formats `applied A refused R`, the last line of the log.
///
/// See the example of [`outcome_line`].
#[tactic(auto, unfolding(crate::specs::PatchLog::counts_line))]
pub fn counts_line(applied: u32, refused: u32) -> Line
    ensures line { result ≡ counts_line applied refused }
    ensures some { 0 < length result }
    ensures room { length result ≤ LINE_SIZE }
{
    let mut line = Line::new();
    line.push_text(b"applied ");
    line.push_number(applied);
    line.push_text(b" refused ");
    line.push_number(refused);
    line.push_text(b"\n");
    line
}

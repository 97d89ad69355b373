//! cdpatch lists, audits and patches raw CD images.
#![tactic(auto)]

use cd_program::run_program;
use std::process::ExitCode;

fn main(rt: HostRuntime) -> ExitCode {
    ExitCode::from(run_program(&rt))
}

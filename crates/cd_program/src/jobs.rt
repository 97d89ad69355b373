//! The program as a function of its arguments: opens files of a host, runs the command on them, and
//! returns the status.

ghost use Rattle.std.specs.Prelude.{◌≡◌, ◌<◌, ◌≤◌, IfOk, OnOk, if◌then◌else◌, is_some, map, string_bytes};
ghost use Rattle.cd_args.specs.Options.{base_in};
ghost use Rattle.cd_read.specs.Status.{done_status, failed_status};
ghost use Rattle.cd_report.specs.AuditText.{audit_report};
ghost use Rattle.cd_report.specs.ListText.{list_report};
ghost use Rattle.cd_program.specs.Messages.{open_fault_line};
ghost use Rattle.cd_program.specs.Program.{DoesApply, DoesCheck, DoesReport, RunsArgs, RunsJob, fault_status};
ghost use Rattle.cd_program.specs.Program.{FlushesRest, PrintsFault, ReadsScript, TakesImage, TakesScript};
ghost use Rattle.cd_read.specs.Printing.{PrintsAndFails};
ghost use Rattle.cd_report.specs.Running.{audit_status};
ghost use Rattle.cd_stream.specs.Stream.{CanCountFailure};
ghost use Rattle.cd_sector.specs.Image.{base_limit};

use crate::messages::{NO_IMAGE, NO_OUTPUT, open_fault_line};
use cd_args::{Job, LineFault, Settings, job_of, refusal_line};
use cd_host::{Host, NO_SCRIPT, OpenFault, load_script, read_script};
use cd_image::{run_apply, run_check};
use cd_read::{DONE, FAILED, print_and_fail, print_line};
use cd_report::{run_audit, run_list};
use cd_script::Script;
use cd_stream::{Sink, Source};
use std::alloc::Global;

/// The image name that means the standard input.
const STANDARD_INPUT: &str = "-";

/// Prints why a file was not opened or made, and returns the status. `line` is the message for a
/// file that was refused.
fn report_open_fault<O: Sink>(fault: OpenFault, line: &'static str, out: &mut O) -> u8
    requires { CanCountFailure (O.seen out.old).failures }
    ensures { PrintsAndFails (open_fault_line line.now fault) (O.seen out.old) (O.seen out.new)
        result }
{
    print_and_fail(open_fault_line(line, fault).as_bytes(), out)
}

/// Opens the image with this name, or the standard input.
fn image_at<H: Host>(host: &mut H, name: &str) -> Result<H::Input, OpenFault>
    ensures asked { TakesImage H.hosting name.now host.old result host.new }
    ensures fresh { IfOk result (λ file. (H.Input.seen file).failures ≡ 0) }
{
    if name == STANDARD_INPUT {
        host.standard_input()
    } else {
        host.input_at(name)
    }
}

/// Reads the script in an open file. On an error it prints the message to `log` and returns the
/// status.
fn script_of<I: Source, L: Sink>(alloc: Global, file: &mut I, log: &mut L) -> Result<Script, u8>
    requires file_countable { CanCountFailure (I.seen file.old).failures }
    requires log_countable { CanCountFailure (L.seen log.old).failures }
    ensures { ReadsScript (I.seen file.old) (I.seen file.new) (L.seen log.old)
        (L.seen log.new) result }
{
    let text = load_script(alloc, file, log)?;
    read_script(alloc, text.as_slice(), log)
}

/// Reads the script in the file at a path. On an error it prints the message to `log` and returns
/// the status.
fn script_at<H: Host, L: Sink>(
    alloc: Global,
    host: &mut H,
    path: &str,
    log: &mut L,
) -> Result<Script, u8>
    requires { CanCountFailure (L.seen log.old).failures }
    ensures takes { TakesScript H.Input.seen H.hosting path.now host.old host.new
        (L.seen log.old) (L.seen log.new) result }
    ensures nothing_printed { OnOk result (L.seen log.new ≡ L.seen log.old) }
{
    match host.input_at(path) {
        Ok(mut file) => script_of(alloc, &mut file, log),
        Err(fault) => Err(report_open_fault(fault, NO_SCRIPT, log)),
    }
}

/// Passes on the bytes that a sink still holds, unless one of its calls has failed or it is
/// finished. It holds bytes if a call on an image ended early, by an error of the image or of the
/// log.
fn flush_rest<O: Sink>(out: &mut O)
    ensures { FlushesRest (O.seen out.old) (O.seen out.new) }
{
    if !out.finished() && out.failures() == 0 {
        let _ = out.finish();
    }
}

/// The command `list`: opens the image and lists it.
fn open_and_list<H: Host, O: Sink>(host: &mut H, image: &str, base: u32, out: &mut O) -> u8
    requires base { base ≤ base_limit }
    requires countable { CanCountFailure (O.seen out.old).failures }
    ensures { DoesReport H.Input.seen H.Output.seen H.hosting
        host.new (O.seen out.new) result (list_report base) (λ _. done_status) image.now host.old
        (O.seen out.old) }
{
    match image_at(host, image) {
        Ok(mut image) => run_list(&mut image, base, out),
        Err(fault) => report_open_fault(fault, NO_IMAGE, out),
    }
}

/// The command `audit`: opens the image and audits it.
fn open_and_audit<H: Host, O: Sink>(host: &mut H, image: &str, base: u32, out: &mut O) -> u8
    requires base { base ≤ base_limit }
    requires countable { CanCountFailure (O.seen out.old).failures }
    ensures { DoesReport H.Input.seen H.Output.seen H.hosting
        host.new (O.seen out.new) result (audit_report base) audit_status image.now host.old
        (O.seen out.old) }
{
    match image_at(host, image) {
        Ok(mut image) => run_audit(&mut image, base, out),
        Err(fault) => report_open_fault(fault, NO_IMAGE, out),
    }
}

/// The command `check`: reads the script, opens the image, and checks the patches.
fn open_and_check<H: Host, L: Sink>(
    alloc: Global,
    host: &mut H,
    image: &str,
    script: &str,
    settings: Settings,
    log: &mut L,
) -> u8
    requires base { settings.base ≤ base_limit }
    requires countable { CanCountFailure (L.seen log.old).failures }
    ensures { DoesCheck H.Input.seen H.Output.seen H.hosting
        host.new (L.seen log.new) result settings image.now script.now host.old (L.seen log.old) }
{
    let script = match script_at(alloc, host, script, log) {
        Ok(script) => script,
        Err(status) => return status,
    };
    let mut image = match image_at(host, image) {
        Ok(image) => image,
        Err(fault) => return report_open_fault(fault, NO_IMAGE, log),
    };
    run_check(&mut image, &script, settings.base, settings.carry, log)
}

/// The command `apply`: reads the script, opens the image, makes the new file, and applies the
/// patches.
// Not inlined: inside its caller, fewer registers would be free for the pass.
#[inline(never)]
fn open_and_apply<H: Host, L: Sink>(
    alloc: Global,
    host: &mut H,
    image: &str,
    script: &str,
    path: &str,
    settings: Settings,
    log: &mut L,
) -> u8
    requires base { settings.base ≤ base_limit }
    requires countable { CanCountFailure (L.seen log.old).failures }
    ensures { DoesApply H.Input.seen H.Output.seen H.hosting
        host.new (L.seen log.new) result settings image.now script.now path.now host.old
        (L.seen log.old) }
{
    let script = match script_at(alloc, host, script, log) {
        Ok(script) => script,
        Err(status) => return status,
    };
    let mut input = match image_at(host, image) {
        Ok(input) => input,
        Err(fault) => return report_open_fault(fault, NO_IMAGE, log),
    };
    let mut output = match host.output_at(path) {
        Ok(output) => output,
        Err(fault) => return report_open_fault(fault, NO_OUTPUT, log),
    };
    let (base, carry) = (settings.base, settings.carry);
    let status = run_apply(&mut input, &script, base, carry, &mut output, log);
    flush_rest(&mut output);
    host.take_back(path, output);
    status
}

/// Proof step: does a job, and returns the status. It has one clause for the four commands, from
/// which the clause of `run_args` follows.
fn run_job<H: Host, O: Sink>(alloc: Global, host: &mut H, job: &Job, out: &mut O) -> u8
    requires base { base_in job.now ≤ base_limit }
    requires countable { CanCountFailure (O.seen out.old).failures }
    ensures { RunsJob H.Input.seen H.Output.seen H.hosting
        job.now host.old host.new (O.seen out.old) (O.seen out.new) result }
{
    let settings = job.settings();
    match job {
        Job::List { image, base } => open_and_list(host, image.as_str(), *base, out),
        Job::Audit { image, base } => open_and_audit(host, image.as_str(), *base, out),
        Job::Check { image, script, .. } => {
            open_and_check(alloc, host, image.as_str(), script.as_str(), settings, out)
        }
        Job::Apply {
            image,
            script,
            out: path,
            ..
        } => {
            let (image, script, path) = (image.as_str(), script.as_str(), path.as_str());
            open_and_apply(alloc, host, image, script, path, settings, out)
        }
    }
}

/// The status after the text for arguments that ask for no job was printed: 0 if they request help,
/// else 2. Without a text it is 2.
fn status_with(fault: &LineFault, text: Option<&str>) -> u8
    ensures { result ≡ (if is_some text.entry then fault_status fault.now else failed_status) }
{
    match text {
        Some(_) if fault.asks_for_help() => DONE,
        _ => FAILED,
    }
}

/// Prints the text for arguments that ask for no job, such as an error or the help, and returns the
/// status. If the text cannot be written, the status is 2.
fn explain<O: Sink>(alloc: Global, fault: &LineFault, out: &mut O) -> u8
    requires { CanCountFailure (O.seen out.old).failures }
    ensures { PrintsFault fault.now (O.seen out.old) (O.seen out.new) result }
{
    let text = fault.parser_text(alloc);
    let text = text.as_deref();
    if print_line(refusal_line(text).as_bytes(), out).is_ok() {
        status_with(fault, text)
    } else {
        FAILED
    }
}

/// Runs the program with the arguments after its name, and returns the status: 0, 1 if `audit` has
/// a finding or a patch was refused, 2 after an error. All text is written to `out`.
///
/// # Examples
///
/// ```
/// let args = vec![in rt.alloc(); String::from_str(rt.alloc(), "--help")?]?;
/// let mut space = [0; 4096];
/// let mut out = SliceSink::new(&mut space);
/// let status = run_args(rt.alloc(), &mut System::new(&rt), args, &mut out);
/// assert!(rt; status == 0 && out.written().starts_with(b"List, audit"));
/// ```
pub fn run_args<H: Host, O: Sink>(alloc: Global, host: &mut H, args: Vec<String>, out: &mut O) -> u8
    requires { CanCountFailure (O.seen out.old).failures }
    ensures does { RunsArgs H.Input.seen H.Output.seen H.hosting
        (map string_bytes args.items) host.old host.new (O.seen out.old) (O.seen out.new) result }
    ensures few { result ≤ 2 }
{
    match job_of(alloc, args) {
        Ok(job) => run_job(alloc, host, &job, out),
        Err(fault) => explain(alloc, &fault, out),
    }
}

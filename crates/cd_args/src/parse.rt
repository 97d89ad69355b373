//! Parses the arguments of the program into a job.
ghost use Rattle.std.specs.Prelude.{◌≡◌, ◌≤◌, IfOk, IfErr, OnOk, IsSome, Some, [], map, string_bytes, codes};
ghost use Rattle.clap.specs.Words.{first_of, found_of, rows_of};
ghost use Rattle.cd_args.specs.CommandLine.{HasMatches, IsAccepted, IsComplete, IsJobOf, IsListJob};
ghost use Rattle.cd_args.specs.Options.{HasBase, base_in};
ghost use Rattle.cd_args.specs.Fault.{HasKindOf, error_kinds};
ghost use Rattle.cd_args.specs.declared.fault.LineFault.TheVariants.{NoMemory};

use crate::cli::command_line;
use crate::settings::{Settings, base_of, settings_of};
use crate::{Job, LineFault};
use cd_address::MAX_BLOCK;
use clap::ArgMatches;
use std::alloc::{AllocError, Global};

/// The value of a required argument.
fn text_of(alloc: Global, matches: &ArgMatches<'_>, id: &str) -> Result<String, AllocError>
    requires { IsSome (first_of id.now (rows_of (found_of matches.now))) }
    ensures { IfOk result (λ text. first_of id.now (rows_of (found_of matches.now))
        ≡ Some (string_bytes text)) }
{
    let text = matches.get_str(id).unwrap();
    String::from_str(alloc, text)
}

/// `list IMAGE [--base N]`.
fn list_job(alloc: Global, matches: &ArgMatches<'_>) -> Result<Job, AllocError>
    requires image { IsSome (first_of (codes "image") (rows_of (found_of matches.now))) }
    requires base { HasBase (rows_of (found_of matches.now)) }
    ensures job { IfOk result (HasMatches (codes "list", rows_of (found_of matches.now))) }
    ensures base { IfOk result (λ job. base_in job ≤ MAX_BLOCK) }
{
    let image = text_of(alloc, matches, "image")?;
    let base = base_of(matches);
    Ok(Job::List { image, base })
}

/// `audit IMAGE [--base N]`.
fn audit_job(alloc: Global, matches: &ArgMatches<'_>) -> Result<Job, AllocError>
    requires image { IsSome (first_of (codes "image") (rows_of (found_of matches.now))) }
    requires base { HasBase (rows_of (found_of matches.now)) }
    ensures job { IfOk result (HasMatches (codes "audit", rows_of (found_of matches.now))) }
    ensures base { IfOk result (λ job. base_in job ≤ MAX_BLOCK) }
{
    let image = text_of(alloc, matches, "image")?;
    let base = base_of(matches);
    Ok(Job::Audit { image, base })
}

/// `check IMAGE SCRIPT`, with the options of `Settings`.
fn check_job(alloc: Global, matches: &ArgMatches<'_>) -> Result<Job, AllocError>
    requires image { IsSome (first_of (codes "image") (rows_of (found_of matches.now))) }
    requires script { IsSome (first_of (codes "script") (rows_of (found_of matches.now))) }
    requires base { HasBase (rows_of (found_of matches.now)) }
    ensures job { IfOk result (HasMatches (codes "check", rows_of (found_of matches.now))) }
    ensures base { IfOk result (λ job. base_in job ≤ MAX_BLOCK) }
{
    let image = text_of(alloc, matches, "image")?;
    let script = text_of(alloc, matches, "script")?;
    let Settings { base, carry } = settings_of(matches);
    Ok(Job::Check {
        image,
        script,
        base,
        carry,
    })
}

/// `apply IMAGE SCRIPT OUT`, with the options of `Settings`.
fn apply_job(alloc: Global, matches: &ArgMatches<'_>) -> Result<Job, AllocError>
    requires image { IsSome (first_of (codes "image") (rows_of (found_of matches.now))) }
    requires script { IsSome (first_of (codes "script") (rows_of (found_of matches.now))) }
    requires out { IsSome (first_of (codes "out") (rows_of (found_of matches.now))) }
    requires base { HasBase (rows_of (found_of matches.now)) }
    ensures job { IfOk result (HasMatches (codes "apply", rows_of (found_of matches.now))) }
    ensures base { IfOk result (λ job. base_in job ≤ MAX_BLOCK) }
{
    let image = text_of(alloc, matches, "image")?;
    let script = text_of(alloc, matches, "script")?;
    let out = text_of(alloc, matches, "out")?;
    let Settings { base, carry } = settings_of(matches);
    Ok(Job::Apply {
        image,
        script,
        out,
        base,
        carry,
    })
}

/// The job of a command, by its name and the parser's matches.
fn entered_job(alloc: Global, name: &str, matches: &ArgMatches<'_>) -> Result<Job, AllocError>
    requires { IsComplete (name.now, rows_of (found_of matches.now)) }
    ensures job { IfOk result (HasMatches (name.now, rows_of (found_of matches.now))) }
    ensures base { IfOk result (λ job. base_in job ≤ MAX_BLOCK) }
{
    match name {
        "list" => list_job(alloc, matches),
        "audit" => audit_job(alloc, matches),
        "check" => check_job(alloc, matches),
        _ => apply_job(alloc, matches),
    }
}

/// The job without arguments: the standard input is listed, from block 0.
fn standard_input_job(alloc: Global) -> Result<Job, AllocError>
    ensures { IfOk result (IsListJob (codes "-") 0) }
{
    let image = String::from_str(alloc, "-")?;
    Ok(Job::List { image, base: 0 })
}

/// Parses the arguments after the program's name into a job. Without arguments, the job lists the
/// standard input from block 0. Otherwise, the arguments must name a command.
///
/// # Errors
///
/// The parser rejects the arguments, or they request help, or memory runs out.
///
/// # Examples
///
/// ```
/// let job = job_of(rt.alloc(), Vec::new(rt.alloc()))?; // no arguments
/// assert!(rt; matches!(&job, Job::List { image, base: 0 } if image.as_str() == "-"));
/// ```
pub fn job_of(alloc: Global, args: Vec<String>) -> Result<Job, LineFault>
    ensures ok { IfOk result (IsJobOf (map string_bytes args.items)) }
    ensures base { IfOk result (λ job. base_in job ≤ MAX_BLOCK) }

    // A job results only from arguments in which the definition finds no error, and which do not
    // request help.
    ensures taken { OnOk result (error_kinds (map string_bytes args.items) ≡ []) }

    // Empty arguments, and those that the definition accepts, are refused only if memory runs out.
    ensures refused { IfErr result (λ fault. IsAccepted (map string_bytes args.items)
        → fault ≡ NoMemory) }
    ensures kind { IfErr result (HasKindOf (map string_bytes args.items)) }
{
    if args.is_empty() {
        return Ok(standard_input_job(alloc)?);
    }
    let line = command_line(alloc)?;
    let matches = line.try_get_matches_from(args.as_slice())?;
    let (name, entered) = matches.subcommand().unwrap();
    Ok(entered_job(alloc, name, entered)?)
}

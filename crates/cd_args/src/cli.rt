//! The definition of the command line for clap: its commands and their arguments.
ghost use Rattle.std.specs.Prelude.{◌≡◌, IfOk, IsOkAnd, codes, false};
ghost use Rattle.clap.specs.Simple.{new_shape};
ghost use Rattle.clap.specs.Words.{app_of, rule_of, shape_of, with_subcommand};
ghost use Rattle.clap.specs.declared.builder.command.Command.TheViews.{out-Command};
ghost use Rattle.cd_args.specs.Arguments.{text_rule};
ghost use Rattle.cd_args.specs.CommandLine.{apply_shape, command_line, image_shape, patching_shape, program_app};

use crate::arguments::{text_argument, with_argument};
use crate::help::{
    APPLY_ABOUT, APPLY_MORE, AUDIT_ABOUT, AUDIT_MORE, CHECK_ABOUT, CHECK_MORE, LIST_ABOUT,
    LIST_MORE, PROGRAM_ABOUT, PROGRAM_MORE,
};
use crate::settings::{base_argument, with_options};
use clap::{Arg, Command};
use std::alloc::{AllocError, Global};

/// The image that a command reads.
fn image_argument<'a>(alloc: Global) -> Arg<'a>
    ensures rule { rule_of result ≡ text_rule (codes "image") }
    ensures local { result.global ≡ false }
{
    text_argument(
        alloc,
        "image",
        "IMAGE",
        "The image, or - for the standard input",
    )
}

/// The script that a command reads.
fn script_argument<'a>(alloc: Global) -> Arg<'a>
    ensures rule { rule_of result ≡ text_rule (codes "script") }
    ensures local { result.global ≡ false }
{
    text_argument(alloc, "script", "SCRIPT", "The file of the patch script")
}

/// The file that a command creates for the patched image.
fn out_argument<'a>(alloc: Global) -> Arg<'a>
    ensures rule { rule_of result ≡ text_rule (codes "out") }
    ensures local { result.global ≡ false }
{
    text_argument(
        alloc,
        "out",
        "OUT",
        "The file that is made, which must not exist",
    )
}

/// A command without arguments, with the texts before and after the list of arguments in its help.
fn described<'a>(alloc: Global, name: &'a str, about: &'a str, more: &'a str) -> Command<'a>
    ensures shape { shape_of result ≡ new_shape name.now }
    ensures local { (out-Command result).has_globals ≡ false }
{
    Command::new(alloc, name).about(about).after_help(more)
}

/// A command that reads an image: `list` or `audit`.
fn image_command<'a>(
    alloc: Global,
    name: &'a str,
    about: &'a str,
    more: &'a str,
) -> Result<Command<'a>, AllocError>
    ensures shape { IfOk result (λ c. shape_of c ≡ image_shape name.now) }
    ensures local { IfOk result (λ c. (out-Command c).has_globals ≡ false) }
{
    let command = Ok(described(alloc, name, about, more));
    let command = with_argument(command, image_argument(alloc));
    with_argument(command, base_argument(alloc))
}

/// A command that reads an image and a script: `check`, and `apply` before its OUT.
fn patching_command<'a>(
    alloc: Global,
    name: &'a str,
    about: &'a str,
    more: &'a str,
) -> Result<Command<'a>, AllocError>
    ensures shape { IfOk result (λ c. shape_of c ≡ patching_shape name.now) }
    ensures local { IfOk result (λ c. (out-Command c).has_globals ≡ false) }
{
    let command = described(alloc, name, about, more);
    let command = with_argument(Ok(command), image_argument(alloc));
    let command = with_argument(command, script_argument(alloc));
    with_options(alloc, command)
}

/// The command `apply`.
fn apply_command<'a>(alloc: Global) -> Result<Command<'a>, AllocError>
    ensures shape { IfOk result (λ c. shape_of c ≡ apply_shape) }
    ensures local { IfOk result (λ c. (out-Command c).has_globals ≡ false) }
{
    let command = patching_command(alloc, "apply", APPLY_ABOUT, APPLY_MORE);
    with_argument(command, out_argument(alloc))
}

/// The program without its commands. It requires a command.
fn program<'a>(alloc: Global) -> Result<Command<'a>, AllocError>
    ensures { IfOk result (λ c. app_of c ≡ program_app) }
{
    Command::new(alloc, "cdpatch")
        .about(PROGRAM_ABOUT)
        .after_help(PROGRAM_MORE)
        .no_binary_name(true)
        .disable_help_subcommand(true)
        .subcommand_required(true)
        .bin_name("cdpatch")
}

/// Proof step: adds a command to the program, if memory was found for both. It accepts both as a
/// `Result`, as `with_argument` does.
fn with_command<'a>(
    program: Result<Command<'a>, AllocError>,
    command: Result<Command<'a>, AllocError>,
) -> Result<Command<'a>, AllocError>
    requires { IfOk command (λ sub. (out-Command sub).has_globals ≡ false) }
    ensures { IfOk result (λ c. IsOkAnd program.entry (λ was. IsOkAnd command.entry (λ sub.
        app_of c ≡ with_subcommand (app_of was) (shape_of sub)))) }
{
    program?.subcommand(command?)
}

/// The parser of the command line.
///
/// # Errors
///
/// Memory runs out.
pub(crate) fn command_line<'a>(alloc: Global) -> Result<Command<'a>, AllocError>
    ensures { IfOk result (λ c. app_of c ≡ command_line) }
{
    let list = image_command(alloc, "list", LIST_ABOUT, LIST_MORE);
    let audit = image_command(alloc, "audit", AUDIT_ABOUT, AUDIT_MORE);
    let program = with_command(program(alloc), list);
    let program = with_command(program, audit);
    let check = patching_command(alloc, "check", CHECK_ABOUT, CHECK_MORE);
    let program = with_command(program, check);
    with_command(program, apply_command(alloc))
}

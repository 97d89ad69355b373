//! The two kinds of arguments of a command: a required text and a flag.

ghost use Rattle.std.specs.Prelude.{◌≡◌, IfOk, IsOkAnd, false};
ghost use Rattle.clap.specs.Words.{rule_of, shape_of};
ghost use Rattle.clap.specs.declared.builder.command.Command.TheViews.{out-Command};
ghost use Rattle.cd_args.specs.Arguments.{flag_rule, text_rule, with_rule};

use clap::{Arg, ArgAction, Command};
use std::alloc::{AllocError, Global};

/// A required argument whose value is a text.
pub(crate) fn text_argument<'a>(alloc: Global, id: &'a str, name: &'a str, help: &'a str) -> Arg<'a>
    ensures rule { rule_of result ≡ text_rule id.now }
    ensures local { result.global ≡ false }
{
    Arg::new(alloc, id)
        .required(true)
        .value_name(name)
        .help(help)
}

/// An option `--id` without a value.
pub(crate) fn flag_argument<'a>(alloc: Global, id: &'a str, help: &'a str) -> Arg<'a>
    ensures rule { rule_of result ≡ flag_rule id.now }
    ensures local { result.global ≡ false }
{
    Arg::new(alloc, id)
        .long(id)
        .action(ArgAction::SetTrue)
        .help(help)
}

/// Proof step: adds an argument to a command. It accepts the command's `Result`, so that callers
/// need no `?`: in a function that holds one of clap's commands, each `?` takes seconds to prove.
pub(crate) fn with_argument<'a>(
    command: Result<Command<'a>, AllocError>,
    argument: Arg<'a>,
) -> Result<Command<'a>, AllocError>
    requires { argument.global ≡ false }
    ensures shape { IfOk result (λ c. IsOkAnd command.entry (λ was.
        shape_of c ≡ with_rule (shape_of was) (rule_of argument.entry))) }
    ensures local { IfOk result (λ c. IsOkAnd command.entry (λ was.
        (out-Command c).has_globals ≡ (out-Command was).has_globals)) }
{
    command?.arg(argument)
}

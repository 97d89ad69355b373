//! The options of `check` and `apply`: their definitions for clap, and the [`Settings`] that they
//! give.

ghost use Rattle.std.specs.Prelude.{◌≡◌, ◌≤◌, IfOk, IsOkAnd, Some, codes, false, option_map};
ghost use Rattle.clap.specs.Words.{found_of, rows_of, rule_of, shape_of};
ghost use Rattle.clap.specs.declared.builder.command.Command.TheViews.{out-Command};
ghost use Rattle.cd_args.specs.Arguments.{flag_of, is_set, with_rules};
ghost use Rattle.cd_args.specs.Options.{HasBase, HasSettings, base_of, base_rule, option_rules, settings_of};

use crate::arguments::{flag_argument, with_argument};
use cd_address::MAX_BLOCK;
use clap::{Arg, ArgMatches, Command, value_parser};
use std::alloc::{AllocError, Global};

/// How a script is applied to an image: what the options of `check` and `apply` say.
#[derive(Clone, Copy, Debug)]
pub struct Settings {
    /// The block number of the image's first sector.
    pub base: u32,
    /// Whether patches on damaged sectors are accepted, and the damage stays.
    pub carry: bool,
}

impl Settings {
    /// Creates settings with this base and `carry`, and no other option.
    ///
    /// # Examples
    ///
    /// ```
    /// let settings = Settings::new(7, true);
    /// assert_eq!(rt; (settings.base, settings.carry), (7, true));
    /// ```
    pub fn new(base: u32, carry: bool) -> Self
        ensures { result ≡ settings_of base carry }
    {
        Settings { base, carry }
    }
}

/// The option `--base N`, the block number of the first sector. `list` and `audit` have it too.
pub(crate) fn base_argument<'a>(alloc: Global) -> Arg<'a>
    ensures rule { rule_of result ≡ base_rule }
    ensures local { result.global ≡ false }
{
    Arg::new(alloc, "base")
        .long("base")
        .value_name("N")
        .default_value("0")
        .value_parser(value_parser!(u32).range(0..=i64::from(MAX_BLOCK)))
        .help("The number of the first block, at most 449849")
}

/// Adds the options of `check` and `apply` to a command, if memory was found for the command.
pub(crate) fn with_options<'a>(
    alloc: Global,
    command: Result<Command<'a>, AllocError>,
) -> Result<Command<'a>, AllocError>
    ensures shape { IfOk result (λ c. IsOkAnd command.entry (λ was.
        shape_of c ≡ with_rules (shape_of was) option_rules)) }
    ensures local { IfOk result (λ c. IsOkAnd command.entry (λ was.
        (out-Command c).has_globals ≡ (out-Command was).has_globals)) }
{
    let carry = "Patch damaged sectors too, and keep their damage";
    let command = with_argument(command, flag_argument(alloc, "carry", carry));
    with_argument(command, base_argument(alloc))
}

/// The number after `--base`, or its default.
pub(crate) fn base_of(matches: &ArgMatches<'_>) -> u32
    requires { HasBase (rows_of (found_of matches.now)) }
    ensures value { base_of (rows_of (found_of matches.now)) ≡ Some result }
    ensures most { result ≤ MAX_BLOCK }
{
    matches.get_one::<u32>("base").unwrap()
}

/// Whether a flag is used, by the text that the parser holds for it. The clauses of clap specify
/// this text: it is "true" if the flag is used.
fn is_set(text: Option<&str>) -> bool
    ensures { result ≡ is_set (option_map (λ text. text.now) text.entry) }
{
    match text {
        Some(text) => text == "true",
        None => false,
    }
}

/// Whether a flag is used.
fn flag_of(matches: &ArgMatches<'_>, id: &str) -> bool
    ensures { result ≡ flag_of id.now (rows_of (found_of matches.now)) }
{
    is_set(matches.get_str(id))
}

/// The settings that the options of `check` and `apply` give.
pub(crate) fn settings_of(matches: &ArgMatches<'_>) -> Settings
    requires { HasBase (rows_of (found_of matches.now)) }
    ensures has { HasSettings (rows_of (found_of matches.now)) result }
    ensures most { result.base ≤ MAX_BLOCK }
{
    let base = base_of(matches);
    let carry = flag_of(matches, "carry");
    Settings { base, carry }
}

// The arguments of commands, as clap is told of them.
ghost use Rattle.std.specs.Prelude.{◌≡◌, false};
ghost use Rattle.clap.specs.Words.{rule_of};
ghost use Rattle.tool_frame.specs.Options.{text_rule, number_rule, option_rule, flag_rule};

use clap::{Arg, ArgAction};
use std::alloc::Global;

/// A text that has to be given.
pub fn text_argument<'a>(alloc: Global, name: &'a str) -> Arg<'a>
    ensures rule { rule_of result ≡ text_rule name.now }
    ensures of_one_command { result.global ≡ false }
{
    Arg::new(alloc, name).required(true).action(ArgAction::Set)
}

/// A number from the least to the greatest that has to be given.
pub fn number_argument<'a>(alloc: Global, name: &'a str, least: u32, greatest: u32) -> Arg<'a>
    ensures rule { rule_of result ≡ number_rule name.now least greatest }
    ensures of_one_command { result.global ≡ false }
{
    Arg::new(alloc, name)
        .required(true)
        .action(ArgAction::Set)
        .value_parser(clap::value_parser!(u64).range(i64::from(least)..=i64::from(greatest)))
}

/// A text that may be given, after its name.
pub fn option_argument<'a>(alloc: Global, name: &'a str) -> Arg<'a>
    ensures rule { rule_of result ≡ option_rule name.now }
    ensures of_one_command { result.global ≡ false }
{
    Arg::new(alloc, name).long(name).action(ArgAction::Set)
}

/// A flag with no value.
pub fn flag_argument<'a>(alloc: Global, name: &'a str) -> Arg<'a>
    ensures rule { rule_of result ≡ flag_rule name.now }
    ensures of_one_command { result.global ≡ false }
{
    Arg::new(alloc, name).long(name).action(ArgAction::SetTrue)
}

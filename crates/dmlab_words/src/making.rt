//! The parser's commands for the subcommands that the program offers.
ghost use Rattle.std.specs.Prelude.{◌≡◌, false};
ghost use Rattle.clap.specs.Words.{new_app, rule_of, with_rule};
ghost use Rattle.dmlab_words.specs.Making.{IsLocal, IsMadeLocal};
ghost use Rattle.dmlab_words.specs.Offered.{offer_rule, subcommand_app};
ghost use Rattle.dmlab_words.specs.Options.{file_rule, flag_rule, number_rule};

use crate::help;
use crate::offered::{Offer, Subcommand, Takes};
use clap::{Arg, ArgAction, Command, value_parser};
use std::alloc::{AllocError, Global};

/// The command of a subcommand: its options, and a file behind them.
pub(crate) fn command_of<'a>(
    alloc: Global,
    subcommand: &Subcommand,
) -> Result<Command<'a>, AllocError>
    ensures { IsMadeLocal result (with_rule (subcommand_app subcommand.now) file_rule) }
{
    let mut command = titled(
        alloc,
        subcommand.name,
        subcommand.about,
        subcommand.after_help,
    );
    for option in subcommand.options {
        command = command.arg(argument(alloc, option))?;
    }
    command.arg(file(alloc))
}

/// A command with this name and these texts of help, and with no arguments.
pub(crate) fn titled<'a>(
    alloc: Global,
    name: &'a str,
    about: &'a str,
    after_help: &'a str,
) -> Command<'a>
    ensures { IsLocal result (new_app name.entry.now) }
{
    Command::new(alloc, name)
        .about(about)
        .after_help(after_help)
}

// `[FILE]`.
fn file<'a>(alloc: Global) -> Arg<'a>
    ensures rule { rule_of result ≡ file_rule }
    ensures local { result.global ≡ false }
{
    Arg::new(alloc, "FILE").help(help::FILE)
}

// The argument of an option.
fn argument<'a>(alloc: Global, option: &Offer) -> Arg<'a>
    ensures rule { rule_of result ≡ offer_rule option.now }
    ensures local { result.global ≡ false }
{
    match option.takes {
        Takes::Nothing => flag(alloc, option.name, option.help),
        Takes::Number => number(alloc, option.name, option.help),
        Takes::WantedNumber => number(alloc, option.name, option.help).required(true),
    }
}

// An option of a number, with this name and this text of help.
fn number<'a>(alloc: Global, name: &'a str, help: &'a str) -> Arg<'a>
    ensures rule { rule_of result ≡ number_rule name.entry.now }
    ensures local { result.global ≡ false }
{
    Arg::new(alloc, name)
        .long(name)
        .value_name("N")
        .value_parser(value_parser!(u64))
        .help(help)
}

// A flag, with this name and this text of help.
fn flag<'a>(alloc: Global, name: &'a str, help: &'a str) -> Arg<'a>
    ensures rule { rule_of result ≡ flag_rule name.entry.now }
    ensures local { result.global ≡ false }
{
    Arg::new(alloc, name)
        .long(name)
        .action(ArgAction::SetTrue)
        .help(help)
}

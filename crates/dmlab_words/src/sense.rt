//! Words that the parser takes, though they ask for no work.
ghost use Rattle.std.specs.Prelude.{◌≡◌, ◌∷◌, [], option_map};
ghost use Rattle.std.specs.Option.{option_to_list};
ghost use Rattle.clap.specs.Words.{FailsBy, found_of, rows_of, subcommand_rows_of};
ghost use Rattle.dmlab_words.specs.Findings.{senseless, senseless_in, wants_finding};

use crate::finding_words::asked_in;
use crate::options::{asks, number_in};
use crate::shown::error_of;
use crate::sweep_help;
use clap::error::ErrorKind;
use clap::{ArgMatches, Command, Error};
use std::alloc::Global;

/// Whether the words that a parse took ask for work, or why they don't.
pub(crate) fn has_sense(alloc: Global, matches: &ArgMatches<'_>) -> Result<(), Error>
    ensures { FailsBy (senseless_in (subcommand_rows_of matches.now)) result }
{
    let Some((name, found)) = matches.subcommand() else {
        return Ok(());
    };
    match senseless(found) {
        Some((kind, why)) => refused(alloc, name, kind, why),
        None => Ok(()),
    }
}

// Why the words of a subcommand ask for no work, where they don't.
fn senseless(found: &ArgMatches<'_>) -> Option<(ErrorKind, &'static str)>
    ensures { option_to_list (option_map (λ why. why.0) result)
        ≡ senseless (rows_of (found_of found.now)) }
{
    if number_in(found, "last") < number_in(found, "first") {
        return Some((ErrorKind::ValueValidation, sweep_help::NO_SEED));
    }
    if wants_finding(found) && !asked_in(found).is_seeking() {
        return Some((ErrorKind::MissingRequiredArgument, sweep_help::NO_FINDING));
    }
    if asks(found, "disks") && asked_in(found).is_seeking() {
        return Some((ErrorKind::ArgumentConflict, sweep_help::DISKS_OR_FINDINGS));
    }
    None
}

// Whether findings are to be counted by line, or to be a failure.
fn wants_finding(found: &ArgMatches<'_>) -> bool
    ensures { result ≡ wants_finding (rows_of (found_of found.now)) }
{
    asks(found, "by-line") || asks(found, "fail")
}

// The error of words of the subcommand of this name, which may ask for findings.
fn refused(alloc: Global, name: &str, kind: ErrorKind, why: &str) -> Result<(), Error>
    ensures { FailsBy (kind ∷ []) result }
{
    Err(error_of(alloc, name, kind, why)?)
}

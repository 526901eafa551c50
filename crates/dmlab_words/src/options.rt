ghost use Rattle.std.specs.Prelude.{◌≡◌};
ghost use Rattle.clap.specs.Words.{found_of, rows_of};
ghost use Rattle.dmlab_words.specs.Options.{is_asked, number_under};

use clap::ArgMatches;

/// The number that the words of a subcommand give under this name, or 0.
pub(crate) fn number_in(matches: &ArgMatches<'_>, name: &str) -> u64
    ensures { result ≡ number_under name.now (rows_of (found_of matches.now)) }
{
    matches.get_one::<u64>(name).unwrap_or(0)
}

/// Whether they give the flag of this name.
pub(crate) fn asks(matches: &ArgMatches<'_>, name: &str) -> bool
    ensures { result ≡ is_asked name.now (rows_of (found_of matches.now)) }
{
    matches.get_one::<bool>(name).unwrap_or(false)
}

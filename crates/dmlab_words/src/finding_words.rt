ghost use Rattle.std.specs.Prelude.{◌≡◌};
ghost use Rattle.clap.specs.Words.{found_of, rows_of};
ghost use Rattle.dmlab_words.specs.Findings.{asked_by, is_seeking};

use crate::Asked;
use crate::options::asks;
use clap::ArgMatches;

/// What the words of a subcommand ask for of findings.
pub(crate) fn asked_in(found: &ArgMatches<'_>) -> Asked
    ensures { result ≡ asked_by (rows_of (found_of found.now)) }
{
    Asked {
        eio: asks(found, "eio"),
        lost: asks(found, "lost"),
        corrupt: asks(found, "corrupt"),
        stale: asks(found, "stale"),
        misplaced: asks(found, "misplaced"),
        broken_sync: asks(found, "broken-sync"),
        fail: asks(found, "fail"),
    }
}

impl Asked {
    /// Whether some finding is asked for.
    pub fn is_seeking(&self) -> bool
        ensures { result ≡ is_seeking self.now }
    {
        self.eio || self.lost || self.corrupt || self.stale || self.misplaced || self.broken_sync
    }
}

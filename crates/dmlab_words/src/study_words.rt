ghost use Rattle.clap.specs.Words.{found_of, rows_of};
ghost use Rattle.dmlab_words.specs.CommandLine.{IsStudyOf, NamesStudy};

use crate::Study;
use crate::finding_words::asked_in;
use crate::options::{asks, number_in};
use clap::ArgMatches;

/// What the subcommand of this name asks for, one of those that study many events or runs.
pub(crate) fn study_of(name: &str, found: &ArgMatches<'_>) -> Study
    requires { NamesStudy name.now }
    ensures { IsStudyOf name.now (rows_of (found_of found.now)) result }
{
    match name {
        "trace" => Study::Trace {
            seed: number_in(found, "seed"),
            prompt: asks(found, "prompt"),
        },
        "trace-history" => Study::TraceHistory,
        "disks" => Study::Disks {
            seed: number_in(found, "seed"),
            prompt: asks(found, "prompt"),
        },
        "disks-history" => Study::DisksHistory,
        "sweep" => Study::Sweep {
            first: number_in(found, "first"),
            last: number_in(found, "last"),
            prompt: asks(found, "prompt"),
            asked: asked_in(found),
            by_line: asks(found, "by-line"),
            disks: asks(found, "disks"),
        },
        _ => unreachable!(),
    }
}

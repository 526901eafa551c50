//! The subcommands that the program offers, with their options: what is parsed, shown and told of.
ghost use Rattle.std.specs.Prelude.{◌≡◌, fold};
ghost use Rattle.dmlab_words.specs.CommandLine.{dmlab_app, program_app};
ghost use Rattle.dmlab_words.specs.Offered.{with_offered};

use crate::{help, study_help, sweep_help};

/// What an option has behind it.
#[derive(Clone, Copy)]
pub(crate) enum Takes {
    /// Nothing: it is a flag.
    Nothing,
    /// A number.
    Number,
    /// A number, and the option is wanted.
    WantedNumber,
}

/// An option of a subcommand.
pub(crate) struct Offer {
    /// Its name, without the two hyphens.
    pub(crate) name: &'static str,
    /// What it has behind it.
    pub(crate) takes: Takes,
    /// Its text of help.
    pub(crate) help: &'static str,
}

/// A subcommand of the program. It takes a file behind its options, too.
pub(crate) struct Subcommand {
    /// Its name.
    pub(crate) name: &'static str,
    /// How it is called.
    pub(crate) called: &'static str,
    /// What it does, in a line.
    pub(crate) about: &'static str,
    /// The rest of its help.
    pub(crate) after_help: &'static str,
    /// Its options.
    pub(crate) options: &'static [Offer],
}

/// The subcommands, in the order of the help.
pub(crate) fn subcommands() -> &'static [Subcommand]
    ensures { fold with_offered program_app result.now ≡ dmlab_app }
{
    &SUBCOMMANDS
}

// The subcommands.
const SUBCOMMANDS: [Subcommand; 9] = [
    Subcommand {
        name: "check",
        called: "dmlab check",
        about: help::CHECK,
        after_help: help::AFTER_CHECK,
        options: &[ALL],
    },
    Subcommand {
        name: "sim",
        called: "dmlab sim",
        about: help::SIM,
        after_help: help::AFTER_SIM,
        options: &[
            SEED,
            PROMPT,
            HISTORY,
            EIO,
            LOST,
            CORRUPT,
            STALE,
            MISPLACED,
            BROKEN_SYNC,
            FAIL,
        ],
    },
    Subcommand {
        name: "threads",
        called: "dmlab threads",
        about: help::THREADS,
        after_help: help::AFTER_THREADS,
        options: &[HISTORY],
    },
    Subcommand {
        name: "audit",
        called: "dmlab audit",
        about: help::AUDIT,
        after_help: help::AFTER_AUDIT,
        options: &[],
    },
    Subcommand {
        name: "trace",
        called: "dmlab trace",
        about: study_help::TRACE,
        after_help: study_help::AFTER_TRACE,
        options: &[SEED, PROMPT],
    },
    Subcommand {
        name: "trace-history",
        called: "dmlab trace-history",
        about: study_help::TRACE_HISTORY,
        after_help: study_help::AFTER_TRACE_HISTORY,
        options: &[],
    },
    Subcommand {
        name: "disks",
        called: "dmlab disks",
        about: study_help::DISKS,
        after_help: study_help::AFTER_DISKS,
        options: &[SEED, PROMPT],
    },
    Subcommand {
        name: "disks-history",
        called: "dmlab disks-history",
        about: study_help::DISKS_HISTORY,
        after_help: study_help::AFTER_DISKS_HISTORY,
        options: &[],
    },
    Subcommand {
        name: "sweep",
        called: "dmlab sweep",
        about: sweep_help::SWEEP,
        after_help: sweep_help::AFTER_SWEEP,
        options: &[
            FIRST,
            LAST,
            PROMPT,
            EIO,
            LOST,
            CORRUPT,
            STALE,
            MISPLACED,
            BROKEN_SYNC,
            FAIL,
            BY_LINE,
            DISKS,
        ],
    },
];

const ALL: Offer = Offer {
    name: "all",
    takes: Takes::Nothing,
    help: help::ALL,
};

const SEED: Offer = Offer {
    name: "seed",
    takes: Takes::Number,
    help: help::SEED,
};

const PROMPT: Offer = Offer {
    name: "prompt",
    takes: Takes::Nothing,
    help: help::PROMPT,
};

const HISTORY: Offer = Offer {
    name: "history",
    takes: Takes::Nothing,
    help: help::HISTORY,
};

const FIRST: Offer = Offer {
    name: "first",
    takes: Takes::Number,
    help: sweep_help::FIRST,
};

const LAST: Offer = Offer {
    name: "last",
    takes: Takes::WantedNumber,
    help: sweep_help::LAST,
};

const EIO: Offer = Offer {
    name: "eio",
    takes: Takes::Nothing,
    help: sweep_help::EIO,
};

const LOST: Offer = Offer {
    name: "lost",
    takes: Takes::Nothing,
    help: sweep_help::LOST,
};

const CORRUPT: Offer = Offer {
    name: "corrupt",
    takes: Takes::Nothing,
    help: sweep_help::CORRUPT,
};

const STALE: Offer = Offer {
    name: "stale",
    takes: Takes::Nothing,
    help: sweep_help::STALE,
};

const MISPLACED: Offer = Offer {
    name: "misplaced",
    takes: Takes::Nothing,
    help: sweep_help::MISPLACED,
};

const BROKEN_SYNC: Offer = Offer {
    name: "broken-sync",
    takes: Takes::Nothing,
    help: sweep_help::BROKEN_SYNC,
};

const FAIL: Offer = Offer {
    name: "fail",
    takes: Takes::Nothing,
    help: sweep_help::FAIL,
};

const BY_LINE: Offer = Offer {
    name: "by-line",
    takes: Takes::Nothing,
    help: sweep_help::BY_LINE,
};

const DISKS: Offer = Offer {
    name: "disks",
    takes: Takes::Nothing,
    help: sweep_help::DISKS,
};

//! The texts of the program's help but those of studies, and its version.

/// The version, as the file `VERSION` has it.
pub(crate) const VERSION: &str = "0.2.0";

pub(crate) const ABOUT: &str =
    "A laboratory for device-mapper faults: checks a scenario, runs it by a seed, or audits a run";

pub(crate) const PROGRAM: &str = "\
The scenario is a bundle of tables, a script and logs, in FILE or on standard input.
Tables and scripts count in sectors of 512 bytes, logs in bytes.
Sleeps and waits are in microseconds, delays in milliseconds, and flakey's intervals in seconds.
The budget, the report, the trace, the disks, the findings or the refusal go to standard output.
Where an option stands twice, the last one counts.

Exit status:
  0  done, or a call for the version
  1  the bundle is refused, or its history is no complete run; standard output tells why
  2  wrong words, or a call for help; the text is on standard error
  3  no memory, a FILE that can't be opened, or a failed read or write; standard error tells which
  4  with --fail: something that was asked for was found; all of it was written

Example:
  dmlab sim --seed 1 < examples/first.bundle";

pub(crate) const CHECK: &str = "Writes the scenario's budget, or why it is refused";

pub(crate) const AFTER_CHECK: &str = "\
Reads a bundle, and runs nothing.
Of an accepted bundle it writes the line `accepted budget=B`: no run takes more than B steps.
Of another it writes the line `refused PART LINE RULE`, the first fault.
LINE counts the lines of PART.
With `--all` it writes such a line for each other part that can't be read, too.

Exit status: 0 accepted, 1 refused, 2 wrong words or help, 3 no memory or a failed read or write

Example:
  dmlab check < examples/first.bundle";

pub(crate) const ALL: &str = "Writes the first fault of each other part that can't be read, too";

pub(crate) const SIM: &str = "Runs the scenario once, by a seed, and writes the report";

pub(crate) const AFTER_SIM: &str = "\
Reads a bundle.
At each step the seed picks one of the events that may come next.
So one bundle and one seed give the same report each time.
Without `--prompt` the clock may go on while a request is ready, which is then late.
The report has the budget, the replies to the script, and the answers to each log.
Its last line is `done steps=S clock=C now=T`, with T in microseconds.
With an option of a finding, the run's findings come next, as `sweep` writes them.
The events that `--history` asks for come last.
A refused bundle gives the line that `check` writes.

Exit status: 0 done, 1 refused, 2 wrong words or help, 3 no memory or a failed read or write,
4 with --fail something was found

Example:
  dmlab sim --seed 7 --history < examples/three_layers.bundle";

pub(crate) const SEED: &str = "The seed, from 0 to 18446744073709551615; 0 if it is left out";

pub(crate) const PROMPT: &str = "Lets the clock go on only where nothing else may come";

pub(crate) const THREADS: &str = "Runs the scenario once, by threads, and writes the report";

pub(crate) const AFTER_THREADS: &str = "\
Reads a bundle.
One thread takes the lines of each log and what comes of them.
One more takes the script's steps, and one the delays and the clock.
Which event comes next is left to them, so two runs of one bundle may differ.
The report is that of `sim`, with a line `fired L.. S T swept K` behind it.
That line counts the events of each log's thread, of the script's and of the timers'.
K events were left when the threads had ended: 0, unless one could not be started.
`--history` writes the events that came, in order, and `audit` tells the same report of them.

Exit status: 0 done, 1 refused, 2 wrong words or help, 3 no memory or a failed read or write

Example:
  dmlab threads --history < examples/three_layers.bundle";

pub(crate) const HISTORY: &str = "Writes the events too, as a part that `audit` reads";

pub(crate) const AUDIT: &str =
    "Runs the bundle's history, and writes the report, or where it is no complete run";

pub(crate) const AFTER_AUDIT: &str = "\
Reads a bundle with a part `== history`, one event on a line, as `sim --history` writes them.
Writes the report of that run.
Where event P, counted from 1, can't come, it writes `not a run at P` instead.
Where more events are wanted at P, it writes `unfinished at P`.
A refused bundle gives the line that `check` writes.

Exit status: 0 a complete run, 1 refused or none, 2 wrong words or help, 3 no memory or
a failed read or write

Example:
  dmlab audit < examples/slow_disk.bundle";

pub(crate) const FILE: &str =
    "The bundle's file; without it, or if it is -, standard input is read";

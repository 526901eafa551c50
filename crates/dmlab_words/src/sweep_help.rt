//! The texts of the help of a sweep and of findings.

pub(crate) const SWEEP: &str =
    "Runs the scenario by many seeds, and writes which reports differ, or what is found";

pub(crate) const AFTER_SWEEP: &str = "\
Reads a bundle, and checks it once.
Runs it by each seed from the first to the last, as `sim` does.
Writes a line `seed N DIGEST eio=K steps=S clock=C now=T` for each seed.
DIGEST has the first 16 hexadecimal digits of the SHA-256 of the report of `sim --seed N`.
K of its answers are EIO, and the other numbers are those of its last line.
Then comes for each digest a line `digest DIGEST first=N count=K`.
N is the first of the seeds that have it, and K is how many have it.
With `--disks` a DIGEST is of what `disks --seed N` writes, instead of the report.

The options --eio, --lost, --corrupt, --stale, --misplaced and --broken-sync ask for findings.
Any of them may stand together.
Then a table is written instead: the names of its columns, and a line for each finding.
Between two columns is a tab, and `-` stands where a finding has none.
On standard error a line `runs=R found=F ..` counts the runs, those with a finding, and each finding.
`--by-line` writes a line for each line of a log and each finding that it has: in how many runs.
Without `--prompt` the clock may run ahead of requests.
So findings may come of late answers alone.

A refused bundle gives the line that `check` writes.

Exit status: 0 done, 1 refused, 2 wrong words or help, 3 no memory or a failed read or write,
4 with --fail something was found

Example:
  dmlab sweep --last 99 < examples/three_layers.bundle";

pub(crate) const FIRST: &str = "The first seed; 0 if it is left out";

pub(crate) const LAST: &str = "The last seed, which is not below the first";

pub(crate) const EIO: &str = "Finds each operation answered EIO";

pub(crate) const LOST: &str =
    "Finds each write or trim answered ok, of which a line dropped some sector";

pub(crate) const CORRUPT: &str =
    "Finds each write that reached its disk changed, and each read answered other than was written";

pub(crate) const STALE: &str = "Finds each read answered what an older write had left";

pub(crate) const MISPLACED: &str =
    "Finds each read answered what was written under another sector number of its device";

pub(crate) const BROKEN_SYNC: &str =
    "Finds each sync answered ok after a lost write that was not written again";

pub(crate) const FAIL: &str = "Ends with status 4 where something that is asked for is found";

pub(crate) const BY_LINE: &str = "Counts the findings by the lines of the logs";

pub(crate) const DISKS: &str =
    "Tells the runs apart by what stands on their disks, instead of by their reports";

pub(crate) const NO_SEED: &str = "the last seed is below the first";

pub(crate) const NO_FINDING: &str = "--fail and --by-line want a finding to look for: \
    --eio, --lost, --corrupt, --stale, --misplaced or --broken-sync";

pub(crate) const DISKS_OR_FINDINGS: &str = "--disks goes with no finding: leave out --disks, or \
    --eio, --lost, --corrupt, --stale, --misplaced and --broken-sync";

//! The texts of the help of a trace and of the disks after a run.

pub(crate) const TRACE: &str = "Runs the scenario as `sim` does, and writes what each event did";

pub(crate) const AFTER_TRACE: &str = "\
Reads a bundle, and runs it as `sim` does by the same words.
Writes a line with the names of the columns, then a line for each event, and no report.
Between two columns is a tab, and `-` stands where an event has none.
The column `happened` says what the event did.
The last column, `writers`, says who wrote what a read found.
The clock is in microseconds, before the event.
A refused bundle gives the line that `check` writes.

Exit status: 0 done, 1 refused, 2 wrong words or help, 3 no memory or a failed read or write

Example:
  dmlab trace --seed 7 < examples/three_layers.bundle";

pub(crate) const TRACE_HISTORY: &str =
    "Runs the bundle's history as `audit` does, and writes what each event did";

pub(crate) const AFTER_TRACE_HISTORY: &str = "\
Reads a bundle with a part `== history`.
Writes of these events the table that `trace` writes of a run.
Where they are no complete run, it writes the line that `audit` writes.
A refused bundle gives the line that `check` writes.

Exit status: 0 a complete run, 1 refused or none, 2 wrong words or help, 3 no memory or
a failed read or write

Example:
  dmlab trace-history < examples/slow_disk.bundle";

pub(crate) const DISKS: &str =
    "Runs the scenario as `sim` does, and writes what stands on its disks then";

pub(crate) const AFTER_DISKS: &str = "\
Reads a bundle, and runs it as `sim` does by the same words.
Writes a line with the names of the columns, then rows of sectors, by disk and sector, and no report.
A row's sectors were written by one write, one sector of it after another.
`log` and `line` name the write, and `from` is which of its sectors is the first, from 0.
`changed` has the bytes that were changed on the way, as `BYTE=VALUE`; `-` stands where none was.
A sector that nobody wrote, or that was trimmed last, has no row.
A refused bundle gives the line that `check` writes.

Exit status: 0 done, 1 refused, 2 wrong words or help, 3 no memory or a failed read or write

Example:
  dmlab disks --seed 7 < examples/three_layers.bundle";

pub(crate) const DISKS_HISTORY: &str =
    "Runs the bundle's history as `audit` does, and writes what stands on its disks then";

pub(crate) const AFTER_DISKS_HISTORY: &str = "\
Reads a bundle with a part `== history`.
Writes of these events the table that `disks` writes of a run.
Where they are no complete run, it writes the line that `audit` writes.
A refused bundle gives the line that `check` writes.

Exit status: 0 a complete run, 1 refused or none, 2 wrong words or help, 3 no memory or
a failed read or write

Example:
  dmlab disks-history < examples/slow_disk.bundle";

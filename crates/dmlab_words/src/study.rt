use crate::Asked;

/// What is asked about runs beside a report.
#[derive(Clone, Copy, Debug, PartialEq, Eq)]
pub enum Study {
    /// Tell event by event what happened in the run by the words of a generator with this seed; let
    /// the clock wait for all other events where asked for a prompt run.
    Trace {
        seed: u64,
        prompt: bool,
    },
    /// Tell the same of the bundle's history, or where it is no complete run.
    TraceHistory,
    /// Tell what stands on the memory disks after the run by the words of a generator with this
    /// seed.
    Disks {
        seed: u64,
        prompt: bool,
    },
    /// Tell the same of the bundle's history, or where it is no complete run.
    DisksHistory,
    /// Tell the runs of all seeds from the first to the last, each by a line, and their different
    /// reports; or instead of both tell what is found in the runs.
    Sweep {
        first: u64,
        last: u64,
        prompt: bool,
        /// The findings that are asked for.
        asked: Asked,
        /// Whether the findings are counted by the lines of the logs instead of being listed.
        by_line: bool,
        /// Whether a run is told from others by what stands on the disks instead of by its report.
        disks: bool,
    },
}

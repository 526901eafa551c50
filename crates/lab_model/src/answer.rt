use crate::entry::Action;
use lab_text::Runs;

/// How an operation of a log ended.
#[derive(Debug, Drop)]
pub enum Outcome {
    /// It succeeded; what it read, if it read, isn't told.
    Fine,
    /// It failed.
    Eio,
    /// It read these bytes, as runs of one value.
    Runs(Runs),
}

/// The answer to an operation of a log.
#[derive(Debug, Drop)]
pub struct Answer {
    /// The line in the log's part, counted from 1.
    pub line: u64,
    pub action: Action,
    pub outcome: Outcome,
}

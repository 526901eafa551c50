use crate::{Job, Study};

/// What the words ask for.
#[derive(Clone, Copy, Debug, PartialEq, Eq)]
pub enum Work {
    /// A job that one thread does.
    Alone(Job),
    /// Tell what a check tells, and the fault of each other part of the bundle that can't be read.
    CheckAll,
    /// Run the scenario by threads, and report; tell the events where asked.
    Threads { history: bool },
    /// Tell of one run event by event, or of the runs of many seeds.
    Study(Study),
}

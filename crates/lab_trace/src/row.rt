use lab_model::Event;
use lab_sector::{DevNo, Kind, Span};

/// What a trace tells of an event, a column for each field (this project's own).
#[derive(Clone, Copy, Debug, PartialEq, Eq)]
pub struct TraceRow {
    /// The event's place in the run, counted from 1.
    pub place: u64,
    /// The clock when it comes, in microseconds.
    pub clock: u64,
    pub event: Event,
    /// The log that it comes from, counted from 1.
    pub log: Option<u32>,
    /// The line in that log's part, counted from 1.
    pub line: Option<u64>,
    /// The bio that it changes or makes, counted from 1.
    pub bio: Option<u64>,
    /// The bio that this one was made for a piece of; none where a log's operation made it.
    pub parent: Option<u64>,
    pub kind: Option<Kind>,
    pub device: Option<DevNo>,
    /// The sectors, counted from the device's first; a flush's are none, `{0, 0}`.
    pub span: Option<Span>,
}

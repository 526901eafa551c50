use lab_model::Action;
use lab_next::Origin;
use lab_sector::{DevNo, Span};

/// An operation of a log that an event answers.
#[derive(Clone, Copy, Debug, PartialEq, Eq)]
pub(crate) struct Answered {
    /// The number of its bio.
    pub(crate) number: u64,
    /// The operation.
    pub(crate) origin: Origin,
    /// What it does.
    pub(crate) action: Action,
    /// The device that the log opened.
    pub(crate) device: DevNo,
    /// Its sectors there.
    pub(crate) span: Span,
    /// The moment, in microseconds.
    pub(crate) moment: u64,
}

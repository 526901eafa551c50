use crate::culprit::Culprit;
use crate::finding::Finding;
use lab_model::Action;
use lab_next::{Origin, Writer};
use lab_sector::{DevNo, Span};

/// Some sectors of a device that are wrong.
#[derive(Clone, Copy, Debug, PartialEq, Eq)]
pub struct Wrong {
    /// The first of them, as the operation's device counts it.
    pub first: u64,
    /// How many they are; they needn't stand side by side.
    pub count: u64,
}

/// What is wrong with the answer to an operation of a log, and why. Moments are in microseconds.
#[derive(Clone, Copy, Debug, PartialEq, Eq)]
pub struct Found {
    /// What is wrong.
    pub finding: Finding,
    /// The operation that is answered.
    pub origin: Origin,
    /// What it does.
    pub action: Action,
    /// The device that the log opened.
    pub device: DevNo,
    /// The operation's sectors on it; none of a sync.
    pub span: Span,
    /// When the log issued it.
    pub issued: u64,
    /// When it was answered.
    pub answered: u64,
    /// Which sectors are wrong; of a failed operation none are told.
    pub wrong: Option<Wrong>,
    /// Which line did it to the first of them, where one did.
    pub culprit: Option<Culprit>,
    /// Who wrote what a read was answered there, if anybody did.
    pub got: Option<Writer>,
    /// Who wrote what should have been there.
    pub wanted: Option<Writer>,
}

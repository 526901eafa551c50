use crate::origin::Origin;

/// A sector of an operation: who wrote what stands there.
#[derive(Clone, Copy, Debug, PartialEq, Eq)]
pub struct Writer {
    /// The operation.
    pub origin: Origin,
    /// Which of its sectors, counted from 0.
    pub sector: u128,
}

/// From which sectors of a number changed bytes go to which of another.
#[derive(Clone, Copy, Debug, PartialEq, Eq)]
pub(crate) struct Way {
    /// The number of the disk or bio that has them.
    pub(crate) above: u64,
    /// The first sector there.
    pub(crate) place: u64,
    /// The number that gets them.
    pub(crate) number: u64,
    /// The first sector there.
    pub(crate) sector: u64,
}

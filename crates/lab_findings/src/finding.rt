/// What is wrong with what an operation of a log is answered.
#[derive(Clone, Copy, Debug, PartialEq, Eq)]
pub enum Finding {
    /// It is answered with a failure.
    Eio,
    /// It is a write or a trim, answered without failure though a line dropped some sector of it.
    Lost,
    /// It is a write of which a byte was changed before it reached its disk, or a read that is answered another byte
    /// than the writer of its sector wrote.
    Corrupt,
    /// It is a read, answered without failure what was older than a write or a trim that had been answered before.
    Stale,
    /// It is a read, answered what an operation wrote under another sector number of the same device.
    Misplaced,
    /// It is a sync, answered without failure though what stands lost on its device had been answered before.
    BrokenSync,
}

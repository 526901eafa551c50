/// Which findings are asked for, and whether one that is found ends the program with a status of its own.
#[derive(Clone, Copy, Debug, PartialEq, Eq)]
pub struct Asked {
    /// Answers with EIO.
    pub eio: bool,
    /// Writes and trims that were answered ok, of which a line dropped some sector.
    pub lost: bool,
    /// Writes that reached their disks changed, and reads that were answered other bytes than were written.
    pub corrupt: bool,
    /// Reads that were answered what an older write had left.
    pub stale: bool,
    /// Reads that were answered what was written under another sector number of their device.
    pub misplaced: bool,
    /// Syncs that were answered ok after a lost write that was not written again.
    pub broken_sync: bool,
    /// Whether something that is found ends the program with a status of its own.
    pub fail: bool,
}

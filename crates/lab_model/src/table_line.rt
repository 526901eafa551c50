/// A line of a table: the sectors of its device from `start` on, `len` of them, are the target's.
#[derive(Debug, Drop)]
pub struct TableLine<T> {
    /// The first sector, counted from the device's first.
    pub start: u64,
    /// The number of sectors.
    pub len: u64,
    pub target: T,
}

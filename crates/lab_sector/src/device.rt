/// The number of a block device, as `dmsetup table` prints it (dmsetup(8)).
#[derive(Clone, Copy, Debug, PartialEq, Eq)]
pub enum DevNo {
    /// `1:N`, the memory disk `/dev/ramN`.
    Ram(u32),
    /// `253:N`, the mapped device `/dev/dm-N`.
    Dm(u32),
}

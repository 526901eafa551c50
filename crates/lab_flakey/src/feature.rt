/// Which way a fixed corruption goes (dm-flakey's `r` and `w`).
#[derive(Clone, Copy, Debug, PartialEq, Eq)]
pub enum Direction {
    /// `r`: the answers of reads.
    Reads,
    /// `w`: the data of writes.
    Writes,
}

/// The byte that a flakey line changes in each piece while it is down (dm-flakey's
/// `corrupt_bio_byte N DIRECTION VALUE FLAGS`).
#[derive(Clone, Copy, Debug, PartialEq, Eq)]
pub struct Corruption {
    /// The byte, counted in the piece from 1.
    pub nth: u32,
    pub direction: Direction,
    /// What it becomes.
    pub value: u8,
    /// The flags that a bio must carry; dmlab's bios carry none (this project's own).
    pub flags: u32,
}

/// What a flakey line does while it is down. With no feature all fails.
#[derive(Clone, Copy, Debug, PartialEq, Eq)]
pub struct Features {
    /// Reads fail.
    pub error_reads: bool,
    /// Writes, trims and flushes succeed, and nothing is passed.
    pub drop_writes: bool,
    /// Writes, trims and flushes fail.
    pub error_writes: bool,
    /// One byte of each piece is changed.
    pub corrupt: Option<Corruption>,
    /// The chance, in 1,000,000,000, that a drawn byte of a read is changed.
    pub random_read: Option<u32>,
    /// The chance, in 1,000,000,000, that a drawn byte of a write is changed.
    pub random_write: Option<u32>,
}

impl Features {
    /// No feature.
    pub const NONE: Features = Features {
        error_reads: false,
        drop_writes: false,
        error_writes: false,
        corrupt: None,
        random_read: None,
        random_write: None,
    };
}

/// A feature's own word, apart from its arguments (dm-flakey; the random ones are this project's
/// own).
#[derive(Clone, Copy, Debug, PartialEq, Eq)]
pub enum FeatureName {
    /// `error_reads`.
    ErrorReads,
    /// `drop_writes`.
    DropWrites,
    /// `error_writes`.
    ErrorWrites,
    /// `corrupt_bio_byte`, with four words after it.
    CorruptByte,
    /// `random_read_corrupt`, with one word after it.
    RandomRead,
    /// `random_write_corrupt`, with one word after it.
    RandomWrite,
}

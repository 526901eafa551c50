use crate::entry::Entry;
use lab_sector::DevNo;

/// A memory disk as a scenario has it.
#[derive(Debug, Drop)]
pub struct DiskPlan {
    /// N of `/dev/ramN`.
    pub number: u32,
    /// How many sectors it has.
    pub size: u64,
}

/// A line of a log, its file bound to a device.
#[derive(Debug, Drop)]
pub struct LogLine {
    /// The line in the log's part, counted from 1.
    pub number: u64,
    /// The file's device; none for a wait.
    pub device: Option<DevNo>,
    pub entry: Entry,
}

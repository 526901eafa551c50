use crate::text::Text;

/// Whether a mapped device takes bios (dmsetup(8), suspend and resume).
#[derive(Clone, Copy, Debug, PartialEq, Eq)]
pub enum Mode {
    /// It takes bios.
    Running,
    /// It takes no more bios, and waits for those under way.
    Draining,
    /// It takes no bios, and none is under way.
    Suspended,
}

/// What one step of the script does (dmsetup(8)). A device is named by its number, counted from 0 by the
/// creates; a version by its number among the tables that are ever loaded into that device.
#[derive(Debug, Drop)]
pub enum Order {
    /// The device is there, running, with this version live if one is named.
    Create(u32, Option<u32>),
    /// The device's inactive slot has this version.
    Load(u32, u32),
    /// The device's inactive slot is empty.
    Clear(u32),
    /// The device drains.
    Begin(u32),
    /// The device, which has no bio under way any more, is suspended.
    Drained(u32),
    /// The device's inactive table, if there is one, becomes live, and the device runs.
    Swap(u32),
    /// The device is gone.
    Remove(u32),
    /// The line at this sector of the device's live table gets a message, of these words.
    Message(u32, u64, Text),
    /// The state of each line of the device's live table is told.
    Status(u32),
    /// The lines of the device's live table are told.
    Table(u32),
    /// The script waits so many microseconds.
    Sleep(u64),
    /// All logs start.
    Replay,
    /// The script waits until all logs have ended.
    Wait,
}

/// A micro-command: one step of the script, and the script's line that it comes from, counted from 1.
#[derive(Debug, Drop)]
pub struct Micro {
    pub line: u64,
    pub order: Order,
}

use crate::found::Found;
use lab_next::Origin;
use lab_sector::DevNo;

/// A sync of a log that was answered without failure.
#[derive(Clone, Copy, Debug, PartialEq, Eq)]
pub struct Synced {
    /// The sync.
    pub origin: Origin,
    /// The device that it synced.
    pub device: DevNo,
}

/// What is noted while a run goes, in the order of the answers.
#[derive(Clone, Copy, Debug, PartialEq, Eq)]
pub enum Noted {
    /// Something is wrong with an answer.
    Found(Found),
    /// A sync was answered without failure.
    Synced(Synced),
}

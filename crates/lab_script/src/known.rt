use super::slot::DeviceVersions;

/// What a walk knows of a mapped device that has a name.
#[derive(Clone, Copy, Debug, PartialEq, Eq)]
pub struct KnownDevice {
    /// Its number, counted from 0 by the creates.
    pub number: u32,
    /// How many tables were loaded into it.
    pub versions: u32,
    /// Which of them are in its slots, and its mode.
    pub slot: DeviceVersions,
}

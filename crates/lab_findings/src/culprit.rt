/// The line of a mapped device's table that dropped a sector or changed a byte.
#[derive(Clone, Copy, Debug, PartialEq, Eq)]
pub struct Culprit {
    /// The mapped device's number.
    pub device: u32,
    /// The line of its table, counted from 1.
    pub line: u64,
    /// The first eight bytes of the line's type word; zeroes behind a shorter one.
    pub target: [u8; 8],
}

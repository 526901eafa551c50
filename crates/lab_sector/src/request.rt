/// What a request asks of a device (the block layer's operations of these names).
#[derive(Clone, Copy, Debug, PartialEq, Eq)]
pub enum Kind {
    /// The sectors' bytes are answered.
    Read,
    /// The sectors get new bytes.
    Write,
    /// The sectors become zero (this project's own).
    Trim,
    /// Nothing is read or changed.
    Flush,
}

use lab_sector::NoMemory;
use std::alloc::{AllocError, AllocFailed};
use thiserror::Error;

/// Why a line's type and arguments make no target (this project's own; the kernel's messages have other words).
#[derive(Clone, Copy, Debug, PartialEq, Eq, Error)]
pub enum TargetFault {
    #[error("the type wants another number of words")]
    Args,
    #[error("a number in its range was wanted")]
    Number,
    #[error("up and down must be 1 to 4294967295 seconds together")]
    Interval,
    #[error("there is no feature of this name")]
    Feature,
    #[error("this feature doesn't go with an earlier one")]
    Conflict,
    #[error("a feature's value is out of its range")]
    Value,
    #[error("the block size must be a power of two from 512 to 1073741824 bytes")]
    BlockSize,
    #[error("a delay must be at most 3600000 milliseconds")]
    TooLong,
    #[error("there is no target of this type")]
    Unknown,
    #[error("there is no device of this name")]
    Device,
    #[error("no memory")]
    NoMemory,
}

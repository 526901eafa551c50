ghost use Rattle.std.specs.Prelude.{◌≡◌};
ghost use Rattle.lab_iolog.specs.declared.log.LogFault.TheVariants as faults;

use lab_model::Entry;
use std::alloc::AllocFailed;
use thiserror::Error;

/// A log (fio's manual, trace file format version 2).
#[derive(Debug, Drop)]
pub struct Log<'a> {
    /// The lines after the header that aren't blank, in order.
    pub lines: Vec<IologLine<'a>>,
}

/// A line of a log.
#[derive(Clone, Copy, Debug, PartialEq, Eq)]
pub struct IologLine<'a> {
    /// Its number among all lines of the log, the header and blank ones too, counted from 1.
    pub number: u64,
    /// Its first word, which names the file. A wait line's is ignored.
    pub file: &'a [u8],
    /// What it asks for.
    pub entry: Entry,
}

/// Why a text is no log. The numbers are those of lines, counted from 1.
#[derive(Clone, Copy, Debug, PartialEq, Eq, Error)]
pub enum LogFault {
    /// Line 1 isn't the header, or there is no line.
    #[error("line 1 must be `fio version 2 iolog`")]
    Header,
    /// The line has none of a log's forms.
    #[error("line {0} must be `FILE add|open|close`, or `FILE` and an action with two numbers")]
    BadLine(u64),
    /// The line's offset or length is no multiple of 512 bytes.
    #[error("the offset and the length on line {0} must be multiples of 512 bytes")]
    Unaligned(u64),
    /// The line's length is 0.
    #[error("the length on line {0} must be at least 512 bytes")]
    EmptyRange(u64),
    /// The line's length is above 1,048,576 bytes.
    #[error("the length on line {0} must be at most 1048576 bytes")]
    TooLong(u64),
    /// The line is the 10,001st after the header, blank ones not counted.
    #[error("line {0} is one too many: a log has at most 10000 lines after its header")]
    TooManyLines(u64),
    /// A growth was refused: there was no memory for it.
    #[error("no memory")]
    NoMemory,
}

impl<T: Drop> From<AllocFailed<T>> for LogFault {
    ghost from_gives = { λ _ fault. fault ≡ faults.NoMemory };

    fn from(_refused: AllocFailed<T>) -> LogFault {
        LogFault::NoMemory
    }
}

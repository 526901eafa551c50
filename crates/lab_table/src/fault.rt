ghost use Rattle.std.specs.Prelude.{◌≡◌};
ghost use Rattle.lab_target.specs.declared.fault.TargetFault.TheVariants.{NoMemory as Refused};
ghost use Rattle.lab_table.specs.declared.fault.Why.TheVariants as whys;

use lab_sector::NoMemory;
use lab_target::TargetFault;
use std::alloc::{AllocError, AllocFailed};
use thiserror::Error;

/// Why a line makes no part of a table (this project's own; the kernel's messages have other words).
#[derive(Clone, Copy, Debug, PartialEq, Eq, Error)]
pub enum Why {
    #[error("a table has at most 64 lines")]
    TooManyLines,
    #[error("a line has a start, a length and a target type")]
    Args,
    #[error("start and length are numbers up to 1099511627776, in sectors")]
    Number,
    #[error("a line has at least one sector")]
    ZeroLength,
    #[error("a line starts where the one before it ends, the first at 0")]
    Gap,
    #[error("a table has at least one line")]
    Empty,
    #[error("{0}")]
    Target(TargetFault),
}

/// The first fault of a table's text.
#[derive(Clone, Copy, Debug, PartialEq, Eq, Error)]
#[error("line {line}: {why}")]
pub struct TableFault {
    /// The line, counted from 1; 0 where the fault is of no line.
    pub line: u64,
    pub why: Why,
}

impl From<NoMemory> for Why {
    ghost from_gives = { λ _ why. why ≡ whys.Target Refused };

    fn from(_refused: NoMemory) -> Why {
        Why::Target(TargetFault::NoMemory)
    }
}

impl From<TargetFault> for Why {
    ghost from_gives = { λ fault why. why ≡ whys.Target fault };

    fn from(fault: TargetFault) -> Why {
        Why::Target(fault)
    }
}

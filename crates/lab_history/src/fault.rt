ghost use Rattle.std.specs.Prelude.{◌≡◌};
ghost use Rattle.lab_history.specs.declared.fault.HistoryFault.TheVariants as faults;

use std::alloc::AllocFailed;
use thiserror::Error;

/// Why a text is no history.
#[derive(Clone, Copy, Debug, PartialEq, Eq, Error)]
pub enum HistoryFault {
    /// The line of this number, counted from 1, is no event.
    #[error("line {0} must be `control`, `clock` or `line|map|serve|release|finish` and a number")]
    BadLine(u64),
    /// A growth was refused: there was no memory for it.
    #[error("no memory")]
    NoMemory,
}

impl<T: Drop> From<AllocFailed<T>> for HistoryFault {
    ghost from_gives = { λ _ fault. fault ≡ faults.NoMemory };

    fn from(_refused: AllocFailed<T>) -> HistoryFault {
        HistoryFault::NoMemory
    }
}

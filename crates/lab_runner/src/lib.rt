//! Runs by threads: one worker for each log, one for the script and one for the timers, over one lock.
#![tactic(auto)]

mod gate;
mod places;
mod runner;
mod shared;
mod sweep;
mod turn;
mod worker;

pub use gate::{Gate, Open};
pub use runner::run_threads;
pub use shared::{Naming, Shared};
pub use sweep::{Finished, RunFault};
pub use turn::Turn;

//! The delay target: bios go on to other devices after some time, by their kind.
#![tactic(auto)]

mod delay;
mod group;
mod grouped;
mod line;

pub use delay::Delay;
pub use line::LONGEST_DELAY;

//! Numbers that wait, each for its due moment: which is due first, and which wait at a device.
#![tactic(auto)]

mod moments;
mod queue;
mod ranking;
mod row;
mod rows;
mod search;

pub use moments::{Due, MomentQueue};
pub use queue::{DelayQueue, Held};

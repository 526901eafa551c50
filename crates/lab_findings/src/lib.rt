//! What is wrong with what the operations of logs are answered, and why: found while a run goes.
#![tactic(auto)]

mod answered;
mod changed;
mod changes;
mod content;
mod culprit;
mod culprits;
mod deed;
mod finding;
mod found;
mod hearing;
mod issuing;
mod judged;
mod judging;
mod lines;
mod mapping;
mod misplaced;
mod newer;
mod noted;
mod noting;
mod reach;
mod settling;
mod sought;
mod spoiling;
mod stale;
mod watch;
mod why;
mod whys;
mod written;
mod wrong;

pub use culprit::Culprit;
pub use finding::Finding;
pub use found::{Found, Wrong};
pub use noted::{Noted, Synced};
pub use sought::Sought;
pub use watch::Watch;

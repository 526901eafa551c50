//! The flakey target: a line that fails, drops or corrupts bios while it is down.
#![tactic(auto)]

mod draw;
mod feature;
mod features;
mod flakey;
mod line;
mod print;
mod rules;

pub use draw::CERTAIN;
pub use feature::{Corruption, Direction, FeatureName, Features};
pub use features::MAX_VALUE;
pub use flakey::Flakey;
pub use rules::MAX_SECONDS;

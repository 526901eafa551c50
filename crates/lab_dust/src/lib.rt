//! The dust target: reads of listed blocks fail, and a write takes its block off the list.
#![tactic(auto)]

mod blocks;
mod dust;
mod given;
mod law;
mod list;
mod message;

pub use dust::Dust;
pub use given::MAX_BLOCK;
pub use law::blocks_are_a_set;

//! One run of the laboratory's program: words and bytes in, a text and a status out. The calls of its streams are counted.
#![tactic(auto)]

mod all;
mod answer;
mod audit;
mod beside;
mod counted;
mod disks;
mod findings;
mod input;
mod judged;
mod outcome;
mod output;
mod program;
mod simulated;
mod status;
mod studies;
mod sweeps;
mod telling;
mod threads;
mod trial;
mod work;

pub use counted::Counted;
pub use dmlab_words::{Asked, Job, Study, Work};
pub use program::{file_named, run, run_alone};
pub use status::Status;

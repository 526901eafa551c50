//! How far the logs of a run have come: the lines that they have taken, their moments, files and answers.
#![tactic(auto)]

mod agenda;
mod files;
mod lines;
mod log_state;
mod logs;
mod moments;

pub use agenda::Due;
pub use files::Files;
pub use log_state::LogState;
pub use logs::Logs;
pub use moments::lesser;

//! The reader of logs: fio's trace files, format version 2.
#![tactic(auto)]

mod line;
mod log;
mod reader;

pub use line::{MAX_LENGTH, MAX_WAIT};
pub use log::{IologLine, Log, LogFault};
pub use reader::read_log;

//! The text of a history: a run's events, one on each line.
#![tactic(auto)]

mod fault;
mod law;
mod line;
mod printer;
mod reader;

pub use fault::HistoryFault;
pub use law::printed_history_reads_back;
pub use printer::push_history;
pub use reader::read_history;

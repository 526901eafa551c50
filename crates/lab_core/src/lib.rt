//! The laboratory: an accepted scenario that is run event by event, in any order in which they may come.
#![tactic(auto)]

mod audit;
mod complete;
mod counts;
mod drive;
mod free_logs;
mod front;
mod lab;
mod observer;
mod prompt;
mod queries;
mod report;
mod simulate;
mod texts;

pub use audit::AuditFault;
pub use complete::{begin, complete_run};
pub use lab::Lab;
pub use lab_history::{HistoryFault, push_history, read_history};
pub use lab_model::{Action, Answer, Event, Outcome, Who};
pub use observer::Observer;

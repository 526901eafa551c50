//! The plain types that the laboratory's definitions speak of: events, micro-commands, log
//! entries, pieces, modes, rules, and what a scenario plans.
#![tactic(auto)]

mod answer;
mod entry;
mod event;
mod micro;
mod parent;
mod phase;
mod piece;
mod plan;
mod reply;
mod rule;
mod table_line;
mod text;

pub use answer::{Answer, Outcome};
pub use entry::{Action, Entry};
pub use event::{Event, Who};
pub use micro::{Micro, Mode, Order};
pub use parent::Parent;
pub use phase::Phase;
pub use piece::Piece;
pub use plan::{DiskPlan, LogLine};
pub use reply::Reply;
pub use rule::Rule;
pub use table_line::TableLine;
pub use text::Text;

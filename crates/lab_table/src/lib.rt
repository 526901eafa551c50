//! Device-mapper tables: lines without gaps, each with a target of its own, read from text and printed; and what a run
//! takes of a bundle, its names bound to devices: disks, tables, steps and logs.
#![tactic(auto)]

mod fault;
mod laws;
mod line_states;
mod log_plan;
mod printing;
mod reading;
mod scenario;
mod table;
mod unbound;

pub use fault::{TableFault, Why};
pub use lab_model::{DiskPlan, LogLine, TableLine};
pub use laws::table_reads_back;
pub use log_plan::LogPlan;
pub use reading::{MAX_LINES, read_table, read_unbound_table};
pub use scenario::{LIMIT, Plan, Scenario};
pub use table::Table;
pub use unbound::UnboundTable;

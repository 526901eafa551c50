//! How many events an accepted scenario can take: costs by pieces, over every table that is ever loaded.
#![tactic(auto)]

mod capped;
mod cost;
mod flush;
mod grouped;
mod grouped_plan;
mod size_row;
mod total;
mod walk;

pub use cost::{OpCost, operation_cost};
pub use lab_table::{DiskPlan, LIMIT, LogLine, LogPlan, Plan};
pub use total::budget;

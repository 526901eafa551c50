//! What is watched while a run goes: who wrote each sector, and which sectors of a write or a trim a line dropped.
#![tactic(auto)]

mod dropped;
mod grid;
mod kept;
mod rooms;
mod row;
mod seeing;
mod served;
mod sheets;
mod stretch;
mod stretches;
mod writers;
mod written;

pub use grid::Grid;
pub use kept::Kept;
pub use row::{Row, Run};
pub use sheets::Sheets;
pub use writers::Writers;
pub use written::has_written;

//! What is wrong with a bundle that is refused, and which lines may mend it. Nothing is promised of these lines here: each
//! is tried before it is told.
#![tactic(auto)]

mod blktrace;
mod calls;
mod command_remedy;
mod count_first;
mod creates;
mod gap_remedy;
mod iolog_remedy;
mod left_out;
mod lengths;
mod log_forms;
mod overlap;
mod remedies;
mod removed;
mod scaled;
mod script_remedy;
mod sector_pair;
mod shell;
mod spotted;
mod suspended;
mod table_remedy;
mod unaligned;

pub use left_out::with_left_out;
pub use remedies::remedy_of;

//! Runs of one scenario by seeds: a sweep over a range of seeds, a search, and what is found in one run. A sweep has a
//! line for each seed and a line for each different report; a search has a row for each finding that is sought, or by
//! line how many seeds have it.
#![tactic(auto)]

mod by_line;
mod columns;
mod counts;
mod digest;
mod finder;
mod found_row;
mod found_rows;
mod line_counts;
mod next_syncs;
mod outcome;
mod progress;
mod room;
mod run_text;
mod searcher;
mod searching;
mod seed_line;
mod seeds;
mod seeking;
mod sweep_lines;
mod sweeper;
mod sweeping;
mod tally;
mod told;
mod totals;
mod watched;

pub use outcome::SeedOutcome;
pub use progress::Progress;
pub use searcher::Searched;
pub use searching::{found_in, search};
pub use seeds::Seeds;
pub use sweeping::sweep;
pub use tally::SeedCount;
pub use totals::{Totals, push_totals};

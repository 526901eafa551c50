//! The bios of a run by their numbers: what each asks, how far it has come, and which of them live.
#![tactic(auto)]

mod answered;
mod bio;
mod bio_marks;
mod bios;
mod children;
mod ended;
mod flights;
mod log_tally;
mod origin;
mod recording;
mod sectors;
mod written;

pub use answered::{Answered, Changed};
pub use bio::{Bio, Stage};
pub use bio_marks::{MarkPlaces, MarkValues};
pub use bios::Bios;
pub use children::parent_number;
pub use ended::Ended;
pub use flights::{flight_of, has_flight};
pub use lab_model::Parent;
pub use sectors::{Sectors, filled, mark};
pub use written::Written;

//! What a tester is told of a refused bundle: the line that stopped it, what is wrong there, and what to write; and the
//! bundle with that in its place.
#![tactic(auto)]

mod advice;
mod lines;
mod mended;
mod place;
mod remedy;
mod remedy_text;
mod show;
mod trouble;

pub use advice::advice_on;
pub use lines::{Part, end_number, heading_number};
pub use mended::mended_bytes;
pub use place::{Place, place_of};
pub use remedy::{GUESSED, Mend, Remedy, Spot};
pub use trouble::Trouble;

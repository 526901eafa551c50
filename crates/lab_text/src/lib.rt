//! Texts of bytes: words, lines, numbers, runs of bytes, and the bundle of a scenario's parts.
#![tactic(auto)]

mod bundle;
mod draft;
mod heading;
mod lines;
mod numbers;
mod packed;
mod run;
mod spot;
mod words;

pub use bundle::{Bundle, BundleFault, MAX_BUNDLE_BYTES, Part, read_bundle};
pub use heading::is_heading;
pub use lines::{Lines, is_blank, is_comment, is_skipped};
pub use numbers::{NumberFault, number, number_to, push_number, push_numbered};
pub use run::{Run, Runs, push_runs, runs_of};
pub use words::{Words, is_name};

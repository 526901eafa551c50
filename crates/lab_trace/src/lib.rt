//! The trace of a run: a line for each event, with what it did and who wrote what was read.
#![tactic(auto)]

mod answered;
mod ending;
mod fields;
mod fired;
mod happened;
mod lack;
mod made;
mod micros;
mod parents;
mod row;
mod telling;
mod text;
mod traced;
mod tracer;
mod words;
mod written;

pub use traced::{trace_events, trace_seed};

//! What a bundle's text says at first sight, though it may be refused: its commands, its tables' lines, which device stands
//! where with how many sectors, and which of some words is nearest to another.
#![tactic(auto)]

mod devices;
mod near;
mod numbers;
mod outline;
mod references;
mod sizes;
mod spotted;
mod tables;

pub use near::{Near, is_cased, nearest_of};
pub use numbers::plain;
pub use outline::{Outline, Row};
pub use references::Reference;
pub use spotted::Spotted;

//! Any of the targets that a table may name, by its type word.
#![tactic(auto)]

mod any_target;
mod type_name;

pub use any_target::AnyTarget;

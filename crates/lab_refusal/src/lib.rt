//! Why a bundle is refused: the rules, and the part, the line and the rule that a refusal tells, with their texts.
#![tactic(auto)]

mod fault;

pub use fault::{Fault, PartName, Refusal, log_refusal, script_refusal, table_refusal};
pub use lab_model::Rule;

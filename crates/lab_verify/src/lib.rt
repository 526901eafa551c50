//! The verifier: a bundle is accepted as a scenario that can run, or refused by its first fault.
//!
//! `verify` answers what `specs/Verdict.antt` says of the bundle's texts: that each can be read, that no rule of
//! `lab_rulebook` is broken, and the scenario that they are with its budget; or the first fault,
//! by its part, its line and its rule. A text's fault is the one that its reader tells; those of the rules come in
//! the order of `lab_rulebook`'s `Told`. Nothing is said where memory runs out.
//!
//! What stands along the script is `lab_standing`'s, the rules' tests are `lab_rule_checks`'.
#![tactic(auto)]

mod bound;
mod limits;
mod parts;
mod reading;
mod replayed;
mod verifier;
mod walk;

pub use lab_refusal::{Fault, PartName, Refusal, Rule};
pub use lab_rulebook::Accepted;
pub use lab_table::{DiskPlan, LogLine, LogPlan, Plan, Scenario};
pub use reading::read_faults;
pub use verifier::{refusal_of, verify};

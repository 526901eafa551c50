//! What is accepted as a scenario, by rules over the parts of a bundle, with what the bundle's texts
//! say, part by part, what follows from both, and the type of an accepted scenario.
#![tactic(auto)]

mod accepted;
mod laws;

pub use accepted::Accepted;
pub use laws::{
    accepted_has_no_fault, accepted_is_fine, bundle_has_texts, parts_are_brief, parts_are_well_read,
};

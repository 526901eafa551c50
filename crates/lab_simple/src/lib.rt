//! The targets that keep no state between bios: linear, zero and error.
#![tactic(auto)]

mod error_target;
mod linear;
mod zero;

pub use error_target::ErrorTarget;
pub use linear::Linear;
pub use zero::Zero;

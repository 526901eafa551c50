//! The mapped devices of a run: the slots and mode of each, and how many bios are in flight at it.
#![tactic(auto)]

mod devices;
mod slot;

pub use devices::Devices;
pub use lab_model::Mode;

//! Where a run stands: its bios with what they wait for, its devices, disks, logs and the script's position.
#![tactic(auto)]

mod dependents;
mod device_marks;
mod entered;
mod flights;
mod groups;
mod held_place;
mod held_rows;
mod index;
mod moments;
mod numbers;
mod state;
mod traffic;
mod traffic_bios;
mod traffic_devices;
mod traffic_held;

pub use index::serves;
pub use lab_bios::{
    Answered, Bio, Changed, MarkPlaces, MarkValues, Parent, Sectors, Stage, Written,
};
pub use lab_logs::{LogState, Logs};
pub use lab_model::Reply;
pub use numbers::numbered;
pub use state::{RamDisk, State};
pub use traffic::Traffic;

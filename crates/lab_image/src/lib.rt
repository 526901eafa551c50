//! What stands on the disks of a run: which sector of which write, and which bytes of it were changed on the way.
#![tactic(auto)]

mod beginning;
mod bytes;
mod changes;
mod columns;
mod copies;
mod each;
mod image;
mod imager;
mod row;
mod rows;
mod run_image;
mod serving;
mod store;
mod sums;
mod text;
mod way;

pub use changes::Changes;
pub use image::Image;
pub use row::DiskRow;
pub use run_image::{disks_of_events, disks_of_run, disks_of_seed};
pub use store::Store;

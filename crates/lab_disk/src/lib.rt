//! A memory disk: a list of sectors of 512 bytes, in pages that are made at the first write, and what a sector holds.
#![tactic(auto)]

mod disk;
mod page;
mod pages;
mod runs;
mod sector;

pub use disk::Disk;
pub use runs::{runs_of_sectors, runs_of_zeroes};
pub use sector::Sector;

//! Sectors of 512 bytes: spans of them, the kinds of requests, device numbers, and memory that runs out.
#![tactic(auto)]

mod device;
mod memory;
mod request;
mod span;

pub use device::DevNo;
pub use memory::NoMemory;
pub use request::Kind;
pub use span::{MAX_SECTOR, SECTOR_BYTES, Span};

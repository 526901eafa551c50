//! What is wrong with a bundle that can be read and breaks a rule, and which lines may mend it: names that stand for
//! nothing, sizes, messages, files and limits. Nothing is promised of these lines here.
#![tactic(auto)]

mod asked;
mod created;
mod disks;
mod doubled;
mod files;
mod grown;
mod later;
mod limits;
mod loaded;
mod message_reason;
mod messages;
mod names;
mod nearer;
mod opened;
mod ranges;
mod references;
mod shorter;
mod sizes;
mod table_names;
mod unknown;
mod unopened;

pub use asked::{is_used, only_unused, reach_of, row_below};
pub use disks::self_told;
pub use files::{file_remedy, use_remedy};
pub use limits::{budget_remedy, limits_remedy};
pub use loaded::loaded_remedy;
pub use messages::message_remedy;
pub use opened::only_open;
pub use ranges::{empty_remedy, fits, in_sectors, range_remedy};
pub use shorter::shorter_remedy;
pub use sizes::size_remedy;
pub use unknown::{stem_of, unknown_remedy};

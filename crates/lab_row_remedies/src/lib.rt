//! What is wrong with a line of a table, and which line may mend it. Nothing is promised of these lines here: each is
//! tried before it is told.
#![tactic(auto)]

pub mod as_flakey;
mod bio_flags;
mod continued;
mod corrupted;
mod delay_seconds;
mod dust_blocks;
mod early_features;
pub mod endless;
pub mod filled_gap;
mod flakey_error;
pub mod inclusive;
pub mod lacking_device;
pub mod last_guesses;
mod late_type;
pub mod lost_number;
pub mod no_feature;
pub mod numbers;
pub mod offsets;
pub mod row_order;
pub mod row_slips;
pub mod several_counts;
mod status_line;
pub mod table_reason;
mod two_devices;
pub mod wrapped;

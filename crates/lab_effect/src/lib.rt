//! What each event, and each step of the script, does to the state of a run.
#![tactic(auto)]

mod answers;
mod children;
mod commands;
mod control_effect;
mod disk_change;
mod disk_effect;
mod disk_events;
mod event_effect;
mod judgement;
mod log_effect;
mod map_effect;
mod opening_state;
mod operation;
mod order_effect;
mod parents;
mod pieces;
mod replies;
mod sectors;
mod sending;
mod telling;

pub use commands::{begin, clear, create, drained, load, remove, replay, swap};
pub use control_effect::control;
pub use disk_events::{finish, release, serve};
pub use event_effect::{apply, tick};
pub use log_effect::take_line;
pub use map_effect::map_bio;
pub use opening_state::opening;
pub use order_effect::carry_out;
pub use telling::{message, show_table, status};

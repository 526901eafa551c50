//! The reader of scripts, and the walk that turns a script's commands into micro-commands.
#![tactic(auto)]

mod command;
mod compiler;
mod grammar;
mod joined;
mod known;
mod message;
mod orders;
mod reader;
mod slot;
mod walk;

pub use command::{Command, Script, ScriptFault, ScriptLine};
pub use compiler::compile;
pub use grammar::{MAX_DISK, MAX_DISK_SECTORS, MAX_SLEEP};
pub use known::KnownDevice;
pub use orders::push_orders;
pub use reader::read_script;
pub use slot::DeviceVersions;
pub use walk::Walk;

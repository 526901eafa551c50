//! The rules of scripts and logs, tested where a command or a log's line stands: `broken` and `broken_end` tell the
//! least rule that a command or the script's end breaks, `broken_line` the first line of a log that breaks one.
//!
//! The rules themselves are `lab_rulebook`'s; each test is proved to decide its rule.
#![tactic(auto)]

mod logs;
mod rule_cycles;
mod rule_files;
mod rule_messages;
mod rule_names;
mod rule_phases;
mod rule_remove;
mod rule_suspend;
mod rule_tables;
mod rules;
mod search;

pub use logs::broken_line;
pub use rule_phases::broken_end;
pub use rules::broken;

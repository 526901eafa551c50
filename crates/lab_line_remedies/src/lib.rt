//! What is wrong with a line of the script, of a log or of a history, and which line may mend it. Nothing is promised of
//! these lines here: each is tried before it is told.
#![tactic(auto)]

pub mod command_form;
pub mod command_tables;
pub mod cycles;
mod exchanged_event;
pub mod extra_words;
pub mod flags;
pub mod foreign_command;
pub mod history_remedy;
pub mod lacking_action;
mod lacking_event;
pub mod late_disk;
pub mod log_reason;
pub mod lost_words;
pub mod message_words;
pub mod more_words;
pub mod named;
pub mod phases;
mod quoted;
pub mod renamed;
pub mod seeded;
pub mod timed_command;
pub mod timed_wait;

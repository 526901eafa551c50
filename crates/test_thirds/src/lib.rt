//! A target for tests: its blocks have three places, and it takes one message.
#![tactic(auto)]

mod thirds_line;

pub use thirds_line::Thirds;

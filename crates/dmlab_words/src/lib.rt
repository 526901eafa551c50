//! The program's command line: its words, its help, and what they ask for.
#![tactic(auto)]

mod asked;
mod command_line;
mod finding_words;
mod help;
mod hints;
mod job;
mod laws;
mod making;
mod many;
mod offered;
mod options;
mod sense;
mod shown;
mod study;
mod study_help;
mod study_words;
mod sweep_help;
mod tips;
mod told;
mod work;

pub use asked::Asked;
pub use command_line::{file_named, read_words};
pub use job::Job;
pub use laws::flags_are_told;
pub use study::Study;
pub use work::Work;

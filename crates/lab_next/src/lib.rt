//! Which events may come next where a run stands, whom they belong to, which operation they answer, what has ended, and
//! which sectors a line of a table answered itself.
#![tactic(auto)]

mod answering;
mod bio_guard;
mod bios;
mod ended;
mod guard;
mod order;
mod origin;
mod own;
mod owner;
mod pieces;
mod places;
mod wanting;
mod writer;

pub use answering::{
    has_failed, kind_answered, kind_if_own, number_answered, origin_answered, own_origin,
    stage_failed,
};
pub use bios::{answer_marks, bio_of, place_in, sectors_in};
pub use ended::{is_done, is_over, log_ended, logs_ended, script_ended};
pub use guard::{control_may, is_enabled, line_may};
pub use order::{count_behind, next_for, nth_behind};
pub use origin::{Origin, Root, origin_of, parent_of, root_of, writer_of};
pub use own::{Own, own_parts};
pub use owner::owner_of;
pub use wanting::count_wanting;
pub use writer::Writer;

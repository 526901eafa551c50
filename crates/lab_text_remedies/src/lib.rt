//! What is wrong with a heading, or with a line that stands in the wrong part, and which lines may mend it. Nothing is
//! promised of these lines here: each is tried before it is told.
#![tactic(auto)]

mod alien;
mod belongs;
pub mod bundle_remedy;
mod comments;
mod conflict;
pub mod file_kinds;
pub mod fileless;
pub mod foreign_line;
mod heading_marks;
mod heading_remedy;
mod headings;
pub mod misplaced;
mod numbered;
pub mod other_file;
pub mod parted;
mod second_header;
mod stray_remedy;
pub mod thousands;
mod twice_remedy;

//! What is found by number: sets that tell their k-th member, items that come and go, and numbers in groups.
#![tactic(auto)]

mod bits;
mod counts;
mod groups;
mod growth;
mod items;
mod marking;
mod rows;
mod set;
mod word_set;

pub use groups::Groups;
pub use items::Numbered;
pub use marking::Marking;
pub use set::NumberSet;
pub use word_set::WordSet;

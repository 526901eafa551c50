//! What a device-mapper target is: words that make it, references, verdicts on pieces, messages and texts,
//! and the laws that every target keeps.
#![tactic(auto)]

mod fault;
mod names;
mod target;
mod type_word;
mod unbound;
mod verdict;

pub use fault::TargetFault;
pub use names::{Names, mapped_number, mapped_path, name_path, push_device, ram_number, ram_path};
pub use target::Target;
pub use type_word::after_type;
pub use unbound::{Unbound, later_devices, only_device};
pub use verdict::{Held, Mark, Marks, Ref, Verdict};

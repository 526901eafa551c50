//! What stands along a script: the disks, the names, the devices with their tables, which device refers to which, and
//! the logs. `Standing` holds it, and each of its calls answers what the definition of `specs/Stands.antt` says.
//!
//! The lowest layer of the verifier.
#![tactic(auto)]

mod entries;
mod links;
mod named;
mod obeyed;
mod orders;
mod references;
mod seen;
mod sizes;
mod slots;
mod standing;

pub use lab_model::Phase;
pub use links::Links;
pub use named::NamedTable;
pub use references::{KINDS, is_same, link_row, refers_to};
pub use seen::Seen;
pub use sizes::size_of;
pub use standing::Standing;

//! Cutting a bio into the pieces that the lines of a table take one by one, and what the pieces are.
#![tactic(auto)]

mod cut;
mod laws;

pub use cut::{Uncut, cut_bio, take_piece, uncut_span};
pub use lab_model::Piece;
pub use laws::{pieces_are_classes, pieces_cover};

use crate::entry::Action;
use crate::piece::Piece;

/// Whom a bio answers to.
#[derive(Clone, Copy, Debug, PartialEq, Eq)]
pub enum Parent {
    /// An operation of the log of this number, counted from 1, on this line of its part.
    FromLog(u32, u64, Action),
    /// The bio of this number, for one of its pieces.
    FromBio(u64, Piece),
}

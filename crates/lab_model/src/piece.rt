use lab_sector::Span;

/// A piece of a bio: the sectors of it that one line of a table takes at once.
#[derive(Clone, Copy, Debug, PartialEq, Eq)]
pub struct Piece {
    /// The line, counted from 0.
    pub line: usize,
    /// The sectors, counted from the device's first; a flush's piece is empty, `{0, 0}`.
    pub span: Span,
}

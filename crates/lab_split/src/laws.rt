ghost use Rattle.lab_split.specs.PiecesAreClasses.{FlushIsCounted, FlushIsOrdered, PiecesAreClasses, PiecesDiffer};
ghost use Rattle.lab_split.specs.PiecesCover.{PiecesCover};

use lab_target::Target;

/// The pieces of a bio that is inside a table, and no flush, have each of its sectors once, in order; each piece
/// has some, all in its line and in one block of its target.
pub fn pieces_cover<T: Target>()
    ensures { PiecesCover T.meaning }
{}

/// The pieces of a bio that is inside a table, and no flush, are its classes of sectors: those that
/// have the same line and block. No class is cut in two. A flush has one empty piece for each line.
pub fn pieces_are_classes<T: Target>()
    ensures apart { PiecesDiffer T.meaning }
    ensures classes { PiecesAreClasses T.meaning }
    ensures flush_count { FlushIsCounted T.meaning }
    ensures flush { FlushIsOrdered T.meaning }
{}

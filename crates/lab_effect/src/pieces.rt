ghost use Rattle.std.specs.Prelude.{◌≡◌, true, All, IfOk, map};
ghost use Rattle.lab_model.specs.MapEffect.{answer_room, fits_table};
ghost use Rattle.lab_model.specs.Pieces.{pieces};
ghost use Rattle.lab_sector.specs.declared.request.Kind.TheVariants.{Write};
ghost use Rattle.lab_effect.specs.Mapping.{AreParts, FitsLine, part_of};

use lab_model::Piece;
use lab_sector::{Kind, NoMemory, Span};
use lab_split::cut_bio;
use lab_state::{Answered, Bio, Written};
use lab_table::Table;
use lab_target::Target;
use std::alloc::Global;

/// The pieces of a bio on these sectors of a table's device, each of which is of its line.
pub(crate) fn pieces_of<T: Target>(
    alloc: Global,
    table: &Table<T>,
    kind: Kind,
    span: Span,
) -> Result<Vec<Piece>, NoMemory>
    requires { fits_table table.now kind span ≡ true }
    ensures cut { IfOk result (λ cut. cut.items ≡ pieces T.meaning table.now kind span) }
    ensures of_lines { IfOk result (λ cut. All (FitsLine kind table.now) cut.items) }
{
    // That the lines have no gap is said where they are read.
    let _lines = table.lines();
    cut_bio(alloc, table, kind, span)
}

/// The parts of what a bio writes, one for each of its pieces; none for a bio that writes nothing.
#[tactic(auto, using(crate::proofs::SentPieces::parts_each, crate::proofs::SentPieces::parts_none))]
pub(crate) fn parts_of(alloc: Global, bio: &Bio, pieces: &[Piece]) -> Result<Vec<Written>, NoMemory>
    ensures { IfOk result (λ parts. AreParts bio.now parts.items pieces.now) }
{
    match bio.kind {
        Kind::Write => written_parts(alloc, bio, pieces),
        Kind::Read | Kind::Trim | Kind::Flush => Ok(Vec::new(alloc)),
    }
}

/// The part of what a write writes for each of its pieces.
fn written_parts(alloc: Global, bio: &Bio, pieces: &[Piece]) -> Result<Vec<Written>, NoMemory>
    requires { bio.now.kind ≡ Write }
    ensures { IfOk result (λ parts. parts.items ≡ map (part_of bio.now) pieces.now) }
{
    let mut parts = Vec::with_capacity(alloc, pieces.len())?;
    for piece in pieces {
        parts.push(part_of(alloc, bio, piece)?)?;
    }
    Ok(parts)
}

/// The part of what a write writes for a piece.
fn part_of(alloc: Global, bio: &Bio, piece: &Piece) -> Result<Written, NoMemory>
    requires { bio.now.kind ≡ Write }
    ensures { IfOk result (λ part. part ≡ part_of bio.now piece.now) }
{
    let first = piece.span.first.saturating_sub(bio.span.first);
    let len = piece.span.len;
    bio.part(alloc, Span { first, len })
}

/// Room for the answer to a read: zero bytes, which pieces read as zeroes stay.
pub(crate) fn answer_room(alloc: Global, kind: Kind, count: u64) -> Result<Answered, NoMemory>
    ensures { IfOk result (λ room. room ≡ answer_room kind count) }
{
    match kind {
        Kind::Read => Answered::zeroes(alloc, count),
        Kind::Write | Kind::Trim | Kind::Flush => Ok(Answered::none(alloc)),
    }
}

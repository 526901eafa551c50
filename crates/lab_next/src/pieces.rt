ghost use Rattle.std.specs.Prelude.{◌≡◌, ◌+◌, ◌^◌, ◌<◌, IfOk, IsTrue};
ghost use Rattle.lab_next.specs.Own.{is_made_for, is_piece, same_piece, unmade};

use crate::bios::bio_of;
use lab_bios::Parent;
use lab_model::Piece;
use lab_sector::NoMemory;
use lab_state::State;
use lab_target::Target;
use std::alloc::Global;

/// Those of these pieces of the bio of this number for which no bio was made, where the next of the bios made for one
/// has this place.
pub(crate) fn unmade<T: Target>(
    alloc: Global,
    state: &State<T>,
    made: u64,
    number: u64,
    pieces: &[Piece],
) -> Result<Vec<Piece>, NoMemory>
    ensures { IfOk result (λ out. out.items ≡ unmade state.now number made pieces.now) }
{
    let mut out = Vec::new(alloc);
    let mut place = made;
    for piece in pieces {
        if is_made_for(state, number, *piece, place) {
            place += 1;
        } else {
            out.push(*piece)?;
        }
    }
    Ok(out)
}

/// Whether the bio at this place, counted from 0, was made for this piece of the bio of this number.
fn is_made_for<T: Target>(state: &State<T>, number: u64, piece: Piece, place: u64) -> bool
    ensures made { result ≡ is_made_for state.now number piece place }
    ensures room { IsTrue result → place + 1 < 2 ^ 64 }
{
    if place >= state.traffic.count() {
        return false;
    }
    match bio_of(state, place + 1) {
        Some(bio) => is_piece(number, piece, bio.parent),
        None => false,
    }
}

/// Whether this parent is the bio of this number, for this piece.
fn is_piece(number: u64, piece: Piece, parent: Parent) -> bool
    ensures { result ≡ is_piece number piece parent }
{
    match parent {
        Parent::FromLog(_, _, _) => false,
        Parent::FromBio(above, other) => above == number && same_piece(piece, other),
    }
}

/// Whether two pieces are equal.
fn same_piece(piece: Piece, other: Piece) -> bool
    ensures { result ≡ same_piece piece other }
{
    piece.line == other.line
        && piece.span.first == other.span.first
        && piece.span.len == other.span.len
}

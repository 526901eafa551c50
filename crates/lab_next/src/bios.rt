ghost use Rattle.std.specs.Prelude.{◌≡◌, option_copied};
ghost use Rattle.lab_model.specs.State.{bio_of};
ghost use Rattle.lab_next.specs.Bios.{answer_marks, first_sector_of, place_in, sectors_in};

use lab_bios::Bio;
use lab_model::Piece;
use lab_sector::Kind;
use lab_state::State;
use lab_target::{Marks, Target};

/// The living bio of this number.
pub fn bio_of<T: Target>(state: &State<T>, number: u64) -> Option<&Bio>
    ensures bio { option_copied result ≡ bio_of state.now number }
{
    state.traffic.get(number)
}

/// The number of the bio's sectors, none where it doesn't live.
pub fn sectors_in(bio: Option<&Bio>) -> u64
    ensures sectors { result ≡ sectors_in (option_copied bio.entry) }
{
    match bio {
        Some(bio) => bio.span.len,
        None => 0,
    }
}

/// How many sectors behind the first one of this bio its piece begins.
pub fn place_in(piece: Piece, bio: Option<&Bio>) -> u64
    ensures place { result ≡ place_in piece (option_copied bio.entry) }
{
    piece.span.first.saturating_sub(first_sector_of(bio))
}

/// The first sector of a bio.
fn first_sector_of(bio: Option<&Bio>) -> u64
    ensures { result ≡ first_sector_of (option_copied bio.entry) }
{
    match bio {
        Some(bio) => bio.span.first,
        None => 0,
    }
}

/// The bytes that a bio's answer changes, counted from its first: a read's marks.
pub fn answer_marks(bio: &Bio) -> Marks
    ensures marks { result ≡ answer_marks bio.now }
{
    match bio.kind {
        Kind::Read => bio.marks(),
        Kind::Write | Kind::Trim | Kind::Flush => Marks::NONE,
    }
}

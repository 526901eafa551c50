ghost use Rattle.std.specs.Prelude.{◌≡◌, IfSome, length, option_map};
ghost use Rattle.lab_model.specs.Answers.{recorded, HasPlaceIn};
ghost use Rattle.lab_model.specs.Bios.{Bio as Request};
ghost use Rattle.lab_model.specs.Lists.{change_numbered, numbered};
ghost use Rattle.lab_model.specs.Sectors.{Sectors as Bytes, marked};
ghost use Rattle.lab_bios.specs.Recording.{told};
ghost use Rattle.std.specs.Option.{option_flatten};

use crate::bio::{Bio, Stage};
use crate::bios::Bios;
use crate::sectors::Sectors;
use lab_model::Piece;

impl Bios {
    /// The living bio of this number, if there is one and it is in flight, records of its piece that it failed, or the
    /// sectors that it gave, in which the child's marks are made already.
    #[inline(always)]
    pub fn record(&mut self, number: u64, piece: Piece, failed: bool, sectors: Sectors)
        requires { IfSome (option_flatten (numbered self.old.items number))
            (λ parent. HasPlaceIn piece (length sectors.items) parent parent.stage) }
        ensures items { (child : Request) → (given : Bytes)
            → sectors.items ≡ marked child.marks given → self.new.items
            ≡ change_numbered self.old.items number
            (option_map (recorded child piece (told failed given))) }
        ensures room { self.new.room ≡ self.old.room }
    {
        // A piece that gave nothing leaves its parent as it is.
        if !failed && sectors.is_empty() {
            return;
        }
        if self.living.get(number).is_some() {
            let bio = &mut self.living.get_mut(number).bio;
            record_piece(bio, piece, failed, sectors);
        }
    }
}

/// A bio, if it is in flight, records of its piece that it failed, or the sectors that it gave, in which the child's
/// marks are made already.
#[inline(always)]
fn record_piece(bio: &mut Bio, piece: Piece, failed: bool, sectors: Sectors)
    requires { HasPlaceIn piece (length sectors.items) bio.old bio.old.stage }
    ensures { (child : Request) → (given : Bytes) → sectors.items ≡ marked child.marks given
        → bio.new ≡ recorded child piece (told failed given) bio.old }
{
    let first = piece.span.first.saturating_sub(bio.span.first);
    if let Stage::InFlight(has_failed, answered) = &mut bio.stage {
        if failed {
            *has_failed = true;
        } else {
            answered.record(first, sectors);
        }
    }
}

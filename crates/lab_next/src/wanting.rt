ghost use Rattle.std.specs.Prelude.{◌≡◌, ◌-◌};
ghost use Rattle.lab_model.specs.ControlEffect.{is_flush};
ghost use Rattle.lab_next.specs.Own.{is_wanting, made_sectors};

use crate::answering::stage_failed;
use crate::bios::{bio_of, sectors_in};
use lab_bios::Bio;
use lab_sector::Kind;
use lab_state::State;
use lab_target::Target;

/// For how many of so many sectors none of the bios from the place `first` on, up to `count`, was made.
#[tactic(auto, using(crate::proofs::OwnSteps::one_taken))]
pub fn count_wanting<T: Target>(state: &State<T>, first: u64, count: u64, sectors: u64) -> u64
    ensures wanting { result ≡ sectors - made_sectors state.now first (count - first) }
{
    let mut wanting = sectors;
    for place in first..count {
        wanting = wanting.saturating_sub(sectors_in(bio_of(state, place + 1)));
    }
    wanting
}

/// Whether no bio was made for some sector of a bio, though none of its pieces has failed: it is no flush, and the bios
/// made after the first so many have fewer sectors.
pub(crate) fn is_wanting<T: Target>(state: &State<T>, made: u64, bio: &Bio) -> bool
    ensures { result ≡ is_wanting state.now made bio.now }
{
    let count = state.traffic.count();
    !stage_failed(&bio.stage)
        && !is_flush(bio.kind)
        && count_wanting(state, made, count, bio.span.len) > 0
}

/// Whether it is a flush.
fn is_flush(kind: Kind) -> bool
    ensures { result ≡ is_flush kind }
{
    match kind {
        Kind::Flush => true,
        Kind::Read | Kind::Write | Kind::Trim => false,
    }
}

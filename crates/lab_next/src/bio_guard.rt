ghost use Rattle.std.specs.Prelude.{◌≡◌};
ghost use Rattle.lab_model.specs.Guard.{bio_may, bio_serves};
ghost use Rattle.lab_model.specs.State.{bio_of};
ghost use Rattle.lab_model.specs.Guard.{bio_finishes, bio_maps, bio_releases};

use lab_state::{State, serves};
use lab_target::Target;

/// Whether the bio of this number may be cut: it enters a mapped device that runs.
pub(crate) fn map_may<T: Target>(state: &State<T>, number: u64) -> bool
    ensures { result
        ≡ bio_may (bio_of state.now number) (λ bio. bio_maps state.now bio.device bio.stage) }
{
    match state.traffic.get(number) {
        Some(bio) => state.traffic.maps(bio.device, &bio.stage),
        None => false,
    }
}

/// Whether a disk may serve the bio of this number: it enters one.
pub(crate) fn serve_may<T: Target>(state: &State<T>, number: u64) -> bool
    ensures { result
        ≡ bio_may (bio_of state.now number) (λ bio. bio_serves bio.device bio.stage) }
{
    match state.traffic.get(number) {
        Some(bio) => serves(bio.device, &bio.stage),
        None => false,
    }
}

/// Whether the bio of this number may go on: it is held, and due or its holder isn't running.
pub(crate) fn release_may<T: Target>(state: &State<T>, number: u64) -> bool
    ensures { result
        ≡ bio_may (bio_of state.now number) (λ bio. bio_releases state.now bio.stage) }
{
    match state.traffic.get(number) {
        Some(bio) => state.traffic.releases(&bio.stage),
        None => false,
    }
}

/// Whether the bio of this number may be answered: it is in flight and has no living child.
pub(crate) fn finish_may<T: Target>(state: &State<T>, number: u64) -> bool
    ensures { result
        ≡ bio_may (bio_of state.now number) (λ bio. bio_finishes state.now number bio.stage) }
{
    match state.traffic.get(number) {
        Some(bio) => state.traffic.finishes(number, &bio.stage),
        None => false,
    }
}

ghost use Rattle.std.specs.Prelude.{◌≡◌};
ghost use Rattle.std.specs.List.{list_any};
ghost use Rattle.lab_model.specs.Guard.{bio_may, flies_at};
ghost use Rattle.lab_model.specs.Lists.{numbered};
ghost use Rattle.lab_bios.specs.Living.{living_of};
ghost use Rattle.lab_bios.specs.Views.{stage_of};
ghost use Rattle.lab_bios.specs.Flights.{flight_of as flight_at};
ghost use Rattle.std.specs.Option.{option_flatten};

use crate::bio::{Bio, Stage};
use crate::bios::Bios;
use lab_sector::DevNo;

/// The mapped device at which a bio is in flight, if it is.
pub fn flight_of(device: DevNo, stage: &Stage) -> Option<u32>
    ensures { result ≡ flight_at device (stage_of stage.now) }
{
    match (device, stage) {
        (DevNo::Dm(number), Stage::InFlight(_, _)) => Some(number),
        _ => None,
    }
}

/// Whether a bio is in flight at the device of this number.
fn is_in_flight(device: u32, bio: &Bio) -> bool
    ensures { result ≡ flies_at device bio.now.device bio.now.stage }
{
    match (bio.device, &bio.stage) {
        (DevNo::Dm(number), Stage::InFlight(_, _)) => device == number,
        _ => false,
    }
}

/// Whether the bio of a number is in flight at the device of another.
fn flies_there(bios: &Bios, number: u64, device: u32) -> bool
    ensures { result ≡ bio_may (option_flatten (numbered bios.now.items number))
        (λ bio. flies_at device bio.device bio.stage) }
{
    match bios.get(number) {
        Some(bio) => is_in_flight(device, bio),
        None => false,
    }
}

/// Whether a bio is in flight at the device of this number.
pub fn has_flight(bios: &Bios, device: u32) -> bool
    ensures { result
        ≡ list_any (λ bio. flies_at device bio.device bio.stage) (living_of bios.now.items) }
{
    let mut from = 1;
    while let Some(number) = bios.next_living(from) {
        if flies_there(bios, number, device) {
            return true;
        }
        from = number + 1;
    }
    false
}

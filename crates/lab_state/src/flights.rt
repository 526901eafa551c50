ghost use Rattle.std.specs.Prelude.{◌≡◌, ◌<◌, IfSome, None, cond, get_or, true};
ghost use Rattle.lab_bios.specs.Flights.{flight_of as flight_at};
ghost use Rattle.lab_bios.specs.Views.{stage_of};
ghost use Rattle.lab_state.specs.Flights.{AddsFlight};

use lab_bios::{Stage, flight_of};
use lab_device::Devices;
use lab_sector::DevNo;

/// The mapped device at which a bio is in flight, if it is, and if such bios are counted.
#[inline(always)]
pub(crate) fn counted_flight(is_counted: bool, device: DevNo, stage: &Stage) -> Option<u32>
    ensures { result ≡ cond is_counted (flight_at device (stage_of stage.now)) None }
{
    if is_counted {
        flight_of(device, stage)
    } else {
        None
    }
}

/// One bio more is in flight at this device, if there is one. Such bios are counted no more where it wasn't made.
#[tactic(auto, using(crate::proofs::Flown::flown_more))]
#[inline(always)]
pub(crate) fn take_off<L>(devices: &mut Devices<L>, is_counted: &mut bool, flight: Option<u32>)
    requires { IfSome flight (λ device. get_or devices.old.flights device 0 < u64.MAX) }
    ensures slots { devices.new.slots ≡ devices.old.slots }
    ensures was { is_counted.new ≡ true → is_counted.old ≡ true }
    ensures flights { is_counted.new ≡ true
        → AddsFlight devices.old.flights devices.new.flights flight }
{
    let Some(device) = flight else {
        return;
    };
    if (device as usize) < devices.count() {
        devices.enter(device);
    } else {
        *is_counted = false;
    }
}

/// One bio less is in flight at this device, if there is one.
#[tactic(auto, using(crate::proofs::Flown::flown_less))]
#[inline(always)]
pub(crate) fn land<L>(devices: &mut Devices<L>, flight: Option<u32>)
    requires { IfSome flight (λ device. 0 < get_or devices.old.flights device 0) }
    ensures slots { devices.new.slots ≡ devices.old.slots }
    ensures flights { AddsFlight devices.new.flights devices.old.flights flight }
{
    if let Some(device) = flight {
        devices.leave(device);
    }
}

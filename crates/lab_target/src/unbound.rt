ghost use Rattle.std.specs.Prelude.{◌≡◌, List, Ok, Result, map};
ghost use Rattle.lab_sector.specs.declared.device.DevNo.{DevNo};
ghost use Rattle.lab_target.specs.declared.fault.TargetFault.{TargetFault};
ghost use Rattle.lab_target.specs.Meaning.{Draft};
ghost use Rattle.lab_target.specs.Reading.{AreFound, ReadsUnbound, devices_of};
ghost use Rattle.lab_target.specs.Types.{later_devices, only_device};

use crate::fault::TargetFault;
use crate::names::Names;
use lab_sector::DevNo;
use std::alloc::Global;

/// A target as a line's words say it, before its device words are bound to devices.
#[derive(Drop)]
pub struct Unbound<'a, T: Drop> {
    /// The device words, in order.
    pub devices: Vec<&'a [u8]>,
    /// The target, in its opening state, with some device in the place of each word.
    pub target: T,
}

impl<'a, T: Drop> Unbound<'a, T> {
    /// A target with these device words: what a reading answers that is right about both.
    pub fn new(alloc: Global, words: &[&'a [u8]], target: T) -> Result<Unbound<'a, T>, TargetFault>
        ensures { (bound : T → List DevNo → T) (wanted : Result (Draft T) TargetFault)
            → wanted ≡ Ok (record { devices = map (λ word. word.now) words.now; made = bound target })
            → ReadsUnbound bound wanted result }
    {
        match Vec::from_slice(alloc, words) {
            Ok(devices) => Ok(Unbound { devices, target }),
            Err(_) => Err(TargetFault::NoMemory),
        }
    }
}

/// The devices that `names` gives some words.
pub(crate) fn find_devices<N: Names>(
    alloc: Global,
    words: &[&[u8]],
    names: &N,
) -> Result<Vec<DevNo>, TargetFault>
    ensures { AreFound (devices_of (N.found names.now) (map (λ word. word.now) words.now)) result }
{
    let mut devices = Vec::new(alloc);
    for word in words {
        let Some(device) = names.find(word) else {
            return Err(TargetFault::Device);
        };
        if devices.push(device).is_err() {
            return Err(TargetFault::NoMemory);
        }
    }
    Ok(devices)
}

/// The first of some devices: the only one of a line with one device word.
pub fn only_device(devices: &[DevNo]) -> DevNo
    ensures { result ≡ only_device devices.now }
{
    match devices.first() {
        Some(device) => *device,
        None => DevNo::Ram(0),
    }
}

/// The devices after the first.
pub fn later_devices(devices: &[DevNo]) -> &[DevNo]
    ensures { result.now ≡ later_devices devices.now }
{
    match devices.split_first() {
        Some((_, later)) => later,
        None => devices,
    }
}

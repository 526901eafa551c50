ghost use Rattle.std.specs.Prelude.{◌≡◌, None, Some, IfOk, OnErr, OnOk, option_map};
ghost use Rattle.lab_model.specs.Slots.{HasDevice, HasMode};
ghost use Rattle.lab_model.specs.declared.micro.Mode.TheVariants.{Draining, Running, Suspended};
ghost use Rattle.lab_model.specs.ControlEffect.{named_version, swapped, with_created, with_device};
ghost use Rattle.lab_model.specs.ControlEffect.{replayed, with_inactive, with_mode};
ghost use Rattle.lab_model.specs.Lists.{change};
ghost use Rattle.lab_model.specs.Scenario.{HasNamed, HasVersion, version_of};
ghost use Rattle.lab_model.specs.Tables.{loaded};
ghost use Rattle.lab_model.specs.Steps.{AreOpening};
ghost use Rattle.lab_effect.specs.Commands.{with_devices};

use lab_sector::NoMemory;
use lab_state::State;
use lab_table::{Scenario, Table};
use lab_target::Target;
use std::alloc::Global;

/// The next device is created, with the named version live if one is named; its table is loaded now.
pub fn create<T: Target>(
    state: &mut State<T>,
    alloc: Global,
    scenario: &Scenario<T>,
    device: u32,
    version: Option<u32>,
) -> Result<(), NoMemory>
    requires opening { AreOpening T.meaning scenario.now }
    requires named { HasNamed scenario.now device version }
    ensures next { OnOk result (state.new ≡ with_created state.old
        (option_map (loaded T.meaning state.old.clock)
        (named_version scenario.now device version))) }
    ensures err { OnErr result (state.new ≡ state.old) }
{
    let Some(version) = version else {
        return state.traffic.create(None);
    };
    let table = loaded_version(alloc, scenario, device, version, state.traffic.clock())?;
    state.traffic.create(Some(table))
}

/// The device's inactive slot has a version, loaded now.
pub fn load<T: Target>(
    state: &mut State<T>,
    alloc: Global,
    scenario: &Scenario<T>,
    device: u32,
    version: u32,
) -> Result<(), NoMemory>
    requires opening { AreOpening T.meaning scenario.now }
    requires there { HasDevice state.old.devices device }
    requires version { HasVersion scenario.now device version }
    ensures next { OnOk result (state.new ≡ with_device state.old device
        (with_inactive (option_map (loaded T.meaning state.old.clock)
        (version_of scenario.now device version)))) }
    ensures err { OnErr result (state.new ≡ state.old) }
{
    let table = loaded_version(alloc, scenario, device, version, state.traffic.clock())?;
    state.traffic.load(device, table);
    Ok(())
}

/// The device's inactive slot is emptied.
pub fn clear<T: Target>(state: &mut State<T>, device: u32)
    requires { HasDevice state.old.devices device }
    ensures { state.new ≡ with_device state.old device (with_inactive None) }
{
    state.traffic.clear(device);
}

/// The device, which runs, drains.
pub fn begin<T: Target>(state: &mut State<T>, device: u32)
    requires { HasMode state.old.devices device Running }
    ensures { state.new ≡ with_device state.old device (with_mode Draining) }
{
    state.traffic.begin_suspend(device);
}

/// The device, which drains, is suspended.
pub fn drained<T: Target>(state: &mut State<T>, device: u32)
    requires { HasMode state.old.devices device Draining }
    ensures { state.new ≡ with_device state.old device (with_mode Suspended) }
{
    state.traffic.end_suspend(device);
}

/// The inactive table of the device, which is suspended, becomes live if there is one, and the
/// device runs.
pub fn swap<T: Target>(state: &mut State<T>, device: u32)
    requires { HasMode state.old.devices device Suspended }
    ensures { state.new ≡ with_device state.old device swapped }
{
    state.traffic.swap_and_run(device);
}

/// The device is gone.
pub fn remove<T: Target>(state: &mut State<T>, device: u32)
    requires { HasDevice state.old.devices device }
    ensures { state.new
        ≡ with_devices state.old (change state.old.devices device (λ entry. None)) }
{
    state.traffic.remove(device);
}

/// The logs start, each at this moment.
pub fn replay<T: Target>(state: &mut State<T>)
    ensures { state.new ≡ replayed state.old }
{
    state.logs.start(state.traffic.clock());
    state.started = true;
}

/// A version of a device, loaded at this moment.
fn loaded_version<T: Target>(
    alloc: Global,
    scenario: &Scenario<T>,
    device: u32,
    version: u32,
    now: u64,
) -> Result<Table<T>, NoMemory>
    requires opening { AreOpening T.meaning scenario.now }
    requires version { HasVersion scenario.now device version }
    ensures { IfOk result (λ table. Some table
        ≡ option_map (loaded T.meaning now) (version_of scenario.now device version)) }
{
    let mut table = version_at(scenario, device, version).fresh(alloc)?;
    table.start(now);
    Ok(table)
}

/// A version of a device, which is there.
fn version_at<T: Target>(scenario: &Scenario<T>, device: u32, version: u32) -> &Table<T>
    requires { HasVersion scenario.now device version }
    ensures { Some result.now ≡ version_of scenario.now device version }
{
    &scenario.versions[device as usize][version as usize]
}

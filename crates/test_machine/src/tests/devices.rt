use lab_device::{Devices, Mode};
use lab_sector::NoMemory;
use lab_simple::Linear;
use law_slots::calls_walk;
use std::alloc::Global;
use std::test::Fail;

/// The tables of these tests: one over a disk, one over a mapped device.
#[derive(Clone, Copy, Debug, PartialEq, Eq)]
enum Table {
    OnDisk,
    OnDevice,
}

/// The modes of a device that is suspended in two steps, and removed.
fn modes(alloc: Global) -> Result<[Option<Mode>; 3], NoMemory> {
    let mut devices: Devices<Table> = Devices::new(alloc);
    devices.create(None)?;
    devices.begin_suspend(0);
    let first = devices.mode(0);
    devices.end_suspend(0);
    let second = devices.mode(0);
    devices.remove(0);
    Ok([first, second, devices.mode(0)])
}

// A device runs, drains, is suspended, and is removed.
#[test]
fn a_device_goes_through_its_modes(rt: HostRuntime) -> Result<(), Fail> {
    let wanted = [Some(Mode::Draining), Some(Mode::Suspended), None];
    assert!(rt; modes(rt.alloc())? == wanted);
    calls_walk::<Linear>();
    Ok(())
}

/// The live tables of a device that is loaded, cleared and loaded again: once it is suspended, and once it is resumed.
fn live_tables(alloc: Global) -> Result<[Option<Table>; 2], NoMemory> {
    let mut devices = Devices::new(alloc);
    devices.create(None)?;
    devices.load(0, Table::OnDevice);
    devices.clear(0);
    devices.load(0, Table::OnDisk);
    devices.begin_suspend(0);
    devices.end_suspend(0);
    let first = devices.live(0).copied();
    devices.swap_and_run(0);
    Ok([first, devices.live(0).copied()])
}

// A device without a table is loaded, cleared, loaded again and resumed.
#[test]
fn a_cleared_slot_is_loaded_again(rt: HostRuntime) -> Result<(), Fail> {
    assert!(rt; live_tables(rt.alloc())? == [None, Some(Table::OnDisk)]);
    Ok(())
}

/// Writes a table over the live one of a device, and says whether there was one.
fn writes_over(devices: &mut Devices<Table>, device: u32, table: Table) -> bool {
    match devices.live_mut(device) {
        Some(live) => {
            *live = table;
            true
        }
        None => false,
    }
}

/// Whether the table of the first of devices can be written over, and one of no device can't.
fn lends_one(devices: &mut Devices<Table>) -> bool {
    !writes_over(devices, 1, Table::OnDisk)
        && writes_over(devices, 0, Table::OnDisk)
        && devices.live(0).copied() == Some(Table::OnDisk)
}

/// Whether the live table of a device is lent.
fn is_lent(alloc: Global) -> Result<bool, NoMemory> {
    let mut devices = Devices::new(alloc);
    devices.create(Some(Table::OnDevice))?;
    Ok(lends_one(&mut devices))
}

// A live table is written over; where none is live, none is lent.
#[test]
fn a_live_table_is_lent(rt: HostRuntime) -> Result<(), Fail> {
    assert!(rt; is_lent(rt.alloc())?);
    Ok(())
}

/// The bios in two devices once two have entered the second one, and one of them has left it.
fn in_flight(alloc: Global) -> Result<[Option<u64>; 3], NoMemory> {
    let mut devices = Devices::new(alloc);
    devices.create(Some(Table::OnDisk))?;
    devices.create(Some(Table::OnDevice))?;
    devices.enter(1);
    devices.enter(1);
    devices.leave(1);
    Ok([
        devices.in_flight(0),
        devices.in_flight(1),
        devices.in_flight(2),
    ])
}

// Two bios enter device 1, and one of them is answered.
#[test]
fn each_device_counts_its_own_bios(rt: HostRuntime) -> Result<(), Fail> {
    assert!(rt; in_flight(rt.alloc())? == [Some(0), Some(1), None]);
    Ok(())
}

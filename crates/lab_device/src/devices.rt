ghost use Rattle.std.specs.Prelude.{◌≡◌, ◌+◌, ◌-◌, ◌<◌, ◌++◌, ◌∷◌, [], OnErr, OnOk, None, Some, option_map};
ghost use Rattle.std.specs.Prelude.{length, option_copied, slice_get, slice_index};
ghost use Rattle.std.specs.Borrow.{sem};
ghost use Rattle.std.specs.Option.{option_copied_mut};
ghost use Rattle.lab_model.specs.Lists.{change};
ghost use Rattle.lab_model.specs.Slots.{HasDevice, HasMode, live_at, mode_at, slot_at};

use crate::slot::{Slot, live_mut, there_mut};
use lab_model::Mode;
use lab_sector::NoMemory;
use std::alloc::Global;
use std::marker::Model;

/// The mapped devices of a run, by the numbers that the creates give them, from 0 on. A number is
/// never used again: where a device is removed, none stands any more.
///
/// A slot for tables holds an `L`.
#[derive(Drop)]
pub struct Devices<L> {
    /// One for each create; none where the device is removed.
    slots: Vec<Option<Slot<L>>>,
    /// How many bios are in flight at each.
    flights: Vec<u64>,
}

impl<L> Model for Devices<L> {
    ghost use Rattle.std.specs.Prelude.{◌≡◌, length};
    ghost use Rattle.lab_device.specs.Devices.{DeviceRow};

    ghost Value = { DeviceRow L };

    ghost view = { λ d. record { slots = d.slots.items; flights = d.flights.items } };

    ghost invariant = { λ d. length d.flights.items ≡ length d.slots.items };
}

impl<L: Drop> Devices<L> {
    ghost use Rattle.lab_model.specs.ControlEffect.{created, swapped, with_inactive, with_mode};

    /// No devices.
    pub fn new(alloc: Global) -> Devices<L>
        ensures slots { result.slots ≡ [] }
        ensures flights { result.flights ≡ [] }
    {
        Devices {
            slots: Vec::new(alloc),
            flights: Vec::new(alloc),
        }
    }

    /// The next number gets a device that runs, with this live table or none.
    ///
    /// Where memory runs out the table is dropped.
    pub fn create(&mut self, live: Option<L>) -> Result<(), NoMemory>
        ensures slots { OnOk result
            (self.new.slots ≡ self.old.slots ++ Some (created live) ∷ []) }
        ensures flights { OnOk result (self.new.flights ≡ self.old.flights ++ 0 ∷ []) }
        ensures err { OnErr result (self.new ≡ self.old) }
    {
        self.slots.reserve(1)?;
        self.flights.push(0)?;
        let Ok(()) = self.slots.push(Some(Slot::created(live))) else {
            unreachable!();
        };
        Ok(())
    }

    /// The device's inactive slot has this table, in place of what was there.
    pub fn load(&mut self, device: u32, table: L)
        requires { HasDevice self.old.slots device }
        ensures slots { self.new.slots
            ≡ change self.old.slots device (option_map (with_inactive (Some table))) }
        ensures flights { self.new.flights ≡ self.old.flights }
    {
        self.slot_mut(device).set_inactive(Some(table));
    }

    /// The device's inactive slot is empty.
    pub fn clear(&mut self, device: u32)
        requires { HasDevice self.old.slots device }
        ensures slots { self.new.slots
            ≡ change self.old.slots device (option_map (with_inactive None)) }
        ensures flights { self.new.flights ≡ self.old.flights }
    {
        self.slot_mut(device).set_inactive(None);
    }

    /// A device that runs drains.
    pub fn begin_suspend(&mut self, device: u32)
        requires { HasMode self.old.slots device Mode.Running }
        ensures slots { self.new.slots
            ≡ change self.old.slots device (option_map (with_mode Mode.Draining)) }
        ensures flights { self.new.flights ≡ self.old.flights }
    {
        self.slot_mut(device).set_mode(Mode::Draining);
    }

    /// A device that drains is suspended.
    pub fn end_suspend(&mut self, device: u32)
        requires { HasMode self.old.slots device Mode.Draining }
        ensures slots { self.new.slots
            ≡ change self.old.slots device (option_map (with_mode Mode.Suspended)) }
        ensures flights { self.new.flights ≡ self.old.flights }
    {
        self.slot_mut(device).set_mode(Mode::Suspended);
    }

    /// A suspended device runs, with its inactive table live if it has one.
    pub fn swap_and_run(&mut self, device: u32)
        requires { HasMode self.old.slots device Mode.Suspended }
        ensures slots { self.new.slots ≡ change self.old.slots device (option_map swapped) }
        ensures flights { self.new.flights ≡ self.old.flights }
    {
        self.slot_mut(device).swap();
    }

    /// The device is gone, with its tables.
    pub fn remove(&mut self, device: u32)
        requires { HasDevice self.old.slots device }
        ensures slots { self.new.slots ≡ change self.old.slots device (λ _. None) }
        ensures flights { self.new.flights ≡ self.old.flights }
    {
        self.slots[device as usize] = None;
    }
}

impl<L> Devices<L> {
    ghost use Rattle.lab_device.specs.DevicesLends.{LendsLive, LendsSlot};

    /// The device of this number, which is there, for writing.
    fn slot_mut(&mut self, device: u32) -> &mut Slot<L>
        requires { HasDevice self.old.slots device }
        ensures* writes_back { sem 𝓛 (LendsSlot L.row self.entry device result) }
        ensures slot { slot_at self.old.slots device ≡ Some result.now }
    {
        there_mut(&mut self.slots[device as usize])
    }

    /// The device's mode, if the device is there.
    pub fn mode(&self, device: u32) -> Option<Mode>
        ensures { result ≡ mode_at self.now.slots device }
    {
        let slot = self.slots.get(device as usize)?.as_ref()?;
        Some(slot.mode())
    }

    /// The device's live table, if the device is there and has one.
    pub fn live(&self, device: u32) -> Option<&L>
        ensures { option_copied result ≡ live_at self.now.slots device }
    {
        let slot = self.slots.get(device as usize)?.as_ref()?;
        slot.live()
    }

    /// The device's live table for writing, if the device is there and has one.
    pub fn live_mut(&mut self, device: u32) -> Option<&mut L>
        ensures* writes_back { sem 𝓛 (LendsLive L.row self.entry device result) }
        ensures table { option_copied_mut result ≡ live_at self.old.slots device }
    {
        let entry = self.slots.get_mut(device as usize)?;
        live_mut(entry)
    }

    /// How many numbers were given to devices: the next device gets this one.
    pub fn count(&self) -> usize
        ensures slots { result ≡ length self.now.slots }
        ensures flights { result ≡ length self.now.flights }
    {
        self.slots.len()
    }

    /// How many bios are in flight at the device of this number, if it was made; it may be removed.
    pub fn in_flight(&self, device: u32) -> Option<u64>
        ensures { result ≡ slice_get self.now.flights device }
    {
        self.flights.get(device as usize).copied()
    }

    /// One bio more is in flight at the device of this number, which was made.
    pub fn enter(&mut self, device: u32)
        requires made { device < length self.old.flights }
        requires fits { slice_index self.old.flights device < u64.MAX }
        ensures slots { self.new.slots ≡ self.old.slots }
        ensures flights { self.new.flights ≡ change self.old.flights device (λ count. count + 1) }
    {
        self.flights[device as usize] += 1;
    }

    /// One bio less is in flight at the device.
    pub fn leave(&mut self, device: u32)
        requires { 0 < slice_index self.old.flights device }
        ensures slots { self.new.slots ≡ self.old.slots }
        ensures flights { self.new.flights ≡ change self.old.flights device (λ count. count - 1) }
    {
        self.flights[device as usize] -= 1;
    }
}

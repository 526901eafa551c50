ghost use Rattle.std.specs.Prelude.{◌≡◌, ◌≤◌, ◌++◌, ◌∷◌, [], OnErr, OnOk, None, Some, option_map};
ghost use Rattle.std.specs.Borrow.{sem};
ghost use Rattle.std.specs.Option.{option_copied_mut};
ghost use Rattle.lab_model.specs.Slots.{HasDevice, HasMode, live_at};
ghost use Rattle.lab_model.specs.declared.micro.Mode.TheVariants.{Draining, Running, Suspended};
ghost use Rattle.lab_model.specs.ControlEffect.{created, swapped, with_inactive, with_mode};
ghost use Rattle.lab_model.specs.Lists.{change};

use crate::device_marks::mark_dependents;
use crate::index::come_due;
use crate::traffic::Traffic;
use lab_sector::NoMemory;
use lab_table::Table;
use lab_target::Target;

// Marks anew the bios that depend on the mode of this device.
macro_rules! mark_anew {
    ($traffic:expr, $device:expr) => {
        mark_dependents(
            $traffic.clock,
            &$traffic.bios,
            &$traffic.devices,
            &mut $traffic.ready,
            &mut $traffic.groups,
            &mut $traffic.dependents,
            $device,
        )
    };
}

impl<T: Target> Traffic<T> {
    ghost use Rattle.lab_state.specs.TrafficLends.{LendsLive};

    /// The clock goes on to a moment.
    pub fn clock_to(&mut self, moment: u64)
        requires { self.old.clock ≤ moment }
        ensures { self.new ≡ record self.old { clock = moment } }
    {
        let before = self.clock;
        self.clock = moment;
        come_due(
            before,
            moment,
            &self.bios,
            &self.devices,
            &mut self.ready,
            &mut self.groups,
            &mut self.waiting,
        );
    }

    /// The next number gets a device that runs, with this live table or none.
    ///
    /// Where memory runs out the table is dropped. A number past 32 bits is refused as memory is.
    pub fn create(&mut self, live: Option<Table<T>>) -> Result<(), NoMemory>
        ensures ok { OnOk result (self.new
            ≡ record self.old { devices = self.old.devices ++ Some (created live) ∷ [] }) }
        ensures err { OnErr result (self.new ≡ self.old) }
    {
        let Ok(device) = u32::try_from(self.devices.count()) else {
            return Err(NoMemory);
        };
        self.devices.create(live)?;
        mark_anew!(self, device);
        Ok(())
    }

    /// The device's inactive slot has this table, in place of what was there.
    pub fn load(&mut self, device: u32, table: Table<T>)
        requires { HasDevice self.old.devices device }
        ensures { self.new ≡ record self.old {
          devices = change self.old.devices device (option_map (with_inactive (Some table)));
        } }
    {
        self.devices.load(device, table);
    }

    /// The device's inactive slot is empty.
    pub fn clear(&mut self, device: u32)
        requires { HasDevice self.old.devices device }
        ensures { self.new ≡ record self.old {
          devices = change self.old.devices device (option_map (with_inactive None));
        } }
    {
        self.devices.clear(device);
    }

    /// A device that runs drains.
    pub fn begin_suspend(&mut self, device: u32)
        requires { HasMode self.old.devices device Running }
        ensures { self.new ≡ record self.old {
          devices = change self.old.devices device (option_map (with_mode Draining));
        } }
    {
        self.devices.begin_suspend(device);
        mark_anew!(self, device);
    }

    /// A device that drains is suspended.
    pub fn end_suspend(&mut self, device: u32)
        requires { HasMode self.old.devices device Draining }
        ensures { self.new ≡ record self.old {
          devices = change self.old.devices device (option_map (with_mode Suspended));
        } }
    {
        self.devices.end_suspend(device);
    }

    /// A suspended device runs, with its inactive table live if it has one.
    pub fn swap_and_run(&mut self, device: u32)
        requires { HasMode self.old.devices device Suspended }
        ensures { self.new
            ≡ record self.old { devices = change self.old.devices device (option_map swapped) } }
    {
        self.devices.swap_and_run(device);
        mark_anew!(self, device);
    }

    /// The device is gone, with its tables.
    pub fn remove(&mut self, device: u32)
        requires { HasDevice self.old.devices device }
        ensures { self.new
            ≡ record self.old { devices = change self.old.devices device (λ entry. None) } }
    {
        self.devices.remove(device);
        mark_anew!(self, device);
    }

    /// The device's live table for writing, if the device is there and has one.
    pub fn live_mut(&mut self, device: u32) -> Option<&mut Table<T>>
        ensures* writes_back { sem 𝓛 (LendsLive T.row T.Target self.entry device result) }
        ensures table { option_copied_mut result ≡ live_at self.old.devices device }
    {
        self.devices.live_mut(device)
    }
}

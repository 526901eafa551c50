ghost use Rattle.std.specs.Prelude.{◌≡◌, None, Some, OnOk, if◌then◌else◌};
ghost use Rattle.lab_model.specs.Files.{same_device};
ghost use Rattle.lab_sector.specs.declared.device.DevNo.{DevNo};
ghost use Rattle.lab_sweep.specs.NextSyncs.{next_sync};

use lab_findings::Synced;
use lab_next::Origin;
use lab_sector::{DevNo, NoMemory};
use std::alloc::Global;
use std::collections::HashMap;

/// The next sync of each device, while what was noted is gone through from its end.
#[derive(Drop)]
pub(crate) struct NextSyncs {
    /// Those of the memory disks.
    disks: HashMap<u32, Origin>,
    /// Those of the mapped devices.
    mapped: HashMap<u32, Origin>,
}

impl NextSyncs {
    /// Behind the end no device is synced.
    pub(crate) fn new(alloc: Global) -> NextSyncs
        ensures { (device : DevNo) → next_sync result device ≡ None }
    {
        NextSyncs {
            disks: HashMap::new(alloc),
            mapped: HashMap::new(alloc),
        }
    }

    /// The next sync of a device.
    pub(crate) fn get(&self, device: DevNo) -> Option<Origin>
        ensures { result ≡ next_sync self.now device }
    {
        match device {
            DevNo::Ram(number) => self.disks.get(&number).copied(),
            DevNo::Dm(number) => self.mapped.get(&number).copied(),
        }
    }

    /// A sync stands in front of those that were noted so far.
    pub(crate) fn put(&mut self, synced: Synced) -> Result<(), NoMemory>
        ensures { OnOk result ((device : DevNo) → next_sync self.new device
            ≡ (if same_device device synced.device then Some synced.origin
            else next_sync self.old device)) }
    {
        match synced.device {
            DevNo::Ram(number) => self.disks.insert(number, synced.origin)?,
            DevNo::Dm(number) => self.mapped.insert(number, synced.origin)?,
        };
        Ok(())
    }
}

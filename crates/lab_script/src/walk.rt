ghost use Rattle.std.specs.Prelude.{◌≡◌, ◌+◌, None, IfOk, length, map, option_copied, slice_get, unwrap_or, ℕ};
ghost use Rattle.std.specs.Option.{option_map};
ghost use Rattle.lab_model.specs.Lists.{change};
ghost use Rattle.lab_model.specs.Slots.{slot_at};
ghost use Rattle.lab_script.specs.Image.{known, plain, walk_known};
ghost use Rattle.lab_script.specs.Slots.{slot_after};
ghost use Rattle.lab_script.specs.Task.{task_of};
ghost use Rattle.lab_script.specs.Task as task;
ghost use Rattle.lab_script.specs.Walk as walk;

use super::command::Command;
use super::known::KnownDevice;
use super::slot::DeviceVersions;
use indexmap::IndexMap;
use lab_sector::NoMemory;
use std::alloc::Global;

/// What a script has named, made and loaded so far.
#[derive(Drop)]
pub struct Walk<'a> {
    /// The names in use, each with its device's number.
    pub names: IndexMap<&'a [u8], u32>,
    /// By number, the devices; none where one is removed.
    pub slots: Vec<Option<DeviceVersions>>,
    /// By number, how many tables were ever loaded into each.
    pub loads: Vec<u32>,
}

impl<'a> Walk<'a> {
    /// No device so far.
    pub fn new(alloc: Global) -> Walk<'a>
        ensures { walk_known result ≡ walk.start }
    {
        Walk {
            names: IndexMap::new(alloc),
            slots: Vec::new(alloc),
            loads: Vec::new(alloc),
        }
    }

    /// The number of the device of a name.
    pub fn device_named(&self, name: &[u8]) -> Option<u32>
        ensures { result ≡ (walk_known self.now).device_of name.now }
    {
        self.names.get(name).copied()
    }

    /// The device of a number, if it stands.
    pub fn slot(&self, number: usize) -> Option<DeviceVersions>
        ensures { option_map plain result ≡ slot_at (walk_known self.now).devices number }
    {
        *self.slots.get(number)?
    }

    /// The device that a command is for, if its name stands for one.
    pub fn device_for(&self, command: Command<'_>) -> Option<KnownDevice>
        ensures { option_map known result
            ≡ walk.device_for (walk_known self.now) (task_of command.entry) }
    {
        self.known(self.number_for(command)?)
    }

    /// What is known of the device of a number, if it stands.
    fn known(&self, number: u32) -> Option<KnownDevice>
        ensures { option_map known result ≡ walk.known_at (walk_known self.now) number }
    {
        Some(KnownDevice {
            number,
            versions: self.count(number as usize),
            slot: self.slot(number as usize)?,
        })
    }

    /// How many tables were loaded into a device.
    fn count(&self, number: usize) -> u32
        ensures { result ≡ unwrap_or (slice_get (walk_known self.now).loads number) 0 }
    {
        self.loads.get(number).copied().unwrap_or(0)
    }

    /// How many devices were made. More than there are numbers would be more than memory has room for.
    pub fn made(&self) -> Result<u32, NoMemory>
        ensures { IfOk result (λ made. made ≡ length (walk_known self.now).devices) }
    {
        match u32::try_from(self.slots.len()) {
            Ok(made) => Ok(made),
            Err(_) => Err(NoMemory),
        }
    }

    /// Goes on behind a command. Where memory runs out the walk is of no use any more.
    pub fn obey(&mut self, command: Command<'a>) -> Result<(), NoMemory>
        ensures { IfOk result (λ done. walk_known self.new
            ≡ walk.after (walk_known self.old) (task_of command.entry)
            (walk.version_for (walk_known self.old) (task_of command.entry))) }
    {
        match command {
            Command::Create(name, table) => self.create(name, table)?,
            Command::Load(name, table) => self.load(name, table)?,
            Command::Remove(name) => self.remove(name),
            _ => self.change(command),
        }
        Ok(())
    }

    /// The next device runs under a name, with a first table live if one is named.
    fn create(&mut self, name: &'a [u8], table: Option<&[u8]>) -> Result<(), NoMemory>
        ensures { IfOk result (λ done. walk_known self.new
            ≡ walk.after (walk_known self.old) (task.create name.now (option_copied table.entry))
            (option_map (λ _. 0) (option_copied table.entry))) }
    {
        let number = self.made()?;
        self.names.insert(name, number)?;
        self.slots
            .push(Some(DeviceVersions::created(first_version(table))))?;
        self.loads.push(first_loads(table))?;
        Ok(())
    }

    /// The inactive slot of a name's device gets its next table.
    fn load(&mut self, name: &[u8], table: &[u8]) -> Result<(), NoMemory>
        ensures { IfOk result (λ done. walk_known self.new
            ≡ walk.after (walk_known self.old) (task.on name.now (task.load table.now))
            (walk.version_for (walk_known self.old) (task.on name.now (task.load table.now)))) }
    {
        if let Some(device) = self.device_named(name) {
            let version = self.count(device as usize) as usize;
            let command = Command::Load(name, table);
            change_slot(&mut self.slots, device as usize, command, Some(version));
            count_load(&mut self.loads, device as usize)?;
        }
        Ok(())
    }

    /// Changes the slots of the device that a command is for, if its name stands for one.
    fn change(&mut self, command: Command<'_>)
        ensures { walk_known self.new ≡ record (walk_known self.old) {
          devices = walk.change_found (walk_known self.old).devices
              (walk.found_by (walk_known self.old).device_of (task_of command.entry))
              (option_map (slot_after (task_of command.entry) None));
        } }
    {
        if let Some(device) = self.number_for(command) {
            change_slot(&mut self.slots, device as usize, command, None);
        }
    }

    /// The number of the device that a command is for, if its name stands for one.
    pub fn number_for(&self, command: Command<'_>) -> Option<u32>
        ensures { result ≡ walk.found_by (walk_known self.now).device_of (task_of command.entry) }
    {
        self.device_named(command.device()?)
    }

    /// The name is free, and its device is gone.
    fn remove(&mut self, name: &[u8])
        ensures { walk_known self.new
            ≡ walk.after (walk_known self.old) (task.on name.now task.remove) None }
    {
        if let Some(device) = self.names.swap_remove(name) {
            empty_slot(&mut self.slots, device as usize);
        }
    }
}

/// The version that a new device has live, if a table is named.
fn first_version(table: Option<&[u8]>) -> Option<usize>
    ensures { result ≡ option_map (λ _. 0) (option_copied table.entry) }
{
    match table {
        Some(_) => Some(0),
        None => None,
    }
}

/// How many tables were loaded into a new device, if one is named.
fn first_loads(table: Option<&[u8]>) -> u32
    ensures { result
        ≡ walk.counted {L = ℕ} 0 (option_map (λ _. 0) (option_copied table.entry)) }
{
    match table {
        Some(_) => 1,
        None => 0,
    }
}

/// Changes a device's slots as a command on it does, with the version that it loads, if the device stands.
#[tactic(auto, using(crate::proofs::Rulesets::change_slot, crate::proofs::WalkLemmas::past_end))]
fn change_slot(
    slots: &mut Vec<Option<DeviceVersions>>,
    device: usize,
    command: Command<'_>,
    version: Option<usize>,
)
    ensures { map (option_map plain) slots.new.items
        ≡ change (map (option_map plain) slots.old.items) device
        (option_map (slot_after (task_of command.entry) version)) }
{
    if let Some(entry) = slots.get_mut(device) {
        change_entry(entry, command, version);
    }
}

/// Changes an entry's slots as a command does, with the version that it loads, if a device stands there.
fn change_entry(entry: &mut Option<DeviceVersions>, command: Command<'_>, version: Option<usize>)
    ensures { option_map plain entry.new
        ≡ option_map (slot_after (task_of command.entry) version) (option_map plain entry.old) }
{
    if let Some(slot) = entry {
        *slot = slot.after(command, version);
    }
}

/// Empties the place of a device.
#[tactic(auto, using(crate::proofs::Rulesets::change_slot, crate::proofs::WalkLemmas::past_end))]
fn empty_slot(slots: &mut Vec<Option<DeviceVersions>>, device: usize)
    ensures { map (option_map plain) slots.new.items
        ≡ change (map (option_map plain) slots.old.items) device (λ entry. None) }
{
    if let Some(entry) = slots.get_mut(device) {
        *entry = None;
    }
}

/// A table more is loaded into a device. More than there are numbers would be more than memory has room for.
#[tactic(auto, using(crate::proofs::WalkLemmas::past_end))]
fn count_load(loads: &mut Vec<u32>, device: usize) -> Result<(), NoMemory>
    ensures { IfOk result (λ done. loads.new.items
        ≡ change loads.old.items device (λ count. count + 1)) }
{
    if let Some(count) = loads.get_mut(device) {
        *count = count.checked_add(1).ok_or(NoMemory)?;
    }
    Ok(())
}

ghost use Rattle.std.specs.Prelude.{◌≡◌, OnErr, OnOk, Some, filter, not};
ghost use Rattle.lab_model.specs.Files.{allows, files_after, has_device, no_files, same_device};

use lab_model::Entry;
use lab_sector::{DevNo, NoMemory};
use std::alloc::Global;
use std::marker::Model;

/// The files of a log, each a device: those that were added, and those that are open.
#[derive(Debug, Drop)]
pub struct Files {
    added: Vec<DevNo>,
    opened: Vec<DevNo>,
}

impl Model for Files {
    ghost use Rattle.lab_model.specs.Files.{Files as Seen};

    ghost Value = { Seen };

    ghost view = { λ files. record { added = files.added.items; opened = files.opened.items } };
}

impl Files {
    /// None was added.
    pub fn new(alloc: Global) -> Files
        ensures { result ≡ no_files }
    {
        Files {
            added: Vec::new(alloc),
            opened: Vec::new(alloc),
        }
    }

    /// Whether a line on a device may come.
    pub fn allow(&self, device: DevNo, entry: Entry) -> bool
        ensures { result ≡ allows self.now device entry }
    {
        match entry {
            Entry::Open => has(&self.added, device) && !has(&self.opened, device),
            Entry::Close | Entry::Operate(..) => has(&self.opened, device),
            Entry::Add | Entry::Wait(_) => true,
        }
    }

    /// The files as they are after a line; one without a device changes none.
    pub fn follow(&mut self, entry: Entry, device: Option<DevNo>) -> Result<(), NoMemory>
        ensures next { OnOk result (self.new ≡ files_after self.old entry device) }
        ensures err { OnErr result (self.new ≡ self.old) }
    {
        match (entry, device) {
            (Entry::Add, Some(device)) => self.add(device)?,
            (Entry::Open, Some(device)) => self.opened.push(device)?,
            (Entry::Close, Some(device)) => self.close(device),
            _ => (),
        }
        Ok(())
    }

    /// Adds a file; one that was added already stays as it is.
    fn add(&mut self, device: DevNo) -> Result<(), NoMemory>
        ensures next { OnOk result (self.new ≡ files_after self.old Entry.Add (Some device)) }
        ensures err { OnErr result (self.new ≡ self.old) }
    {
        if !has(&self.added, device) {
            self.added.push(device)?;
        }
        Ok(())
    }

    /// Closes a file.
    fn close(&mut self, device: DevNo)
        ensures { self.new ≡ record self.old {
          opened = filter (λ other. not (same_device device other)) self.old.opened;
        } }
    {
        leave_out(&mut self.opened, device);
    }
}

/// Leaves a device out of some.
fn leave_out(devices: &mut Vec<DevNo>, device: DevNo)
    ensures { devices.new.items
        ≡ filter (λ other. not (same_device device other)) devices.old.items }
{
    devices.retain(|other| !is_same(device, *other));
}

/// Whether a device is among some.
fn has(devices: &[DevNo], device: DevNo) -> bool
    ensures { result ≡ has_device device devices.now }
{
    devices.iter().any(|other| is_same(device, *other))
}

/// Whether two device numbers are one.
fn is_same(device: DevNo, other: DevNo) -> bool
    ensures { result ≡ same_device device other }
{
    match (device, other) {
        (DevNo::Ram(a), DevNo::Ram(b)) | (DevNo::Dm(a), DevNo::Dm(b)) => a == b,
        _ => false,
    }
}

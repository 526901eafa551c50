ghost use Rattle.std.specs.Prelude.{◌≡◌, ◌==◌, None, is_some};
ghost use Rattle.std.specs.List.{list_any};
ghost use Rattle.lab_model.specs.Slots.{slot_at};
ghost use Rattle.lab_script.specs.Image.{walk_known};

use crate::links::Links;
use lab_model::Phase;
use lab_refusal::Refusal;
use lab_script::Walk;
use lab_sector::DevNo;
use lab_table::{DiskPlan, LogPlan, Table};
use lab_target::{Names, Target, mapped_number, mapped_path, name_path, ram_number, ram_path};
use std::alloc::Global;

/// What stands at one moment of the script.
#[derive(Drop)]
pub struct Standing<'a, T: Target> {
    /// The disks that are declared, in order.
    pub disks: Vec<DiskPlan>,
    /// The names in use, and the devices by number with their tables' numbers.
    pub walk: Walk<'a>,
    /// By device number, all tables that were loaded so far.
    pub versions: Vec<Vec<Table<T>>>,
    pub phase: Phase,
    /// The logs as the replay binds them; none before.
    pub logs: Vec<LogPlan>,
    /// The first fault of a log's line, as the replay finds it.
    pub fault: Option<Refusal<'a>>,
    /// Which device refers to which by the tables that were loaded so far.
    pub ever: Links,
}

impl<'a, T: Target> Standing<'a, T> {
    ghost use Rattle.lab_rulebook.specs.BoundWords.{path_device, word_device};
    ghost use Rattle.lab_rulebook.specs.Parts as words;
    ghost use Rattle.lab_rulebook.specs.Standing.{device_meant, nothing};
    ghost use Rattle.lab_standing.specs.Sound.{IsSound};
    ghost use Rattle.lab_standing.specs.Stands.{standing_of};

    /// Nothing stands.
    #[tactic(auto, unfolding(crate::specs::Stands::stood))]
    pub fn new(alloc: Global) -> Standing<'a, T>
        ensures stands { standing_of T.meaning result ≡ nothing }
        ensures sound { IsSound T.meaning result }
        ensures fault { result.fault ≡ None }
    {
        Standing {
            disks: Vec::new(alloc),
            walk: Walk::new(alloc),
            versions: Vec::new(alloc),
            phase: Phase::Before,
            logs: Vec::new(alloc),
            fault: None,
            ever: Links::new(alloc),
        }
    }

    /// The number of the device of a name.
    pub fn device_named(&self, name: &[u8]) -> Option<u32>
        ensures { result ≡ (standing_of T.meaning self.now).device_of name.now }
    {
        self.walk.device_named(name)
    }

    /// The device that a log's path names.
    pub fn path(&self, word: &[u8]) -> Option<DevNo>
        ensures { result ≡ path_device (standing_of T.meaning self.now) word.now }
    {
        if let Some(number) = ram_path(word) {
            return self.ram(number);
        }
        if let Some(number) = mapped_path(word) {
            return self.mapped(number);
        }
        self.named(name_path(word)?)
    }

    /// The device that a table's word names.
    pub fn word(&self, word: &[u8]) -> Option<DevNo>
        ensures { result ≡ word_device (standing_of T.meaning self.now) word.now }
    {
        if let Some(number) = ram_number(word) {
            return self.ram(number);
        }
        if let Some(number) = mapped_number(word) {
            return self.mapped(number);
        }
        self.path(word)
    }

    /// The disk of this number, if it is declared.
    fn ram(&self, number: u32) -> Option<DevNo>
        ensures { result ≡ device_meant (standing_of T.meaning self.now) (words.disk number) }
    {
        if self.has_disk(number) {
            Some(DevNo::Ram(number))
        } else {
            None
        }
    }

    /// Whether the disk of this number is declared.
    pub fn has_disk(&self, number: u32) -> bool
        ensures { result ≡ list_any (λ disk. disk.number == number) self.now.disks.items }
    {
        self.disks.iter().any(|disk| disk.number == number)
    }

    /// The mapped device of this number, if it stands.
    fn mapped(&self, number: u32) -> Option<DevNo>
        ensures { result ≡ device_meant (standing_of T.meaning self.now) (words.mapped number) }
    {
        if self.has_mapped(number) {
            Some(DevNo::Dm(number))
        } else {
            None
        }
    }

    /// Whether the mapped device of this number stands.
    fn has_mapped(&self, number: u32) -> bool
        ensures { result ≡ is_some (slot_at (walk_known self.now.walk).devices number) }
    {
        self.walk.slot(number as usize).is_some()
    }

    /// The mapped device of this name, if it stands.
    fn named(&self, name: &[u8]) -> Option<DevNo>
        ensures { result ≡ device_meant (standing_of T.meaning self.now) (words.named name.now) }
    {
        match self.device_named(name) {
            Some(number) => Some(DevNo::Dm(number)),
            None => None,
        }
    }
}

impl<T: Target> Names for Standing<'_, T> {
    ghost use Rattle.lab_rulebook.specs.BoundWords.{word_device};
    ghost use Rattle.lab_standing.specs.Stands.{standing_of};

    ghost found = { λ names word. word_device (standing_of T.meaning names) word };

    fn find(&self, word: &[u8]) -> Option<DevNo> {
        self.word(word)
    }
}

ghost use Rattle.std.specs.Prelude.{◌≡◌, option_copied, find, option_map, ◌==◌};
ghost use Rattle.lab_model.specs.Sizes.{live_size, size_at};
ghost use Rattle.lab_model.specs.Slots.{slot_at};

use crate::standing::Standing;
use lab_sector::DevNo;
use lab_table::Table;
use lab_target::Target;

impl<T: Target> Standing<'_, T> {
    ghost use Rattle.lab_standing.specs.Stands.{standing_of};

    /// The size of a device in sectors, if it stands; a mapped one without a live table has none.
    pub fn size(&self, device: DevNo) -> Option<u64>
        ensures { result ≡ size_at self.now.disks.items
            (standing_of T.meaning self.now).devices device }
    {
        match device {
            DevNo::Ram(number) => self.disk(number),
            DevNo::Dm(number) => self.mapped_size(number as usize),
        }
    }

    /// The size of a mapped device in sectors, if it stands.
    fn mapped_size(&self, number: usize) -> Option<u64>
        ensures { result ≡ option_map (λ slot. live_size slot.live)
            (slot_at (standing_of T.meaning self.now).devices number) }
    {
        match self.device(number) {
            Some(seen) => Some(size_of(seen.live)),
            None => None,
        }
    }

    /// The size of a disk in sectors, if it is declared.
    fn disk(&self, number: u32) -> Option<u64>
        ensures { result ≡ option_map (λ disk. disk.size)
            (find (λ disk. disk.number == number) self.now.disks.items) }
    {
        for disk in &self.disks {
            if disk.number == number {
                return Some(disk.size);
            }
        }
        None
    }
}

/// The size of a live table in sectors; 0 where there is none.
pub fn size_of<T: Target>(table: Option<&Table<T>>) -> u64
    ensures { result ≡ live_size (option_copied table.entry) }
{
    match table {
        Some(table) => table.size(),
        None => 0,
    }
}

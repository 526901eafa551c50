ghost use Rattle.std.specs.Prelude.{◌≡◌, option_copied, slice_get, option_map, option_and_then};
ghost use Rattle.lab_model.specs.Tables.{image};
ghost use Rattle.lab_model.specs.Slots.{slot_at};
ghost use Rattle.lab_standing.specs.Image.{own_of, version_at};
ghost use Rattle.lab_model.specs.Slots.{live_at};
ghost use Rattle.lab_standing.specs.Seen.{seen_slot, slot_named};

use crate::seen::Seen;
use crate::standing::Standing;
use lab_table::Table;
use lab_target::Target;

impl<T: Target> Standing<'_, T> {
    ghost use Rattle.lab_standing.specs.Stands.{standing_of};

    /// The mapped device of a number, if it stands.
    pub fn device(&self, number: usize) -> Option<Seen<'_, T>>
        ensures { option_map (seen_slot T.meaning) result
            ≡ slot_at (standing_of T.meaning self.now).devices number }
    {
        let slot = self.walk.slot(number)?;
        Some(Seen {
            live: self.version(number, slot.live),
            inactive: self.version(number, slot.inactive),
            mode: slot.mode,
        })
    }

    /// The mapped device of a name, if it stands.
    pub fn device_of(&self, name: &[u8]) -> Option<Seen<'_, T>>
        ensures { option_map (seen_slot T.meaning) result
            ≡ slot_named (standing_of T.meaning self.now) name.now }
    {
        self.device(self.device_named(name)? as usize)
    }

    /// All tables that were loaded into a device, if it was made.
    pub(crate) fn own(&self, device: usize) -> Option<&Vec<Table<T>>>
        ensures { option_copied result ≡ slice_get self.now.versions.items device }
    {
        self.versions.get(device)
    }

    /// A version of a device by its number, if one is named.
    fn version(&self, device: usize, number: Option<usize>) -> Option<&Table<T>>
        ensures { option_copied result
            ≡ version_at (own_of (standing_of T.meaning self.now).versions device) number }
    {
        match self.own(device) {
            Some(own) => version_of(own, number),
            None => None,
        }
    }

    /// The live table of a device, if it has one.
    pub fn live(&self, number: usize) -> Option<&Table<T>>
        ensures { option_map (image T.meaning) (option_copied result)
            ≡ live_at (standing_of T.meaning self.now).devices number }
    {
        self.device(number)?.live
    }

    /// The live table of the device of a name, if it has one.
    pub fn live_of(&self, name: &[u8]) -> Option<&Table<T>>
        ensures { option_map (image T.meaning) (option_copied result)
            ≡ option_and_then (λ slot. slot.live) (slot_named (standing_of T.meaning self.now) name.now) }
    {
        self.device_of(name)?.live
    }
}

/// A version by its number, if one is named.
fn version_of<T: Target>(versions: &[Table<T>], number: Option<usize>) -> Option<&Table<T>>
    ensures { option_copied result ≡ version_at versions.now number }
{
    versions.get(number?)
}

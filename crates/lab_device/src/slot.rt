ghost use Rattle.std.specs.Prelude.{◌≡◌, IsSome, Some, option_copied, option_and_then};
ghost use Rattle.std.specs.Borrow.{sem};
ghost use Rattle.std.specs.Option.{option_copied_mut};
ghost use Rattle.lab_device.specs.SlotLends.{LendsLiveThere, LendsThere};

use lab_model::Mode;
use std::marker::Model;

/// A mapped device: its two slots for tables, and its mode (dmsetup(8)).
#[derive(Drop)]
pub(crate) struct Slot<L> {
    /// The table that bios meet.
    live: Option<L>,
    /// The table that is loaded, until a resume makes it live.
    inactive: Option<L>,
    /// Whether the device takes bios.
    mode: Mode,
}

impl<L> Model for Slot<L> {
    ghost use Rattle.lab_model.specs.State.{Slot as Tables};

    ghost Value = { Tables L };

    ghost view = { λ s. record { live = s.live; inactive = s.inactive; mode = s.mode } };
}

impl<L: Drop> Slot<L> {
    ghost use Rattle.lab_model.specs.ControlEffect.{created, swapped, with_inactive, with_mode};

    /// A device that runs, with this live table and none loaded.
    pub(crate) fn created(live: Option<L>) -> Slot<L>
        ensures { result ≡ created live }
    {
        Slot {
            live,
            inactive: None,
            mode: Mode::Running,
        }
    }

    /// The inactive slot has this table, or none.
    pub(crate) fn set_inactive(&mut self, table: Option<L>)
        ensures { self.new ≡ with_inactive table self.old }
    {
        self.inactive = table;
    }

    /// The device is in another mode.
    pub(crate) fn set_mode(&mut self, mode: Mode)
        ensures { self.new ≡ with_mode mode self.old }
    {
        self.mode = mode;
    }

    /// The inactive table becomes live if there is one, and the device runs.
    pub(crate) fn swap(&mut self)
        ensures { self.new ≡ swapped self.old }
    {
        if let Some(table) = self.inactive.take() {
            self.live = Some(table);
        }
        self.mode = Mode::Running;
    }
}

impl<L> Slot<L> {
    ghost use Rattle.lab_device.specs.SlotLends.{LendsTable};

    /// The mode.
    pub(crate) fn mode(&self) -> Mode
        ensures { result ≡ self.now.mode }
    {
        self.mode
    }

    /// The live table, if there is one.
    pub(crate) fn live(&self) -> Option<&L>
        ensures { option_copied result ≡ self.now.live }
    {
        self.live.as_ref()
    }

    /// The live table for writing, if there is one.
    pub(crate) fn live_mut(&mut self) -> Option<&mut L>
        ensures* writes_back { sem 𝓛 (LendsTable L.row self.entry result) }
        ensures table { option_copied_mut result ≡ self.old.live }
    {
        self.live.as_mut()
    }
}

/// The device of an entry that has one, for writing.
pub(crate) fn there_mut<L>(entry: &mut Option<Slot<L>>) -> &mut Slot<L>
    requires { IsSome entry.old }
    ensures* writes_back { sem 𝓛 (LendsThere L.row entry.entry result) }
    ensures slot { entry.old ≡ Some result.now }
{
    match entry {
        Some(slot) => slot,
        None => unreachable!(),
    }
}

/// The live table of an entry for writing, if the entry has a device with one.
pub(crate) fn live_mut<L>(entry: &mut Option<Slot<L>>) -> Option<&mut L>
    ensures* writes_back { sem 𝓛 (LendsLiveThere L.row entry.entry result) }
    ensures table { option_copied_mut result ≡ option_and_then (λ slot. slot.live) entry.old }
{
    match entry {
        Some(slot) => slot.live_mut(),
        None => None,
    }
}

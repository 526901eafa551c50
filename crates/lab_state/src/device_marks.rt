ghost use Rattle.std.specs.Prelude.{◌≡◌, ◌≢◌, ℕ, ◌<◌, ◌≤◌, Some, length};
ghost use Rattle.lab_model.specs.Lists.{numbered};
ghost use Rattle.lab_state.specs.Dependents.{IsListed, device_of};
ghost use Rattle.lab_state.specs.Dependents.{told_by as bio_told};
ghost use Rattle.lab_state.specs.Entered.{IsKnownAt};
ghost use Rattle.lab_state.specs.Grouped.{IsGrouped, IsGroupedBut};
ghost use Rattle.lab_state.specs.Index.{IsMarked, goes as may_go, is_marked, state_of};
ghost use Rattle.std.specs.Option.{option_flatten};

use crate::dependents::Dependents;
use crate::groups::{join, leave};
use crate::index::{is_running, mark_all};
use lab_bios::{Bios, Stage};
use lab_device::Devices;
use lab_index::{Groups, Marking, NumberSet};
use lab_sector::DevNo;
use lab_table::Table;
use lab_target::Target;

/// What `told_by` says, by the bio's record.
#[inline(always)]
fn told_by_record(clock: u64, bios: &Bios, device: u32, runs: bool, number: u64) -> Option<bool>
    ensures { result ≡ bio_told clock device runs (option_flatten (numbered bios.now.items number)) }
{
    let bio = bios.get(number)?;
    match (bio.device, &bio.stage) {
        (DevNo::Dm(entered), Stage::Entering) if entered == device => Some(runs),
        (_, Stage::Held(due, holder)) if *holder == device => Some(*due <= clock || !runs),
        _ => None,
    }
}

/// Whether an event may come to the bio of this number, if it depends on the mode of this device, which runs or not.
///
/// The record of one that is known to enter a device isn't read.
#[inline(always)]
fn told_by(
    clock: u64,
    bios: &Bios,
    entered: &[u8],
    device: u32,
    runs: bool,
    number: u64,
) -> Option<bool>
    requires { IsKnownAt bios.now.items entered.now number }
    ensures { result ≡ bio_told clock device runs (option_flatten (numbered bios.now.items number)) }
{
    match entered.get(number as usize) {
        Some(known) if *known > 0 => (u32::from(*known - 1) == device).then_some(runs),
        _ => told_by_record(clock, bios, device, runs, number),
    }
}

/// Marks the bio of this number, or marks it no more, as is told. So it joins its group or leaves it.
#[inline(always)]
fn mark_told(bios: &Bios, marks: &mut Marking, groups: &mut Groups, number: u64, goes: bool)
    requires some { 0 < number }
    requires made { number ≤ length marks.old }
    ensures here { is_marked marks.new number ≡ goes }
    ensures others { (other : ℕ) → other ≢ number
        → is_marked marks.new other ≡ is_marked marks.old other }
    ensures reach { length marks.new ≡ length marks.old }
    ensures grouped { IsGroupedBut bios.now.items marks.old groups.old number
        → IsGrouped bios.now.items marks.new groups.new }
{
    marks.put(number - 1, goes);
    if goes {
        join(bios, groups, number);
    } else {
        leave(bios, groups, number);
    }
}

/// Marks the bios of this device's row that depend on its mode, where all others are marked as they are to be, and says
/// how many of its numbers do.
#[tactic(auto, using(crate::proofs::Rulesets::mark_row))]
fn mark_row<T: Target>(
    clock: u64,
    bios: &Bios,
    devices: &Devices<Table<T>>,
    ready: &mut NumberSet,
    groups: &mut Groups,
    dependents: &Dependents,
    device: u32,
) -> usize
    requires reach { length bios.now.items ≤ length ready.old }
    requires has_row { device < length dependents.now.rows }
    requires listed { IsListed bios.now.items dependents.now }
    requires apart { (number : ℕ) → device_of bios.now.items number ≢ Some device
        → is_marked ready.old number
        ≡ may_go (state_of clock bios.now.items devices.now.slots) number }
    requires grouped { IsGrouped bios.now.items ready.old groups.old }
    ensures marked { IsMarked (state_of clock bios.now.items devices.now.slots) ready.new }
    ensures reach { length ready.new ≡ length ready.old }
    ensures grouped { IsGrouped bios.now.items ready.new groups.new }
{
    let runs = is_running(devices, device);
    let row = dependents.row(device);
    let entered = dependents.entered();
    let mut marks = ready.open();
    let mut count = 0;
    for number in row {
        if let Some(goes) = told_by(clock, bios, entered, device, runs, *number) {
            mark_told(bios, &mut marks, groups, *number, goes);
            count += 1;
        }
    }
    *ready = marks.close();
    count
}

/// Marks the bios that depend on the mode of this device, where all others are marked as they are to be.
pub(crate) fn mark_dependents<T: Target>(
    clock: u64,
    bios: &Bios,
    devices: &Devices<Table<T>>,
    ready: &mut NumberSet,
    groups: &mut Groups,
    dependents: &mut Dependents,
    device: u32,
)
    requires reach { length bios.now.items ≤ length ready.old }
    requires others { (number : ℕ) → device_of bios.now.items number ≢ Some device
        → is_marked ready.old number
        ≡ may_go (state_of clock bios.now.items devices.now.slots) number }
    requires grouped { IsGrouped bios.now.items ready.old groups.old }
    requires listed { IsListed bios.now.items dependents.old }
    ensures marked { IsMarked (state_of clock bios.now.items devices.now.slots) ready.new }
    ensures reach { length ready.new ≡ length ready.old }
    ensures grouped { IsGrouped bios.now.items ready.new groups.new }
    ensures listed { IsListed bios.now.items dependents.new }
{
    dependents.open(bios, device, devices.count());
    if dependents.has_row(device) {
        let count = mark_row(clock, bios, devices, ready, groups, dependents, device);
        dependents.tidy(bios, device, count);
    } else {
        mark_all(clock, bios, devices, ready, groups);
    }
}

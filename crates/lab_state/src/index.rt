ghost use Rattle.std.specs.Prelude.{◌≡◌, ◌≢◌, ℕ, ◌+◌, ◌<◌, ◌≤◌, [], IfSome, None, false, length, true};
ghost use Rattle.std.specs.FinMap as map;
ghost use Rattle.std.specs.Option.{option_flatten};
ghost use Rattle.lab_model.specs.Guard.{bio_finishes, bio_maps, bio_releases, bio_serves, slot_runs};
ghost use Rattle.lab_model.specs.Lists.{numbered};
ghost use Rattle.lab_model.specs.Slots.{slot_at};
ghost use Rattle.lab_state.specs.Index.{IsMarked, Waits, goes as may_go, is_marked, state_of};
ghost use Rattle.lab_state.specs.Index.{waits_at};
ghost use Rattle.lab_state.specs.Grouped.{IsGrouped, IsGroupedBut};
ghost use Rattle.lab_state.specs.Places.{told_new};
ghost use Rattle.lab_state.specs.Places.{bio_event as event_of, ready_event as event_if_ready};
ghost use Rattle.lab_bios.specs.Views.{stage_of};

use crate::groups::{join, leave};
use lab_bios::{Bio, Bios, Stage};
use lab_device::{Devices, Mode};
use lab_index::{Groups, NumberSet};
use lab_model::Event;
use lab_queue::MomentQueue;
use lab_sector::DevNo;
use lab_table::Table;
use lab_target::Target;

/// Whether the mapped device of this number is there and runs.
#[inline(always)]
pub(crate) fn is_running<T: Target>(devices: &Devices<Table<T>>, device: u32) -> bool
    ensures { result ≡ slot_runs (slot_at devices.now.slots device) }
{
    devices.mode(device) == Some(Mode::Running)
}

/// Whether an entering bio is cut by its device: a mapped one that runs.
#[inline(always)]
pub(crate) fn maps<T: Target>(devices: &Devices<Table<T>>, device: DevNo, stage: &Stage) -> bool
    ensures { result ≡ bio_maps (state_of 0 [] devices.now.slots) device (stage_of stage.now) }
{
    match (device, stage) {
        (DevNo::Dm(number), Stage::Entering) => is_running(devices, number),
        _ => false,
    }
}

/// Whether an entering bio is served by a disk.
#[inline(always)]
pub fn serves(device: DevNo, stage: &Stage) -> bool
    ensures { result ≡ bio_serves device (stage_of stage.now) }
{
    matches!((device, stage), (DevNo::Ram(_), Stage::Entering))
}

/// Whether a held bio goes on: it is due, or its holder isn't running.
#[inline(always)]
pub(crate) fn releases<T: Target>(clock: u64, devices: &Devices<Table<T>>, stage: &Stage) -> bool
    ensures { result ≡ bio_releases (state_of clock [] devices.now.slots) (stage_of stage.now) }
{
    match stage {
        Stage::Held(due, holder) => *due <= clock || !is_running(devices, *holder),
        _ => false,
    }
}

/// Whether a bio in flight is answered: it has no living child.
#[inline(always)]
pub(crate) fn finishes(bios: &Bios, number: u64, stage: &Stage) -> bool
    ensures { result ≡ bio_finishes (state_of {S = ℕ} 0 bios.now.items []) number (stage_of stage.now) }
{
    match stage {
        Stage::InFlight(_, _) => !bios.has_child(number),
        _ => false,
    }
}

/// The event that may come to the bio of this number, if one may.
#[inline(always)]
pub(crate) fn bio_event<T: Target>(
    clock: u64,
    bios: &Bios,
    devices: &Devices<Table<T>>,
    number: u64,
    bio: &Bio,
) -> Option<Event>
    ensures { result ≡ event_of (state_of clock bios.now.items devices.now.slots) number
        bio.now.device bio.now.stage }
{
    if maps(devices, bio.device, &bio.stage) {
        Some(Event::Map(number))
    } else if serves(bio.device, &bio.stage) {
        Some(Event::Serve(number))
    } else if releases(clock, devices, &bio.stage) {
        Some(Event::Release(number))
    } else if finishes(bios, number, &bio.stage) {
        Some(Event::Finish(number))
    } else {
        None
    }
}

/// The event that comes to the bio of this number, where one may: its device and how far it has come tell which.
#[inline(always)]
pub(crate) fn ready_event(number: u64, bio: &Bio) -> Event
    ensures { result ≡ event_if_ready number bio.now.stage bio.now.device }
{
    match (&bio.stage, bio.device) {
        (Stage::Entering, DevNo::Ram(_)) => Event::Serve(number),
        (Stage::Entering, DevNo::Dm(_)) => Event::Map(number),
        (Stage::Held(_, _), _) => Event::Release(number),
        (Stage::InFlight(_, _), _) => Event::Finish(number),
    }
}

/// Whether an event may come to the bio of this number.
#[inline(always)]
fn goes<T: Target>(clock: u64, bios: &Bios, devices: &Devices<Table<T>>, number: u64) -> bool
    ensures { result ≡ may_go (state_of clock bios.now.items devices.now.slots) number }
{
    match bios.get(number) {
        Some(bio) => bio_event(clock, bios, devices, number, bio).is_some(),
        None => false,
    }
}

/// Marks the bio of this number if an event may come to it; else it is marked no more. So it joins its group or leaves it.
pub(crate) fn mark_bio<T: Target>(
    clock: u64,
    bios: &Bios,
    devices: &Devices<Table<T>>,
    ready: &mut NumberSet,
    groups: &mut Groups,
    number: u64,
)
    requires { length bios.now.items ≤ length ready.old }
    ensures here { is_marked ready.new number
        ≡ may_go (state_of clock bios.now.items devices.now.slots) number }
    ensures others { (other : ℕ) → other ≢ number
        → is_marked ready.new other ≡ is_marked ready.old other }
    ensures reach { length ready.new ≡ length ready.old }
    ensures grouped { IsGroupedBut bios.now.items ready.old groups.old number
        → IsGrouped bios.now.items ready.new groups.new }
{
    let Some(place) = number.checked_sub(1) else {
        return;
    };
    if goes(clock, bios, devices, number) {
        ready.insert(place);
        join(bios, groups, number);
    } else {
        ready.remove(place);
        leave(bios, groups, number);
    }
}

/// Marks the bio of this number, to which an event may come. So it joins its group.
#[inline(always)]
fn mark_due<T: Target>(
    clock: u64,
    bios: &Bios,
    devices: &Devices<Table<T>>,
    ready: &mut NumberSet,
    groups: &mut Groups,
    number: u64,
)
    requires reach { length bios.now.items ≤ length ready.old }
    requires goes { may_go (state_of clock bios.now.items devices.now.slots) number ≡ true }
    ensures here { is_marked ready.new number
        ≡ may_go (state_of clock bios.now.items devices.now.slots) number }
    ensures others { (other : ℕ) → other ≢ number
        → is_marked ready.new other ≡ is_marked ready.old other }
    ensures reach { length ready.new ≡ length ready.old }
    ensures grouped { IsGroupedBut bios.now.items ready.old groups.old number
        → IsGrouped bios.now.items ready.new groups.new }
{
    if let Some(place) = number.checked_sub(1) {
        ready.insert(place);
        join(bios, groups, number);
    }
}

/// Whether an event may come to a bio of this device at this stage. Of one in flight that isn't told, since it depends
/// on its children.
#[inline(always)]
pub(crate) fn told_new<T: Target>(
    clock: u64,
    devices: &Devices<Table<T>>,
    device: DevNo,
    stage: &Stage,
) -> Option<bool>
    ensures { result ≡ told_new (state_of clock [] devices.now.slots) device (stage_of stage.now) }
{
    match stage {
        Stage::Entering => Some(maps(devices, device, stage) || serves(device, stage)),
        Stage::Held(_, _) => Some(releases(clock, devices, stage)),
        Stage::InFlight(_, _) => None,
    }
}

/// Marks the bio of this number, which isn't marked yet, if an event may come to it, as is told. Where that isn't told,
/// the bio is looked at.
#[inline(always)]
pub(crate) fn mark_new<T: Target>(
    clock: u64,
    bios: &Bios,
    devices: &Devices<Table<T>>,
    ready: &mut NumberSet,
    groups: &mut Groups,
    number: u64,
    told: Option<bool>,
)
    requires reach { length bios.now.items ≤ length ready.old }
    requires made { number ≤ length bios.now.items }
    requires unmarked { is_marked ready.old number ≡ false }
    requires told { IfSome told (λ goes. goes
        ≡ may_go (state_of clock bios.now.items devices.now.slots) number) }
    ensures here { is_marked ready.new number
        ≡ may_go (state_of clock bios.now.items devices.now.slots) number }
    ensures others { (other : ℕ) → other ≢ number
        → is_marked ready.new other ≡ is_marked ready.old other }
    ensures reach { length ready.new ≡ length ready.old }
    ensures grouped { IsGroupedBut bios.now.items ready.old groups.old number
        → IsGrouped bios.now.items ready.new groups.new }
{
    let (Some(goes), Some(place)) = (told, number.checked_sub(1)) else {
        mark_bio(clock, bios, devices, ready, groups, number);
        return;
    };
    if goes {
        ready.insert(place);
        join(bios, groups, number);
    }
}

/// The bio of this number is marked no more.
#[inline(always)]
pub(crate) fn unmark(ready: &mut NumberSet, number: u64)
    ensures here { is_marked ready.new number ≡ false }
    ensures others { (other : ℕ) → other ≢ number
        → is_marked ready.new other ≡ is_marked ready.old other }
    ensures reach { length ready.new ≡ length ready.old }
{
    if let Some(place) = number.checked_sub(1) {
        ready.remove(place);
    }
}

/// Marks the bio of this number as `mark_bio` does, where the child of it that has come or gone is its only one. Where
/// it isn't, the bio stays as it is.
#[inline(always)]
pub(crate) fn mark_parent<T: Target>(
    clock: u64,
    bios: &Bios,
    devices: &Devices<Table<T>>,
    ready: &mut NumberSet,
    groups: &mut Groups,
    number: u64,
    is_only: bool,
)
    requires reach { length bios.now.items ≤ length ready.old }
    requires stays { is_only ≡ false → is_marked ready.old number
        ≡ may_go (state_of clock bios.now.items devices.now.slots) number }
    requires grouped { IsGrouped bios.now.items ready.old groups.old }
    ensures here { is_marked ready.new number
        ≡ may_go (state_of clock bios.now.items devices.now.slots) number }
    ensures others { (other : ℕ) → other ≢ number
        → is_marked ready.new other ≡ is_marked ready.old other }
    ensures reach { length ready.new ≡ length ready.old }
    ensures grouped { IsGrouped bios.now.items ready.new groups.new }
{
    if is_only {
        mark_bio(clock, bios, devices, ready, groups, number);
    }
}

/// Marks just the bios to which an event may come, where no other one than a living one is marked.
#[tactic(auto, using(crate::proofs::Rulesets::mark_all))]
pub(crate) fn mark_all<T: Target>(
    clock: u64,
    bios: &Bios,
    devices: &Devices<Table<T>>,
    ready: &mut NumberSet,
    groups: &mut Groups,
)
    requires reach { length bios.now.items ≤ length ready.old }
    requires living { (number : ℕ) → option_flatten (numbered bios.now.items number) ≡ None
        → is_marked ready.old number ≡ false }
    requires grouped { IsGrouped bios.now.items ready.old groups.old }
    ensures marked { IsMarked (state_of clock bios.now.items devices.now.slots) ready.new }
    ensures reach { length ready.new ≡ length ready.old }
    ensures grouped { IsGrouped bios.now.items ready.new groups.new }
{
    let mut from = 1;
    while let Some(number) = bios.next_living(from) {
        mark_bio(clock, bios, devices, ready, groups, number);
        from = number + 1;
    }
}

/// Until when a bio at this stage waits: the moment of one that is held and isn't due.
#[inline(always)]
pub(crate) fn waits(clock: u64, stage: &Stage) -> Option<u64>
    ensures { result ≡ waits_at clock (stage_of stage.now) }
{
    match stage {
        Stage::Held(due, _) if clock < *due => Some(*due),
        _ => None,
    }
}

/// The bio of this number, which doesn't wait yet, waits from now on until this moment, if it is to.
#[tactic(auto, using(crate::proofs::Waiting::held_steps))]
#[inline(always)]
pub(crate) fn wait_for(waiting: &mut MomentQueue, number: u64, moment: Option<u64>)
    requires room { 0 < waiting.old.spare }
    requires free { map.get waiting.old.due number ≡ None }
    ensures here { map.get waiting.new.due number ≡ moment }
    ensures others { (other : ℕ) → other ≢ number
        → map.get waiting.new.due other ≡ map.get waiting.old.due other }
    ensures room { waiting.old.spare ≤ waiting.new.spare + 1 }
{
    if let Some(moment) = moment {
        waiting.hold(number, moment);
    }
}

/// The bio of this number, which waits until this moment if it waits at all, waits no more.
#[tactic(auto, using(crate::proofs::Waiting::held_steps))]
#[inline(always)]
pub(crate) fn wait_no_more(waiting: &mut MomentQueue, number: u64, moment: Option<u64>)
    requires { map.get waiting.old.due number ≡ moment }
    ensures here { map.get waiting.new.due number ≡ None }
    ensures others { (other : ℕ) → other ≢ number
        → map.get waiting.new.due other ≡ map.get waiting.old.due other }
    ensures room { waiting.new.spare ≡ waiting.old.spare }
{
    if let Some(moment) = moment {
        waiting.take(number, moment);
    }
}

/// The clock has gone on to a moment: the held bios that are due by then wait no more, and an event may come to them.
///
/// None of their records is read.
pub(crate) fn come_due<T: Target>(
    before: u64,
    clock: u64,
    bios: &Bios,
    devices: &Devices<Table<T>>,
    ready: &mut NumberSet,
    groups: &mut Groups,
    waiting: &mut MomentQueue,
)
    requires later { before ≤ clock }
    requires marked { IsMarked (state_of before bios.now.items devices.now.slots) ready.old }
    requires waits { Waits (state_of before bios.now.items devices.now.slots) waiting.old.due }
    requires grouped { IsGrouped bios.now.items ready.old groups.old }
    ensures marked { IsMarked (state_of clock bios.now.items devices.now.slots) ready.new }
    ensures waits { Waits (state_of clock bios.now.items devices.now.slots) waiting.new.due }
    ensures grouped { IsGrouped bios.now.items ready.new groups.new }
    ensures reach { length ready.new ≡ length ready.old }
    ensures room { waiting.new.spare ≡ waiting.old.spare }
{
    while let Some(due) = waiting.least_due(clock) {
        waiting.take(due.number, due.moment);
        mark_due(clock, bios, devices, ready, groups, due.number);
    }
}

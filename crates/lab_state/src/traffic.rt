ghost use Rattle.std.specs.Prelude.{◌≡◌, ◌+◌, ◌^◌, ◌<◌, ◌≤◌, ◌==◌, ℕ, [], None, length};
ghost use Rattle.std.specs.Prelude.{option_copied, slice_get, IfNone, IfSome, true};
ghost use Rattle.std.specs.List.{list_any};
ghost use Rattle.std.specs.Option.{option_flatten};
ghost use Rattle.lab_model.specs.Slots.{live_at, mode_at};
ghost use Rattle.lab_model.specs.Guard.{bio_finishes, bio_maps, bio_releases, flies_at, is_log};
ghost use Rattle.lab_model.specs.Lists.{numbered};
ghost use Rattle.lab_index.specs.Lists.{AreGoneFrom, IsNextFrom};
ghost use Rattle.lab_bios.specs.Origin.{log_of};
ghost use Rattle.lab_bios.specs.Living.{living_of};
ghost use Rattle.lab_bios.specs.Tally.{is_log_within};
ghost use Rattle.lab_logs.specs.Moments.{least_over};
ghost use Rattle.lab_state.specs.Moments.{dues};
ghost use Rattle.lab_state.specs.Traffic.{IsElses, event_at, ready_events, traffic_state};
ghost use Rattle.lab_bios.specs.Views.{stage_of};

use crate::dependents::Dependents;
use crate::groups::{COUNT, group_for, has_group};
use crate::held_rows::HeldRows;
use crate::index::{bio_event, finishes, maps, ready_event, releases};
use lab_bios::{Bio, Bios, Stage, has_flight};
use lab_device::{Devices, Mode};
use lab_index::{Groups, NumberSet};
use lab_model::{Event, Who};
use lab_queue::MomentQueue;
use lab_sector::DevNo;
use lab_table::Table;
use lab_target::Target;
use std::alloc::Global;
use std::marker::Model;

/// The bios of a run, with what they wait for: the clock and the mapped devices.
#[derive(Drop)]
pub struct Traffic<T: Target> {
    /// The clock, in microseconds.
    pub(crate) clock: u64,
    pub(crate) bios: Bios,
    pub(crate) devices: Devices<Table<T>>,
    /// The numbers, less one, of the bios to which an event may come.
    pub(crate) ready: NumberSet,
    /// The same bios by whom their events belong to, where that is kept.
    pub(crate) groups: Groups,
    /// The held bios that aren't due.
    pub(crate) waiting: MomentQueue,
    /// The bios by the device whose mode decides whether they go on, and which device they are known to enter.
    pub(crate) dependents: Dependents,
    /// How many bios are held for each line of each device, once a status was asked for.
    pub(crate) held: HeldRows,
    /// Whether the devices count the bios in flight: none came in flight at a number before its device was made.
    pub(crate) is_counted: bool,
}

impl<T: Target> Model for Traffic<T> {
    ghost use Rattle.std.specs.Prelude.{◌-◌, length, min};
    ghost use Rattle.lab_state.specs.Index.{state_of};
    ghost use Rattle.lab_state.specs.Grouped.{IsKept};
    ghost use Rattle.lab_state.specs.Traffic.{TrafficRow};

    ghost Value = { TrafficRow T };

    ghost view = { λ traffic. record {
      clock = traffic.clock;
      bios = traffic.bios.items;
      devices = traffic.devices.slots;
      room = min (min traffic.bios.room traffic.waiting.spare)
          (length traffic.ready - length traffic.bios.items);
    } };

    ghost invariant = { λ traffic. IsKept
        (state_of traffic.clock traffic.bios.items traffic.devices.slots)
        traffic.ready traffic.groups traffic.waiting.due traffic.dependents
        traffic.held traffic.is_counted traffic.devices.flights };
}

impl<T: Target> Traffic<T> {
    /// No bio and no device, at moment 0.
    pub fn new(alloc: Global) -> Traffic<T>
        ensures clock { result.clock ≡ 0 }
        ensures bios { result.bios ≡ [] }
        ensures devices { result.devices ≡ [] }
    {
        Traffic {
            clock: 0,
            bios: Bios::new(alloc),
            devices: Devices::new(alloc),
            ready: NumberSet::new(alloc),
            groups: Groups::new(alloc),
            waiting: MomentQueue::new(alloc),
            dependents: Dependents::new(alloc),
            held: HeldRows::new(alloc),
            is_counted: true,
        }
    }

    /// The clock, in microseconds.
    #[inline(always)]
    pub fn clock(&self) -> u64
        ensures { result ≡ self.now.clock }
    {
        self.clock
    }

    /// How many bios were made; the next one gets the number after this.
    pub fn count(&self) -> u64
        ensures { result ≡ length self.now.bios }
    {
        self.bios.count()
    }

    /// The living bio of this number.
    #[inline(always)]
    pub fn get(&self, number: u64) -> Option<&Bio>
        ensures { option_copied result ≡ option_flatten (numbered self.now.bios number) }
    {
        self.bios.get(number)
    }

    /// How many bios live.
    pub fn count_living(&self) -> u64
        ensures { result ≡ length (living_of self.now.bios) }
    {
        self.bios.count_living()
    }

    /// The least number from `from` on whose bio lives.
    pub fn next_living(&self, from: u64) -> Option<u64>
        ensures next { IfSome result (IsNextFrom self.now.bios from) }
        ensures none { IfNone result (AreGoneFrom self.now.bios from) }
        ensures made { IfSome result (λ number. number ≤ length self.now.bios) }
        ensures fits { IfSome result (λ number. number + 1 < 2 ^ 64) }
    {
        self.bios.next_living(from)
    }

    /// How many bios there are to which an event may come.
    #[inline(always)]
    pub fn count_ready(&self) -> u64
        ensures { result ≡ length (ready_events self.now) }
    {
        self.ready.count()
    }

    /// The event that may come to the bio of this rank among them, from 0 on.
    pub fn nth_ready(&self, rank: u64) -> Option<Event>
        ensures { result ≡ slice_get (ready_events self.now) rank }
    {
        let place = self.ready.nth(rank)?;
        // So the number fits.
        prove!(place < self.ready.reach());
        let number = place + 1;
        let bio = self.bios.get(number)?;
        Some(ready_event(number, bio))
    }

    /// The event that may come to the bio of this number.
    pub fn event_at(&self, number: u64) -> Option<Event>
        ensures { result ≡ event_at self.now number }
    {
        let bio = self.bios.get(number)?;
        bio_event(self.clock, &self.bios, &self.devices, number, bio)
    }

    /// From now on it is kept whose event each bio waits for, if no bio was made yet and unless memory runs out.
    pub fn follow(&mut self)
        ensures clock { self.new.clock ≡ self.old.clock }
        ensures bios { self.new.bios ≡ self.old.bios }
        ensures devices { self.new.devices ≡ self.old.devices }
    {
        if self.bios.count() == 0 && self.groups.open(COUNT).is_err() {
            self.groups.close();
        }
    }

    /// The first number from `from` on, of the bios that were made, to whose bio an event may come that belongs to `who`,
    /// or one before it.
    pub fn next_of(&self, who: Who, from: u64) -> Option<u64>
        ensures from { IfSome result (λ number. from ≤ number) }
        ensures made { IfSome result (λ number. number ≤ length self.now.bios) }
        ensures skips { IfSome result (λ number. (other : ℕ) → from ≤ other → other < number
            → IsElses self.now who other) }
        ensures none { IfNone result ((other : ℕ) → from ≤ other → IsElses self.now who other) }
    {
        if !has_group(&self.groups, who) {
            return (from <= self.bios.count()).then_some(from);
        }
        let number = self.groups.next(group_for(who) as usize, from)?;
        (number <= self.bios.count()).then_some(number)
    }

    /// The log that the bio of this number comes from; 0, which no log has, where there is none.
    pub fn log_of(&self, number: u64) -> u32
        ensures { result ≡ log_of self.now.bios number }
    {
        self.bios.log_of(number)
    }

    /// Whether an entering bio is cut by its device: a mapped one that runs.
    #[inline(always)]
    pub fn maps(&self, device: DevNo, stage: &Stage) -> bool
        ensures { result ≡ bio_maps (traffic_state self.now) device (stage_of stage.now) }
    {
        maps(&self.devices, device, stage)
    }

    /// Whether a held bio goes on: it is due, or its holder isn't running.
    #[inline(always)]
    pub fn releases(&self, stage: &Stage) -> bool
        ensures { result ≡ bio_releases (traffic_state self.now) (stage_of stage.now) }
    {
        releases(self.clock, &self.devices, stage)
    }

    /// Whether a bio in flight is answered: it has no living child.
    #[inline(always)]
    pub fn finishes(&self, number: u64, stage: &Stage) -> bool
        ensures { result ≡ bio_finishes (traffic_state self.now) number (stage_of stage.now) }
    {
        finishes(&self.bios, number, stage)
    }

    /// Whether a living bio was made for the log of this number.
    pub fn has_log(&self, log: u64) -> bool
        ensures { result ≡ list_any (λ bio. is_log log bio.parent) (living_of self.now.bios) }
    {
        self.bios.has_log(log)
    }

    /// Whether a living bio was made for one of the logs from 1 to this number.
    pub fn has_log_within(&self, count: u64) -> bool
        ensures { result
            ≡ list_any (λ bio. is_log_within count bio.parent) (living_of self.now.bios) }
    {
        self.bios.has_log_within(count)
    }

    /// Whether a bio is in flight at the device of this number.
    pub fn has_flight(&self, device: u32) -> bool
        ensures { result
            ≡ list_any (λ bio. flies_at device bio.device bio.stage) (living_of self.now.bios) }
    {
        match self.devices.in_flight(device) {
            Some(count) if self.is_counted => count > 0,
            _ => has_flight(&self.bios, device),
        }
    }

    /// Whether no bio lives.
    pub fn none_lives(&self) -> bool
        ensures { result ≡ (length (living_of self.now.bios) == 0) }
    {
        self.bios.count_living() == 0
    }

    /// The least moment of a held bio that is later than now.
    #[tactic(auto, using(crate::proofs::Waiting::first_due))]
    #[inline(always)]
    pub fn least_due(&self) -> Option<u64>
        ensures { result ≡ least_over self.now.clock (dues (living_of self.now.bios)) None }
    {
        self.waiting.first_due()
    }

    /// The device's mode, if the device is there.
    pub fn mode(&self, device: u32) -> Option<Mode>
        ensures { result ≡ mode_at self.now.devices device }
    {
        self.devices.mode(device)
    }

    /// The device's live table, if the device is there and has one.
    pub fn live(&self, device: u32) -> Option<&Table<T>>
        ensures { option_copied result ≡ live_at self.now.devices device }
    {
        self.devices.live(device)
    }
}

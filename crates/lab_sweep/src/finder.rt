ghost use Rattle.std.specs.Prelude.{◌≡◌, ◌++◌, length, OnOk};
ghost use Rattle.lab_findings.specs.Heard.{watch_heard};
ghost use Rattle.lab_findings.specs.Searched.{noted_here};
ghost use Rattle.lab_findings.specs.Settled.{watch_settled};
ghost use Rattle.lab_sweep.specs.Idle.{is_idle};

use lab_core::{Lab, Observer};
use lab_findings::{Noted, Sought, Watch};
use lab_model::Event;
use lab_sector::NoMemory;
use lab_state::State;
use lab_target::Target;
use std::alloc::Global;

/// What is noted in a run while it goes.
#[derive(Drop)]
pub(crate) struct Finder {
    /// What was noted so far.
    pub(crate) noted: Vec<Noted>,
    /// What is watched.
    pub(crate) watch: Watch,
    /// How many bios had been made when the last event came.
    pub(crate) made: u64,
}

impl Finder {
    ghost use Rattle.std.specs.Prelude.{[]};
    ghost use Rattle.lab_findings.specs.Watched.{unwatched};

    /// Before the first event nothing is noted or watched; what is asked for from then on.
    pub(crate) fn new(alloc: Global, sought: Sought) -> Finder
        ensures none { result.noted.items ≡ [] }
        ensures nothing { result.watch ≡ unwatched sought }
    {
        Finder {
            noted: Vec::new(alloc),
            watch: Watch::new(alloc, sought),
            made: 0,
        }
    }

    /// What was noted.
    pub(crate) fn into_noted(self) -> Vec<Noted>
        ensures { result ≡ self.noted }
    {
        self.noted
    }
}

impl<T: Target> Observer<T> for Finder {
    ghost use Rattle.std.specs.Prelude.{◌≡◌, ◌++◌, length};
    ghost use Rattle.lab_findings.specs.Heard.{watch_heard};
    ghost use Rattle.lab_findings.specs.Searched.{noted_here, watch_seen};
    ghost use Rattle.lab_findings.specs.Settled.{watch_settled};

    ghost awaits = { λ lab event before after. (after.noted.items
        ≡ before.noted.items ++ noted_here T.meaning lab.state event before.watch)
        × (after.watch
        ≡ watch_settled lab.state event (watch_heard T.meaning lab.state event before.watch))
        × (after.made ≡ length lab.state.bios) };

    ghost sees = { λ lab event before after. (after.noted.items ≡ before.noted.items)
        × (after.watch ≡ watch_seen T.meaning before.made lab.state event before.watch) };

    fn about_to(&mut self, alloc: Global, lab: &Lab<T>, event: Event) -> Result<(), NoMemory> {
        self.made = count_made(lab.state());
        watch_before(&mut self.noted, &mut self.watch, alloc, lab.state(), event)
    }

    fn fired(&mut self, alloc: Global, lab: &Lab<T>, event: Event) -> Result<(), NoMemory> {
        self.watch.see(alloc, self.made, lab.state(), event)
    }
}

/// How many bios were made.
fn count_made<T: Target>(state: &State<T>) -> u64
    ensures { result ≡ length state.now.bios }
{
    state.traffic.count()
}

/// Puts what is noted at an event that comes in this state behind what was noted, and watches on up to its answer.
fn watch_before<T: Target>(
    noted: &mut Vec<Noted>,
    watch: &mut Watch,
    alloc: Global,
    state: &State<T>,
    event: Event,
) -> Result<(), NoMemory>
    ensures noted { OnOk result (noted.new.items
        ≡ noted.old.items ++ noted_here T.meaning state.now event watch.old) }
    ensures watch { OnOk result (watch.new
        ≡ watch_settled state.now event (watch_heard T.meaning state.now event watch.old)) }
{
    if is_idle(event) {
        return Ok(());
    }
    watch.hear(alloc, state, event)?;
    noted.extend_from_slice(&watch.noted(alloc, state, event)?)?;
    watch.settle(alloc, state, event)
}

/// Whether an event neither serves a bio nor finishes one, so that nothing is answered.
fn is_idle(event: Event) -> bool
    ensures { result ≡ is_idle event }
{
    !matches!(event, Event::Serve(_) | Event::Finish(_))
}

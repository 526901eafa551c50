ghost use Rattle.std.specs.Prelude.{◌≡◌, true, OnOk};
ghost use Rattle.lab_model.specs.declared.event.Event.{Event};
ghost use Rattle.lab_model.specs.Guard.{is_enabled};
ghost use Rattle.lab_core.specs.Running.{Running};

use crate::lab::Lab;
use lab_model::Event;
use lab_sector::NoMemory;
use lab_target::Target;
use std::alloc::Global;

/// Who watches a run while it goes: told of each event before it is fired and once it was. The laboratory is seen by its
/// public queries alone, and each of its clauses holds of it, as that its events so far are a run.
pub trait Observer<T: Target> {
    // Where the laboratory stands so, and this event comes next, the first value leaves the second.
    ghost awaits: { Running T → Event → Self → Self → Type 0 };

    // Where the laboratory stands so, and this event was the last, the first value leaves the second.
    ghost sees: { Running T → Event → Self → Self → Type 0 };

    /// The event may come, and comes next. Where memory runs out, it doesn't.
    fn about_to(&mut self, alloc: Global, lab: &Lab<T>, event: Event) -> Result<(), NoMemory>
        requires { is_enabled lab.now.scenario lab.now.state event ≡ true }
        ensures { OnOk result (awaits lab.now event self.old self.new) };

    /// The event has come.
    fn fired(&mut self, alloc: Global, lab: &Lab<T>, event: Event) -> Result<(), NoMemory>
        ensures { OnOk result (sees lab.now event self.old self.new) };
}

// Nobody watches.
impl<T: Target> Observer<T> for () {
    ghost use Rattle.std.specs.Prelude.{⊤};

    ghost awaits = { λ _ _ _ _. ⊤ };

    ghost sees = { λ _ _ _ _. ⊤ };

    #[inline(always)]
    fn about_to(&mut self, _alloc: Global, _lab: &Lab<T>, _event: Event) -> Result<(), NoMemory> {
        Ok(())
    }

    #[inline(always)]
    fn fired(&mut self, _alloc: Global, _lab: &Lab<T>, _event: Event) -> Result<(), NoMemory> {
        Ok(())
    }
}

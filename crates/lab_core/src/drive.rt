ghost use Rattle.std.specs.Prelude.{◌≡◌, OnOk, true};
ghost use Rattle.lab_core.specs.Runs.{IsDriven};
ghost use Rattle.lab_core.specs.Watching.{IsWatched};

use crate::lab::Lab;
use crate::observer::Observer;
use lab_sector::NoMemory;
use lab_target::Target;
use std::alloc::Global;

impl<T: Target> Lab<T> {
    ghost use Rattle.lab_model.specs.Guard.{is_done};

    /// Fires the first event that may come next, in the written order, until all is done. Where memory runs out,
    /// the events so far stand.
    pub fn drive(&mut self, alloc: Global) -> Result<(), NoMemory>
        ensures driven { IsDriven T.meaning self.old self.new }
        ensures done { OnOk result (is_done self.new.scenario self.new.state ≡ true) }
    {
        self.drive_watched(alloc, &mut ())
    }

    /// Fires the first event that may come next, in the written order, until all is done, and tells the observer of
    /// each. Where memory runs out, here or there, the events so far stand.
    pub fn drive_watched<O: Observer<T>>(
        &mut self,
        alloc: Global,
        observer: &mut O,
    ) -> Result<(), NoMemory>
        ensures driven { IsDriven T.meaning self.old self.new }
        ensures done { OnOk result (is_done self.new.scenario self.new.state ≡ true) }
        ensures watched { OnOk result (IsWatched T.meaning O.awaits O.sees
            self.old observer.old self.new observer.new) }
    {
        'events: while let Some(event) = self.next_event() {
            observer.about_to(alloc, self, event)?;
            self.fire(alloc, event)?;
            observer.fired(alloc, self, event)?;
        }
        Ok(())
    }
}

ghost use Rattle.std.specs.Prelude.{◌≡◌, ◌++◌, OnErr, OnOk};
ghost use Rattle.lab_rulebook.specs.Standing.{walk_of};
ghost use Rattle.lab_script.specs.Steps.{on_line};
ghost use Rattle.lab_script.specs.Task.{task_of};
ghost use Rattle.lab_script.specs.Walk.{steps_of};
ghost use Rattle.lab_standing.specs.Sound.{IsSound};

use crate::standing::Standing;
use lab_model::Micro;
use lab_script::{ScriptLine, push_orders};
use lab_sector::NoMemory;
use lab_target::Target;
use std::alloc::Global;

impl<T: Target> Standing<'_, T> {
    ghost use Rattle.lab_standing.specs.Stands.{standing_of};

    /// Adds the micro-commands of a line of the script, as what stands before it gives them. Where memory runs out the
    /// list is as it was.
    pub fn push_orders(
        &self,
        alloc: Global,
        line: &ScriptLine<'_>,
        micros: &mut Vec<Micro>,
    ) -> Result<(), NoMemory>
        ensures ok { OnOk result (IsSound T.meaning self.now
            → micros.new.items ≡ micros.old.items ++ on_line line.now.number
            (steps_of (walk_of (standing_of T.meaning self.now)) (task_of line.now.command))) }
        ensures err { OnErr result (micros.new.items ≡ micros.old.items) }
    {
        let device = self.walk.device_for(line.command);
        push_orders(micros, alloc, line, device, self.walk.made()?)
    }
}

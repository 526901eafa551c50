ghost use Rattle.std.specs.Prelude.{◌≡◌, OnOk, length, true};
ghost use Rattle.lab_model.specs.Order.{enabled_events};
ghost use Rattle.lab_core.specs.Runs.{IsPaced, choice};

use crate::lab::Lab;
use lab_model::Event;
use lab_sector::NoMemory;
use lab_target::Target;
use std::alloc::Global;

impl<T: Target> Lab<T> {
    ghost use Rattle.lab_model.specs.Guard.{is_done};

    /// Simulates promptly: the clock goes on only where no other event may come; among the others the next word of
    /// the generator with this seed picks, until all is done. Where memory runs out, the events so far stand.
    pub fn simulate_promptly(&mut self, alloc: Global, seed: u64) -> Result<(), NoMemory>
        ensures paced { IsPaced T.meaning true seed self.old self.new }
        ensures done { OnOk result (is_done self.new.scenario self.new.state ≡ true) }
    {
        self.simulate_paced(alloc, seed, true)
    }

    /// How many events the choice has, where so many may come. They are the first of these, since the clock's is the
    /// last.
    pub(crate) fn count_choice(&self, count: u64, prompt: bool) -> u64
        requires { count ≡ length (enabled_events self.now.scenario self.now.state) }
        ensures { result ≡ length (choice self.now.scenario prompt self.now.state) }
    {
        if prompt && count > 1 && self.is_enabled(Event::Clock) {
            count - 1
        } else {
            count
        }
    }
}
